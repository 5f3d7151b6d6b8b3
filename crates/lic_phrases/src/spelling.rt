//! Where canonical spelling has a blank: one between two letters of kind Word that belong to
//! different tokens, and none elsewhere.
ghost use Rattle.std.specs.Prelude.{◌≡◌, ◌∷◌, [], reverse};
ghost use Rattle.std.specs.Option.{IfNone, IfSome};
ghost use Rattle.std.specs.Str.{chars};
ghost use Rattle.lic_phrases.specs.Spelling.{begins_in_word, ends_in_word};

use lic_kind::is_word;

/// Whether a token's text begins with a letter of kind Word. Canonical spelling puts one blank
/// before such a token where the token before it ends in one (see [`ends_in_word`]), and none
/// elsewhere.
pub fn begins_in_word(text: &str) -> bool
    ensures { result ≡ begins_in_word text.now }
{
    match text.chars().next() {
        None => false,
        Some(first) => is_word(first),
    }
}

/// What is before the last character of a text, and this character.
fn split_last(text: &str) -> Option<(&str, char)>
    ensures some { IfSome result (λ parts. reverse (chars text.now)
        ≡ parts.1 ∷ reverse (chars parts.0.now)) }
    ensures none { IfNone result (reverse (chars text.now) ≡ []) }
{
    let mut chars = text.chars();
    let last = chars.next_back()?;
    Some((chars.as_str(), last))
}

/// Whether a token's text ends in a letter of kind Word. Canonical spelling puts one blank after
/// such a token where the next token begins with one (see [`begins_in_word`]), and none elsewhere.
pub fn ends_in_word(text: &str) -> bool
    ensures { result ≡ ends_in_word text.now }
{
    match split_last(text) {
        None => false,
        Some((_front, last)) => is_word(last),
    }
}
