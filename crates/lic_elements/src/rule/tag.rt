//! Where a rule begins.
ghost use Rattle.std.specs.Prelude.{◌≡◌, ℕ, length, drop};
ghost use Rattle.std.specs.Option.{option_map};
ghost use Rattle.lic_ere.specs.Located.{with_remaining};
ghost use Rattle.lic_elements.specs.Pieces.{characters};
ghost use Rattle.lic_elements.specs.Rules.{word_at, tag_of, tag_at};
ghost use Rattle.lic_elements.specs.Signs.{less};

use crate::piece::Piece;
use crate::texts::begins_with;

/// What a rule is.
#[derive(Clone, Copy, Debug)]
pub enum Tag {
    Var,
    BeginOptional,
    EndOptional,
}

/// The tag that a word is.
fn tag_of(word: &str) -> Option<Tag>
    ensures { result ≡ tag_of word.now }
{
    match word {
        "var" => Some(Tag::Var),
        "beginOptional" => Some(Tag::BeginOptional),
        "endOptional" => Some(Tag::EndOptional),
        _ => None,
    }
}

/// The ASCII letters and digits that the text begins with, and what follows them.
fn split_word(all: Piece<'_>) -> (Piece<'_>, Piece<'_>)
    ensures word { characters result.0 ≡ word_at (characters all.entry) }
    ensures following { characters result.1
        ≡ drop (length (word_at (characters all.entry))) (characters all.entry) }
{
    let mut rest = all;
    while let Some((first, after)) = rest.split_first() {
        if !first.1.is_ascii_alphanumeric() {
            return (all.up_to(rest), rest);
        }
        rest = after;
    }
    (all, rest)
}

/// The tag of the rule that begins with a `<`, if one does, and what follows the tag; given what follows the `<`.
#[tactic(auto, unfolding(crate::specs::Rules::tag_at))]
pub fn read_tag(rest: Piece<'_>) -> Option<(Tag, Piece<'_>)>
    ensures { (offset : ℕ) → option_map (λ x. (x.0, characters x.1)) result
        ≡ option_map (with_remaining (characters rest.entry))
        (tag_at (offset, less) (characters rest.entry)) }
{
    if !begins_with(rest, '<') {
        return None;
    }
    let (word, after) = split_word(rest.without_first());
    let tag = tag_of(word.as_str())?;
    Some((tag, after))
}
