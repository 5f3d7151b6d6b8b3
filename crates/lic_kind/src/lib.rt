//! The kind of a character, and the letters that it is compared as; the line rules (this project's profile).
#![tactic(auto)]

ghost use Rattle.std.specs.Prelude.{◌≡◌};
ghost use Rattle.lic_kind.specs.Kinds.{kind_of, is_word_kind};
ghost use Rattle.lic_kind.specs.Ranges.{is_far_word};

mod latin;
pub mod laws;
mod letters;
mod rule_kind;
mod rule_text;
mod rules;
mod rules_fault;
mod tables;
mod texts;
mod word_letters;

use latin::latin_kind;
pub use letters::{mark_letter, spell};
pub use rule_kind::RuleKind;
pub use rules::Rules;
pub use rules_fault::{RulesCause, RulesFault};
pub use tables::{is_bullet, is_dash, is_dropped, is_quote};
pub use texts::Texts;
pub use word_letters::word_letter;

/// What a character is to the scanner.
#[derive(Clone, Copy, Debug, PartialEq, Eq)]
pub enum Kind {
    /// White space, `char::is_whitespace`.
    Blank,
    /// Taken out of the text: it has no letter, and does not separate what is beside it.
    Dropped,
    /// A sign of punctuation, a token by itself.
    Mark,
    /// All other characters: letters, digits, symbols and control characters.
    Word,
}

/// The kind of a character as it is in the text, before folding (this project's profile).
#[inline(always)]
pub fn kind_of(c: char) -> Kind
    ensures { result ≡ kind_of c }
{
    if c <= '\u{FF}' {
        latin_kind(c)
    } else {
        other_kind(c)
    }
}

/// Whether the character is a letter of words: one of kind `Word` (this project's profile). Between two of
/// them a gap is written as a blank at least.
#[inline(always)]
pub fn is_word(c: char) -> bool
    ensures { result ≡ is_word_kind (kind_of c) }
{
    kind_of(c) == Kind::Word
}

/// Whether the character is of a range in which all are word characters.
#[inline(always)]
fn is_far_word(c: char) -> bool
    ensures { result ≡ is_far_word c }
{
    matches!(c, '\u{100}'..='\u{167F}' | '\u{3001}'..='\u{FE57}')
}

/// The kind of any character, mostly by its range.
#[inline(never)]
fn other_kind(c: char) -> Kind
    ensures { result ≡ kind_of c }
{
    if is_far_word(c) {
        return Kind::Word;
    }
    table_kind(c)
}

/// The kind of any character, by the tables.
#[tactic(auto, unfolding(crate::specs::Kinds::kind_of))]
fn table_kind(c: char) -> Kind
    ensures { result ≡ kind_of c }
{
    if is_dropped(c) {
        Kind::Dropped
    } else if c.is_whitespace() {
        Kind::Blank
    } else if tables::is_mark(c) {
        Kind::Mark
    } else {
        Kind::Word
    }
}
