//! Laws of texts and of source characters, each the contract of a function that does nothing.

ghost use Rattle.std.specs.Prelude.{◌≡◌, ◌↔◌, ℕ, List, IsUtf8, chars};
ghost use Rattle.lic_trim.specs.Sources.{placed};
ghost use Rattle.lic_trim.specs.declared.source.SourceChar.{SourceChar};
ghost use Rattle.lic_norm.specs.Sources.{AreSourceChars, source_of};

pub use crate::text::{tokens_are_token_texts, tokens_are_utf8, tokens_have_spans};

/// The source characters of an input are those that are read from its front, and no others: a UTF-8 character where one
/// begins, and U+FFFD for one byte where none begins.
pub fn source_characters_are_read_from_the_front()
    ensures { (at : ℕ) (bytes : List ℕ) (source : List SourceChar)
        → AreSourceChars at bytes source ↔ (source ≡ source_of at bytes) }
{}

/// The source characters of an input in UTF-8 are its characters.
pub fn source_characters_of_utf8_are_its_characters()
    ensures { (at : ℕ) (text : List ℕ) → IsUtf8 text → source_of at text ≡ placed at (chars text) }
{}
