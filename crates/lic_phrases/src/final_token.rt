//! Tokens as they are reported.

use lic_lines::SmallString;

/// The text of a token.
#[derive(Drop)]
pub enum TokenText {
    /// The token's own text.
    Own(SmallString),
    /// The spelling of this class of equivalent words.
    Class(usize),
}

/// A token after the rewriting, with its span in bytes of the input.
#[derive(Drop)]
pub struct FinalToken {
    pub text: TokenText,
    /// The first byte of its first source character.
    pub start: u32,
    /// The byte just past the end of its last source character.
    pub end: u32,
}
