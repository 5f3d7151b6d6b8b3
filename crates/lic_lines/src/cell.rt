//! What a character is to the steps after the line rules.
use lic_trim::SourceChar;

/// A blank, a mark or a word character.
#[derive(Clone, Copy, Debug, PartialEq, Eq)]
pub enum Cell {
    Blank,
    Mark(SourceChar),
    Word(SourceChar),
}
