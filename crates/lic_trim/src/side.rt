//! A line on the way from its front or from its end.
ghost use Rattle.std.specs.Prelude.{◌≡◌, ◌<◌, ◌≤◌, length, slice_index, slice_range, bytes_eq};
ghost use Rattle.lic_trim.specs.Sources.{chars_of};
ghost use Rattle.lic_trim.specs.Walks.{walked};

use crate::source::SourceChar;

/// The side of a line that a way begins at.
#[derive(Clone, Copy)]
pub enum Side {
    Front,
    End,
}

/// The character at this index of the way.
pub fn char_at(line: &[SourceChar], side: Side, index: usize) -> char
    requires { index < length line.now }
    ensures { result ≡ slice_index (walked side (chars_of line.now)) index }
{
    match side {
        Side::Front => line[index].char,
        Side::End => line[line.len() - 1 - index].char,
    }
}

/// The part of a line between two indices of the way.
pub fn part(line: &[SourceChar], side: Side, from: usize, to: usize) -> &[SourceChar]
    requires order { from ≤ to }
    requires within { to ≤ length line.now }
    ensures { walked side (chars_of result.now)
        ≡ slice_range (walked side (chars_of line.now)) from to }
{
    match side {
        Side::Front => &line[from..to],
        Side::End => &line[line.len() - to..line.len() - from],
    }
}

/// Whether these are the characters of the text.
pub fn is_text(text: &[char], part: &[SourceChar]) -> bool
    ensures { result ≡ bytes_eq text.now (chars_of part.now) }
{
    if text.len() != part.len() {
        return false;
    }
    for i in 0..text.len() {
        if text[i] != part[i].char {
            return false;
        }
    }
    true
}
