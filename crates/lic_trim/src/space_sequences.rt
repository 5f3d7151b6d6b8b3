//! The longest sequence of pieces at a side of a line, which is mostly white space alone.
ghost use Rattle.std.specs.Prelude.{◌≡◌, ◌≢◌, ◌+◌, ◌<◌, ◌≤◌, ℕ, List, true, false, length, slice_index, IfOk, IfSome};
ghost use Rattle.std.specs.Char.{is_whitespace};
ghost use Rattle.lic_trim.specs.Beginnings.{BeginsWithTwo, HasBegun};
ghost use Rattle.lic_trim.specs.Sources.{chars_of};
ghost use Rattle.lic_kind.specs.LineRules.{rules_of};
ghost use Rattle.lic_trim.specs.Texts.{is_sequence, longest_front};
ghost use Rattle.lic_trim.specs.Walks.{walked, is_walked_piece};

use crate::sequences::longest_sequence;
use crate::side::{Side, char_at};
use crate::source::SourceChar;
use lic_kind::Rules;
use std::alloc::{AllocError, Global};

/// Which texts of a side may be where a way has these two characters: text i has bit i, and one of another kind another bit. Nothing is
/// said where more may be than a mask has bits for.
#[inline(always)]
pub(crate) fn begun_texts(rules: &Rules, side: Side, first: char, second: char) -> Option<u64>
    ensures { IfSome result (λ mask. (way : List ℕ) → BeginsWithTwo first second way → HasBegun (rules_of rules.now) side way mask) }
{
    match side {
        Side::Front => rules.begun_leads(first, second),
        Side::End => rules.begun_tails(first, second),
    }
}

/// The character after this index of the way, or a blank where there is none.
fn char_after(line: &[SourceChar], side: Side, index: usize) -> char
    requires { index < length line.now }
    ensures { index + 1 < length line.now → result ≡ slice_index (walked side (chars_of line.now)) (index + 1) }
{
    if line.len() - index > 1 {
        char_at(line, side, index + 1)
    } else {
        ' '
    }
}

/// How many characters on the way from a side are white space.
fn spaces(side: Side, line: &[SourceChar]) -> usize
    ensures within { result ≤ length line.now }
    ensures all { (i : ℕ) → i < result
        → is_whitespace (slice_index (walked side (chars_of line.now)) i) ≡ true }
    ensures stop { result < length line.now
        → is_whitespace (slice_index (walked side (chars_of line.now)) result) ≡ false }
{
    let mut count = 0;
    while count < line.len() && char_at(line, side, count).is_whitespace() {
        count += 1;
    }
    count
}

/// Whether three of one same character are at this index of the way.
fn three_alike(side: Side, line: &[SourceChar], index: usize) -> bool
    requires { index < length line.now }
    ensures { result ≡ false → index + 2 < length line.now
        → slice_index (walked side (chars_of line.now)) (index + 1)
        ≡ slice_index (walked side (chars_of line.now)) index
        → slice_index (walked side (chars_of line.now)) (index + 2)
        ≢ slice_index (walked side (chars_of line.now)) index }
{
    let c = char_at(line, side, index);
    line.len() - index > 2
        && char_at(line, side, index + 1) == c
        && char_at(line, side, index + 2) == c
}

/// How long the longest sequence of pieces is if it is white space alone, as far as the characters after that show.
fn space_sequence(rules: &Rules, side: Side, line: &[SourceChar]) -> Option<usize>
    ensures sequence { IfSome result (λ n. n
        ≡ longest_front (is_sequence (is_walked_piece (rules_of rules.now) side))
        (walked side (chars_of line.now))) }
    ensures within { IfSome result (λ n. n ≤ length line.now) }
{
    let count = spaces(side, line);
    if count >= line.len() {
        return Some(count);
    }
    if three_alike(side, line, count) {
        return None;
    }
    let first = char_at(line, side, count);
    let second = char_after(line, side, count);
    let begun = begun_texts(rules, side, first, second)?;
    if begun != 0 {
        return None;
    }
    Some(count)
}

/// How long the longest sequence of pieces is at this side of a line.
pub fn sequence_length(
    alloc: Global,
    rules: &Rules,
    side: Side,
    line: &[SourceChar],
) -> Result<usize, AllocError>
    ensures sequence { IfOk result (λ n. n
        ≡ longest_front (is_sequence (is_walked_piece (rules_of rules.now) side))
        (walked side (chars_of line.now))) }
    ensures within { IfOk result (λ n. n ≤ length line.now) }
{
    match space_sequence(rules, side, line) {
        Some(count) => Ok(count),
        None => longest_sequence(alloc, rules, side, line),
    }
}
