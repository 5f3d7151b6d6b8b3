//! The longest sequence of pieces at a side of a line of ASCII, from one index where a sequence ends to the next.
ghost use Rattle.std.specs.Prelude.{◌≡◌, ◌≢◌, ◌+◌, ◌-◌, ◌^◌, ◌<◌, ◌≤◌, ◌&&◌, ◌||◌, ◌==◌, ℕ, suc, true, false, if◌then◌else◌, [], IfSome, IsTrue, List};
ghost use Rattle.std.specs.Prelude.{nat_le, nat_lt, length, take, drop, reverse, slice_index, slice_index_or};
ghost use Rattle.std.specs.Char.{is_whitespace};
ghost use Rattle.std.specs.List.{list_any};
ghost use Rattle.lic_kind.specs.LineRules.{texts_of, rules_of};
ghost use Rattle.lic_trim.specs.Beginnings.{HasBegun, HasBits};
ghost use Rattle.lic_trim.specs.Leaps.{IsLongStreak, IsLeap};
ghost use Rattle.lic_trim.specs.PieceLengths.{has_bit, begins_with_length, begins_with_separator, begins_with_spaced, continues, AreLengths};
ghost use Rattle.lic_trim.specs.Spaces.{AreSpaces};
ghost use Rattle.lic_trim.specs.Texts.{is_sequence, longest_front};
ghost use Rattle.lic_trim.specs.Walks.{walked, is_walked_piece, side_texts, side_repeated};
ghost use Rattle.lic_trim.specs.Walks.{End};

use crate::ascii_cut::{begun_at, byte_after, byte_at, is_white};
use crate::ascii_texts::occurs;
use crate::sequences::{is_mark, reach, side_spaced, side_texts};
use crate::side::Side;
use crate::space_sequences::begun_texts;
use lic_kind::{RuleKind, Rules, Texts};

/// The longest text whose length is given by a bit, and as many texts as are looked for by bits.
const LONGEST: usize = 62;

/// The longest separator. A longer one is walked over once, and not from each of its indices.
const LONGEST_SEPARATOR: usize = 16;

/// The shortest separator.
const SHORTEST_SEPARATOR: usize = 3;

/// Bit 1 where the byte is white space, which is a piece by itself.
#[inline(always)]
fn space_length(byte: u8) -> u64
    ensures { (n : ℕ) → has_bit result n ≡ (is_whitespace byte && (n == 1)) }
{
    if is_white(byte) { 2 } else { 0 }
}

/// Adds bit n where this text of n characters comes after this index of the way. Nothing is said where it is very long.
#[inline(always)]
fn with_text(mask: u64, side: Side, text: &[char], line: &[u8], index: usize) -> Option<u64>
    requires { index ≤ length line.now }
    ensures { IfSome result (λ new. (n : ℕ) → has_bit new n
        ≡ (has_bit mask n || begins_with_length n (drop index (walked side line.now)) (walked side text.now))) }
{
    if !occurs(side, text, line, index) {
        return Some(mask);
    }
    if text.len() > LONGEST {
        return None;
    }
    Some(mask | 1 << text.len())
}

/// Adds bit n where the text of this number, if there is one, has n characters and comes after this index of the way.
#[inline(always)]
fn with_number(
    mask: u64,
    side: Side,
    texts: &Texts,
    i: usize,
    line: &[u8],
    index: usize,
) -> Option<u64>
    requires { index ≤ length line.now }
    ensures { IfSome result (λ new. (n : ℕ) → has_bit new n
        ≡ (has_bit mask n || (nat_lt i (length (texts_of texts.now))
        && begins_with_length n (drop index (walked side line.now)) (walked side (slice_index_or (texts_of texts.now) i []))))) }
{
    if i >= texts.len() {
        return Some(mask);
    }
    with_text(mask, side, texts.characters(i), line, index)
}

/// The lengths of the texts that come after this index of the way, which may be those with a bit.
#[inline(always)]
fn text_lengths(begun: u64, side: Side, texts: &Texts, line: &[u8], index: usize) -> Option<u64>
    requires inside { index ≤ length line.now }
    requires begun { HasBits begun side (drop index (walked side line.now)) (texts_of texts.now) }
    ensures { IfSome result (λ mask. (n : ℕ) → has_bit mask n
        ≡ list_any (λ t. begins_with_length n (drop index (walked side line.now)) (walked side t)) (texts_of texts.now)) }
{
    let mut mask = 0u64;
    let mut left = begun;
    while left != 0 {
        let lowest = left.trailing_zeros() as usize;
        mask = with_number(mask, side, texts, lowest, line, index)?;
        left &= left - 1;
    }
    Some(mask)
}

/// Whether white space is at this index of the way.
#[inline(always)]
fn is_space_at(side: Side, line: &[u8], index: usize) -> bool
    ensures { result ≡ is_whitespace (slice_index (walked side line.now) index) }
{
    if index >= line.len() {
        return false;
    }
    is_white(byte_at(line, side, index))
}

/// Adds bit n where this text and a white space character, n characters in all, come after this index of the way. Nothing
/// is said where the text is very long.
#[inline(always)]
fn with_spaced(mask: u64, side: Side, text: &[char], line: &[u8], index: usize) -> Option<u64>
    requires { index ≤ length line.now }
    ensures { IfSome result (λ new. (n : ℕ) → has_bit new n
        ≡ (has_bit mask n || begins_with_spaced n (drop index (walked side line.now)) (walked side text.now))) }
{
    if !occurs(side, text, line, index) {
        return Some(mask);
    }
    if text.len() > LONGEST {
        return None;
    }
    if !is_space_at(side, line, index + text.len()) {
        return Some(mask);
    }
    Some(mask | 1 << (text.len() + 1))
}

/// The lengths of the texts that come after this index of the way with one white space character after them.
#[inline(always)]
fn spaced_lengths(side: Side, texts: &Texts, line: &[u8], index: usize) -> Option<u64>
    requires { index ≤ length line.now }
    ensures { IfSome result (λ mask. (n : ℕ) → has_bit mask n
        ≡ list_any (λ t. begins_with_spaced n (drop index (walked side line.now)) (walked side t)) (texts_of texts.now)) }
{
    let mut mask = 0u64;
    for i in 0..texts.len() {
        mask = with_spaced(mask, side, texts.characters(i), line, index)?;
    }
    Some(mask)
}

/// Whether a text comes after this index on the way from a line's end, and its first character once more.
#[inline(always)]
fn continues(text: &[char], line: &[u8], index: usize) -> bool
    requires { index ≤ length line.now }
    ensures { result ≡ false → continues (drop index (walked End line.now)) text.now ≡ false }
{
    if text.is_empty() {
        return false;
    }
    if !occurs(Side::End, text, line, index) {
        return false;
    }
    if text.len() >= line.len() - index {
        return false;
    }
    byte_at(line, Side::End, index + text.len()) as char == text[0]
}

/// Whether one of these texts does.
#[inline(always)]
fn any_continues(texts: &Texts, line: &[u8], index: usize) -> bool
    requires { index ≤ length line.now }
    ensures { result ≡ false → list_any (continues (drop index (walked End line.now))) (texts_of texts.now) ≡ false }
{
    for i in 0..texts.len() {
        if continues(texts.characters(i), line, index) {
            return true;
        }
    }
    false
}

/// The lowest bits.
#[inline(always)]
fn below(count: usize) -> u64
    requires { count < 64 }
    ensures { result ≡ 2 ^ count - 1 }
{
    (1 << count) - 1
}

/// The lengths of the texts that repeat their first character and are here once. Nothing is said where one repeats it.
#[inline(always)]
fn repeated_lengths(rules: &Rules, side: Side, line: &[u8], index: usize) -> Option<u64>
    requires { index ≤ length line.now }
    ensures mask { IfSome result (λ mask. (n : ℕ) → has_bit mask n
        ≡ list_any (λ t. begins_with_length n (drop index (walked side line.now)) (reverse t))
        (side_repeated (rules_of rules.now) side)) }
    ensures once { IfSome result (λ _. list_any (continues (drop index (walked side line.now)))
        (side_repeated (rules_of rules.now) side) ≡ false) }
{
    match side {
        Side::Front => Some(0),
        Side::End => {
            let texts = rules.texts(RuleKind::TailRepeat);
            if any_continues(texts, line, index) {
                return None;
            }
            let count = texts.len();
            if count > LONGEST {
                return None;
            }
            let all = below(count);
            Some(text_lengths(all, Side::End, texts, line, index)?)
        }
    }
}

/// How many of one same byte are at this index of the way and right after it.
#[inline(always)]
fn streak_length(side: Side, line: &[u8], index: usize) -> usize
    requires { index < length line.now }
    ensures within { index + result ≤ length line.now }
    ensures same { (i : ℕ) → i < result
        → slice_index (walked side line.now) (index + i) ≡ slice_index (walked side line.now) index }
    ensures stop { index + result < length line.now
        → slice_index (walked side line.now) (index + result) ≢ slice_index (walked side line.now) index }
{
    let byte = byte_at(line, side, index);
    let mut count = 1;
    while count < line.len() - index && byte_at(line, side, index + count) == byte {
        count += 1;
    }
    count
}

/// The lengths of the separators that come after this index of the way. Nothing is said where one is very long.
#[inline(always)]
fn separator_lengths(rules: &Rules, side: Side, line: &[u8], index: usize) -> Option<u64>
    requires { index < length line.now }
    ensures { IfSome result (λ mask. (n : ℕ) → has_bit mask n
        ≡ begins_with_separator (rules_of rules.now).separators n (drop index (walked side line.now))) }
{
    if byte_after(line, side, index) != byte_at(line, side, index) {
        return Some(0);
    }
    if !rules.separators() {
        return Some(0);
    }
    if !is_mark(byte_at(line, side, index) as char) {
        return Some(0);
    }
    let streak = streak_length(side, line, index);
    if streak < SHORTEST_SEPARATOR {
        return Some(0);
    }
    if streak > LONGEST_SEPARATOR {
        return None;
    }
    Some((1 << (streak + 1)) - (1 << SHORTEST_SEPARATOR))
}

/// The lengths of the pieces that come after this index of the way. Nothing is said where that takes more than a look.
#[inline(always)]
fn piece_lengths(rules: &Rules, side: Side, line: &[u8], index: usize) -> Option<u64>
    requires { index < length line.now }
    ensures { IfSome result (λ mask. AreLengths (rules_of rules.now) side (drop index (walked side line.now)) mask) }
{
    let space = space_length(byte_at(line, side, index));
    let separators = separator_lengths(rules, side, line, index)?;
    let begun = begun_at(rules, side, line, index)?;
    if begun == 0 {
        return Some(space | separators);
    }
    let texts = text_lengths(begun, side, side_texts(rules, side), line, index)?;
    let spaced = spaced_lengths(side, side_spaced(rules, side), line, index)?;
    let repeated = repeated_lengths(rules, side, line, index)?;
    Some(((space | separators) | texts) | (spaced | repeated))
}

/// Where sequences end from the next index on, bit by bit, given where they end from this index of the way on: one does here.
#[inline(always)]
fn next_ends(rules: &Rules, side: Side, line: &[u8], at: usize, ends: u64) -> Option<u64>
    requires inside { at < length line.now }
    requires here { has_bit ends 0 ≡ true }
    ensures { IfSome result (λ next. (d : ℕ) → has_bit next d
        ≡ (has_bit ends (suc d) || (has_bit ends 0
        && (nat_le (suc d) (length (drop at (walked side line.now)))
        && is_walked_piece (rules_of rules.now) side (take (suc d) (drop at (walked side line.now))))))) }
{
    let lengths = piece_lengths(rules, side, line, at)?;
    Some((ends | lengths) / 2)
}

/// How many indices further the first sequence ends, and where sequences end from there on.
#[inline(always)]
fn first_end(ends: u64) -> (usize, u64)
    requires { 0 < ends }
    ensures here { has_bit result.1 0 ≡ true }
    ensures rest { (d : ℕ) → has_bit result.1 d ≡ has_bit ends (result.0 + d) }
    ensures none { (d : ℕ) → d < result.0 → has_bit ends d ≡ false }
{
    let step = ends.trailing_zeros();
    (step as usize, ends >> step)
}

/// Whether no text of this side begins in white space.
#[inline(always)]
fn begins_in_no_space(rules: &Rules, side: Side) -> bool
    ensures { IsTrue result → (way : List ℕ) → is_whitespace (slice_index way 0) ≡ true → HasBegun (rules_of rules.now) side way 0 }
{
    match begun_texts(rules, side, ' ', ' ') {
        Some(begun) => begun == 0,
        None => false,
    }
}

/// How many of one same mark are here, where these are a separator whose length no bit gives.
#[inline(always)]
fn long_streak(rules: &Rules, side: Side, line: &[u8], at: usize) -> Option<usize>
    requires { at < length line.now }
    ensures { IfSome result (λ count. IsLongStreak (rules_of rules.now) (walked side line.now) at count) }
{
    if byte_after(line, side, at) != byte_at(line, side, at) {
        return None;
    }
    if !rules.separators() {
        return None;
    }
    if !is_mark(byte_at(line, side, at) as char) {
        return None;
    }
    let streak = streak_length(side, line, at);
    if streak <= LONGEST_SEPARATOR {
        return None;
    }
    Some(streak)
}

/// Where a long separator is here, an index near its end, and where sequences end from there on: at as many of its last indices as a text
/// can lead out of it from, and at the index after them. Nothing is said where a sequence ends further on than here.
#[inline(always)]
fn leap(rules: &Rules, side: Side, line: &[u8], at: usize, ends: u64) -> Option<(usize, u64)>
    requires { at < length line.now }
    ensures one { IfSome result (λ _. ends ≡ 1) }
    ensures leap { IfSome result (λ next. IsLeap (rules_of rules.now) side (walked side line.now) at next.0 next.1) }
{
    if ends != 1 {
        return None;
    }
    let streak = long_streak(rules, side, line, at)?;
    let reach = reach(rules, side);
    if reach >= LONGEST {
        return None;
    }
    if streak - SHORTEST_SEPARATOR <= reach {
        return None;
    }
    Some((at + (streak - reach - 1), below(reach + 2)))
}

/// How long the longest sequence of pieces is at this side of a line, which has this much white space there. Nothing is said where that
/// takes more than looks at the indices where sequences end.
#[inline(always)]
pub(crate) fn sequence_by_indices(
    rules: &Rules,
    side: Side,
    line: &[u8],
    spaces: usize,
) -> Option<usize>
    requires { AreSpaces (walked side line.now) spaces }
    ensures { IfSome result (λ n. n
        ≡ longest_front (is_sequence (is_walked_piece (rules_of rules.now) side))
        (walked side line.now)) }
{
    if !begins_in_no_space(rules, side) {
        return None;
    }
    let mut at = spaces;
    let mut ends = 1u64;
    while at < line.len() {
        if ends == 1 && is_space_at(side, line, at) {
            at += 1;
            continue;
        }
        if let Some(next) = next_ends(rules, side, line, at, ends) {
            if next == 0 {
                return Some(at);
            }
            let (step, rest) = first_end(next);
            at += 1 + step;
            ends = rest;
        } else {
            let (far, all) = leap(rules, side, line, at, ends)?;
            at = far;
            ends = all;
        }
    }
    Some(at)
}
