//! What is taken from a line of ASCII: each part is mostly decided by a few of its bytes.
ghost use Rattle.std.specs.Prelude.{◌≡◌, ◌≢◌, ◌==◌, ◌||◌, ◌+◌, ◌<◌, ◌≤◌, ◌^◌, ℕ, true, false, length, drop, slice_index, IfOk, IfSome, IsAscii, IsTrue};
ghost use Rattle.std.specs.List.{position_or_len};
ghost use Rattle.std.specs.Char.{is_whitespace, is_ascii_digit};
ghost use Rattle.lic_kind.specs.LineRules.{LineRules, rules_of};
ghost use Rattle.lic_trim.specs.Beginnings.{HasBegun};
ghost use Rattle.lic_trim.specs.Lines.{cut_of, is_item_form, item_length, whole_line};
ghost use Rattle.lic_trim.specs.Texts.{is_sequence, longest_front};
ghost use Rattle.lic_trim.specs.Spaces.{AreSpaces, HasSpaces, TakesSpaces};
ghost use Rattle.lic_trim.specs.Walks.{walked, is_walked_piece};

use crate::ascii_sequences::sequence_by_indices;
use crate::cut::LineCut;
use crate::item::{is_bullet_sign, is_roman_digit, item_length};
use crate::sequences::longest_sequence;
use crate::side::Side;
use crate::source::{SourceChar, put_source};
use crate::space_sequences::begun_texts;
use lic_kind::{Kind, Rules, kind_of};
use std::alloc::{AllocError, Global};

/// The byte at this index of the way.
#[inline(always)]
pub(crate) fn byte_at(line: &[u8], side: Side, index: usize) -> u8
    requires { index < length line.now }
    ensures { result ≡ slice_index (walked side line.now) index }
{
    match side {
        Side::Front => line[index],
        Side::End => line[line.len() - 1 - index],
    }
}

/// The byte after this index of the way, or a blank where there is none.
#[inline(always)]
pub(crate) fn byte_after(line: &[u8], side: Side, index: usize) -> u8
    requires { index < length line.now }
    ensures { index + 1 < length line.now → result ≡ slice_index (walked side line.now) (index + 1) }
{
    if line.len() - index > 1 {
        byte_at(line, side, index + 1)
    } else {
        b' '
    }
}

/// Whether this byte is white space.
#[inline(always)]
pub(crate) fn is_white(byte: u8) -> bool
    ensures { result ≡ is_whitespace byte }
{
    kind_of(byte as char) == Kind::Blank
}

/// How many bytes on the way from a side are white space.
#[inline(always)]
fn spaces(side: Side, line: &[u8]) -> usize
    ensures { AreSpaces (walked side line.now) result }
{
    let mut count = 0;
    while count < line.len() && is_white(byte_at(line, side, count)) {
        count += 1;
    }
    count
}

/// Which texts of a side may be at this index of the way: text i has bit i, and one of another kind another bit. Nothing is said where
/// more may be than a mask has bits for.
#[inline(always)]
pub(crate) fn begun_at(rules: &Rules, side: Side, line: &[u8], index: usize) -> Option<u64>
    requires { index < length line.now }
    ensures { IfSome result (λ mask. HasBegun (rules_of rules.now) side (drop index (walked side line.now)) mask) }
{
    let first = byte_at(line, side, index) as char;
    let second = byte_after(line, side, index) as char;
    begun_texts(rules, side, first, second)
}

/// Whether the longest sequence of pieces is this white space alone, as far as the two bytes after it show.
#[inline(always)]
fn is_alone(rules: &Rules, side: Side, line: &[u8], spaces: usize) -> bool
    requires { AreSpaces (walked side line.now) spaces }
    ensures { IsTrue result → spaces
        ≡ longest_front (is_sequence (is_walked_piece (rules_of rules.now) side))
        (walked side line.now) }
{
    if spaces >= line.len() {
        return true;
    }
    if byte_after(line, side, spaces) == byte_at(line, side, spaces) {
        return false;
    }
    match begun_at(rules, side, line, spaces) {
        Some(begun) => begun == 0,
        None => false,
    }
}

/// The index of the first white space, or how many bytes there are.
#[inline(always)]
fn first_space(line: &[u8]) -> usize
    ensures within { result ≤ length line.now }
    ensures index { result ≡ position_or_len is_whitespace line.now }
{
    for (index, byte) in line.iter().enumerate() {
        if is_white(*byte) {
            return index;
        }
    }
    line.len()
}

/// Whether an item of two bytes or more may end so.
fn ends_item(byte: u8) -> bool
    ensures { result ≡ ((byte == 0x2E) || (byte == 0x29) || (byte == 0x3A)) }
{
    matches!(byte, b'.' | b')' | b':')
}

/// Whether an item of seven bytes or more may begin so.
fn begins_item(byte: u8) -> bool
    ensures { result ≡ ((byte == 0x28) || is_ascii_digit byte) }
{
    byte == b'(' || byte.is_ascii_digit()
}

/// Whether this word may have the form of a list item, as far as its length, its first byte and its last show.
#[inline(always)]
fn may_be_item(word: &[u8]) -> bool
    ensures { result ≡ false → is_item_form word.now ≡ false }
{
    if word.is_empty() {
        return false;
    }
    if word.len() < 2 {
        return is_bullet_sign(word[0] as char);
    }
    if !ends_item(word[word.len() - 1]) {
        return false;
    }
    if word.len() < 7 {
        return true;
    }
    begins_item(word[0])
}

/// Whether the second byte of a line is a letter that no list item has there. Such a letter is a Roman digit, or comes after a
/// parenthesis.
#[inline(always)]
fn has_word_letter(line: &[u8]) -> bool
    ensures { IsTrue result → (rules : LineRules) → item_length rules line.now ≡ 0 }
{
    if line.len() < 2 {
        return false;
    }
    if line[0] == b'(' {
        return false;
    }
    let second = line[1] as char;
    second.is_ascii_alphabetic() && !is_roman_digit(second)
}

/// Whether a line, whose lead is taken already, begins with no list item, as far as its first word shows.
#[inline(always)]
fn has_no_item(line: &[u8]) -> bool
    ensures { IsTrue result → (rules : LineRules) → item_length rules line.now ≡ 0 }
{
    if has_word_letter(line) {
        return true;
    }
    let end = first_space(line);
    end >= line.len() || !may_be_item(&line[..end])
}

/// What is taken at a side of a line.
#[derive(Clone, Copy)]
struct Edge {
    /// How much white space it begins with, on the way from this side.
    spaces: usize,
    length: usize,
}

/// The longest sequence of pieces that is at this side of a line: mostly it is white space alone, or a few texts and white space. The
/// characters are a buffer for those of the line, whatever they hold.
#[inline(always)]
fn edge_of_ascii(
    alloc: Global,
    rules: &Rules,
    side: Side,
    line: &[u8],
    characters: &mut Vec<SourceChar>,
) -> Result<Edge, AllocError>
    requires ascii { IsAscii line.now }
    requires fits { length line.now < 2 ^ 32 }
    ensures spaces { IfOk result (λ edge. AreSpaces (walked side line.now) edge.spaces) }
    ensures sequence { IfOk result (λ edge. edge.length
        ≡ longest_front (is_sequence (is_walked_piece (rules_of rules.now) side))
        (walked side line.now)) }
    ensures order { IfOk result (λ edge. edge.spaces ≤ edge.length) }
    ensures within { IfOk result (λ edge. edge.length ≤ length line.now) }
{
    let spaces = spaces(side, line);
    if is_alone(rules, side, line, spaces) {
        return Ok(Edge {
            spaces,
            length: spaces,
        });
    }
    if let Some(length) = sequence_by_indices(rules, side, line, spaces) {
        return Ok(Edge { spaces, length });
    }
    put_source(characters, 0, line)?;
    let length = longest_sequence(alloc, rules, side, characters)?;
    Ok(Edge { spaces, length })
}

/// How long the list item is at the start of a line, whose lead is taken already: mostly there is none. The characters are
/// a buffer for those of the line, whatever they hold.
#[inline(always)]
fn item_of_ascii(
    rules: &Rules,
    line: &[u8],
    characters: &mut Vec<SourceChar>,
) -> Result<usize, AllocError>
    requires ascii { IsAscii line.now }
    requires fits { length line.now < 2 ^ 32 }
    ensures item { IfOk result (λ n. n ≡ item_length (rules_of rules.now) line.now) }
    ensures within { IfOk result (λ n. n ≤ length line.now) }
{
    if has_no_item(line) {
        return Ok(0);
    }
    put_source(characters, 0, line)?;
    Ok(item_length(rules, characters, None))
}

/// Whether all that is taken from a whole line of ASCII is white space, as far as a few of its bytes show.
#[inline(always)]
pub fn takes_spaces(rules: &Rules, line: &[u8]) -> bool
    ensures { result ≡ true → TakesSpaces (cut_of (rules_of rules.now) whole_line line.now) line.now }
{
    let lead = spaces(Side::Front, line);
    if !is_alone(rules, Side::Front, line, lead) {
        return false;
    }
    let rest = &line[lead..];
    if !has_no_item(rest) {
        return false;
    }
    let tail = spaces(Side::End, rest);
    is_alone(rules, Side::End, rest, tail)
}

/// What is taken from a line of ASCII, and how much white space it begins and ends with.
#[derive(Clone, Copy)]
pub struct AsciiCut {
    pub cut: LineCut,
    /// How much white space the lead begins with.
    pub front: usize,
    /// How much white space the tail ends with.
    pub end: usize,
}

/// What is taken from a whole line of ASCII, with the white space that it begins and ends with. The characters are a buffer for those of
/// the line, whatever they hold.
///
/// The error is that memory ran out.
#[inline(always)]
pub fn cut_with_spaces(
    alloc: Global,
    rules: &Rules,
    line: &[u8],
    characters: &mut Vec<SourceChar>,
) -> Result<AsciiCut, AllocError>
    requires ascii { IsAscii line.now }
    requires fits { length line.now < 2 ^ 32 }
    ensures cut { IfOk result (λ found. found.cut ≡ cut_of (rules_of rules.now) whole_line line.now) }
    ensures within { IfOk result (λ found. found.cut.lead + found.cut.item + found.cut.tail ≤ length line.now) }
    ensures spaces { IfOk result (λ found. HasSpaces found.cut found.front found.end line.now) }
{
    let lead = edge_of_ascii(alloc, rules, Side::Front, line, characters)?;
    let rest = &line[lead.length..];
    let item = item_of_ascii(rules, rest, characters)?;
    let left = &rest[item..];
    let tail = edge_of_ascii(alloc, rules, Side::End, left, characters)?;
    let cut = LineCut {
        lead: lead.length,
        item,
        tail: tail.length,
    };
    Ok(AsciiCut {
        cut,
        front: lead.spaces,
        end: tail.spaces,
    })
}

/// What is taken from a whole line of ASCII. The characters are a buffer for those of the line, whatever they hold.
///
/// The error is that memory ran out.
pub fn cut_of_ascii(
    alloc: Global,
    rules: &Rules,
    line: &[u8],
    characters: &mut Vec<SourceChar>,
) -> Result<LineCut, AllocError>
    requires ascii { IsAscii line.now }
    requires fits { length line.now < 2 ^ 32 }
    ensures cut { IfOk result (λ cut. cut ≡ cut_of (rules_of rules.now) whole_line line.now) }
    ensures within { IfOk result (λ cut. cut.lead + cut.item + cut.tail ≤ length line.now) }
{
    let found = cut_with_spaces(alloc, rules, line, characters)?;
    Ok(found.cut)
}
