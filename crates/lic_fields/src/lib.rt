//! Fields of an output line: texts with some bytes escaped, and decimal numbers.
#![tactic(auto)]

ghost use Rattle.std.specs.Prelude.{◌≡◌, ◌≢◌, ◌<◌, ◌≤◌, ◌+◌, ◌++◌, [], ◌∷◌, false, true, OnOk, MatchOption, Some, decimal, drop, encode_utf8, length, slice_index, slice_range, take};
ghost use Rattle.std.specs.Fmt.{WritesOnOk};
ghost use Rattle.lic_fields.specs.Fields.{ArePlain, escaped_byte, escaped, field};

mod last_digits;
mod line_buffer;
mod line_front;
mod line_pattern;
mod thousand;

use itoa::{Buffer, write_digits};
pub use line_buffer::LineBuffer;
pub use line_front::LineFront;
pub use line_pattern::{LINE_ROOM, LinePattern, TEXT_ROOM};
use std::alloc::AllocError;
use std::fmt;

/// How many bytes are looked at together.
const BLOCK: usize = 64;

/// The most bytes of two numbers: 20 digits each, and a mark after it.
pub(crate) const TWO_NUMBERS: usize = 42;

/// The most bytes of four numbers.
const FOUR_NUMBERS: usize = 84;

/// How a byte is written that a field must not have: a backslash, a line feed, a carriage return or a tab. None for any
/// other byte.
fn escape_of(byte: u8) -> Option<&'static str>
    ensures { MatchOption result
        (escaped_byte byte ≡ byte ∷ [])
        (λ text. (escaped_byte byte ≡ text.now) × (length text.now ≡ 2)) }
{
    match byte {
        b'\\' => Some("\\\\"),
        b'\n' => Some("\\n"),
        b'\r' => Some("\\r"),
        b'\t' => Some("\\t"),
        _ => None,
    }
}

/// Whether a field has this byte as it is.
fn is_plain(byte: u8) -> bool
    ensures plain { result ≡ true → escaped_byte byte ≡ byte ∷ [] }
    ensures changed { result ≡ false → escaped_byte byte ≢ byte ∷ [] }
{
    escape_of(byte).is_none()
}

/// Whether a byte has to be looked at one by one: a backslash, and the bytes up to a carriage return, of which a tab and a line
/// feed are two. All others are unchanged in a field.
#[inline(always)]
fn may_be_escaped(byte: u8) -> bool
    ensures { result ≡ false → escaped_byte byte ≡ byte ∷ [] }
{
    (byte <= b'\r') | (byte == b'\\')
}

/// Whether one of these bytes has to be looked at. Most texts have none, so all are tested without a branch.
#[inline(always)]
fn has_escaped(bytes: &[u8]) -> bool
    ensures { result ≡ false → ArePlain bytes.now }
{
    let mut found = false;
    for byte in bytes {
        found = found | may_be_escaped(*byte);
    }
    found
}

/// Goes on from `from` by 64 bytes, while none of them has to be looked at.
#[inline(never)]
fn plain_blocks(bytes: &[u8], from: usize) -> usize
    requires { from ≤ length bytes.now }
    ensures order { (from ≤ result) × (result ≤ length bytes.now) }
    ensures plain { ArePlain (slice_range bytes.now from result) }
{
    let mut at = from;
    while bytes.len() - at >= BLOCK && !has_escaped(&bytes[at..at + BLOCK]) {
        at += BLOCK;
    }
    at
}

/// The offset of the first byte from `from` on that a field must not have as it is; the length where there is none.
pub fn next_escaped(bytes: &[u8], from: usize) -> usize
    requires { from ≤ length bytes.now }
    ensures order { (from ≤ result) × (result ≤ length bytes.now) }
    ensures plain { ArePlain (slice_range bytes.now from result) }
    ensures found { result < length bytes.now
        → escaped_byte (slice_index bytes.now result) ≢ slice_index bytes.now result ∷ [] }
{
    let mut at = plain_blocks(bytes, from);
    while at < bytes.len() && is_plain(bytes[at]) {
        at += 1;
    }
    at
}

fn add_escaped_byte(line: &mut Vec<u8>, byte: u8) -> Result<(), AllocError>
    ensures { OnOk result (line.new.items ≡ line.old.items ++ escaped_byte byte) }
{
    match escape_of(byte) {
        Some(text) => line.extend_from_slice(text.as_bytes())?,
        None => line.push(byte)?,
    }
    Ok(())
}

/// Adds these bytes as a field has them, byte by byte.
fn add_each_escaped(line: &mut Vec<u8>, bytes: &[u8]) -> Result<(), AllocError>
    ensures { OnOk result (line.new.items ≡ line.old.items ++ escaped bytes.now) }
{
    for byte in bytes {
        add_escaped_byte(line, *byte)?;
    }
    Ok(())
}

/// Adds these bytes as a field has them: mostly unchanged.
fn add_escaped(line: &mut Vec<u8>, bytes: &[u8]) -> Result<(), AllocError>
    ensures { OnOk result (line.new.items ≡ line.old.items ++ escaped bytes.now) }
{
    if has_escaped(bytes) {
        return add_each_escaped(line, bytes);
    }
    line.extend_from_slice(bytes)
}

/// Adds a text as a field, and the tab or the line end after it.
///
/// A backslash is written `\\`, a line feed `\n`, a carriage return `\r` and a tab `\t`; all other bytes
/// are unchanged.
pub fn add_text(line: &mut Vec<u8>, bytes: &[u8], mark: u8) -> Result<(), AllocError>
    ensures { OnOk result (line.new.items ≡ line.old.items ++ field (escaped bytes.now) mark) }
{
    add_escaped(line, bytes)?;
    line.push(mark)?;
    Ok(())
}

/// Adds a number as a field in decimal digits, and the tab or the line end after it.
pub fn add_number(line: &mut Vec<u8>, n: u64, mark: u8) -> Result<(), AllocError>
    ensures { OnOk result (line.new.items ≡ line.old.items ++ field (decimal n) mark) }
{
    let mut buffer = Buffer::new();
    line.extend_from_slice(buffer.format(n).as_bytes())?;
    line.push(mark)?;
    Ok(())
}

/// Writes a number and the mark after it so that they end at `end`, and answers where they start.
#[inline(always)]
pub(crate) fn write_number(buffer: &mut [u8], end: usize, n: u64, mark: u8) -> usize
    requires { (21 ≤ end) × (end ≤ length buffer.old) }
    ensures start { (end ≤ result + 21) × (result ≤ end) }
    ensures digits { result + length (decimal n) + 1 ≡ end }
    ensures written { drop result buffer.new ≡ field (decimal n) mark ++ drop end buffer.old }
    ensures len { length buffer.new ≡ length buffer.old }
{
    buffer[end - 1] = mark;
    write_digits(n, buffer, end - 1)
}

/// Adds two numbers as fields, a tab after each. They are written from the last to the first, and added at once.
pub fn add_two_numbers(line: &mut Vec<u8>, first: u64, second: u64) -> Result<(), AllocError>
    ensures { OnOk result (line.new.items
        ≡ line.old.items ++ (field (decimal first) 0x09 ++ field (decimal second) 0x09)) }
{
    let mut buffer = [0; TWO_NUMBERS];
    let at = write_number(&mut buffer, TWO_NUMBERS, second, b'\t');
    let at = write_number(&mut buffer, at, first, b'\t');
    line.extend_from_slice(&buffer[at..])
}

/// Adds four numbers as the last fields of a line, and the line end. They are written from the last to the first, and added at
/// once.
pub fn add_last_numbers(
    line: &mut Vec<u8>,
    first: u64,
    second: u64,
    third: u64,
    fourth: u64,
) -> Result<(), AllocError>
    ensures { OnOk result (line.new.items ≡ line.old.items
        ++ (field (decimal first) 0x09 ++ (field (decimal second) 0x09
        ++ (field (decimal third) 0x09 ++ field (decimal fourth) 0x0A)))) }
{
    let mut buffer = [0; FOUR_NUMBERS];
    let at = write_number(&mut buffer, FOUR_NUMBERS, fourth, b'\n');
    let at = write_number(&mut buffer, at, third, b'\t');
    let at = write_number(&mut buffer, at, second, b'\t');
    let at = write_number(&mut buffer, at, first, b'\t');
    line.extend_from_slice(&buffer[at..])
}

/// A name as it is shown in messages: written as in a field.
#[derive(Clone, Copy, Debug)]
pub struct Escaped<'a>(pub &'a str);

/// How a character is written that a field must not have.
fn escape_of_char(c: char) -> Option<&'static str>
    ensures { MatchOption result
        (escaped (encode_utf8 c) ≡ encode_utf8 c) (λ text. escaped (encode_utf8 c) ≡ text.now) }
{
    if c.is_ascii() {
        escape_of(c as u8)
    } else {
        None
    }
}

/// Writes a character as a field has it.
fn write_escaped<W: fmt::Write>(f: &mut fmt::Formatter<W>, c: char) -> fmt::Result
    ensures { WritesOnOk W.write_str_gives f.old result (escaped (encode_utf8 c)) f.new }
{
    match escape_of_char(c) {
        Some(text) => f.write_str(text),
        None => f.write_char(c),
    }
}

impl fmt::Display for Escaped<'_> {
    ghost output = { λ name. Some (escaped name.0.now) };

    fn fmt<W: fmt::Write>(&self, f: &mut fmt::Formatter<W>) -> fmt::Result {
        for c in self.0.chars() {
            write_escaped(f, c)?;
        }
        Ok(())
    }
}
