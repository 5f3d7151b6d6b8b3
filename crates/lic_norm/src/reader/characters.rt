//! Source characters of an input of any bytes.
ghost use Rattle.std.specs.Prelude.{◌≡◌, ◌+◌, ◌++◌, ◌<◌, ◌≤◌, ◌^◌, length, take, drop, not, IfOk, OnOk};
ghost use Rattle.std.specs.Char.{len_utf8};
ghost use Rattle.std.specs.Str.{chars, StartsWithNoChar};
ghost use Rattle.lic_kind.specs.Kinds.{is_dropped};
ghost use Rattle.lic_trim.specs.Sources.{placed, without_dropped};
ghost use Rattle.lic_norm.specs.Sources.{source_of};

use lic_kind::is_dropped;
use lic_trim::SourceChar;
use simdutf8::compat::from_utf8;
use std::alloc::AllocError;

/// How many bytes a character takes. Most of a text is ASCII.
#[inline(always)]
fn width(c: char) -> u32
    ensures { result ≡ len_utf8 c }
{
    if c.is_ascii() {
        1
    } else if c < '\u{800}' {
        2
    } else {
        wide_width(c)
    }
}

/// The same, apart from the way of most characters.
#[inline(never)]
fn wide_width(c: char) -> u32
    ensures { result ≡ len_utf8 c }
{
    c.len_utf8() as u32
}

/// Whether a character is not dropped.
fn is_kept(c: char) -> bool
    ensures { result ≡ not (is_dropped c) }
{
    c.is_ascii() || !is_dropped(c)
}

/// Adds the characters of a text that begins at this byte of the input, without the dropped ones.
fn push_text(characters: &mut Vec<SourceChar>, at: u32, text: &str) -> Result<(), AllocError>
    requires { at + length text.now < 2 ^ 32 }
    ensures { OnOk result (characters.new.items
        ≡ characters.old.items ++ without_dropped (placed at (chars text.now))) }
{
    let mut start = at;
    for char in text.chars() {
        let end = start + width(char);
        if is_kept(char) {
            characters.push(SourceChar { char, start, end })?;
        }
        start = end;
    }
    Ok(())
}

/// The longest front of these bytes that is UTF-8.
fn valid_prefix(bytes: &[u8]) -> &str
    ensures within { length result.now ≤ length bytes.now }
    ensures front { result.now ≡ take (length result.now) bytes.now }
    ensures longest { StartsWithNoChar (drop (length result.now) bytes.now) }
{
    match bytes.utf8_chunks().next() {
        Some(chunk) => chunk.valid(),
        None => "",
    }
}

/// Adds the source characters at the start of these bytes, which begin at this byte of the input: those of the longest
/// text, and U+FFFD for the byte after it. The answer is how many bytes were read.
fn push_front(characters: &mut Vec<SourceChar>, at: u32, bytes: &[u8]) -> Result<usize, AllocError>
    requires some { 0 < length bytes.now }
    requires fits { at + length bytes.now < 2 ^ 32 }
    ensures some { IfOk result (λ n. 0 < n) }
    ensures within { IfOk result (λ n. n ≤ length bytes.now) }
    ensures added { IfOk result (λ n. characters.new.items
        ++ without_dropped (source_of (at + n) (drop n bytes.now))
        ≡ characters.old.items ++ without_dropped (source_of at bytes.now)) }
{
    let text = valid_prefix(bytes);
    push_text(characters, at, text)?;
    let length = text.len();
    if length == bytes.len() {
        return Ok(length);
    }
    let start = at + length as u32;
    characters.push(SourceChar {
        char: char::REPLACEMENT_CHARACTER,
        start,
        end: start + 1,
    })?;
    Ok(length + 1)
}

/// Adds the source characters of bytes that begin at this byte of the input, without the dropped ones.
fn push_bytes(characters: &mut Vec<SourceChar>, at: u32, bytes: &[u8]) -> Result<(), AllocError>
    requires { at + length bytes.now < 2 ^ 32 }
    ensures { OnOk result (characters.new.items
        ≡ characters.old.items ++ without_dropped (source_of at bytes.now)) }
{
    let mut offset = 0;
    while offset < bytes.len() {
        offset += push_front(characters, at + offset as u32, &bytes[offset..])?;
    }
    Ok(())
}

/// Puts the source characters of bytes that begin at this byte of the input, without the dropped ones, in place of
/// those that are there.
pub(crate) fn read_characters(
    characters: &mut Vec<SourceChar>,
    at: u32,
    bytes: &[u8],
) -> Result<(), AllocError>
    requires { at + length bytes.now < 2 ^ 32 }
    ensures { OnOk result (characters.new.items ≡ without_dropped (source_of at bytes.now)) }
{
    characters.clear();
    characters.reserve(bytes.len())?;
    match from_utf8(bytes) {
        Ok(text) => push_text(characters, at, text),
        Err(_) => push_bytes(characters, at, bytes),
    }
}
