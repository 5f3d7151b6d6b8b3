//! A line written over a copy of what begins it.

ghost use Rattle.std.specs.Prelude.{◌≡◌, ◌≤◌, ◌+◌, ◌-◌, ◌∷◌, ◌++◌, [], IfSome, None, decimal, drop, length, take};
ghost use Rattle.lic_fields.specs.Fields.{ArePlain, escaped, field};

use crate::thousand::Thousand;
use std::marker::Model;
use std::simd::prelude::*;

/// How many bytes of a text are copied at once: most texts have fewer.
pub const TEXT_ROOM: usize = 16;

/// How many bytes of what a line begins with are copied at once: the least of these numbers that is enough.
const SHORTEST: usize = 32;

const SHORTER: usize = 48;

const SHORT: usize = 80;

/// The most of them: most lines begin with fewer.
pub(crate) const LONG: usize = 128;

/// The most bytes that a line is written over: a copy, a text and the line end.
pub const LINE_ROOM: usize = 145;

/// Writes four bytes so that they end at `end`.
#[inline(always)]
fn write_four(bytes: &mut [u8], end: usize, four: u8x4)
    requires { (length four ≡ 4) × ((4 ≤ end) × (end ≤ length bytes.old)) }
    ensures { bytes.new ≡ take (end - 4) bytes.old ++ (four ++ drop end bytes.old) }
{
    four.copy_to_slice(&mut bytes[end - 4..]);
}

/// Copies 64 bytes to an offset.
#[inline(always)]
fn copy_64(bytes: &mut [u8], offset: usize, from: &[u8])
    requires fits { offset + 64 ≤ length bytes.old }
    requires long { 64 ≤ length from.now }
    ensures copied { take (offset + 64) bytes.new ≡ take offset bytes.old ++ take 64 from.now }
    ensures len { length bytes.new ≡ length bytes.old }
{
    u8x64::from_slice(from).copy_to_slice(&mut bytes[offset..]);
}

/// Copies 32 bytes to an offset.
#[inline(always)]
fn copy_32(bytes: &mut [u8], offset: usize, from: &[u8])
    requires fits { offset + 32 ≤ length bytes.old }
    requires long { 32 ≤ length from.now }
    ensures copied { take (offset + 32) bytes.new ≡ take offset bytes.old ++ take 32 from.now }
    ensures len { length bytes.new ≡ length bytes.old }
{
    u8x32::from_slice(from).copy_to_slice(&mut bytes[offset..]);
}

/// Copies 16 bytes to an offset.
#[inline(always)]
fn copy_16(bytes: &mut [u8], offset: usize, from: &[u8])
    requires fits { offset + 16 ≤ length bytes.old }
    requires long { 16 ≤ length from.now }
    ensures copied { take (offset + 16) bytes.new ≡ take offset bytes.old ++ take 16 from.now }
    ensures len { length bytes.new ≡ length bytes.old }
{
    u8x16::from_slice(from).copy_to_slice(&mut bytes[offset..]);
}

/// Writes the first `len` of these bytes, at most 48, at an offset, and some after them.
#[inline(always)]
fn write_short_block(bytes: &mut [u8], offset: usize, block: &[u8], len: usize)
    requires short { len ≤ 48 }
    requires long { 128 ≤ length block.now }
    requires fits { offset + 128 ≤ length bytes.old }
    ensures written { take (offset + len) bytes.new ≡ take offset bytes.old ++ take len block.now }
    ensures len { length bytes.new ≡ length bytes.old }
{
    if len <= SHORTEST {
        copy_32(bytes, offset, block);
        return;
    }
    copy_32(bytes, offset, block);
    copy_16(bytes, offset + 32, &block[32..]);
}

/// Writes the first `len` of these bytes at an offset, and some after them, so that the copy is of a fixed length.
#[inline(always)]
fn write_block(bytes: &mut [u8], offset: usize, block: &[u8], len: usize)
    requires short { len ≤ 128 }
    requires long { 128 ≤ length block.now }
    requires fits { offset + 128 ≤ length bytes.old }
    ensures written { take (offset + len) bytes.new ≡ take offset bytes.old ++ take len block.now }
    ensures len { length bytes.new ≡ length bytes.old }
{
    if len <= SHORTER {
        write_short_block(bytes, offset, block, len);
        return;
    }
    if len <= SHORT {
        copy_64(bytes, offset, block);
        copy_16(bytes, offset + 64, &block[64..]);
        return;
    }
    copy_64(bytes, offset, block);
    copy_64(bytes, offset + 64, &block[64..]);
}

/// Writes the first `len` bytes of a short text at `end`, and the line end after them.
#[inline(always)]
fn write_text(bytes: &mut [u8], end: usize, text: &[u8], len: usize)
    requires { (len ≤ 16) × ((16 ≤ length text.now) × (end + 17 ≤ length bytes.old)) }
    ensures written { take (end + len + 1) bytes.new
        ≡ take end bytes.old ++ (take len text.now ++ 0x0A ∷ []) }
    ensures len { length bytes.new ≡ length bytes.old }
{
    u8x16::from_slice(text).copy_to_slice(&mut bytes[end..]);
    bytes[end + len] = b'\n';
}

/// What begins the lines of a `LineFront` as it is now: a value that a loop keeps in registers while it writes lines.
#[derive(Debug, Drop)]
pub struct LinePattern<'a> {
    // the bytes that are the same in all, and two numbers of three digits or more as fields; and then any, so that a block can be copied
    pub(crate) bytes: &'a [u8],
    // how many bytes are the same in all
    pub(crate) same: usize,
    // where the first of both fields ends
    pub(crate) first_end: usize,
    // where both fields end
    pub(crate) len: usize,
    // the numbers that differ from both in their last three digits alone
    pub(crate) thousand: Thousand,
}

impl<'a> Model for LinePattern<'a> {
    ghost use Rattle.std.specs.Prelude.{List, ℕ, take};
    ghost use Rattle.lic_fields.specs.Fronts.{IsKept};

    ghost Value = { List ℕ };

    ghost view = { λ p. take p.same p.bytes.now };

    ghost invariant = { λ p. IsKept p.bytes.now p.same p.first_end p.len p.thousand };
}

impl LinePattern<'_> {
    /// Writes a line after the first `at` of these bytes: the bytes that are the same in all, these numbers, and the first `len` bytes
    /// of a text, none of which is escaped. Answers where it ends. None, and nothing is written, where the numbers differ from those of
    /// the pattern in more than their last three digits, or where the text or what begins the line is long.
    #[inline(always)]
    pub fn write_line(
        &self,
        bytes: &mut [u8],
        at: usize,
        first: u64,
        second: u64,
        text: &[u8],
        len: usize,
    ) -> Option<usize>
        requires room { at + LINE_ROOM ≤ length bytes.old }
        requires wide { TEXT_ROOM ≤ length text.now }
        requires fits { len ≤ length text.now }
        requires plain { ArePlain (take len text.now) }
        ensures stays { result ≡ None → bytes.new ≡ bytes.old }
        ensures end { IfSome result (λ end. (at ≤ end) × (end ≤ at + LINE_ROOM)) }
        ensures line { IfSome result (λ end. take end bytes.new ≡ take at bytes.old
            ++ (self.now ++ (field (decimal first) 0x09 ++ (field (decimal second) 0x09
            ++ field (escaped (take len text.now)) 0x0A)))) }
        ensures len { length bytes.new ≡ length bytes.old }
    {
        if len > TEXT_ROOM || self.len > LONG {
            return None;
        }
        let Some(one) = self.thousand.digits_of(first) else {
            return None;
        };
        let Some(two) = self.thousand.digits_of(second) else {
            return None;
        };
        let first_four = u8x4::from_slice(one);
        let second_four = u8x4::from_slice(two);
        let end = at + self.len;
        write_block(bytes, at, self.bytes, self.len);
        write_four(bytes, at + self.first_end, first_four);
        write_four(bytes, end, second_four);
        write_text(bytes, end, text, len);
        Some(end + len + 1)
    }
}
