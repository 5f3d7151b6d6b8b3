//! Lines that are gathered before they are written.

ghost use Rattle.std.specs.Prelude.{◌≡◌, ◌<◌, ◌≤◌, ◌+◌, ◌^◌, ◌++◌, [], true, length, replicate, take, OnErr, OnOk, decimal};
ghost use Rattle.lic_fields.specs.Fields.{ArePlain, escaped, field};

use crate::line_pattern::LINE_ROOM;
use crate::{add_text, add_two_numbers};
use std::alloc::{AllocError, Global};
use std::marker::Model;

/// How many bytes are made together after the lines.
const SPARE: usize = 8_192;

/// Lines that are gathered before they are written. Some bytes may come after them, so that a line can be written there without a
/// question for memory.
#[derive(Debug, Drop)]
pub struct LineBuffer {
    /// The lines, and then any bytes.
    pub bytes: Vec<u8>,
    /// How many bytes the lines have.
    pub len: usize,
    // a line that is added field by field
    line: Vec<u8>,
}

impl Model for LineBuffer {
    ghost use Rattle.std.specs.Prelude.{◌≤◌, List, ℕ, length, take};

    ghost Value = { List ℕ };

    ghost view = { λ l. take l.len l.bytes.items };

    ghost invariant = { λ l. l.len ≤ length l.bytes.items };
}

/// Makes some bytes more, if fewer than `enough` come after the first `len`.
fn make_space(bytes: &mut Vec<u8>, len: usize, enough: usize) -> Result<(), AllocError>
    requires within { len ≤ length bytes.old.items }
    requires few { enough < 2 ^ 63 }
    ensures front { take len bytes.new.items ≡ take len bytes.old.items }
    ensures within { len ≤ length bytes.new.items }
    ensures space { OnOk result (len + enough ≤ length bytes.new.items) }
{
    if bytes.len() - len < enough {
        return make_longer(bytes, enough.max(SPARE));
    }
    Ok(())
}

/// Adds a number of zeros.
fn make_longer(bytes: &mut Vec<u8>, count: usize) -> Result<(), AllocError>
    requires few { count < 2 ^ 63 }
    ensures added { OnOk result (bytes.new.items ≡ bytes.old.items ++ replicate count 0) }
    ensures stays { OnErr result (bytes.new.items ≡ bytes.old.items) }
{
    bytes.resize(bytes.len() + count, 0)
}

/// Writes these bytes at an offset.
fn write_bytes(bytes: &mut [u8], offset: usize, from: &[u8])
    requires fits { offset + length from.now ≤ length bytes.old }
    ensures written { take (offset + length from.now) bytes.new ≡ take offset bytes.old ++ from.now }
    ensures len { length bytes.new ≡ length bytes.old }
{
    bytes[offset..offset + from.len()].copy_from_slice(from);
}

/// Adds a text as a field, and the line end after it. A text that is said to be plain is not looked at.
fn add_last(line: &mut Vec<u8>, text: &[u8], is_plain: bool) -> Result<(), AllocError>
    requires { is_plain ≡ true → ArePlain text.now }
    ensures { OnOk result (line.new.items ≡ line.old.items ++ field (escaped text.now) 0x0A) }
{
    if is_plain {
        line.extend_from_slice(text)?;
        line.push(b'\n')?;
        return Ok(());
    }
    add_text(line, text, b'\n')
}

/// Puts a line, field by field, in place of what is there: these bytes, two numbers and a text.
fn set_fields(
    line: &mut Vec<u8>,
    front: &[u8],
    first: u64,
    second: u64,
    text: &[u8],
    is_plain: bool,
) -> Result<(), AllocError>
    requires { is_plain ≡ true → ArePlain text.now }
    ensures { OnOk result (line.new.items
        ≡ front.now ++ (field (decimal first) 0x09 ++ (field (decimal second) 0x09
        ++ field (escaped text.now) 0x0A))) }
{
    line.clear();
    line.extend_from_slice(front)?;
    add_two_numbers(line, first, second)?;
    add_last(line, text, is_plain)
}

impl LineBuffer {
    /// No lines yet.
    pub fn new(alloc: Global) -> LineBuffer
        ensures { result ≡ [] }
    {
        LineBuffer {
            bytes: Vec::new(alloc),
            len: 0,
            line: Vec::new(alloc),
        }
    }

    /// Takes memory for `count` bytes in all.
    pub fn reserve(&mut self, count: usize) -> Result<(), AllocError>
        ensures { self.new ≡ self.old }
    {
        self.bytes.reserve(count.saturating_sub(self.bytes.len()))
    }

    /// How many bytes the lines have.
    #[inline(always)]
    pub fn len(&self) -> usize
        ensures { result ≡ length self.now }
    {
        self.len
    }

    /// The lines.
    pub fn as_slice(&self) -> &[u8]
        ensures { result.now ≡ self.now }
    {
        &self.bytes[..self.len]
    }

    /// Takes all lines away, and keeps their memory.
    pub fn clear(&mut self)
        ensures { self.new ≡ [] }
    {
        self.len = 0;
    }

    /// Adds a line field by field: these bytes, two numbers and a text. After it come enough bytes for a line that is written over them.
    pub(crate) fn add(
        &mut self,
        front: &[u8],
        first: u64,
        second: u64,
        text: &[u8],
        is_plain: bool,
    ) -> Result<(), AllocError>
        requires { is_plain ≡ true → ArePlain text.now }
        ensures { OnOk result (self.new ≡ self.old
            ++ (front.now ++ (field (decimal first) 0x09 ++ (field (decimal second) 0x09
            ++ field (escaped text.now) 0x0A)))) }
    {
        set_fields(&mut self.line, front, first, second, text, is_plain)?;
        let count = self.line.len();
        make_space(&mut self.bytes, self.len, count)?;
        write_bytes(&mut self.bytes, self.len, &self.line);
        self.len += count;
        make_space(&mut self.bytes, self.len, LINE_ROOM)?;
        Ok(())
    }
}
