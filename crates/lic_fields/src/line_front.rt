//! Lines that begin with the same bytes and two numbers, and end with a text.

ghost use Rattle.std.specs.Prelude.{◌≡◌, ◌≤◌, ◌+◌, ◌++◌, true, IfOk, OnOk, decimal, length, take};
ghost use Rattle.lic_fields.specs.Fields.{ArePlain, escaped, field};

use crate::line_buffer::LineBuffer;
use crate::line_pattern::{LONG, LinePattern};
use crate::thousand::Thousand;
use crate::{TWO_NUMBERS, write_number};
use std::alloc::AllocError;
use std::marker::Model;

/// Writes two numbers as fields after the first `same` bytes, a tab after each. Answers where the first field ends, and
/// where both end.
#[inline(always)]
fn write_numbers(bytes: &mut [u8], same: usize, first: u64, second: u64) -> (usize, usize)
    requires { same + 42 ≤ length bytes.old }
    ensures first { result.0 ≡ same + (length (decimal first) + 1) }
    ensures end { result.1 ≤ same + 42 }
    ensures written { take result.1 bytes.new
        ≡ take same bytes.old ++ (field (decimal first) 0x09 ++ field (decimal second) 0x09) }
    ensures len { length bytes.new ≡ length bytes.old }
{
    let mut buffer = [0; 2 * TWO_NUMBERS];
    let middle = write_number(&mut buffer, TWO_NUMBERS, second, b'\t');
    let at = write_number(&mut buffer, middle, first, b'\t');
    bytes[same..same + TWO_NUMBERS].copy_from_slice(&buffer[at..at + TWO_NUMBERS]);
    (same + (middle - at), same + (TWO_NUMBERS - at))
}

/// What begins lines: bytes that are the same in all, and two numbers as fields, a tab after each. Two numbers are kept: those of the
/// next lines mostly differ from them in their last three digits alone, and are then written over a copy (`LinePattern`).
#[derive(Debug, Drop)]
pub struct LineFront {
    // the bytes that are the same in all, and two numbers of three digits or more as fields; and then any, so that a block can be copied
    bytes: Vec<u8>,
    // how many bytes are the same in all
    same: usize,
    // where the first of both fields ends
    first_end: usize,
    // where both fields end
    len: usize,
    // the numbers that differ from both in their last three digits alone
    thousand: Thousand,
}

impl Model for LineFront {
    ghost use Rattle.std.specs.Prelude.{List, ℕ, take};
    ghost use Rattle.lic_fields.specs.Fronts.{IsKept};

    ghost Value = { List ℕ };

    ghost view = { λ f. take f.same f.bytes.items };

    ghost invariant = { λ f. IsKept f.bytes.items f.same f.first_end f.len f.thousand };
}

impl LineFront {
    /// The front of lines that all begin with these bytes.
    pub fn new(mut bytes: Vec<u8>) -> Result<LineFront, AllocError>
        ensures { IfOk result (λ front. front ≡ bytes.items) }
    {
        let same = bytes.len();
        bytes.extend_from_slice(&[0; TWO_NUMBERS + LONG])?;
        let (first_end, len) = write_numbers(&mut bytes, same, 100, 100);
        Ok(LineFront {
            bytes,
            same,
            first_end,
            len,
            thousand: Thousand::hundreds(),
        })
    }

    /// What begins the lines, as it is now.
    #[inline(always)]
    pub fn pattern(&self) -> LinePattern<'_>
        ensures { result ≡ self.now }
    {
        LinePattern {
            bytes: &self.bytes,
            same: self.same,
            first_end: self.first_end,
            len: self.len,
            thousand: self.thousand.copied(),
        }
    }

    /// Adds a line field by field. A text that is said to be plain is not looked at for bytes that are escaped.
    #[inline(never)]
    pub fn add_line(
        &self,
        lines: &mut LineBuffer,
        first: u64,
        second: u64,
        text: &[u8],
        is_plain: bool,
    ) -> Result<(), AllocError>
        requires plain { is_plain ≡ true → ArePlain text.now }
        ensures { OnOk result (lines.new ≡ lines.old
            ++ (self.now ++ (field (decimal first) 0x09 ++ (field (decimal second) 0x09
            ++ field (escaped text.now) 0x0A)))) }
    {
        lines.add(&self.bytes[..self.same], first, second, text, is_plain)
    }

    /// Whether two numbers differ from those that are kept in their last three digits alone.
    fn knows(&self, first: u64, second: u64) -> bool {
        self.thousand.digits_of(first).is_some() && self.thousand.digits_of(second).is_some()
    }

    /// Keeps two numbers, unless they are known, if both have three digits or more and they differ in the last three alone.
    pub fn keep(&mut self, first: u64, second: u64)
        ensures { self.new ≡ self.old }
    {
        if self.knows(first, second) {
            return;
        }
        let Some(thousand) = Thousand::of(first) else {
            return;
        };
        let Some(_digits) = thousand.digits_of(second) else {
            return;
        };
        let (first_end, len) = write_numbers(&mut self.bytes, self.same, first, second);
        self.first_end = first_end;
        self.len = len;
        self.thousand = thousand;
    }
}
