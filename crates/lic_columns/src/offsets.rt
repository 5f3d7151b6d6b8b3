//! Lists of offsets.
ghost use Rattle.std.specs.Prelude.{◌≡◌, ◌+◌, ◌-◌, ◌%◌, ◌^◌, ◌<◌, ◌≤◌, ◌++◌, [], length, drop, take, slice_set, bit_and, IfOk};
ghost use Rattle.std.specs.Int.{w64, trailing_zeros};
ghost use Rattle.lic_columns.specs.Flags.{bits_of};
ghost use Rattle.lic_columns.specs.Offsets.{offsets};

use std::alloc::{AllocError, Global};
use std::marker::Model;

/// How many offsets a mask has at most.
const MOST: usize = 64;

/// For how many more offsets a list is made longer.
const MORE: usize = 1024;

/// A list of offsets. What comes after them in its memory says nothing.
#[derive(Drop)]
pub struct Offsets {
    list: Vec<u32>,
    len: usize,
}

impl Model for Offsets {
    ghost use Rattle.std.specs.Prelude.{ℕ, List, ◌≤◌, take, length};

    ghost Value = { List ℕ };

    ghost view = { λ p. take p.len p.list.items };

    ghost invariant = { λ p. p.len ≤ length p.list.items };
}

/// Writes the offset of the lowest bit of a mask, if it has one; bit 0 is at this offset. Gives the mask without it.
#[inline(always)]
fn put_lowest(out: &mut [u32], i: usize, at: u32, mask: u64) -> u64
    requires inside { i < length out.old }
    ensures long { length out.new ≡ length out.old }
    ensures out { out.new ≡ slice_set out.old i ((at + trailing_zeros w64 mask) % 2 ^ 32) }
    ensures mask { result ≡ bit_and mask (mask - 1) }
{
    out[i] = at.wrapping_add(mask.trailing_zeros());
    mask & mask.wrapping_sub(1)
}

/// Writes the offsets of the bits of a mask after the first `n`, four at a time: up to three more are written after them. Gives how
/// many are listed then.
#[inline(always)]
fn put_offsets(out: &mut [u32], n: usize, at: u32, mask: u64) -> usize
    requires inside { n + 64 ≤ length out.old }
    requires fits { at + 64 ≤ 2 ^ 32 }
    ensures long { length out.new ≡ length out.old }
    ensures within { result ≤ length out.new }
    ensures offsets { take result out.new ≡ take n out.old ++ offsets at (bits_of 64 mask) }
{
    let mut rest = mask;
    let mut i = 0;
    while rest != 0 {
        rest = put_lowest(out, n + i, at, rest);
        rest = put_lowest(out, n + i + 1, at, rest);
        rest = put_lowest(out, n + i + 2, at, rest);
        rest = put_lowest(out, n + i + 3, at, rest);
        i += 4;
    }
    n + mask.count_ones() as usize
}

impl Offsets {
    /// No offsets.
    pub fn new(alloc: Global) -> Offsets
        ensures { result ≡ [] }
    {
        Offsets {
            list: Vec::new(alloc),
            len: 0,
        }
    }

    /// The offsets.
    #[inline(always)]
    pub fn as_slice(&self) -> &[u32]
        ensures { result.now ≡ self.now }
    {
        &self.list[..self.len]
    }

    /// Lets go of all offsets, and makes the list long enough for this number of them.
    ///
    /// # Errors
    /// Memory ran out. No offset is then listed.
    pub fn start(&mut self, most: usize) -> Result<(), AllocError>
        ensures { self.new ≡ [] }
    {
        self.len = 0;
        if self.list.len() < most {
            self.list.resize(most, 0)?;
        }
        Ok(())
    }

    /// Lets go of the first `n` offsets, and gives back the memory that is then of no use.
    pub fn let_go(&mut self, n: usize)
        requires { n ≤ length self.old }
        ensures { self.new ≡ drop n self.old }
    {
        self.list.copy_within(n..self.len, 0);
        self.len -= n;
        self.list.truncate(self.len);
        self.list.shrink_to_fit();
    }

    /// Adds the offsets of the bits of a mask, in rising order; bit 0 is at this offset.
    ///
    /// # Errors
    /// Memory ran out. The offsets are then as before.
    #[inline(always)]
    pub fn put(&mut self, at: u32, mask: u64) -> Result<(), AllocError>
        requires { at + 64 ≤ 2 ^ 32 }
        ensures { IfOk result (λ _. self.new ≡ self.old ++ offsets at (bits_of 64 mask)) }
    {
        if self.list.len() - self.len < MOST {
            let Some(longer) = self.len.checked_add(MORE) else {
                return Err(AllocError);
            };
            self.list.resize(longer, 0)?;
        }
        self.len = put_offsets(&mut self.list, self.len, at, mask);
        Ok(())
    }
}
