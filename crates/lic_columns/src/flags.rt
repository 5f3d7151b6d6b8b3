//! Lists of flags.
ghost use Rattle.std.specs.Prelude.{◌≡◌, ℕ, ◌+◌, ◌/◌, ◌*◌, ◌%◌, ◌^◌, ◌≤◌, ◌<◌, [], ◌++◌, length, IfOk};
ghost use Rattle.lic_columns.specs.Masks.{flag_at};
ghost use Rattle.lic_columns.specs.Flags.{bits_of, cleared};
ghost use Rattle.lic_trim.specs.PieceLengths.{has_bit};

use crate::block::SIZE;
use crate::mask::without;
use std::alloc::{AllocError, Global};
use std::marker::Model;

/// A list of flags, 64 in a column. Past its end no flag is set.
#[derive(Drop, Debug)]
pub struct Flags {
    columns: Vec<u64>,
    len: usize,
}

impl Model for Flags {
    ghost use Rattle.std.specs.Prelude.{◌≡◌, ◌≤◌, ◌+◌, ◌*◌, ◌/◌, ℕ, Bool, List, false, length};
    ghost use Rattle.lic_columns.specs.Flags.{has, flags_in};

    ghost Value = { List Bool };

    ghost view = { λ f. flags_in f.len f.columns.items };

    ghost invariant = { λ f. (length f.columns.items ≡ (f.len + 63) / 64)
        × ((k : ℕ) → f.len ≤ k → has f.columns.items k ≡ false) };
}

impl Flags {
    /// No flags.
    pub fn new(alloc: Global) -> Flags
        ensures { result ≡ [] }
    {
        Flags {
            columns: Vec::new(alloc),
            len: 0,
        }
    }

    /// How many flags there are, set or not.
    #[inline(always)]
    pub fn len(&self) -> usize
        ensures { result ≡ length self.now }
    {
        self.len
    }

    /// Lets go of all flags, and makes the list long enough for this number of them.
    ///
    /// # Errors
    /// Memory ran out.
    pub fn start(&mut self, len: usize) -> Result<(), AllocError>
        ensures { IfOk result (λ _. self.new ≡ []) }
    {
        self.columns.clear();
        self.len = 0;
        self.columns.reserve(len / SIZE + 1)?;
        Ok(())
    }

    /// Adds the first bits of a mask, after whole columns.
    ///
    /// # Errors
    /// Memory ran out.
    #[inline(always)]
    pub fn push(&mut self, mask: u64, count: usize) -> Result<(), AllocError>
        requires whole { length self.old % 64 ≡ 0 }
        requires some { 0 < count }
        requires count { count ≤ 64 }
        requires below { mask < 2 ^ count }
        requires bounded { length self.old + count < 2 ^ 64 }
        ensures { IfOk result (λ _. self.new ≡ self.old ++ bits_of count mask) }
    {
        self.columns.push(mask)?;
        self.len += count;
        Ok(())
    }

    /// How many columns there are.
    #[inline(always)]
    pub fn count(&self) -> usize
        ensures { result ≡ (length self.now + 63) / 64 }
    {
        self.columns.len()
    }

    /// The 64 flags from offset 64 * k on, as a mask.
    #[inline(always)]
    pub fn column(&self, k: usize) -> u64
        ensures { (i : ℕ) → i < 64 → has_bit result i ≡ flag_at self.now (k * 64 + i) }
    {
        if k < self.columns.len() {
            self.columns[k]
        } else {
            0
        }
    }

    /// Takes the flags of a range away.
    #[inline]
    pub fn clear(&mut self, from: usize, to: usize)
        requires order { from ≤ to }
        requires bounded { to ≤ length self.old }
        ensures { self.new ≡ cleared from to self.old }
    {
        let mut at = from;
        while at < to {
            let k = at / SIZE;
            let (first, last) = (at % SIZE, (to - k * SIZE).min(SIZE));
            self.columns[k] = without(self.columns[k], first, last);
            at = k * SIZE + last;
        }
    }
}
