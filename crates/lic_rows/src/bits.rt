//! Rows of bits of any length.

ghost use Rattle.std.specs.Prelude.{◌≡◌, ℕ, suc, ◌+◌, ◌-◌, ◌≤◌, ◌<◌, ◌↔◌, ◌||◌, IsTrue, IfOk, IfSome, IfNone, true, false, length, replicate, slice_set};
ghost use Rattle.lic_rows.specs.Bits.{flag_at, IsKeptOutside};

use crate::word::WORD;
use crate::words::has_fresh;
use crate::{or_into, range};
use std::alloc::{AllocError, Global};
use std::marker::Model;

/// A row of bits: a list of flags, 64 in a word. A range of it is given by its first index and the one after its
/// last, in bits. Only `new` takes memory.
#[derive(Drop, Debug)]
pub struct Bits {
    // one word more than the whole words, so that each index up to the end has its word
    words: Vec<u64>,
    len: usize,
}

impl Model for Bits {
    ghost use Rattle.std.specs.Prelude.{◌≡◌, ◌≤◌, ◌+◌, ◌/◌, ℕ, Bool, List, false, length};
    ghost use Rattle.lic_rows.specs.Bits.{has, flags};

    ghost Value = { List Bool };

    ghost view = { λ b. flags b.len b.words.items };

    ghost invariant = { λ b. (length b.words.items ≡ b.len / 64 + 1)
        × ((k : ℕ) → b.len ≤ k → has b.words.items k ≡ false) };
}

impl Bits {
    /// `len` bits, none of them set.
    ///
    /// # Errors
    /// Memory ran out.
    pub fn new(alloc: Global, len: usize) -> Result<Bits, AllocError>
        ensures { IfOk result (λ row. row ≡ replicate len false) }
    {
        let words = vec![in alloc; 0u64; len / WORD + 1]?;
        Ok(Bits { words, len })
    }

    /// How many bits it has, set or not.
    #[inline]
    pub fn len(&self) -> usize
        ensures { result ≡ length self.now }
    {
        self.len
    }

    /// Whether the bit is set.
    #[inline]
    pub fn get(&self, at: usize) -> bool
        requires { at < length self.now }
        ensures { result ≡ flag_at self.now at }
    {
        range::get(&self.words, at)
    }

    /// Sets or clears the bit.
    #[inline]
    pub fn put(&mut self, at: usize, is_set: bool)
        requires { at < length self.old }
        ensures { self.new ≡ slice_set self.old at is_set }
    {
        range::put(&mut self.words, at, is_set);
    }

    // The first bit of the range that is set. Words with none are passed over.
    #[inline]
    fn next_set(&self, from: usize, to: usize) -> Option<usize>
        requires order { from ≤ to }
        requires within { to ≤ length self.now }
        ensures found { IfSome result (λ at. (from ≤ at) × (at < to) × (flag_at self.now at ≡ true)
            × ((k : ℕ) → from ≤ k → k < at → flag_at self.now k ≡ false)) }
        ensures none { IfNone result ((k : ℕ) → from ≤ k → k < to → flag_at self.now k ≡ false) }
    {
        range::next_set(&self.words, from, to)
    }

    /// The last bit of the range that is set. Words with none are passed over.
    #[inline]
    pub fn last_set(&self, from: usize, to: usize) -> Option<usize>
        requires order { from ≤ to }
        requires within { to ≤ length self.now }
        ensures found { IfSome result (λ at. (from ≤ at) × (at < to) × (flag_at self.now at ≡ true)
            × ((k : ℕ) → at < k → k < to → flag_at self.now k ≡ false)) }
        ensures none { IfNone result ((k : ℕ) → from ≤ k → k < to → flag_at self.now k ≡ false) }
    {
        range::last_set(&self.words, from, to)
    }

    /// Whether a bit of the range is set.
    #[inline]
    pub fn is_any_set(&self, from: usize, to: usize) -> bool
        requires order { from ≤ to }
        requires within { to ≤ length self.now }
        ensures { IsTrue result ↔ ((k : ℕ) × (from ≤ k) × (k < to) × (flag_at self.now k ≡ true)) }
    {
        self.next_set(from, to).is_some()
    }

    /// Clears the bits of the range.
    #[inline]
    pub fn clear(&mut self, from: usize, to: usize)
        requires order { from ≤ to }
        requires within { to ≤ length self.old }
        ensures len { length self.new ≡ length self.old }
        ensures kept { IsKeptOutside from to (flag_at self.old) (flag_at self.new) }
        ensures inside { (k : ℕ) → from ≤ k → k < to → flag_at self.new k ≡ false }
    {
        range::clear(&mut self.words, from, to);
    }

    /// Becomes the other row.
    #[inline]
    pub fn copy_from(&mut self, other: &Bits)
        requires { length self.old ≡ length other.now }
        ensures { self.new ≡ other.now }
    {
        self.words.copy_from_slice(&other.words);
    }

    /// Sets the bits that the other row has, and says whether one was new.
    #[inline]
    pub fn join(&mut self, other: &Bits) -> bool
        requires { length self.old ≡ length other.now }
        ensures len { length self.new ≡ length self.old }
        ensures either { (k : ℕ) → flag_at self.new k ≡ (flag_at self.old k || flag_at other.now k) }
        ensures same { result ≡ false → self.new ≡ self.old }
        ensures grows { result ≡ true
            → (k : ℕ) × (flag_at self.old k ≡ false) × (flag_at self.new k ≡ true) }
    {
        let grows = has_fresh(&self.words, &other.words);
        or_into(&mut self.words, &other.words);
        grows
    }

    /// Moves each bit of the range to the next index. The first one becomes as given, and the last one is lost.
    #[inline]
    pub fn move_up(&mut self, from: usize, to: usize, is_set: bool)
        requires order { from < to }
        requires within { to ≤ length self.old }
        ensures len { length self.new ≡ length self.old }
        ensures kept { IsKeptOutside from to (flag_at self.old) (flag_at self.new) }
        ensures first { flag_at self.new from ≡ is_set }
        ensures rest { (k : ℕ) → from ≤ k → suc k < to
            → flag_at self.new (suc k) ≡ flag_at self.old k }
    {
        range::move_up(&mut self.words, from, to, is_set);
    }
}
