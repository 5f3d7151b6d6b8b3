//! Four words at a time.

ghost use Rattle.std.specs.Prelude.{◌≡◌, ℕ, ◌+◌, ◌-◌, ◌*◌, ◌/◌, ◌%◌, ◌^◌, ◌≤◌, ◌<◌, true, false, length, slice_index, bit_or, bit_and};

use crate::word::TOP;
use std::simd::prelude::*;

/// The four words from `at` on become their bitwise or with the other row's.
#[inline(always)]
pub fn or_four(into: &mut [u64], from: &[u64], at: usize)
    requires within { at + 4 ≤ length into.old }
    requires from_within { at + 4 ≤ length from.now }
    ensures below { (k : ℕ) → k < at → slice_index into.new k ≡ slice_index into.old k }
    ensures here { (k : ℕ) → at ≤ k → k < at + 4
        → slice_index into.new k ≡ bit_or (slice_index into.old k) (slice_index from.now k) }
    ensures above { (k : ℕ) → at + 4 ≤ k → slice_index into.new k ≡ slice_index into.old k }
{
    let words = u64x4::from_slice(&into[at..]);
    let others = u64x4::from_slice(&from[at..]);
    (words | others).copy_to_slice(&mut into[at..]);
}

/// The four words from `at` on become their bitwise and with the other row's.
#[inline(always)]
pub fn and_four(into: &mut [u64], from: &[u64], at: usize)
    requires within { at + 4 ≤ length into.old }
    requires from_within { at + 4 ≤ length from.now }
    ensures below { (k : ℕ) → k < at → slice_index into.new k ≡ slice_index into.old k }
    ensures here { (k : ℕ) → at ≤ k → k < at + 4
        → slice_index into.new k ≡ bit_and (slice_index into.old k) (slice_index from.now k) }
    ensures above { (k : ℕ) → at + 4 ≤ k → slice_index into.new k ≡ slice_index into.old k }
{
    let words = u64x4::from_slice(&into[at..]);
    let others = u64x4::from_slice(&from[at..]);
    (words & others).copy_to_slice(&mut into[at..]);
}

/// The four words from `at` on move up by one bit, each with the highest bit of the word below it.
#[inline(always)]
pub fn shift_four(row: &mut [u64], at: usize)
    requires low { 1 ≤ at }
    requires within { at + 4 ≤ length row.old }
    ensures below { (k : ℕ) → k < at → slice_index row.new k ≡ slice_index row.old k }
    ensures here { (k : ℕ) → at ≤ k → k < at + 4
        → slice_index row.new k
        ≡ bit_or (slice_index row.old k * 2 ^ 1 % 2 ^ 64)
        (slice_index row.old (k - 1) / 2 ^ 63) }
    ensures above { (k : ℕ) → at + 4 ≤ k → slice_index row.new k ≡ slice_index row.old k }
{
    let words = u64x4::from_slice(&row[at..]);
    let lower = u64x4::from_slice(&row[at - 1..]);
    let moved = (words << u64x4::splat(1)) | (lower >> u64x4::splat(TOP as u64));
    moved.copy_to_slice(&mut row[at..]);
}

/// Whether the four words from `at` on are zero.
#[inline(always)]
pub fn four_are_zero(row: &[u64], at: usize) -> bool
    requires within { at + 4 ≤ length row.now }
    ensures zero { result ≡ true → (k : ℕ) → at ≤ k → k < at + 4 → slice_index row.now k ≡ 0 }
    ensures some { result ≡ false
        → (k : ℕ) × (at ≤ k) × (k < at + 4) × (0 < slice_index row.now k) }
{
    let words = u64x4::from_slice(&row[at..]);
    words.simd_ne(u64x4::splat(0)).to_bitmask() == 0
}
