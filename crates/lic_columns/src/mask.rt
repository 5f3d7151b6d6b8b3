//! Masks of 64 bits.
ghost use Rattle.std.specs.Prelude.{◌≡◌, ℕ, suc, ◌+◌, ◌++◌, ◌-◌, ◌^◌, ◌<◌, ◌≤◌, not, ◌&&◌, ◌∷◌, IfOk};
ghost use Rattle.lic_columns.specs.Flags.{bits_of, is_within};
ghost use Rattle.lic_columns.specs.Offsets.{offsets};
ghost use Rattle.lic_trim.specs.PieceLengths.{has_bit};

// How many bits a mask has.
const BITS: usize = 64;

/// The number of the highest bit.
pub const LAST: u32 = 63;

/// The lowest n bits.
#[inline(always)]
pub fn below(n: usize) -> u64
    requires { n ≤ 64 }
    ensures { result ≡ 2 ^ n - 1 }
{
    if n < BITS { (1u64 << n) - 1 } else { u64::MAX }
}

/// The mask without its bits of a range.
#[inline(always)]
pub fn without(mask: u64, from: usize, to: usize) -> u64
    requires from { from ≤ 64 }
    requires to { to ≤ 64 }
    ensures { (k : ℕ) → k < 64 → has_bit result k ≡ (has_bit mask k && not (is_within from to k)) }
{
    mask & (below(from) | !below(to))
}

/// Each bit moved up by one offset, and into the lowest the highest of the mask before.
#[inline(always)]
pub fn moved_up(before: u64, mask: u64) -> u64
    ensures first { has_bit result 0 ≡ has_bit before 63 }
    ensures rest { (i : ℕ) → suc i < 64 → has_bit result (suc i) ≡ has_bit mask i }
{
    mask << 1 | before >> LAST
}

/// Each bit moved down by one offset, and into the highest the lowest of the mask after.
#[inline(always)]
pub fn moved_down(mask: u64, after: u64) -> u64
    ensures last { has_bit result 63 ≡ has_bit after 0 }
    ensures rest { (i : ℕ) → i < 63 → has_bit result i ≡ has_bit mask (suc i) }
{
    mask >> 1 | after << LAST
}

/// The bits that the first mask has and the second has not.
#[inline(always)]
pub fn but_not(mask: u64, other: u64) -> u64
    ensures { (k : ℕ) → k < 64 → has_bit result k ≡ (has_bit mask k && not (has_bit other k)) }
{
    mask & !other
}
