//! Rows of bits. A row of any length is a `Bits`. The calls of this module are its kernels on whole words, which take lanes
//! of four words, and what is left by a plain loop. Bit number `b` of a row is bit `b % 64`, counted from the lowest, of word
//! `b / 64`; after its last word a row has no set bit. Only `Bits::new` takes memory and can fail.
#![tactic(auto)]

ghost use Rattle.std.specs.Prelude.{◌≡◌, ℕ, suc, ◌*◌, ◌≤◌, ◌↔◌, ◌&&◌, ◌||◌, nat_lt, IsTrue, true, false, length};
ghost use Rattle.lic_rows.specs.Bits.{has};

mod bits;
mod lanes;
mod range;
mod word;
mod words;

use crate::lanes::{and_four, or_four};
use crate::word::WORD;
use crate::words::{are_zero_from, clear_from, shift_words};
pub use bits::Bits;

/// Sets in `into` each bit that is set in `from`. Both rows have the same number of words.
pub fn or_into(into: &mut [u64], from: &[u64])
    requires { length into.old ≡ length from.now }
    ensures { (b : ℕ) → has into.new b ≡ (has into.old b || has from.now b) }
{
    let mut at = 0;
    'lanes: while into.len() - at >= 4 {
        or_four(into, from, at);
        at += 4;
    }
    'rest: while at < into.len() {
        into[at] |= from[at];
        at += 1;
    }
}

/// Clears in `into` each bit that is not set in `from`. Both rows have the same number of words.
pub fn and_into(into: &mut [u64], from: &[u64])
    requires { length into.old ≡ length from.now }
    ensures { (b : ℕ) → has into.new b ≡ (has into.old b && has from.now b) }
{
    let mut at = 0;
    'lanes: while into.len() - at >= 4 {
        and_four(into, from, at);
        at += 4;
    }
    'rest: while at < into.len() {
        into[at] &= from[at];
        at += 1;
    }
}

/// Whether no bit is set.
pub fn is_zero(row: &[u64]) -> bool
    ensures { IsTrue result ↔ ((b : ℕ) → has row.now b ≡ false) }
{
    are_zero_from(row, 0)
}

/// Moves each bit to the next number: bit `b` to `b + 1`. Bit 0 and the bits numbered `limit` or more are then clear.
/// `limit` counts bits, and is at most 64 times the number of words.
pub fn shift_up_one(row: &mut [u64], limit: usize)
    requires { limit ≤ 64 * length row.old }
    ensures first { has row.new 0 ≡ false }
    ensures rest { (b : ℕ) → has row.new (suc b) ≡ (has row.old b && nat_lt (suc b) limit) }
{
    shift_words(row);
    clear_from(row, limit);
}

/// Whether a bit numbered `m` or more is set.
pub fn any_from(row: &[u64], m: usize) -> bool
    ensures { IsTrue result ↔ ((b : ℕ) × (m ≤ b) × (has row.now b ≡ true)) }
{
    let first = m / WORD;
    if first >= row.len() {
        return false;
    }
    if row[first] >> (m % WORD) != 0 {
        return true;
    }
    !are_zero_from(row, first + 1)
}
