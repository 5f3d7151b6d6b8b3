//! A row word by word.

ghost use Rattle.std.specs.Prelude.{◌≡◌, ℕ, suc, ◌*◌, ◌/◌, ◌%◌, ◌^◌, ◌≤◌, ◌<◌, ◌&&◌, nat_lt, true, false, length, slice_index, bit_or};
ghost use Rattle.lic_rows.specs.Bits.{has};

use crate::lanes::{four_are_zero, shift_four};
use crate::word::{TOP, WORD, fresh};

/// Whether the words numbered `from` or more are zero.
pub fn are_zero_from(row: &[u64], from: usize) -> bool
    ensures zero { result ≡ true → (k : ℕ) → from ≤ k → slice_index row.now k ≡ 0 }
    ensures some { result ≡ false → (k : ℕ) × (from ≤ k) × (0 < slice_index row.now k) }
{
    let mut at = from;
    'lanes: while at < row.len() && row.len() - at >= 4 {
        if !four_are_zero(row, at) {
            return false;
        }
        at += 4;
    }
    'rest: while at < row.len() {
        if row[at] != 0 {
            return false;
        }
        at += 1;
    }
    true
}

/// Moves each word up by one bit, and into its lowest bit the highest of the word below, from the last word to the first.
pub fn shift_words(row: &mut [u64])
    ensures fits { (k : ℕ) → slice_index row.old k < 2 ^ 64 }
    ensures first { slice_index row.new 0 ≡ slice_index row.old 0 * 2 ^ 1 % 2 ^ 64 }
    ensures rest { (k : ℕ) → suc k < length row.old
        → slice_index row.new (suc k)
        ≡ bit_or (slice_index row.old (suc k) * 2 ^ 1 % 2 ^ 64)
        (slice_index row.old k / 2 ^ 63) }
{
    let mut at = row.len();
    'lanes: while at >= 5 {
        at -= 4;
        shift_four(row, at);
    }
    'rest: while at > 1 {
        at -= 1;
        row[at] = (row[at] << 1) | (row[at - 1] >> TOP);
    }
    if at == 1 {
        row[0] = row[0] << 1;
    }
}

/// Clears the bits numbered `limit` or more.
pub fn clear_from(row: &mut [u64], limit: usize)
    ensures { (b : ℕ) → has row.new b ≡ (has row.old b && nat_lt b limit) }
{
    let first = limit / WORD;
    if first < row.len() {
        row[first] &= (1u64 << (limit % WORD)) - 1;
        'rest: for k in first + 1..row.len() {
            row[k] = 0;
        }
    }
}

/// Whether the other row has a bit that this one has not. Both have the same number of words.
pub fn has_fresh(row: &[u64], other: &[u64]) -> bool
    requires { length row.now ≡ length other.now }
    ensures some { result ≡ true → (b : ℕ) × (has row.now b ≡ false) × (has other.now b ≡ true) }
    ensures none { result ≡ false → (b : ℕ) → has other.now b ≡ true → has row.now b ≡ true }
{
    for at in 0..row.len() {
        if fresh(row[at], other[at]) != 0 {
            return true;
        }
    }
    false
}
