//! Ranges of a row of words: the bits from one to before another. Whole words are done at once, and what the two
//! words at the ends have outside of the range is put back.

ghost use Rattle.std.specs.Prelude.{◌≡◌, ◌≢◌, ℕ, suc, ◌/◌, ◌%◌, ◌==◌, ◌≤◌, ◌<◌, List, IfSome, IfNone, true, false, length, slice_index};
ghost use Rattle.std.specs.Int.{bit_at};
ghost use Rattle.lic_rows.specs.Bits.{has, IsKeptOutside};

use crate::word::{TOP, WORD, spliced, with_bit};
use crate::words::{clear_from, shift_words};

/// Whether the bit is set.
#[inline(always)]
pub fn get(row: &[u64], at: usize) -> bool
    requires { at / 64 < length row.now }
    ensures { result ≡ has row.now at }
{
    row[at / WORD] >> (at % WORD) & 1 == 1
}

/// Sets or clears the bit.
#[inline(always)]
pub fn put(row: &mut [u64], at: usize, is_set: bool)
    requires { at / 64 < length row.old }
    ensures here { has row.new at ≡ is_set }
    ensures other { (b : ℕ) → b ≢ at → has row.new b ≡ has row.old b }
{
    row[at / WORD] = with_bit(row[at / WORD], at % WORD, is_set);
}

// Puts back what the words at the ends of the range, which were `low` and `high`, had outside of it.
fn put_back(row: &mut [u64], from: usize, to: usize, low: u64, high: u64)
    requires order { from ≤ to }
    requires within { to / 64 < length row.old }
    ensures inside { (b : ℕ) → from ≤ b → b < to → has row.new b ≡ has row.old b }
    ensures kept { (whole : List ℕ) → low ≡ slice_index whole (from / 64)
        → high ≡ slice_index whole (to / 64)
        → ((k : ℕ) → k < from / 64 → slice_index row.old k ≡ slice_index whole k)
        → ((k : ℕ) → to / 64 < k → slice_index row.old k ≡ slice_index whole k)
        → IsKeptOutside from to (has whole) (has row.new) }
{
    row[from / WORD] = spliced(low, row[from / WORD], from % WORD);
    row[to / WORD] = spliced(row[to / WORD], high, to % WORD);
}

// Makes the bits of a range, which ends in the word where it begins, those of this word.
#[inline(always)]
fn put_part(row: &mut [u64], from: usize, to: usize, word: u64)
    requires order { from ≤ to }
    requires one { from / 64 ≡ to / 64 }
    requires within { to / 64 < length row.old }
    ensures kept { IsKeptOutside from to (has row.old) (has row.new) }
    ensures inside { (b : ℕ) → from ≤ b → b < to → has row.new b ≡ (bit_at word (b % 64) == 1) }
{
    let old = row[from / WORD];
    row[from / WORD] = spliced(spliced(old, word, from % WORD), old, to % WORD);
}

/// Clears the bits of the range.
#[inline]
pub fn clear(row: &mut [u64], from: usize, to: usize)
    requires order { from ≤ to }
    requires within { to / 64 < length row.old }
    ensures kept { IsKeptOutside from to (has row.old) (has row.new) }
    ensures inside { (b : ℕ) → from ≤ b → b < to → has row.new b ≡ false }
{
    if from / WORD == to / WORD {
        put_part(row, from, to, 0);
    } else {
        clear_words(row, from, to);
    }
}

// The same where it ends in a later word.
fn clear_words(row: &mut [u64], from: usize, to: usize)
    requires order { from ≤ to }
    requires within { to / 64 < length row.old }
    ensures kept { IsKeptOutside from to (has row.old) (has row.new) }
    ensures inside { (b : ℕ) → from ≤ b → b < to → has row.new b ≡ false }
{
    let (first, last) = (from / WORD, to / WORD);
    let (low, high) = (row[first], row[last]);
    clear_from(&mut row[first..last + 1], 0);
    put_back(row, from, to, low, high);
}

/// Moves each bit of the range to the next number. The one at its start is then clear or set, and the last is lost.
#[inline]
pub fn move_up(row: &mut [u64], from: usize, to: usize, is_set: bool)
    requires order { from < to }
    requires within { to / 64 < length row.old }
    ensures kept { IsKeptOutside from to (has row.old) (has row.new) }
    ensures first { has row.new from ≡ is_set }
    ensures rest { (b : ℕ) → from ≤ b → suc b < to → has row.new (suc b) ≡ has row.old b }
{
    if from / WORD == to / WORD {
        let word = row[from / WORD] << 1;
        put_part(row, from, to, with_bit(word, from % WORD, is_set));
    } else {
        move_up_words(row, from, to, is_set);
    }
}

// The same where it ends in a later word.
fn move_up_words(row: &mut [u64], from: usize, to: usize, is_set: bool)
    requires order { from < to }
    requires within { to / 64 < length row.old }
    ensures kept { IsKeptOutside from to (has row.old) (has row.new) }
    ensures first { has row.new from ≡ is_set }
    ensures rest { (b : ℕ) → from ≤ b → suc b < to → has row.new (suc b) ≡ has row.old b }
{
    let (first, last) = (from / WORD, to / WORD);
    let (low, high) = (row[first], row[last]);
    shift_words(&mut row[first..last + 1]);
    put_back(row, from, to, low, high);
    put(row, from, is_set);
}

/// The first bit of the range that is set.
#[inline]
pub fn next_set(row: &[u64], from: usize, to: usize) -> Option<usize>
    requires order { from ≤ to }
    requires within { to / 64 < length row.now }
    ensures found { IfSome result (λ at. (from ≤ at) × (at < to) × (has row.now at ≡ true)
        × ((b : ℕ) → from ≤ b → b < at → has row.now b ≡ false)) }
    ensures none { IfNone result ((b : ℕ) → from ≤ b → b < to → has row.now b ≡ false) }
{
    let mut at = from / WORD;
    let mut word = spliced(0, row[at], from % WORD);
    while word == 0 && at < to / WORD {
        at += 1;
        word = row[at];
    }
    if word == 0 {
        return None;
    }
    let found = at * WORD + word.trailing_zeros() as usize;
    if found < to { Some(found) } else { None }
}

/// The last bit of the range that is set.
#[inline]
pub fn last_set(row: &[u64], from: usize, to: usize) -> Option<usize>
    requires order { from ≤ to }
    requires within { to / 64 < length row.now }
    ensures found { IfSome result (λ at. (from ≤ at) × (at < to) × (has row.now at ≡ true)
        × ((b : ℕ) → at < b → b < to → has row.now b ≡ false)) }
    ensures none { IfNone result ((b : ℕ) → from ≤ b → b < to → has row.now b ≡ false) }
{
    let mut at = to / WORD;
    let mut word = spliced(row[at], 0, to % WORD);
    while word == 0 && from / WORD < at {
        at -= 1;
        word = row[at];
    }
    if word == 0 {
        return None;
    }
    let found = at * WORD + (TOP - word.leading_zeros() as usize);
    if from <= found { Some(found) } else { None }
}
