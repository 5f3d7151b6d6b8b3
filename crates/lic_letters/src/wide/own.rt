//! Letters of two and of three bytes that stay as they are, by lanes.
ghost use Rattle.std.specs.Prelude.{◌≡◌, ℕ, ◌+◌, ◌<◌, ◌≤◌, false, true, length, map, nat_le, nat_lt, slice_index, IsTrue};
ghost use Rattle.std.specs.Simd.Lanes.{mask_l};
ghost use Rattle.lic_letters.specs.OwnLetters.{are_common, begins_three, begins_two, class_in, continues};
ghost use Rattle.lic_letters.specs.Simple.{AreOwn};
ghost use Rattle.lic_trim.specs.PieceLengths.{has_bit};

use std::simd::prelude::*;

/// The offsets that are looked at together.
const AT_ONCE: usize = 16;

/// The most bytes of a letter.
const LONGEST: usize = 3;

/// Letters of three bytes begin with this byte or a higher one.
const THREE: u8 = 0xE0;

/// Signs begin with this byte: few letters do.
const SIGN: u8 = 0xE2;

// The low half of a byte.
const LOW_HALF: u8 = 15;

// How many bits are below the high half of a byte.
const HALF: u8 = 4;

/// Classes by the low half of the first of two bytes.
const TWO_FIRST_LOW: [u8; AT_ONCE] = [1, 2, 0, 4, 0, 0, 0, 64, 64, 64, 64, 64, 0, 0, 24, 32];

/// Classes by its high half: it is of a class that both of its halves have.
const TWO_FIRST_HIGH: [u8; AT_ONCE] = [0, 0, 0, 0, 0, 0, 0, 0, 0, 0, 0, 0, 60, 67, 0, 0];

/// Classes by the low half of the second of two bytes: a letter has a class that both of its bytes have.
const TWO_SECOND_LOW: [u8; AT_ONCE] = [
    103, 119, 87, 119, 119, 119, 119, 119, 119, 119, 119, 119, 127, 127, 127, 95,
];

const TWO_SECOND_HIGH: [u8; AT_ONCE] = [0, 0, 0, 0, 0, 0, 0, 0, 98, 66, 76, 85, 0, 0, 0, 0];

/// The same of the first and the second of three bytes.
const THREE_FIRST_LOW: [u8; AT_ONCE] = [32, 64, 0, 3, 4, 4, 4, 4, 4, 4, 8, 4, 4, 16, 0, 0];

const THREE_FIRST_HIGH: [u8; AT_ONCE] = [0, 0, 0, 0, 0, 0, 0, 0, 0, 0, 0, 0, 0, 0, 127, 0];

const THREE_SECOND_LOW: [u8; AT_ONCE] = [
    126, 127, 63, 63, 63, 63, 63, 63, 63, 63, 63, 63, 63, 63, 63, 63,
];

const THREE_SECOND_HIGH: [u8; AT_ONCE] = [0, 0, 0, 0, 0, 0, 0, 0, 85, 22, 38, 46, 0, 0, 0, 0];

/// 16 bytes from an offset on.
#[inline(always)]
fn load(bytes: &[u8], at: usize) -> u8x16
    requires { at + 16 ≤ length bytes.now }
    ensures { (i : ℕ) → i < 16 → slice_index result i ≡ slice_index bytes.now (at + i) }
{
    u8x16::from_slice(&bytes[at..])
}

/// The class of each byte by these tables.
#[inline(always)]
fn classes(low: [u8; AT_ONCE], high: [u8; AT_ONCE], bytes: u8x16) -> u8x16
    ensures { result ≡ map (class_in low high) bytes }
{
    let by_low = u8x16::from_array(low).swizzle_dyn_within::<16>(bytes & u8x16::splat(LOW_HALF));
    let by_high = u8x16::from_array(high).swizzle_dyn_within::<16>(bytes >> u8x16::splat(HALF));
    by_low & by_high
}

/// At which offsets both have a class.
#[inline(always)]
fn common_offsets(one: u8x16, other: u8x16) -> u64
    ensures bits { (i : ℕ) → i < 16 → has_bit result i ≡ are_common (slice_index one i) (slice_index other i) }
    ensures above { (i : ℕ) → 16 ≤ i → has_bit result i ≡ false }
{
    (one & other).simd_ne(u8x16::splat(0)).to_bitmask()
}

/// At which offsets a byte of ASCII is.
#[inline(always)]
fn ascii_offsets(bytes: u8x16) -> u64
    ensures bits { (i : ℕ) → i < 16 → has_bit result i ≡ nat_lt (slice_index bytes i) 128 }
    ensures above { (i : ℕ) → 16 ≤ i → has_bit result i ≡ false }
{
    bytes.simd_lt(u8x16::splat(0x80)).to_bitmask()
}

/// At which offsets a byte continues a character.
#[inline(always)]
fn offsets_on(bytes: u8x16) -> u64
    ensures { (i : ℕ) → i < 16 → has_bit result i ≡ continues (slice_index bytes i) }
{
    (bytes - u8x16::splat(0x80))
        .simd_lt(u8x16::splat(0x40))
        .to_bitmask()
}

/// At which offsets a letter of two bytes begins that stays as it is, as far as the tables know.
#[inline(always)]
fn two_offsets(first: u8x16, second: u8x16) -> u64
    ensures bits { (i : ℕ) → i < 16 → has_bit result i ≡ begins_two (slice_index first i) (slice_index second i) }
    ensures above { (i : ℕ) → 16 ≤ i → has_bit result i ≡ false }
{
    common_offsets(
        classes(TWO_FIRST_LOW, TWO_FIRST_HIGH, first),
        classes(TWO_SECOND_LOW, TWO_SECOND_HIGH, second),
    )
}

/// The same of letters of three bytes, by the first two of them.
#[inline(always)]
fn three_offsets(first: u8x16, second: u8x16) -> u64
    ensures bits { (i : ℕ) → i < 16 → has_bit result i ≡ begins_three (slice_index first i) (slice_index second i) }
    ensures above { (i : ℕ) → 16 ≤ i → has_bit result i ≡ false }
{
    common_offsets(
        classes(THREE_FIRST_LOW, THREE_FIRST_HIGH, first),
        classes(THREE_SECOND_LOW, THREE_SECOND_HIGH, second),
    )
}

/// The lowest offset at which no bit is set.
#[inline(always)]
fn first_zero(mask: u64) -> usize
    requires { has_bit mask 63 ≡ false }
    ensures within { result < 64 }
    ensures zero { has_bit mask result ≡ false }
    ensures below { (i : ℕ) → i < result → has_bit mask i ≡ true }
{
    (!mask).trailing_zeros() as usize
}

/// How many bytes of ASCII and of such letters of two bytes are at the start of these.
#[inline(always)]
fn two_front(bytes: &[u8]) -> usize
    requires { 18 ≤ length bytes.now }
    ensures own { AreOwn bytes.now result }
    ensures few { result ≤ 64 }
{
    let first = load(bytes, 0);
    let begins = two_offsets(first, load(bytes, 1));
    let known = ascii_offsets(first) | begins | begins << 1;
    first_zero(known)
}

/// How many bytes of ASCII and of such letters of three bytes are at the start of these.
#[inline(always)]
fn three_front(bytes: &[u8]) -> usize
    requires { 18 ≤ length bytes.now }
    ensures own { AreOwn bytes.now result }
    ensures few { result ≤ 64 }
{
    let first = load(bytes, 0);
    let begins = three_offsets(first, load(bytes, 1)) & offsets_on(load(bytes, 2));
    let seconds = begins << 1;
    let known = ascii_offsets(first) | begins | seconds | seconds << 1;
    first_zero(known)
}

/// At which of 16 offsets a byte beyond ASCII is.
#[inline(always)]
fn high_offsets(lanes: u8x16) -> u64
    ensures { result ≡ mask_l (map (λ b. nat_le 128 b) lanes) }
{
    lanes.simd_ge(u8x16::splat(0x80)).to_bitmask()
}

/// Whether the first 16 of these bytes are of ASCII.
#[inline(always)]
fn begins_with_ascii(bytes: &[u8]) -> bool
    requires { 16 ≤ length bytes.now }
    ensures { IsTrue result → AreOwn bytes.now 16 }
{
    high_offsets(u8x16::from_slice(bytes)) == 0
}

/// How many bytes stay as they are at the start of these, of the first 18, as far as lanes show it.
#[inline(always)]
pub(crate) fn own_front(bytes: &[u8]) -> usize
    requires { 0 < length bytes.now }
    ensures own { AreOwn bytes.now result }
    ensures few { result ≤ 64 }
{
    let first = bytes[0];
    if bytes.len() < AT_ONCE + LONGEST - 1 {
        return if first.is_ascii() { 1 } else { 0 };
    }
    if begins_with_ascii(bytes) {
        return AT_ONCE;
    }
    if first < THREE {
        return two_front(bytes);
    }
    if first == SIGN {
        return 0;
    }
    three_front(bytes)
}
