//! What 64 bytes say by themselves, by lanes.
ghost use Rattle.std.specs.Prelude.{◌≡◌, ℕ, suc, ◌+◌, ◌-◌, ◌*◌, ◌<◌, ◌≤◌, ◌++◌, length, replicate, slice_index, map, ◌==◌, nat_le, if◌then◌else◌};
ghost use Rattle.std.specs.Char.{to_ascii_lowercase};
ghost use Rattle.lic_letters.specs.Bytes.{is_word, is_mark, is_feed, letter};
ghost use Rattle.lic_columns.specs.Classes.{class_by_low, class_by_high, class_of};
ghost use Rattle.lic_columns.specs.Masks.{IsMask};
ghost use Rattle.lic_columns.specs.Marks.{is_joining};
ghost use Rattle.lic_trim.specs.PieceLengths.{has_bit};

use std::simd::prelude::*;

/// How many bytes a block has.
pub const SIZE: usize = 64;

/// Classes by the low half of a byte, four times over: a byte is of a class that both of its halves have.
const LOW: [u8; SIZE] = [
    18, 4, 4, 4, 4, 4, 4, 4, 4, 5, 13, 109, 109, 109, 108, 44, 18, 4, 4, 4, 4, 4, 4, 4, 4, 5, 13,
    109, 109, 109, 108, 44, 18, 4, 4, 4, 4, 4, 4, 4, 4, 5, 13, 109, 109, 109, 108, 44, 18, 4, 4, 4,
    4, 4, 4, 4, 4, 5, 13, 109, 109, 109, 108, 44,
];

/// Classes by the high half of a byte.
const HIGH: [u8; SIZE] = [
    1, 0, 6, 8, 16, 32, 16, 64, 0, 0, 0, 0, 0, 0, 0, 0, 1, 0, 6, 8, 16, 32, 16, 64, 0, 0, 0, 0, 0,
    0, 0, 0, 1, 0, 6, 8, 16, 32, 16, 64, 0, 0, 0, 0, 0, 0, 0, 0, 1, 0, 6, 8, 16, 32, 16, 64, 0, 0,
    0, 0, 0, 0, 0, 0,
];

// The low half of a byte.
const LOW_HALF: u8 = 15;

// How many bits are below the high half of a byte.
const HALF: u8 = 4;

// The class of the bytes of words.
const WORD: u8 = 0;

// The least class of marks. Those below are of words and of white space.
const LEAST_MARK: u8 = 3;

// How many letters ASCII has.
const LETTERS: u8 = 26;

// The bit that a small letter of ASCII has, and its capital has not.
const SMALL: u8 = 32;

/// What is known of the bytes of a block. Bit k of a mask is about byte k.
#[derive(Drop)]
pub struct Block {
    pub letters: u8x64,
    pub word: u64,
    pub mark: u64,
    pub feed: u64,
}

#[inline(always)]
fn classes_by_low(bytes: u8x64) -> u8x64
    ensures { result ≡ map class_by_low bytes }
{
    u8x64::from_array(LOW).swizzle_dyn_within::<16>(bytes & u8x64::splat(LOW_HALF))
}

#[inline(always)]
fn classes_by_high(bytes: u8x64) -> u8x64
    ensures { result ≡ map class_by_high bytes }
{
    u8x64::from_array(HIGH).swizzle_dyn_within::<16>(bytes >> u8x64::splat(HALF))
}

#[inline(always)]
fn classes(bytes: u8x64) -> u8x64
    ensures { result ≡ map class_of bytes }
{
    classes_by_low(bytes) & classes_by_high(bytes)
}

/// At which offsets a lane is this one.
#[inline(always)]
pub fn offsets_of(lane: u8, lanes: u8x64) -> u64
    ensures { IsMask result (map (λ b. b == lane) lanes) }
{
    lanes.simd_eq(u8x64::splat(lane)).to_bitmask()
}

/// At which offsets a lane is at least this one.
#[inline(always)]
fn offsets_from(least: u8, lanes: u8x64) -> u64
    ensures { IsMask result (map (λ b. nat_le least b) lanes) }
{
    lanes.simd_ge(u8x64::splat(least)).to_bitmask()
}

/// The small letter in place of each capital.
#[inline(always)]
fn lowered(bytes: u8x64) -> u8x64
    ensures { result ≡ map to_ascii_lowercase bytes }
{
    let is_capital = (bytes - u8x64::splat(b'A')).simd_lt(u8x64::splat(LETTERS));
    bytes | is_capital.select(u8x64::splat(SMALL), u8x64::splat(0))
}

/// The letter of each byte: all quotes have one.
#[inline(always)]
fn letters(bytes: u8x64) -> u8x64
    ensures { result ≡ map letter bytes }
{
    let is_quote = bytes.simd_eq(u8x64::splat(b'"')) | bytes.simd_eq(u8x64::splat(b'`'));
    is_quote.select(u8x64::splat(b'\''), lowered(bytes))
}

/// What the bytes of a block say.
#[inline(always)]
pub fn read_block(bytes: u8x64) -> Block
    ensures letters { result.letters ≡ map letter bytes }
    ensures word { IsMask result.word (map is_word bytes) }
    ensures mark { IsMask result.mark (map is_mark bytes) }
    ensures feed { IsMask result.feed (map is_feed bytes) }
{
    let classes = classes(bytes);
    Block {
        letters: letters(bytes),
        word: offsets_of(WORD, classes),
        mark: offsets_from(LEAST_MARK, classes),
        feed: offsets_of(b'\n', bytes),
    }
}

/// The bytes, and blanks up to the end of a block.
pub(crate) fn padded(bytes: &[u8]) -> u8x64
    requires { length bytes.now ≤ 64 }
    ensures { result ≡ bytes.now ++ replicate (64 - length bytes.now) 32 }
{
    let mut block = [b' '; SIZE];
    block[..bytes.len()].copy_from_slice(bytes);
    u8x64::from_array(block)
}

/// 64 bytes from an offset on; after the end of the bytes there are blanks.
#[inline(always)]
fn load(bytes: &[u8], at: usize) -> u8x64
    requires { at ≤ length bytes.now }
    ensures long { length result ≡ 64 }
    ensures bytes { (i : ℕ) → i < 64 → at + i < length bytes.now
        → slice_index result i ≡ slice_index bytes.now (at + i) }
{
    if bytes.len() - at >= SIZE {
        u8x64::from_slice(&bytes[at..])
    } else {
        padded(&bytes[at..])
    }
}

/// At which of the 64 offsets from 64 * k on a byte is the same as the next.
#[inline(always)]
pub(crate) fn same_offsets(bytes: &[u8], k: usize) -> u64
    requires { k * 64 < length bytes.now }
    ensures { (i : ℕ) → i < 64 → k * 64 + suc i < length bytes.now
        → has_bit result i ≡ (slice_index bytes.now (k * 64 + i) == slice_index bytes.now (k * 64 + suc i)) }
{
    let at = k * SIZE;
    load(bytes, at).simd_eq(load(bytes, at + 1)).to_bitmask()
}

/// At which of the 64 offsets from 64 * k on the letter of quotes or of dashes is.
#[inline(always)]
pub(crate) fn joining_offsets(letters: &[u8], k: usize) -> u64
    requires { k * 64 < length letters.now }
    ensures { (i : ℕ) → i < 64 → k * 64 + i < length letters.now
        → has_bit result i ≡ is_joining (slice_index letters.now (k * 64 + i)) }
{
    let lanes = load(letters, k * SIZE);
    offsets_of(b'\'', lanes) | offsets_of(b'-', lanes)
}
