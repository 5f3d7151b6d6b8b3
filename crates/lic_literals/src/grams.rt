//! Grams, a few bytes side by side, and their hashes.

ghost use Rattle.std.specs.Prelude.{◌≡◌, ◌<◌, ◌≤◌, length, take};
ghost use Rattle.std.specs.Int.{w32, w64, from_le_bytes};
ghost use Rattle.lic_literals.specs.Hashes.{hash_of, gram_flag, start_flag};

use crate::flags::FLAGS;

// An odd number, the bits of which follow no pattern: a word times it spreads over the high bits of a hash.
const SPREAD: u64 = 0x9E37_79B9_7F4A_7C15;

/// How many bytes of a gram are hashed, if it has them.
pub const LONG_GRAM: usize = 8;

/// How many bytes of a shorter gram are hashed.
pub const SHORT_GRAM: usize = 4;

// How far up in a hash the bits are that number a flag: the highest 18.
const FLAG_BITS: u32 = 46;

// How far up in a hash the bits are that number a flag together with an offset: the next 15.
const NEXT_BITS: u32 = 31;

// How many offsets in a window a flag has bits for.
const STARTS: usize = 8;

/// The hash of a gram: its first eight bytes, or its first four where it has fewer, as a word, times a number.
#[inline(always)]
pub fn hash(gram: &[u8]) -> u64
    requires { 4 ≤ length gram.now }
    ensures { result ≡ hash_of gram.now }
{
    let word = if gram.len() < LONG_GRAM {
        u64::from(short_word(gram))
    } else {
        long_word(gram)
    };
    word.wrapping_mul(SPREAD)
}

#[inline(always)]
fn long_word(gram: &[u8]) -> u64
    requires { 8 ≤ length gram.now }
    ensures { result ≡ from_le_bytes w64 (take 8 gram.now) }
{
    u64::from_le_bytes([
        gram[0], gram[1], gram[2], gram[3], gram[4], gram[5], gram[6], gram[7],
    ])
}

#[inline(always)]
fn short_word(gram: &[u8]) -> u32
    requires { 4 ≤ length gram.now }
    ensures { result ≡ from_le_bytes w32 (take 4 gram.now) }
{
    u32::from_le_bytes([gram[0], gram[1], gram[2], gram[3]])
}

/// The flag of a gram with this hash.
#[inline(always)]
pub fn flag_of(hash: u64) -> usize
    ensures value { result ≡ gram_flag hash }
    ensures below { result < 262144 }
{
    (hash >> FLAG_BITS) as usize % FLAGS
}

/// The flag of a gram with this hash that begins at this byte of a window.
#[inline(always)]
pub fn start_flag_of(hash: u64, start: usize) -> usize
    requires { start < 8 }
    ensures value { result ≡ start_flag hash start }
    ensures below { result < 262144 }
{
    (hash >> NEXT_BITS) as usize % (FLAGS / STARTS) * STARTS + start
}
