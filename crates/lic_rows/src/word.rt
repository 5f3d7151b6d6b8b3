//! Arithmetic on one word.

ghost use Rattle.std.specs.Prelude.{◌≡◌, ◌≢◌, ℕ, ◌-◌, ◌≤◌, ◌<◌, if◌then◌else◌};
ghost use Rattle.std.specs.Int.{bit_at};

/// How many bits a word has.
pub const WORD: usize = 64;

/// The number of the highest bit of a word.
pub const TOP: usize = WORD - 1;

/// The bits of `low` below bit `at`, and those of `high` from there on.
#[inline(always)]
pub fn spliced(low: u64, high: u64, at: usize) -> u64
    requires { at < 64 }
    ensures below { (i : ℕ) → i < at → bit_at result i ≡ bit_at low i }
    ensures above { (i : ℕ) → at ≤ i → i < 64 → bit_at result i ≡ bit_at high i }
{
    let mask = (1u64 << at) - 1;
    (low & mask) | (high & !mask)
}

/// The word with that bit set or clear.
#[inline(always)]
pub fn with_bit(word: u64, at: usize, is_set: bool) -> u64
    requires { at < 64 }
    ensures here { bit_at result at ≡ (if is_set then 1 else 0) }
    ensures other { (i : ℕ) → i < 64 → i ≢ at → bit_at result i ≡ bit_at word i }
{
    let bit = 1u64 << at;
    if is_set { word | bit } else { word & !bit }
}

/// The bits that the other word has and the first has not.
#[inline(always)]
pub fn fresh(word: u64, other: u64) -> u64
    ensures { (i : ℕ) → i < 64 → bit_at result i ≡ bit_at other i - bit_at word i }
{
    other & !word
}
