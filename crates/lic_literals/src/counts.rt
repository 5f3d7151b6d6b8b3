//! How often windows occur in literals.

ghost use Rattle.std.specs.Prelude.{◌≡◌, ◌+◌, ◌≤◌, length, IfOk};

use crate::grams::{LONG_GRAM, SHORT_GRAM, hash};
use std::alloc::{AllocError, Global};

// How many bits of a hash, the highest, are the number of a counter.
const COUNTER_BITS: u32 = 16;

// How many counters there are.
const COUNTERS: usize = 1 << COUNTER_BITS;

// By how many bits the hash of the first bytes is turned before that of the last ones is put onto it.
const TURN: u32 = 23;

// How many windows of a literal are counted, the first ones: one of these is rare enough, and a set of long texts is made soon.
const MOST_WINDOWS: usize = 512;

/// How often windows occur in literals, counted by their hashes.
#[derive(Debug, Drop)]
pub struct Counts {
    counters: Vec<u16>,
}

impl Counts {
    /// Counters that have counted nothing.
    pub fn new(alloc: Global) -> Result<Counts, AllocError>
        ensures { IfOk result (λ counts. length counts.counters.items ≡ 65536) }
    {
        Ok(Counts {
            counters: vec![in alloc; 0u16; COUNTERS]?,
        })
    }

    /// Counts the first windows of `size` bytes in one more literal.
    pub fn add(&mut self, literal: &[u8], size: usize)
        requires { 4 ≤ size }
    {
        for window in literal.windows(size).take(MOST_WINDOWS) {
            let counter = counter_of(window);
            if let Some(count) = self.counters.get_mut(counter) {
                *count = count.saturating_add(1);
            }
        }
    }

    /// Where, among the first windows of `size` bytes, the one begins that was counted least; of several such the first.
    pub fn rarest(&self, literal: &[u8], size: usize) -> usize
        requires long { 4 ≤ size }
        requires within { size ≤ length literal.now }
        ensures { result + size ≤ length literal.now }
    {
        let mut rarest = 0;
        let mut least = u16::MAX;
        for offset in 0..(literal.len() - (size - 1)).min(MOST_WINDOWS) {
            let count = self.count(&literal[offset..offset + size]);
            if count < least {
                least = count;
                rarest = offset;
            }
        }
        rarest
    }

    // How often a window was counted, and perhaps some others.
    fn count(&self, window: &[u8]) -> u16
        requires { 4 ≤ length window.now }
    {
        let counter = counter_of(window);
        self.counters.get(counter).copied().unwrap_or(u16::MAX)
    }
}

// The number of the counter of a window: by its first bytes and its last ones.
#[inline(always)]
fn counter_of(window: &[u8]) -> usize
    requires { 4 ≤ length window.now }
{
    let gram = if window.len() < LONG_GRAM {
        SHORT_GRAM
    } else {
        LONG_GRAM
    };
    let last = hash(&window[window.len() - gram..]);
    let spread = hash(window).rotate_left(TURN) ^ last;
    (spread >> (u64::BITS - COUNTER_BITS)) as usize
}
