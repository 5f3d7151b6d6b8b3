//! Prefilters of lines: which two characters the texts of line rules begin with, on the way from a side of a line.
ghost use Rattle.std.specs.Prelude.{◌≡◌, ◌<◌, ℕ, List, reverse, true, false, length, slice_index, IfSome};
ghost use Rattle.lic_kind.specs.Beginnings.{AreEndsKnown, AreFrontsKnown, Grows, IsKnown, bit_of, has_bit, may_begin, slot_of};
ghost use Rattle.lic_kind.specs.TextLists.{texts_of};

use crate::texts::Texts;

/// How many slots a table has. All characters from the last one on share it.
const SLOTS: usize = 256;

/// The highest bit of a mask. All texts from this number on share it.
const HIGHEST: usize = 63;

/// Which texts of a side of a line begin with which two characters, on the way from there. Each has a bit.
#[derive(Drop)]
pub(crate) struct Beginnings {
    /// The texts that begin with a character.
    firsts: [u64; SLOTS],
    /// Those that have it second.
    seconds: [u64; SLOTS],
    /// Those that have no second one.
    alone: u64,
}

/// The slot of a character.
#[inline(always)]
fn slot(c: char) -> usize
    ensures { result ≡ slot_of c }
{
    (c as usize).min(SLOTS - 1)
}

/// A mask with the bit of text i of a kind whose texts have the bits from this one on.
fn bit(from: usize, i: usize) -> u64
    requires { from < 64 }
    ensures { has_bit result (bit_of from i) ≡ true }
{
    1 << (from + i.min(HIGHEST - from))
}

impl Beginnings {
    pub(crate) fn none() -> Beginnings {
        Beginnings {
            firsts: [0; SLOTS],
            seconds: [0; SLOTS],
            alone: 0,
        }
    }

    /// From now on any text may begin with any two characters.
    fn open(&mut self)
        ensures { (k : ℕ) (text : List ℕ) → k < 64 → IsKnown self.new k text }
    {
        self.firsts = [u64::MAX; SLOTS];
        self.alone = u64::MAX;
    }

    /// Adds a text of `size` characters by its bit; `first` and `second` are its first two, if it has two. Where it begins in white space,
    /// no line shows where it may begin.
    fn add(&mut self, bit: u64, size: usize, first: char, second: char)
        ensures known { (k : ℕ) (text : List ℕ) → k < 64 → has_bit bit k ≡ true → length text ≡ size → 0 < size
            → slice_index text 0 ≡ first → (1 < size → slice_index text 1 ≡ second) → IsKnown self.new k text }
        ensures grows { Grows self.old self.new }
    {
        if first.is_whitespace() {
            self.open();
            return;
        }
        let at = slot(first);
        self.firsts[at] |= bit;
        if size < 2 {
            self.alone |= bit;
            return;
        }
        let next = slot(second);
        self.seconds[next] |= bit;
    }

    /// Adds a text by its bit and its first two characters.
    fn add_front(&mut self, bit: u64, text: &[char])
        ensures known { (k : ℕ) → k < 64 → has_bit bit k ≡ true → IsKnown self.new k text.now }
        ensures grows { Grows self.old self.new }
    {
        if text.is_empty() {
            self.open();
            return;
        }
        let last = text.len() - 1;
        self.add(bit, text.len(), text[0], text[last.min(1)]);
    }

    /// Adds a text by its bit and its last two characters.
    fn add_end(&mut self, bit: u64, text: &[char])
        ensures known { (k : ℕ) → k < 64 → has_bit bit k ≡ true → IsKnown self.new k (reverse text.now) }
        ensures grows { Grows self.old self.new }
    {
        if text.is_empty() {
            self.open();
            return;
        }
        let last = text.len() - 1;
        self.add(bit, text.len(), text[last], text[last - last.min(1)]);
    }

    /// Adds texts by their first characters, with the bits from this one on.
    pub(crate) fn add_fronts(&mut self, from: usize, texts: &Texts)
        requires { from < 64 }
        ensures known { AreFrontsKnown self.new from (texts_of texts.now) }
        ensures grows { Grows self.old self.new }
    {
        for i in 0..texts.len() {
            self.add_front(bit(from, i), texts.characters(i));
        }
    }

    /// Adds texts by their last characters, with the bits from this one on.
    pub(crate) fn add_ends(&mut self, from: usize, texts: &Texts)
        requires { from < 64 }
        ensures known { AreEndsKnown self.new from (texts_of texts.now) }
        ensures grows { Grows self.old self.new }
    {
        for i in 0..texts.len() {
            self.add_end(bit(from, i), texts.characters(i));
        }
    }

    /// Which texts may begin with these two characters. Nothing is said where one may that has no bit of its own.
    #[inline(always)]
    pub(crate) fn begun(&self, first: char, second: char) -> Option<u64>
        ensures known { IfSome result (λ mask. (k : ℕ) (text : List ℕ) → IsKnown self.now k text → may_begin first second text ≡ true
            → has_bit mask k ≡ true) }
        ensures own { IfSome result (λ mask. has_bit mask 63 ≡ false) }
    {
        let firsts = self.firsts[slot(first)];
        let seconds = self.seconds[slot(second)];
        let mask = firsts & (seconds | self.alone);
        if mask >> HIGHEST != 0 {
            return None;
        }
        Some(mask)
    }
}
