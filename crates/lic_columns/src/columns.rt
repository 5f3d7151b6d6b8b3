//! A text in columns.
ghost use Rattle.std.specs.Prelude.{◌≡◌, ℕ, ◌+◌, ◌-◌, ◌%◌, ◌^◌, ◌<◌, ◌≤◌, ◌++◌, [], true, false, length, take, replicate, slice_index, IfOk};
ghost use Rattle.lic_columns.specs.Masks.{flag_at};
ghost use Rattle.lic_columns.specs.Known.{HasLength, known_of, followed_by, blanked};

mod search;

use crate::block::{SIZE, padded, read_block};
use crate::columns::search::first_set;
use crate::flags::Flags;
use std::alloc::{AllocError, Global};
use std::marker::Model;
use std::simd::prelude::*;

/// What is known of each byte of a text: its letter, and a flag for each thing that it may be.
#[derive(Drop, Debug)]
pub struct Columns {
    letters: Vec<u8>,
    word: Flags,
    mark: Flags,
    feed: Flags,
}

impl Model for Columns {
    ghost use Rattle.lic_columns.specs.Known.{Known};

    ghost Value = { Known };

    ghost view = { λ c. record { letters = c.letters.items; word = c.word; mark = c.mark; feed = c.feed } };
}

impl Columns {
    /// The columns of an empty text.
    pub fn new(alloc: Global) -> Columns
        ensures { result ≡ known_of [] }
    {
        Columns {
            letters: Vec::new(alloc),
            word: Flags::new(alloc),
            mark: Flags::new(alloc),
            feed: Flags::new(alloc),
        }
    }

    /// How many bytes the text has.
    #[inline(always)]
    pub fn len(&self) -> usize
        ensures { result ≡ length self.now.letters }
    {
        self.letters.len()
    }

    /// The letter of each byte.
    #[inline(always)]
    pub fn letters(&self) -> &[u8]
        ensures { result.now ≡ self.now.letters }
    {
        &self.letters
    }

    /// Which bytes are of words.
    #[inline(always)]
    pub fn word(&self) -> &Flags
        ensures { result.now ≡ self.now.word }
    {
        &self.word
    }

    /// Which bytes are marks.
    #[inline(always)]
    pub fn mark(&self) -> &Flags
        ensures { result.now ≡ self.now.mark }
    {
        &self.mark
    }

    /// Reads a text; what was held before is let go of, and its memory is kept.
    ///
    /// # Errors
    /// Memory ran out. What it then holds is not said.
    pub fn read(&mut self, bytes: &[u8]) -> Result<(), AllocError>
        ensures { IfOk result (λ _. self.new ≡ known_of bytes.now) }
    {
        self.start(bytes.len())?;
        let mut at = 0;
        while bytes.len() - at >= SIZE {
            self.push_block(u8x64::from_slice(&bytes[at..]), SIZE)?;
            at += SIZE;
        }
        if at < bytes.len() {
            self.push_block(padded(&bytes[at..]), bytes.len() - at)?;
        }
        Ok(())
    }

    /// Lets go of what is held, and makes the lists long enough for `len` bytes.
    fn start(&mut self, len: usize) -> Result<(), AllocError>
        ensures { IfOk result (λ _. self.new ≡ known_of []) }
    {
        self.letters.clear();
        self.letters.reserve(len)?;
        self.word.start(len)?;
        self.mark.start(len)?;
        self.feed.start(len)?;
        Ok(())
    }

    /// Adds some bytes, after whole blocks; blanks come after them.
    #[inline(always)]
    fn push_block(&mut self, bytes: u8x64, count: usize) -> Result<(), AllocError>
        requires whole { HasLength (length self.old.letters) self.old }
        requires blocks { length self.old.letters % 64 ≡ 0 }
        requires some { 0 < count }
        requires count { count ≤ 64 }
        requires bounded { length self.old.letters + count < 2 ^ 64 }
        requires blank { (k : ℕ) → count ≤ k → k < 64 → slice_index bytes k ≡ 32 }
        ensures { IfOk result (λ _. self.new ≡ followed_by self.old (known_of (take count bytes))) }
    {
        let block = read_block(bytes);
        self.letters
            .extend_from_slice(&block.letters.to_array()[..count])?;
        self.word.push(block.word, count)?;
        self.mark.push(block.mark, count)?;
        self.feed.push(block.feed, count)?;
        Ok(())
    }

    /// Where the line ends of which this byte is a part: after the first line feed at this offset or later, or at the
    /// end of the text.
    #[inline]
    pub fn line_end(&self, at: usize) -> usize
        requires { at ≤ length self.now.feed }
        ensures after { at ≤ result }
        ensures within { result ≤ length self.now.feed }
        ensures one { (k : ℕ) → at ≤ k → k + 1 < result → flag_at self.now.feed k ≡ false }
        ensures ended { result < length self.now.feed → (at < result) × (flag_at self.now.feed (result - 1) ≡ true) }
    {
        let end = self.feed.len();
        match first_set(&self.feed, at) {
            Some(feed) => feed + 1,
            None => end,
        }
    }

    /// Takes the bytes of a range away: they count as blanks.
    #[inline]
    pub fn clear(&mut self, from: usize, to: usize)
        requires order { from ≤ to }
        requires word { to ≤ length self.old.word }
        requires mark { to ≤ length self.old.mark }
        ensures { self.new ≡ blanked from to self.old }
    {
        self.word.clear(from, to);
        self.mark.clear(from, to);
    }
}
