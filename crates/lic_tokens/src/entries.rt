//! What is kept of tokens beside their spelling.
ghost use Rattle.std.specs.Prelude.{◌≡◌, ◌≢◌, ◌++◌, ◌∷◌, ◌-◌, ◌<◌, [], ℕ, length, slice_index_or, IfOk, IfSome, None, OnErr, OnOk};
ghost use Rattle.lic_tokens.specs.Entries.{AreNear, Entry, entries_by};

use std::alloc::{AllocError, Global};
use std::marker::Model;

/// The bytes of the source that a token was made from.
#[derive(Clone, Copy, Debug)]
pub struct SourceBytes {
    pub start: u32,
    pub end: u32,
}

/// Of each token where its text ends in the canonical spelling, and its bytes of the source.
#[derive(Debug, Drop)]
pub(crate) struct Entries {
    /// Where the texts of the first tokens end: of all, mostly.
    near: Vec<u32>,
    /// Where those of the others end, from the first on of which 32 bits do not say it.
    far: Vec<usize>,
    sources: Vec<SourceBytes>,
}

impl Model for Entries {
    ghost use Rattle.std.specs.Prelude.{List, ◌++◌, ◌≡◌, [], length};
    ghost use Rattle.lic_tokens.specs.Entries.{AreNear, Entry, entries_by};

    ghost Value = { List Entry };

    ghost view = { λ e. entries_by (e.near.items ++ e.far.items) e.sources.items };

    ghost invariant = { λ e. (length (e.near.items ++ e.far.items) ≡ length e.sources.items)
        × (AreNear (entries_by (e.near.items ++ e.far.items) e.sources.items) → e.far.items ≡ []) };
}

impl Entries {
    ghost use Rattle.lic_tokens.specs.Entries.{Entry};

    /// No entries.
    pub(crate) fn new(alloc: Global) -> Entries
        ensures { result ≡ [] }
    {
        Entries {
            near: Vec::new(alloc),
            far: Vec::new(alloc),
            sources: Vec::new(alloc),
        }
    }

    /// No entries yet, with memory for a number of them.
    pub(crate) fn with_capacity(alloc: Global, count: usize) -> Result<Entries, AllocError>
        ensures { IfOk result (λ entries. entries ≡ []) }
    {
        let near = Vec::with_capacity(alloc, count)?;
        let sources = Vec::with_capacity(alloc, count)?;
        Ok(Entries {
            near,
            far: Vec::new(alloc),
            sources,
        })
    }

    /// Takes all entries away, and keeps their memory.
    pub(crate) fn clear(&mut self)
        ensures { self.new ≡ [] }
    {
        self.near.clear();
        self.far.clear();
        self.sources.clear();
    }

    /// Takes memory for `count` entries more.
    pub(crate) fn reserve(&mut self, count: usize) -> Result<(), AllocError>
        ensures { self.new ≡ self.old }
    {
        self.near.reserve(count)?;
        self.sources.reserve(count)?;
        Ok(())
    }

    /// How many there are.
    #[inline(always)]
    pub(crate) fn len(&self) -> usize
        ensures { result ≡ length self.now }
    {
        self.sources.len()
    }

    /// Adds the entry of a token.
    #[inline(always)]
    pub(crate) fn push(&mut self, text_end: usize, source: SourceBytes) -> Result<(), AllocError>
        ensures added { OnOk result (self.new
            ≡ self.old
            ++ (record { text_end = text_end; start = source.start; end = source.end }) ∷ []) }
        ensures stays { OnErr result (self.new ≡ self.old) }
    {
        // Memory comes first: once a place is added, nothing fails.
        self.sources.reserve(1)?;
        if self.far.is_empty() && text_end <= u32::MAX as usize {
            self.near.push(text_end as u32)?;
        } else {
            self.far.push(text_end)?;
        }
        self.sources.push(source)?;
        Ok(())
    }

    /// Adds entries of tokens, whose texts end where 32 bits say it, as do all before.
    #[inline(always)]
    pub(crate) fn extend(&mut self, ends: &[u32], sources: &[SourceBytes]) -> Result<(), AllocError>
        requires paired { length ends.now ≡ length sources.now }
        requires near { 0 < length ends.now → AreNear self.old }
        ensures added { OnOk result (self.new ≡ self.old ++ entries_by ends.now sources.now) }
        ensures stays { OnErr result (self.new ≡ self.old) }
    {
        self.sources.reserve(sources.len())?;
        self.near.extend_from_slice(ends)?;
        self.sources.extend_from_slice(sources)?;
        Ok(())
    }

    /// Where the text of the token number `i` ends.
    pub(crate) fn text_end(&self, i: usize) -> usize
        requires { i < length self.now }
        ensures { (d : Entry) → result ≡ (slice_index_or self.now i d).text_end }
    {
        if i < self.near.len() {
            self.near[i] as usize
        } else {
            self.far[i - self.near.len()]
        }
    }

    /// Where the texts of the token before the number `i` and of this one end, if there is one before and 32 bits say both.
    #[inline(always)]
    pub(crate) fn near_ends(&self, i: usize) -> Option<(usize, usize)>
        requires { i < length self.now }
        ensures some { IfSome result (λ ends. 0 < i) }
        ensures before { IfSome result (λ ends. (d : Entry) → ends.0 ≡ (slice_index_or self.now (i - 1) d).text_end) }
        ensures end { IfSome result (λ ends. (d : Entry) → ends.1 ≡ (slice_index_or self.now i d).text_end) }
    {
        let before = i.wrapping_sub(1);
        if before < self.near.len().saturating_sub(1) {
            return Some((self.near[before] as usize, self.near[i] as usize));
        }
        None
    }

    /// Where all texts end, and the bytes of the source, if 32 bits say where.
    #[inline(always)]
    pub(crate) fn near(&self) -> Option<(&[u32], &[SourceBytes])>
        ensures paired { IfSome result (λ near. length near.0.now ≡ length near.1.now) }
        ensures entries { IfSome result (λ near. entries_by near.0.now near.1.now ≡ self.now) }
        ensures all { AreNear self.now → result ≢ None }
    {
        if !self.far.is_empty() {
            return None;
        }
        Some((self.near.as_slice(), self.sources.as_slice()))
    }

    /// The bytes of the source of the token number `i`.
    #[inline(always)]
    pub(crate) fn source(&self, i: usize) -> SourceBytes
        requires { i < length self.now }
        ensures start { (d : Entry) → result.start ≡ (slice_index_or self.now i d).start }
        ensures end { (d : Entry) → result.end ≡ (slice_index_or self.now i d).end }
    {
        self.sources[i]
    }
}
