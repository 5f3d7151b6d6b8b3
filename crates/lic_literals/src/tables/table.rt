//! Windows of one length, and where they occur in bytes.

ghost use Rattle.std.specs.Prelude.{◌≡◌, ◌+◌, ◌<◌, ◌≤◌, ℕ, List, Some, length, IfOk, OnOk};
ghost use Rattle.memchr.specs.Find.{OccursAt};
ghost use Rattle.lic_literals.specs.Hashes.{hash_of};
ghost use Rattle.lic_literals.specs.Sizes.{AreSizes, gram_at};

use crate::flags::Flags;
use crate::grams::{flag_of, hash, start_flag_of};
use crate::hits::Hits;
use std::alloc::{AllocError, Global};
use std::collections::HashMap;

/// Windows of one length in bytes, each with a number.
///
/// Every `STEP`-th offset of the bytes is looked at: wherever a window is, one of its first `STEP` grams begins there.
#[derive(Drop)]
pub struct Table<const LENGTH: usize, const GRAM: usize, const STEP: usize> {
    // the flags of the first grams of the windows
    grams: Flags,
    // the flags of these grams together with where they begin in their windows
    starts: Flags,
    numbers: HashMap<[u8; LENGTH], usize>,
}

impl<const LENGTH: usize, const GRAM: usize, const STEP: usize> Table<LENGTH, GRAM, STEP> {
    ghost use Rattle.lic_literals.specs.Tables.{AddsWindow, HasNone, FlagsWindow, NotesWhere, number_of};

    /// A table without windows.
    pub fn new(alloc: Global) -> Result<Table<LENGTH, GRAM, STEP>, AllocError>
        requires { AreSizes LENGTH GRAM STEP }
        ensures { IfOk result (λ table. HasNone table) }
    {
        Ok(Table {
            grams: Flags::new(alloc)?,
            starts: Flags::new(alloc)?,
            numbers: HashMap::new(alloc),
        })
    }

    /// The number of the window; the one that is given, where the window is new.
    pub fn add(&mut self, window: &[u8; LENGTH], number: usize) -> Result<usize, AllocError>
        requires { AreSizes LENGTH GRAM STEP }
        ensures { IfOk result (λ answer. AddsWindow window.now number answer self.old self.new) }
    {
        self.flag(window);
        if let Some(known) = self.numbers.get(window).copied() {
            return Ok(known);
        }
        self.numbers.insert(*window, number)?;
        Ok(number)
    }

    // Flags the first grams of a window.
    fn flag(&mut self, window: &[u8])
        requires sizes { AreSizes LENGTH GRAM STEP }
        requires length { length window.now ≡ LENGTH }
        ensures { FlagsWindow window.now self.old self.new }
    {
        for start in 0..STEP {
            let hash = hash(&window[start..start + GRAM]);
            self.grams.add(flag_of(hash));
            self.starts.add(start_flag_of(hash, start));
        }
    }

    /// Notes each offset at which a window occurs in the bytes.
    pub fn note_all(&self, bytes: &[u8], hits: &mut Hits) -> Result<(), AllocError>
        requires sizes { AreSizes LENGTH GRAM STEP }
        ensures { OnOk result (NotesWhere self.now bytes.now (λ _. Unit {0}) hits.old hits.new) }
    {
        if self.numbers.is_empty() {
            return Ok(());
        }
        let mut offset = 0;
        while offset + GRAM <= bytes.len() {
            let hash = hash(&bytes[offset..offset + GRAM]);
            if self.grams.has(flag_of(hash)) {
                self.note_around(bytes, offset, hash, hits)?;
            }
            offset += STEP;
        }
        Ok(())
    }

    // Notes each window that occurs in the bytes so that one of its first grams is the one at this offset, which has this hash.
    #[inline(never)]
    fn note_around(
        &self,
        bytes: &[u8],
        offset: usize,
        hash: u64,
        hits: &mut Hits,
    ) -> Result<(), AllocError>
        requires sizes { AreSizes LENGTH GRAM STEP }
        requires offset { offset ≤ length bytes.now }
        requires hash { hash ≡ hash_of (gram_at GRAM bytes.now offset) }
        ensures { OnOk result
            (NotesWhere self.now bytes.now (λ p. (p ≤ offset) × (offset < p + STEP)) hits.old hits.new) }
    {
        for back in 0..STEP {
            let start = STEP - 1 - back;
            if start <= offset && self.starts.has(start_flag_of(hash, start)) {
                self.note_at(bytes, offset - start, hits)?;
            }
        }
        Ok(())
    }

    // Notes the window that the bytes have at this offset, if there is one.
    fn note_at(&self, bytes: &[u8], offset: usize, hits: &mut Hits) -> Result<(), AllocError>
        requires sizes { AreSizes LENGTH GRAM STEP }
        requires offset { offset ≤ length bytes.now }
        ensures { OnOk result (NotesWhere self.now bytes.now (λ p. p ≡ offset) hits.old hits.new) }
    {
        if let Some(number) = self.number_at(bytes, offset) {
            hits.note(number, offset)?;
        }
        Ok(())
    }

    // The number of the window that the bytes have at this offset, if there is one.
    fn number_at(&self, bytes: &[u8], offset: usize) -> Option<usize>
        requires sizes { AreSizes LENGTH GRAM STEP }
        requires offset { offset ≤ length bytes.now }
        ensures { (w : List ℕ) → length w ≡ LENGTH → OccursAt bytes.now w offset
            → result ≡ number_of self.now w }
    {
        let window = bytes[offset..].first_chunk::<LENGTH>()?;
        self.numbers.get(window).copied()
    }
}
