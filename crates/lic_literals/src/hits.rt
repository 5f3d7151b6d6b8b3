//! Where windows occur in bytes.

ghost use Rattle.std.specs.Prelude.{◌≡◌, ◌<◌, ◌≤◌, ◌↔◌, ℕ, None, Some, [], IsTrue, OnOk, All, Contains, length, map, nat_eq, slice_index_or};
ghost use Rattle.std.specs.HashMap.{get};
ghost use Rattle.std.specs.List.{slice_get};
ghost use Rattle.std.specs.List.Sorted.{IsStrictlyIncreasing};
ghost use Rattle.std.proofs.Props.{props};

use std::alloc::{AllocError, Global};
use std::collections::HashMap;

// Once so many offsets of all windows are listed, a window that occurs counts as occurring anywhere.
const MOST_PLACES: usize = 262_144;

/// A window that occurs, by its number, and its offsets in rising order.
#[derive(Debug, Drop)]
pub struct Occurrence {
    pub window: usize,
    pub offsets: Vec<usize>,
}

/// Where windows occur.
#[derive(Drop)]
pub struct Hits {
    occurrences: Vec<Occurrence>,
    // where each window is among them
    slots: HashMap<usize, usize>,
    // how many offsets were listed
    count: usize,
    ghost rising: { All (λ s. IsStrictlyIncreasing s.offsets.items) occurrences.items },
    ghost placed: { (i slot : ℕ) → get nat_eq slots i ≡ Some slot
        → slice_get (map (λ s. s.window) occurrences.items) slot ≡ Some i },
}

impl Hits {
    ghost use Rattle.lic_literals.specs.Hits.{NotesOffset, lists_of, offsets_of};

    /// No windows.
    pub fn new(alloc: Global) -> Hits
        ensures { result.occurrences.items ≡ [] }
    {
        Hits {
            occurrences: Vec::new(alloc),
            slots: HashMap::new(alloc),
            count: 0,
        }
    }

    /// Notes that a window is at an offset.
    pub fn note(&mut self, window: usize, offset: usize) -> Result<(), AllocError>
        ensures { OnOk result (NotesOffset window offset self.old self.new) }
    {
        match self.slots.get(&window).copied() {
            Some(slot) => self.note_more(slot, offset),
            None => self.note_first(window, offset),
        }
    }

    // Notes the first offset of a window.
    fn note_first(&mut self, window: usize, offset: usize) -> Result<(), AllocError>
        requires { get nat_eq self.old.slots window ≡ None }
        ensures { OnOk result (NotesOffset window offset self.old self.new) }
    {
        let slot = self.occurrences.len();
        let offsets = Vec::from_array(*self.occurrences.allocator(), [offset])?;
        self.occurrences.push(Occurrence { window, offsets })?;
        self.slots.insert(window, slot)?;
        self.count = self.count.saturating_add(1);
        Ok(())
    }

    // Notes another offset of the window in this slot, unless there are too many.
    fn note_more(&mut self, slot: usize, offset: usize) -> Result<(), AllocError>
        requires { slot < length self.old.occurrences.items }
        ensures { OnOk result ((window : ℕ) → get nat_eq self.old.slots window ≡ Some slot
            → NotesOffset window offset self.old self.new) }
    {
        if self.is_full() {
            return Ok(());
        }
        let one = &mut self.occurrences[slot];
        insert(&mut one.offsets, offset)?;
        self.count = self.count.saturating_add(1);
        Ok(())
    }

    /// Whether a window that occurs counts as occurring anywhere.
    pub fn is_full(&self) -> bool
        ensures { IsTrue result ↔ (262144 ≤ self.now.count) }
    {
        self.count >= MOST_PLACES
    }

    /// The windows that occur.
    pub fn occurrences(&self) -> &[Occurrence]
        ensures { result.now ≡ self.now.occurrences.items }
    {
        &self.occurrences
    }

    /// The offsets that are listed for a window.
    pub fn offsets(&self, window: usize) -> &[usize]
        ensures value { result.now ≡ offsets_of self.now window }
        ensures rising { IsStrictlyIncreasing result.now }
    {
        match self.slots.get(&window).copied() {
            Some(slot) => self.offsets_in(slot),
            None => &[],
        }
    }

    fn offsets_in(&self, slot: usize) -> &[usize]
        requires { slot < length self.now.occurrences.items }
        ensures value { result.now ≡ slice_index_or (lists_of self.now) slot [] }
        ensures rising { IsStrictlyIncreasing result.now }
    {
        let one = &self.occurrences[slot];
        &one.offsets
    }
}

// Inserts a number among others in rising order, unless it is there. Most are greater than all others.
fn insert(numbers: &mut Vec<usize>, number: usize) -> Result<(), AllocError>
    requires { IsStrictlyIncreasing numbers.old.items }
    ensures rising { IsStrictlyIncreasing numbers.new.items }
    ensures inserted { OnOk result (Contains numbers.new.items number) }
    ensures kept { (other : ℕ) → Contains numbers.old.items other → Contains numbers.new.items other }
{
    match numbers.last() {
        Some(last) if *last >= number => insert_before(numbers, number),
        _ => {
            numbers.push(number)?;
            Ok(())
        }
    }
}

// The same where it may be less than some of them.
#[cold]
fn insert_before(numbers: &mut Vec<usize>, number: usize) -> Result<(), AllocError>
    requires { IsStrictlyIncreasing numbers.old.items }
    ensures rising { IsStrictlyIncreasing numbers.new.items }
    ensures inserted { OnOk result (Contains numbers.new.items number) }
    ensures kept { (other : ℕ) → Contains numbers.old.items other → Contains numbers.new.items other }
{
    if let Err(at) = numbers.binary_search(&number) {
        numbers.insert(at, number)?;
    }
    Ok(())
}
