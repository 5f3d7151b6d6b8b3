//! A prefilter over many literals at once.

ghost use Rattle.std.specs.Prelude.{◌≡◌, ◌≤◌, ◌<◌, ℕ, List, Option, Some, map, length, slice_index_or, All, Contains, IfOk, IfSome};
ghost use Rattle.std.specs.List.{slice_get};
ghost use Rattle.std.specs.List.Sorted.{IsStrictlyIncreasing};
ghost use Rattle.lic_literals.specs.Ends.{EndsAt};
ghost use Rattle.lic_literals.specs.Kept.{MayEndAt, ends_of};
ghost use Rattle.lic_literals.specs.Keys.{CanEndAt};
ghost use Rattle.lic_literals.specs.declared.kept.Kept.{Kept};

use crate::counts::Counts;
use crate::groups::Groups;
use crate::hits::Hits;
use crate::kept::{Ends, Kept};
use crate::tables::{Key, Tables, window_length};
use std::alloc::{AllocError, Global};
use std::marker::Model;
use std::rc::Rc;

/// Literals that are looked for together.
///
/// Of each literal one window is looked for, the one that is rarest among all windows of the literals. The work is linear in
/// the bytes, however many literals there are.
pub struct Prefilter {
    literals: Vec<Vec<u8>>,
    // the window of each, if it is long enough for one
    keys: Vec<Option<Key>>,
    groups: Groups,
    tables: Tables,
}

// Written out, so that a caller's proof has one call and not the drop of each table.
impl Drop for Prefilter {
    fn drop(self) {
        let Prefilter {
            literals: _literals,
            keys: _keys,
            groups: _groups,
            tables: _tables,
        } = self;
    }
}

impl Model for Prefilter {
    ghost use Rattle.std.specs.Prelude.{List, ℕ};
    ghost use Rattle.lic_literals.specs.Keys.{IsPrefilter, plain};

    ghost Value = { List (List ℕ) };

    ghost view = { λ a. plain a.literals.items };

    ghost invariant = { λ a. IsPrefilter (plain a.literals.items) a.keys.items a.groups a.tables };
}

impl Prefilter {
    /// A prefilter over these literals, by their numbers.
    pub fn build(alloc: Global, literals: &[&[u8]]) -> Result<Prefilter, AllocError>
        ensures { IfOk result (λ keys. keys ≡ map (λ literal. literal.now) literals.now) }
    {
        let counts = count_windows(alloc, literals)?;
        let mut own = Vec::with_capacity(alloc, literals.len())?;
        let mut keys = Vec::with_capacity(alloc, literals.len())?;
        let mut tables = Tables::new(alloc)?;
        for (number, literal) in literals.iter().enumerate() {
            own.push(Vec::from_slice(alloc, literal)?)?;
            keys.push(tables.add(literal, number, &counts)?)?;
        }
        let groups = Groups::of(alloc, &keys)?;
        Ok(Prefilter {
            literals: own,
            keys,
            groups,
            tables,
        })
    }

    /// The literal of this number.
    pub fn literal(&self, number: usize) -> &[u8]
        requires { number < length self.now }
        ensures { (d : _) → result.now ≡ slice_index_or self.now number d }
    {
        &self.literals[number]
    }

    /// The literals of which an occurrence in the bytes cannot be ruled out, by rising numbers.
    ///
    /// A literal of fewer than four bytes is always among them.
    pub fn kept(&self, alloc: Global, bytes: &[u8]) -> Result<Vec<Kept>, AllocError>
        ensures numbers { IfOk result (λ kept. IsStrictlyIncreasing (map (λ k. k.number) kept.items)) }
        ensures below { IfOk result (λ kept. All (λ k. k.number < length self.now) kept.items) }

        // Where a literal ends in the bytes, it is kept, and may end there.
        ensures complete { IfOk result (λ kept. (number e : ℕ) (literal : List ℕ)
            → slice_get self.now number ≡ Some literal → EndsAt bytes.now literal e
            → (k : Kept) × Contains kept.items k × (k.number ≡ number) × MayEndAt k e) }

        // The ends of each, if they are known, rise and lie within the bytes.
        ensures rising { IfOk result (λ kept.
            All (λ k. IfSome (ends_of k) IsStrictlyIncreasing) kept.items) }
        ensures within { IfOk result (λ kept.
            All (λ k. IfSome (ends_of k) (All (λ e. e ≤ length bytes.now))) kept.items) }
    {
        let mut hits = Hits::new(alloc);
        self.tables.note_all(bytes, &mut hits)?;
        let hits = Rc::new(alloc, hits)?;
        let numbers = self.groups.numbers(alloc, &hits)?;
        let mut kept = Vec::with_capacity(alloc, numbers.len())?;
        for number in &numbers {
            if let Some(key) = self.keys.get(*number) {
                kept.push(candidate(*number, *key, &hits, bytes.len())?)?;
            }
        }
        Ok(kept)
    }
}

// The literal of this number as a candidate. Its ends are not known where it has no window, and where there are too many offsets to list.
fn candidate(
    number: usize,
    key: Option<Key>,
    hits: &Rc<Hits>,
    limit: usize,
) -> Result<Kept, AllocError>
    ensures number { IfOk result (λ k. k.number ≡ number) }
    ensures complete { IfOk result (λ k. (e : ℕ) → CanEndAt key hits.now.value e → e ≤ limit
        → MayEndAt k e) }
    ensures rising { IfOk result (λ k. IfSome (ends_of k) IsStrictlyIncreasing) }
    ensures within { IfOk result (λ k. IfSome (ends_of k) (All (λ e. e ≤ limit))) }
{
    let own = match key {
        Some(own) if !hits.is_full() => own,
        _ => return Ok(Kept { number, ends: None }),
    };
    let ends = Ends {
        hits: hits.clone()?,
        window: own.window,
        to_end: own.to_end,
        limit,
    };
    Ok(Kept {
        number,
        ends: Some(ends),
    })
}

// How often each window of the literals occurs in them.
fn count_windows(alloc: Global, literals: &[&[u8]]) -> Result<Counts, AllocError> {
    let mut counts = Counts::new(alloc)?;
    for literal in literals {
        if let Some(size) = window_length(literal) {
            counts.add(literal, size);
        }
    }
    Ok(counts)
}
