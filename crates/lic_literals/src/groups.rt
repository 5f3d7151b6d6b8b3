//! Literals by their windows.

ghost use Rattle.std.specs.Prelude.{◌≡◌, ◌<◌, ℕ, Some, [], IfOk, Contains, length};
ghost use Rattle.std.specs.List.{slice_get};
ghost use Rattle.std.specs.List.Sorted.{IsStrictlyIncreasing};
ghost use Rattle.lic_literals.specs.declared.tables.Key.{Key};

use crate::hits::Hits;
use crate::tables::Key;
use std::alloc::{AllocError, Global};

/// Which literals have a window, by their numbers and those of the windows.
#[derive(Debug, Drop)]
pub struct Groups {
    // those that are too short for one
    short: Vec<usize>,
    // for each window those that have it
    sharing: Vec<Vec<usize>>,
}

impl Groups {
    ghost use Rattle.lic_literals.specs.Groups.{AreGroupsOf, IsCandidate};

    /// The literals with these keys.
    pub fn of(alloc: Global, keys: &[Option<Key>]) -> Result<Groups, AllocError>
        requires { (k : ℕ) (key : Key) → slice_get keys.now k ≡ Some (Some key)
            → key.window < length keys.now }
        ensures { IfOk result (AreGroupsOf keys.now) }
    {
        let mut groups = Groups {
            short: Vec::new(alloc),
            sharing: empty_lists(alloc, keys.len())?,
        };
        for (number, key) in keys.iter().enumerate() {
            match key {
                Some(own) => groups.sharing[own.window].push(number)?,
                None => groups.short.push(number)?,
            }
        }
        Ok(groups)
    }

    /// The literals without a window and those whose window occurs, by rising numbers.
    pub fn numbers(&self, alloc: Global, hits: &Hits) -> Result<Vec<usize>, AllocError>
        ensures rising { IfOk result (λ numbers. IsStrictlyIncreasing numbers.items) }
        ensures complete { IfOk result (λ numbers. (k : ℕ) → IsCandidate self.now hits.now k
            → Contains numbers.items k) }
    {
        let mut numbers = Vec::from_slice(alloc, &self.short)?;
        for one in hits.occurrences() {
            if let Some(literals) = self.sharing.get(one.window) {
                numbers.extend_from_slice(literals)?;
            }
        }
        numbers.sort_unstable();
        numbers.dedup();
        Ok(numbers)
    }
}

// `count` lists without an element.
fn empty_lists(alloc: Global, count: usize) -> Result<Vec<Vec<usize>>, AllocError>
    ensures { IfOk result (λ lists. length lists.items ≡ count) }
{
    let mut lists = Vec::with_capacity(alloc, count)?;
    for _ in 0..count {
        lists.push(Vec::new(alloc))?;
    }
    Ok(lists)
}
