//! The first tokens of matches, noted before a run begins with any of them.

ghost use Rattle.std.specs.Prelude.{◌≡◌, ◌<◌, ◌≤◌, ◌+◌, ◌-◌, ◌*◌, ◌^◌, ◌∷◌, [], ℕ, List, IfOk, IfSome, IfNone, OnOk, length, drop, sum_by};
ghost use Rattle.lic_find.specs.Firsts.{noted_at};
ghost use Rattle.lic_find.specs.declared.starts.Entry.{Entry};

use std::alloc::{AllocError, Global};

/// The most numbers of templates that are kept with a first token.
const MOST_NUMBERS: usize = 4;

/// A first token, and how many numbers are kept for it.
#[derive(Clone, Copy, Debug)]
pub struct Entry {
    first: usize,
    count: usize,
}

/// A first token of matches, with the numbers of the templates that describe a range from there, or with none where there are
/// more than four.
#[derive(Clone, Copy, Debug)]
pub struct Noted<'a> {
    pub first: usize,
    pub numbers: &'a [usize],
}

/// First tokens of matches. Each takes the memory of two numbers and of at most four numbers of templates.
#[derive(Debug, Drop)]
pub struct Starts {
    // in falling order, as they are found
    entries: Vec<Entry>,
    // of each entry, in the order of the entries
    numbers: Vec<usize>,
    ghost sums: { sum_by (λ (entry : Entry). entry.count) entries.items ≤ length numbers.items },
}

impl Starts {
    ghost use Rattle.lic_find.specs.Starts.{HasAtMost, starts_in, few_of};

    /// No first tokens.
    pub fn none(alloc: Global) -> Starts
        ensures none { starts_in result ≡ [] }
        ensures memory { HasAtMost result 0 }
    {
        Starts {
            entries: Vec::new(alloc),
            numbers: Vec::new(alloc),
        }
    }

    /// Notes a first token before all others, with the numbers of the templates that describe a range from there.
    pub fn add(&mut self, first: usize, numbers: &[usize]) -> Result<(), AllocError>
        ensures noted { OnOk result (starts_in self.new
            ≡ noted_at first (few_of numbers.now) ∷ starts_in self.old) }
        ensures memory { OnOk result ((tokens : ℕ) → HasAtMost self.old tokens
            → HasAtMost self.new (tokens + 1)) }
    {
        let few = if numbers.len() <= MOST_NUMBERS {
            numbers
        } else {
            &[]
        };
        self.numbers.extend_from_slice(few)?;
        self.entries.push(Entry {
            first,
            count: few.len(),
        })?;
        Ok(())
    }

    /// The least first token that is left.
    pub fn least(&self) -> Option<Noted<'_>>
        ensures none { IfNone result (starts_in self.now ≡ []) }
        ensures some { IfSome result (λ noted. starts_in self.now
            ≡ noted_at noted.first noted.numbers.now ∷ drop 1 (starts_in self.now)) }
    {
        let entry = self.entries.last()?;
        let from = self.numbers.len() - entry.count;
        Some(Noted {
            first: entry.first,
            numbers: &self.numbers[from..],
        })
    }

    /// Removes the least first token that is left.
    pub fn remove_least(&mut self)
        ensures { starts_in self.new ≡ drop 1 (starts_in self.old) }
    {
        if let Some(entry) = self.entries.pop() {
            let from = self.numbers.len() - entry.count;
            self.numbers.truncate(from);
        }
    }
}
