//! What cases show together.

use std::alloc::Global;

/// What a case shows.
#[derive(Drop)]
pub struct Case {
    /// Whether there are matches.
    pub matched: bool,
    /// Whether the search leaves a template to the finder.
    pub left: bool,
    /// A form that does not give what it has to, what was asked for, and the text.
    pub differing: Option<String>,
}

/// How many cases there are and what they show; of the last one in which a form differs the set, the
/// form and the text.
#[derive(Drop)]
pub struct Tally {
    pub cases: u64,
    pub matched: u64,
    pub left: u64,
    pub differing: u64,
    pub last_set: u64,
    pub last: String,
}

impl Tally {
    /// That of no case.
    pub fn new(alloc: Global) -> Tally {
        Tally {
            cases: 0,
            matched: 0,
            left: 0,
            differing: 0,
            last_set: 0,
            last: String::new(alloc),
        }
    }

    /// Adds a case of the set of a number.
    pub fn add(&mut self, set: u64, case: Case) {
        add_if(&mut self.cases, true);
        add_if(&mut self.matched, case.matched);
        add_if(&mut self.left, case.left);
        add_if(&mut self.differing, case.differing.is_some());
        if let Some(differing) = case.differing {
            self.last_set = set;
            self.last = differing;
        }
    }
}

// One more, where it holds.
fn add_if(count: &mut u64, holds: bool) {
    if holds {
        *count = count.saturating_add(1);
    }
}
