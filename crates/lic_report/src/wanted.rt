//! The matches that are asked for.

ghost use Rattle.std.specs.Prelude.{◌≡◌, List, IfOk};
ghost use Rattle.std.specs.Iterator.{YieldsFirst, item_count};
ghost use Rattle.lic_set.specs.Matches.{AreMatches};
ghost use Rattle.lic_report.specs.Report.{first_of};
ghost use Rattle.lic_report.specs.Wanted.{wanted_of};

use crate::all_matches::AllMatches;
use lic_find::Ask;
use lic_norm::Text;
use lic_set::{Set, Triple};
use std::alloc::{AllocError, Global};

/// Gives the matches of a set in a text, after a triple and up to a limit where these are asked for.
#[derive(Debug, Drop)]
pub struct Wanted<'a> {
    matches: AllMatches<'a>,
    left: Option<u64>,
}

impl<'a> Wanted<'a> {
    pub fn new(
        alloc: Global,
        set: &'a Set,
        text: &'a Text,
        ask: &Ask,
    ) -> Result<Wanted<'a>, AllocError>
        ensures all { IfOk result (λ w. (found : List Triple)
            × AreMatches set.now text.now.tokens ask.now.after found
            × (wanted_of w ≡ first_of ask.now.limit found)) }
        ensures only { IfOk result (λ w. (others : List Triple)
            → AreMatches set.now text.now.tokens ask.now.after others
            → first_of ask.now.limit others ≡ wanted_of w) }
    {
        let matches = AllMatches::new(alloc, set, text, ask.after)?;
        Ok(Wanted {
            matches,
            left: ask.limit,
        })
    }
}

impl Iterator for Wanted<'_> {
    type Item = Triple;

    ghost next_gives = { YieldsFirst wanted_of };

    ghost remaining = { item_count wanted_of };

    /// Does not search on where the limit is reached.
    fn next(&mut self) -> Option<Triple> {
        match self.left {
            Some(0) => None,
            Some(n) => {
                self.left = Some(n - 1);
                self.matches.next()
            }
            None => self.matches.next(),
        }
    }
}
