//! All matches of a text, one after another.

ghost use Rattle.std.specs.Prelude.{◌≡◌, ◌∷◌, [], length, map, List, IfOk, MatchOption};
ghost use Rattle.lic_set.specs.Matches.{AreMatches};
ghost use Rattle.lic_set.specs.Rising.{IsRising};
ghost use Rattle.lic_set.specs.declared.triple.Triple.{Triple};
ghost use Rattle.lic_find.specs.Among.{AreMatchesAmong};
ghost use Rattle.lic_report.specs.Found.{found_in};
ghost use Rattle.lic_report.specs.Merging.{comes_first as is_first};

use lic_bundles::Triples;
use lic_find::Finder;
use lic_find::laws::matches_are_one_list;
use lic_norm::Text;
use lic_search::all_matches;
use lic_set::{Set, Triple};
use std::alloc::{AllocError, Global};
use std::marker::Model;

/// Gives the matches of a set in a text, all or those after a triple, in the order of triples.
///
/// The matches of most templates are known as bundles; those of a template that has too many are found one after another. Giving
/// matches takes no memory.
#[derive(Debug, Drop)]
pub struct AllMatches<'a> {
    known: Triples,
    next_known: Option<Triple>,
    // Over the templates whose matches are not known, if there are any.
    finder: Option<Finder<'a>>,
    next_found: Option<Triple>,
}

impl<'a> Model for AllMatches<'a> {
    ghost use Rattle.std.specs.Prelude.{List};
    ghost use Rattle.lic_set.specs.declared.triple.Triple.{Triple};
    ghost use Rattle.lic_report.specs.Found.{found_in};
    ghost use Rattle.lic_report.specs.Merging.{merged, with_next};

    ghost Value = { List Triple };

    ghost view = { λ a. merged (with_next a.next_known a.known) (with_next a.next_found (found_in a.finder)) };
}

impl<'a> AllMatches<'a> {
    /// All matches, or those after a triple, which may be a match or not. Fails if memory runs out.
    pub fn new(
        alloc: Global,
        set: &'a Set,
        text: &'a Text,
        after: Option<Triple>,
    ) -> Result<AllMatches<'a>, AllocError>
        ensures all { IfOk result (λ found. AreMatches set.now text.now.tokens after found) }
        ensures only { IfOk result (λ found. (others : List Triple)
            → AreMatches set.now text.now.tokens after others → others ≡ found) }
    {
        let matches = all_matches(alloc, set, text)?;
        let mut known = Triples::new(alloc, matches.bundles, after)?;
        let mut finder = finder_over(alloc, set, text, matches.left, after)?;
        matches_are_one_list();
        let next_known = known.next();
        let next_found = next_of(&mut finder);
        Ok(AllMatches {
            known,
            next_known,
            finder,
            next_found,
        })
    }
}

impl Iterator for AllMatches<'_> {
    type Item = Triple;

    ghost use Rattle.std.specs.Prelude.{List};
    ghost use Rattle.std.specs.Iterator.{YieldsFirst, item_count};
    ghost use Rattle.lic_set.specs.declared.triple.Triple.{Triple};

    ghost next_gives = { YieldsFirst (λ (left : List Triple). left) };

    ghost remaining = { item_count (λ (left : List Triple). left) };

    fn next(&mut self) -> Option<Triple> {
        if comes_first(self.next_known, self.next_found) {
            let next = self.next_known;
            self.next_known = self.known.next();
            return next;
        }
        let next = self.next_found?;
        self.next_found = next_of(&mut self.finder);
        Some(next)
    }
}

// Whether there is a triple, and it comes before another if there is another.
fn comes_first(triple: Option<Triple>, other: Option<Triple>) -> bool
    ensures { result ≡ is_first triple other }
{
    match (triple, other) {
        (Some(triple), Some(other)) => triple < other,
        (triple, _) => triple.is_some(),
    }
}

// The matches of the templates of these numbers, all or those after a triple, where there is such a template.
fn finder_over<'a>(
    alloc: Global,
    set: &'a Set,
    text: &'a Text,
    numbers: Vec<usize>,
    after: Option<Triple>,
) -> Result<Option<Finder<'a>>, AllocError>
    requires { IsRising numbers.items (length set.now) }
    ensures { IfOk result (λ finder.
        AreMatchesAmong set.now text.now.tokens numbers.items after (found_in finder)) }
{
    if numbers.is_empty() {
        return Ok(None);
    }
    let finder = Finder::over(alloc, set, text, numbers, after)?;
    Ok(Some(finder))
}

// The next match of a finder, where there is one.
fn next_of(finder: &mut Option<Finder<'_>>) -> Option<Triple>
    ensures { MatchOption result ((found_in finder.old ≡ []) × (found_in finder.new ≡ []))
        (λ t. found_in finder.old ≡ t ∷ found_in finder.new) }
{
    match finder {
        Some(finder) => finder.next(),
        None => None,
    }
}
