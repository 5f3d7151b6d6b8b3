//! The outer matches of a text.

ghost use Rattle.std.specs.Prelude.{◌≡◌, List, All, IfOk, None};
ghost use Rattle.lic_set.specs.Matches.{AreMatches, IsMatch};
ghost use Rattle.lic_filters.specs.Filters.{outer_of};

use lic_filters::laws::{outer_ones_are_tight, tight_ones_are_tight};
use lic_filters::outermost;
use lic_find::laws::matches_exist;
use lic_norm::Text;
use lic_search::tight_matches;
use lic_set::{Set, Triple};
use std::alloc::{AllocError, Global};

/// The outer ones of all matches in a text, in the order of triples: those of its tight matches, which are found without a list of all.
pub fn outer_matches(alloc: Global, set: &Set, text: &Text) -> Result<Vec<Triple>, AllocError>
    ensures all { IfOk result (λ outer. (found : List Triple)
        × AreMatches set.now text.now.tokens None found × (outer.items ≡ outer_of found)) }
    ensures only { IfOk result (λ outer. (others : List Triple)
        → AreMatches set.now text.now.tokens None others → outer.items ≡ outer_of others) }
    ensures matches { IfOk result (λ outer. All (IsMatch set.now text.now.tokens) outer.items) }
{
    let tight = tight_matches(alloc, set, text)?;
    matches_exist();
    tight_ones_are_tight();
    outer_ones_are_tight();
    outermost(alloc, tight)
}
