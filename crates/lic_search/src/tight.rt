//! The tight matches of a set's templates.

ghost use Rattle.std.specs.Prelude.{◌≡◌, List, IfOk, None};
ghost use Rattle.lic_filters.specs.Filters.{tight_of};
ghost use Rattle.lic_set.specs.Candidates.{IsCandidateOf};
ghost use Rattle.lic_set.specs.Matches.{AreMatches};
ghost use Rattle.lic_set.specs.declared.triple.Triple.{Triple};
ghost use Rattle.lic_search.specs.LeastMatches.{AddsLeast, HasLeastMatches};

use crate::search::least_ranges;
use lic_filters::tight;
use lic_keys::Candidate;
use lic_markup::laws::texts_are_those_of_pieces;
use lic_norm::Text;
use lic_set::{Set, Triple};
use lic_view::View;
use std::alloc::{AllocError, Global};

/// The tight matches of a set's templates in a text, in the order of triples: the matches in whose range no other match of the same
/// template lies (this project's profile).
///
/// Each template that can occur goes back over the text once, and gives matches of which one lies within each of its matches. So
/// the tight ones of these are the tight ones of all.
///
/// # Errors
///
/// Fails if memory runs out.
pub fn tight_matches(alloc: Global, set: &Set, text: &Text) -> Result<Vec<Triple>, AllocError>
    ensures tight { IfOk result (λ found. (all : List Triple)
        → AreMatches set.now text.now.tokens None all → found.items ≡ tight_of all) }
{
    let mut found = least_matches(alloc, set, text)?;
    found.sort_unstable();
    found.dedup();
    tight(alloc, &found)
}

// Matches of the templates that can occur: within each match of the set lies one of them, of the same template.
fn least_matches(alloc: Global, set: &Set, text: &Text) -> Result<Vec<Triple>, AllocError>
    ensures { IfOk result (λ found. HasLeastMatches set.now text.now.tokens found.items) }
{
    let view = View::new(text.tokens());
    let mut found = Vec::new(alloc);
    let candidates = set.candidates(alloc, text)?;
    for candidate in &candidates {
        add_template(alloc, set, text, &view, candidate, &mut found)?;
    }
    Ok(found)
}

// Adds matches of one template: within each of its matches lies one of them.
fn add_template(
    alloc: Global,
    set: &Set,
    text: &Text,
    view: &View<'_>,
    candidate: &Candidate,
    found: &mut Vec<Triple>,
) -> Result<(), AllocError>
    requires candidate { IsCandidateOf set.now view.now candidate.now }
    requires text { view.now ≡ text.now.tokens }
    ensures { IfOk result (λ _. AddsLeast set.now view.now candidate.now.number found.old.items found.new.items) }
{
    let template = set.template(candidate.number);
    texts_are_those_of_pieces(template);
    let required = set.required_ends(alloc, text, candidate)?;
    let ranges = least_ranges(alloc, view, template.parts(), &required)?;
    found.extend(
        ranges.iter().map(|range| Triple {
            first: range.first,
            last: range.last,
            template: candidate.number,
        }),
    )
}
