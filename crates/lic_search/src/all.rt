//! All matches of a set's templates.

ghost use Rattle.std.specs.Prelude.{◌≡◌, ◌⊎◌, ◌+◌, ◌≤◌, All, Contains, IfOk, IfSome, Ok, length};
ghost use Rattle.lic_set.specs.Candidates.{IsCandidateOf};
ghost use Rattle.lic_set.specs.Matches.{IsMatch};
ghost use Rattle.lic_set.specs.Rising.{IsRising};
ghost use Rattle.lic_set.specs.declared.triple.Triple.{Triple};
ghost use Rattle.lic_bundles.specs.Bundles.{AreApart};
ghost use Rattle.lic_search.specs.AllMatches.{AddsTemplate, AreMatchBundles, BundlesHold, IsOrdered};

use crate::search::{bundles_within, least_ranges};
use lic_bundles::Bundle;
use lic_keys::Candidate;
use lic_markup::laws::texts_are_those_of_pieces;
use lic_norm::Text;
use lic_set::Set;
use lic_view::{Stop, View};
use std::alloc::{AllocError, Global};

/// How many bundles there may be beyond the number of tokens.
const MOST_MORE: usize = 262_144;

/// Matches of the templates of a set, as bundles.
#[derive(Debug, Drop)]
pub struct BundledMatches {
    /// All matches of the other templates.
    pub bundles: Vec<Bundle>,
    /// The numbers of the templates whose matches would be too many bundles, in rising order.
    pub left: Vec<usize>,
}

/// All matches of a set's templates in a text, but for those of templates that would make more bundles than there are tokens and
/// 262,144, together with those before them. No match is in two bundles.
///
/// # Errors
///
/// Fails if memory runs out.
pub fn all_matches(alloc: Global, set: &Set, text: &Text) -> Result<BundledMatches, AllocError>
    ensures sound { IfOk result (λ found. (t : Triple) → BundlesHold found.bundles.items t → IsMatch set.now text.now.tokens t) }
    ensures complete { IfOk result (λ found. (t : Triple) → IsMatch set.now text.now.tokens t
        → BundlesHold found.bundles.items t ⊎ Contains found.left.items t.template) }
    ensures left { IfOk result (λ found. IsRising found.left.items (length set.now)) }
    ensures others { IfOk result (λ found. All (λ bundle. Contains found.left.items bundle.template → ⊥) found.bundles.items) }
    ensures few { IfOk result (λ found. length found.bundles.items ≤ length text.now.tokens + 262144) }
    ensures ordered { IfOk result (λ found. All IsOrdered found.bundles.items) }
    ensures once { IfOk result (λ found. AreApart found.bundles.items) }
{
    let view = View::new(text.tokens());
    let mut found = BundledMatches {
        bundles: Vec::new(alloc),
        left: Vec::new(alloc),
    };
    let candidates = set.candidates(alloc, text)?;
    for candidate in &candidates {
        add_template(alloc, set, text, &view, candidate, &mut found)?;
    }
    Ok(found)
}

// Adds all matches of one template, or its number where they are too many.
fn add_template(
    alloc: Global,
    set: &Set,
    text: &Text,
    view: &View<'_>,
    candidate: &Candidate,
    found: &mut BundledMatches,
) -> Result<(), AllocError>
    requires candidate { IsCandidateOf set.now view.now candidate.now }
    requires text { view.now ≡ text.now.tokens }
    ensures adds { IfOk result (λ _. AddsTemplate set.now view.now candidate.now.number found.old found.new) }
    ensures few { IfOk result (λ _. length found.old.bundles.items ≤ length view.now + 262144
        → length found.new.bundles.items ≤ length view.now + 262144) }
{
    let most = view
        .len()
        .saturating_add(MOST_MORE)
        .saturating_sub(found.bundles.len());
    match bundles_if_few(alloc, set, text, view, candidate, most)? {
        Some(mut bundles) => found.bundles.append(&mut bundles)?,
        None => found.left.push(candidate.number)?,
    }
    Ok(())
}

// All matches of one template, or none where more bundles than `most` may come up on the way.
//
// That there is a match at all is known from the least last tokens alone, at less cost.
fn bundles_if_few(
    alloc: Global,
    set: &Set,
    text: &Text,
    view: &View<'_>,
    candidate: &Candidate,
    most: usize,
) -> Result<Option<Vec<Bundle>>, AllocError>
    requires candidate { IsCandidateOf set.now view.now candidate.now }
    requires text { view.now ≡ text.now.tokens }
    ensures are { IfOk result (λ found. IfSome found (λ bundles. AreMatchBundles set.now view.now candidate.now.number bundles.items)) }
    ensures few { IfOk result (λ found. IfSome found (λ bundles. length bundles.items ≤ most)) }
{
    let number = candidate.number;
    let template = set.template(number);
    texts_are_those_of_pieces(template);
    let required = set.required_ends(alloc, text, candidate)?;
    let least = least_ranges(alloc, view, template.parts(), &required)?;
    if least.is_empty() {
        return Ok(Some(Vec::new(alloc)));
    }
    few_of(
        bundles_within(alloc, view, template.parts(), &required, number, most),
        most,
    )
}

// These bundles if they are few.
fn few_of(
    bundles: Result<Vec<Bundle>, Stop>,
    most: usize,
) -> Result<Option<Vec<Bundle>>, AllocError>
    ensures same { IfOk result (λ found. IfSome found (λ few. bundles ≡ Ok few)) }
    ensures few { IfOk result (λ found. IfSome found (λ few. length few.items ≤ most)) }
{
    match bundles {
        Ok(bundles) if bundles.len() <= most => Ok(Some(bundles)),
        Ok(_) | Err(Stop::TooMany) => Ok(None),
        Err(Stop::Memory) => Err(AllocError),
    }
}
