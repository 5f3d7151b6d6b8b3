//! The search for one template.

ghost use Rattle.std.specs.Prelude.{◌≡◌, ◌<◌, ◌≤◌, ℕ, length, map, IfOk};
ghost use Rattle.lic_words.specs.Words.{Word};
ghost use Rattle.lic_words.specs.Expressions.{Language};
ghost use Rattle.lic_markup.specs.Meaning.{parts_words};
ghost use Rattle.lic_markup.specs.Parts.{part_of, sequence};
ghost use Rattle.lic_markup.specs.PartTexts.{HavePieceTexts};
ghost use Rattle.lic_norm.specs.Places.{place_end};
ghost use Rattle.lic_places.specs.Places.{spelling_of};
ghost use Rattle.lic_places.specs.Reads.{Reads};
ghost use Rattle.lic_search.specs.AllMatches.{AreBundlesOf};
ghost use Rattle.lic_view.specs.Backward.{IsBackFrom};
ghost use Rattle.lic_search.specs.Matches.{HasLeastRanges};
ghost use Rattle.lic_view.specs.PlaceSets.{ArePlaced, Reaches};
ghost use Rattle.lic_search.specs.Ends.{AreRequiredEnds};

use crate::backward::over_parts;
use crate::bundles::bundles_of;
use crate::ends::candidate_ends;
use crate::last_text::last_ends;
use crate::matches::{ranges_of, token_ends};
use crate::range::Range;
use lic_bundles::Bundle;
use lic_keys::RequiredEnds;
use lic_markup::Part;
use lic_spans::PlaceSpan;
use lic_view::{Keep, Stop, View, tokens_have_texts};
use std::alloc::{AllocError, Global};

/// Ranges of tokens that the parts of a template describe: within each range that they describe lies one of these.
pub(crate) fn least_ranges(
    alloc: Global,
    view: &View<'_>,
    parts: &[Part],
    required: &Option<RequiredEnds>,
) -> Result<Vec<Range>, Stop>
    requires texts { HavePieceTexts (sequence (map part_of parts.now)) }
    requires required { AreRequiredEnds (spelling_of view.now) parts.now required.now }
    ensures { IfOk result (λ found. HasLeastRanges view.now (parts_words (map part_of parts.now)) found.items) }
{
    tokens_have_texts(view);
    let begins = begins_of(alloc, view, Keep::Least, parts, required)?;
    Ok(ranges_of(alloc, view, &begins)?)
}

/// All ranges of tokens that the parts of a template describe, as bundles of the template of this number. It stops where more spans than
/// `most` come up on the way.
pub(crate) fn bundles_within(
    alloc: Global,
    view: &View<'_>,
    parts: &[Part],
    required: &Option<RequiredEnds>,
    template: usize,
    most: usize,
) -> Result<Vec<Bundle>, Stop>
    requires texts { HavePieceTexts (sequence (map part_of parts.now)) }
    requires required { AreRequiredEnds (spelling_of view.now) parts.now required.now }
    ensures { IfOk result (λ bundles. AreBundlesOf view.now (parts_words (map part_of parts.now)) template bundles.items) }
{
    tokens_have_texts(view);
    let begins = begins_of(alloc, view, Keep::Each { most }, parts, required)?;
    Ok(bundles_of(alloc, view, &begins, template)?)
}

// The places from which a word of the parts leads to the end of a token, with those tokens that are kept.
fn begins_of(
    alloc: Global,
    view: &View<'_>,
    keep: Keep,
    parts: &[Part],
    required: &Option<RequiredEnds>,
) -> Result<Vec<PlaceSpan>, Stop>
    requires texts { HavePieceTexts (sequence (map part_of parts.now)) }
    requires required { AreRequiredEnds (spelling_of view.now) parts.now required.now }
    ensures { IfOk result (λ begins. IsBackFrom keep view.now (Language (parts_words (map part_of parts.now)))
        (λ q last. (last < length view.now) × (q ≡ place_end view.now last)) begins.items) }
{
    let ends = ends_of(alloc, view, parts, required)?;
    Ok(over_parts(alloc, view, keep, parts, ends)?)
}

// The ends of tokens at which a word of the parts may end: those within reach of a text of the template where there is one, else all.
fn ends_of(
    alloc: Global,
    view: &View<'_>,
    parts: &[Part],
    required: &Option<RequiredEnds>,
) -> Result<Vec<PlaceSpan>, AllocError>
    requires texts { HavePieceTexts (sequence (map part_of parts.now)) }
    requires required { AreRequiredEnds (spelling_of view.now) parts.now required.now }
    ensures placed { IfOk result (λ ends. ArePlaced view.now ends.items) }
    ensures sound { IfOk result (λ ends. (p last : ℕ) → Reaches view.now ends.items p last
        → (last < length view.now) × (p ≡ place_end view.now last)) }
    ensures complete { IfOk result (λ ends. (p last : ℕ) (w : Word)
        → Language (parts_words (map part_of parts.now)) w → Reads view.now p w (place_end view.now last)
        → last < length view.now → Reaches view.now ends.items (place_end view.now last) last) }
{
    let Some(required) = required else {
        return Ok(token_ends(alloc, view)?);
    };
    let last = last_ends(alloc, view, parts, required)?;
    let text = last.as_ref().unwrap_or(required);
    Ok(candidate_ends(alloc, view, parts, text.part, &text.places)?)
}
