//! Going back over the parts of a template, from the last part to the first.

ghost use Rattle.std.specs.Prelude.{IfOk, map};
ghost use Rattle.lic_words.specs.Expressions.{Language, alt, empty};
ghost use Rattle.lic_markup.specs.Meaning.{parts_words, part_words};
ghost use Rattle.lic_markup.specs.Parts.{part_of, sequence};
ghost use Rattle.lic_markup.specs.PartTexts.{HasPieceTexts, HavePieceTexts};
ghost use Rattle.lic_view.specs.Backward.{IsBack};
ghost use Rattle.lic_view.specs.PlaceSets.{ArePlaced};

use crate::copies::last_copies;
use lic_markup::Part;
use lic_reverse::{over_copies, over_value};
use lic_spans::PlaceSpan;
use lic_view::{Keep, Stop, View, kept, merged, over_text, tokens_have_texts};
use std::alloc::Global;

/// The places from which a word of the parts leads to those of the spans.
#[cycle(backward)]
pub(crate) fn over_parts(
    alloc: Global,
    view: &View<'_>,
    keep: Keep,
    parts: &[Part],
    spans: Vec<PlaceSpan>,
) -> Result<Vec<PlaceSpan>, Stop>
    requires texts { HavePieceTexts (sequence (map part_of parts.now)) }
    requires placed { ArePlaced view.now spans.items }
    ensures { IfOk result (λ found. IsBack keep view.now (Language (parts_words (map part_of parts.now))) spans.items found.items) }
{
    let mut spans = spans;
    let mut end = parts.len();
    while end > 0 {
        // optional copies of one text are gone over together
        if let Some(copies) = last_copies(parts, end) {
            spans = over_copies(alloc, view, keep, copies.text, copies.count, spans)?;
            end = copies.first;
            continue;
        }
        end -= 1;
        spans = over_part(alloc, view, keep, &parts[end], spans)?;
    }
    Ok(spans)
}

// The places from which a word of a part leads to those of the spans.
#[cycle(backward)]
fn over_part(
    alloc: Global,
    view: &View<'_>,
    keep: Keep,
    part: &Part,
    spans: Vec<PlaceSpan>,
) -> Result<Vec<PlaceSpan>, Stop>
    requires texts { HasPieceTexts (part_of part.now) }
    requires placed { ArePlaced view.now spans.items }
    ensures { IfOk result (λ found. IsBack keep view.now (Language (part_words part.now)) spans.items found.items) }
{
    match part {
        Part::Text(text) => over_text(alloc, view, keep, text, spans),
        Part::Var { ere, .. } => over_value(alloc, view, keep, ere, spans),
        Part::Optional(parts) => over_optional(alloc, view, keep, parts, spans),
    }
}

// The places of the spans themselves, and those from which a word of the parts leads to them.
#[cycle(backward)]
fn over_optional(
    alloc: Global,
    view: &View<'_>,
    keep: Keep,
    parts: &[Part],
    spans: Vec<PlaceSpan>,
) -> Result<Vec<PlaceSpan>, Stop>
    requires texts { HavePieceTexts (sequence (map part_of parts.now)) }
    requires placed { ArePlaced view.now spans.items }
    ensures { IfOk result (λ found. IsBack keep view.now
        (Language (alt empty (parts_words (map part_of parts.now)))) spans.items found.items) }
{
    tokens_have_texts(view);
    let copy = Vec::from_slice(alloc, &spans)?;
    let more = over_parts(alloc, view, keep, parts, copy)?;
    if more.is_empty() {
        return Ok(spans);
    }
    let all = merged(alloc, keep, &spans, &more)?;
    Ok(kept(alloc, view, keep, all)?)
}
