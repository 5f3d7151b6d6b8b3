//! Going back over a blank.

ghost use Rattle.std.specs.Prelude.{◌≡◌, ◌∷◌, [], ◌+◌, ◌≤◌, IsTrue, OnOk, IfOk};
ghost use Rattle.lic_words.specs.Words.{blank};
ghost use Rattle.lic_places.specs.Places.{is_blank_at, spelling_of};
ghost use Rattle.lic_view.specs.Backward.{AddsBack, IsBack};
ghost use Rattle.lic_view.specs.Doubled.{AreAsMany, IsWithin};
ghost use Rattle.lic_view.specs.PlaceSets.{ArePlaced, IsLetterPlace};

use crate::sets::keep::Keep;
use crate::sets::singles::{end_of, single};
use crate::sets::stop::Stop;
use crate::view::{View, tokens_have_texts};
use lic_spans::{PlaceSpan, SpanKind};
use std::alloc::Global;

/// The places to which a blank leads from those of the spans.
pub fn over_blanks(
    alloc: Global,
    view: &View<'_>,
    keep: Keep,
    spans: &[PlaceSpan],
) -> Result<Vec<PlaceSpan>, Stop>
    requires { ArePlaced view.now spans.now }
    ensures { IfOk result (λ found. IsBack keep view.now (λ w. w ≡ blank ∷ []) spans.now found.items) }
{
    let mut found = Vec::with_capacity(alloc, spans.len())?;
    for span in spans {
        add_over_blank(view, keep, *span, &mut found)?;
    }
    drop_doubled(view, &mut found);
    Ok(found)
}

// Drops single places that the last span has too.
fn drop_doubled(view: &View<'_>, spans: &mut Vec<PlaceSpan>)
    ensures { AreAsMany view.now spans.old.items spans.new.items }
{
    let Some(last) = spans.last().copied() else {
        return;
    };
    if last.kind != SpanKind::Blanks {
        return;
    }
    spans.retain(|span| !is_within(view, *span, last));
}

// Whether a span is a single place with a blank, after which a letter of the other span begins, with the same last token.
fn is_within(view: &View<'_>, span: PlaceSpan, other: PlaceSpan) -> bool
    ensures { IsTrue result → IsWithin view.now other span }
{
    span.low < other.high
        && other.low <= span.low + 1
        && span.high == span.low
        && span.last == other.last
        && span.kind == SpanKind::Place
        && view.is_blank(span.low)
        && is_letter_after(view, span.low)
}

// Whether a letter begins after the blank at a place.
fn is_letter_after(view: &View<'_>, place: usize) -> bool
    requires { IsTrue (is_blank_at (spelling_of view.now) place) }
    ensures { IsTrue result → IsLetterPlace view.now (place + 1) }
{
    let _length = view.bytes().len();
    view.is_letter_place(place + 1)
}

// Adds the places to which a blank leads from those of a span.
fn add_over_blank(
    view: &View<'_>,
    keep: Keep,
    span: PlaceSpan,
    found: &mut Vec<PlaceSpan>,
) -> Result<(), Stop>
    requires { ArePlaced view.now (span ∷ []) }
    ensures { OnOk result (AddsBack keep view.now (λ w. w ≡ blank ∷ []) span found.old.items found.new.items) }
{
    tokens_have_texts(view);
    match span.kind {
        SpanKind::End | SpanKind::Blanks => keep.push(found, span)?,
        SpanKind::Letters => keep.push(found, with_blank(span))?,
        SpanKind::Place => add_moved(view, keep, span, found)?,
    }
    Ok(())
}

// The places to which a blank leads from those at which letters begin.
fn with_blank(span: PlaceSpan) -> PlaceSpan
    ensures { result ≡ record span { kind = SpanKind.Blanks } }
{
    PlaceSpan {
        low: span.low,
        high: span.high,
        last: span.last,
        kind: SpanKind::Blanks,
    }
}

// Adds the places to which a blank leads from single places.
fn add_moved(
    view: &View<'_>,
    keep: Keep,
    span: PlaceSpan,
    found: &mut Vec<PlaceSpan>,
) -> Result<(), Stop>
    requires kind { span.kind ≡ SpanKind.Place }
    requires placed { ArePlaced view.now (span ∷ []) }
    ensures { OnOk result (AddsBack keep view.now (λ w. w ≡ blank ∷ []) span found.old.items found.new.items) }
{
    for number in span.low..end_of(view, span) {
        if let Some(place) = view.over_blank(number) {
            keep.push(found, single(place, span.last))?;
        }
    }
    Ok(())
}
