//! Going back over the letters of a text.

ghost use Rattle.std.specs.Prelude.{◌≡◌, ◌⊎◌, ◌≤◌, ◌∷◌, [], ◌↔◌, length, Contains, IfOk, OnOk, IsTrue};
ghost use Rattle.std.specs.Str.{chars};
ghost use Rattle.lic_literals.specs.Ends.{EndsAt};
ghost use Rattle.lic_places.specs.Places.{spelling_of};
ghost use Rattle.lic_spans.specs.Spans.{gap_of};
ghost use Rattle.lic_spans.specs.declared.span.SpanKind.TheVariants.{End, Place};
ghost use Rattle.lic_spans.specs.declared.span.PlaceSpan.{PlaceSpan};
ghost use Rattle.lic_view.specs.Backward.{AddsBack, IsBack};
ghost use Rattle.lic_view.specs.PlaceSets.{ArePlaced};
ghost use Rattle.lic_view.specs.Wide.{HoldThoseOf};
ghost use Rattle.lic_places.specs.Texts.{AreLetters};

use crate::sets::keep::Keep;
use crate::sets::places::has_place;
use crate::sets::singles::{end_of, single};
use crate::sets::stop::Stop;
use crate::sets::wide::{first_from, stretches_of};
use crate::view::{View, tokens_have_texts};
use lic_literals::ends_within;
use lic_spans::{PlaceSpan, SpanKind};
use std::alloc::{AllocError, Global};

/// The places at which the letters begin that end at those of the spans.
pub(crate) fn over_letters(
    alloc: Global,
    view: &View<'_>,
    keep: Keep,
    letters: &[u8],
    spans: &[PlaceSpan],
) -> Result<Vec<PlaceSpan>, Stop>
    requires letters { AreLetters letters.now }
    requires placed { ArePlaced view.now spans.now }
    ensures { IfOk result (λ found. IsBack keep view.now (λ w. w ≡ chars letters.now) spans.now found.items) }
{
    let ends = wide_ends(alloc, view, letters, spans)?;
    let mut found = Vec::new(alloc);
    for span in spans {
        match span.kind {
            SpanKind::End | SpanKind::Place => add_single(view, keep, letters, *span, &mut found)?,
            SpanKind::Letters | SpanKind::Blanks => {
                add_wide(view, keep, letters, &ends, *span, &mut found)?
            }
        }
    }
    Ok(found)
}

// Where the letters end in the spans of many places, in rising order. Where spans overlap the text is searched once.
fn wide_ends(
    alloc: Global,
    view: &View<'_>,
    letters: &[u8],
    spans: &[PlaceSpan],
) -> Result<Vec<usize>, AllocError>
    requires letters { AreLetters letters.now }
    requires placed { ArePlaced view.now spans.now }
    ensures { IfOk result (λ ends. (span : PlaceSpan) → Contains spans.now span → gap_of span.kind ≡ 1
        → HoldThoseOf (EndsAt (spelling_of view.now) letters.now) span ends.items) }
{
    let stretches = stretches_of(alloc, spans)?;
    let mut ends = Vec::new(alloc);
    for stretch in &stretches {
        let mut more = ends_within(alloc, view.bytes(), letters, stretch.low, stretch.high)?;
        ends.append(&mut more)?;
    }
    Ok(ends)
}

// Adds where the letters begin that end at the single places of a span.
fn add_single(
    view: &View<'_>,
    keep: Keep,
    letters: &[u8],
    span: PlaceSpan,
    found: &mut Vec<PlaceSpan>,
) -> Result<(), Stop>
    requires letters { AreLetters letters.now }
    requires placed { ArePlaced view.now (span ∷ []) }
    requires kind { (span.kind ≡ End) ⊎ (span.kind ≡ Place) }
    ensures { OnOk result (AddsBack keep view.now (λ w. w ≡ chars letters.now) span found.old.items found.new.items) }
{
    tokens_have_texts(view);
    for end in span.low..end_of(view, span) {
        if ends_at(view.bytes(), letters, end) {
            keep.push(found, single(end - letters.len(), span.last))?;
        }
    }
    Ok(())
}

// Adds where the letters begin that end at the places of a span of many.
fn add_wide(
    view: &View<'_>,
    keep: Keep,
    letters: &[u8],
    ends: &[usize],
    span: PlaceSpan,
    found: &mut Vec<PlaceSpan>,
) -> Result<(), Stop>
    requires letters { AreLetters letters.now }
    requires placed { ArePlaced view.now (span ∷ []) }
    requires kind { gap_of span.kind ≡ 1 }
    requires ends { HoldThoseOf (EndsAt (spelling_of view.now) letters.now) span ends.now }
    ensures { OnOk result (AddsBack keep view.now (λ w. w ≡ chars letters.now) span found.old.items found.new.items) }
{
    tokens_have_texts(view);
    // a blank leads to the place before the first one
    let first = first_from(ends, span.low.saturating_sub(1));
    for number in first..ends.len() {
        let end = ends[number];
        if span.high < end {
            return Ok(());
        }
        if has_place(view, span, end) {
            keep.push(found, single(end - letters.len(), span.last))?;
        }
    }
    Ok(())
}

// Whether the letters end at a place.
fn ends_at(bytes: &[u8], letters: &[u8], end: usize) -> bool
    requires { end ≤ length bytes.now }
    ensures { IsTrue result ↔ EndsAt bytes.now letters.now end }
{
    if letters.len() > end {
        return false;
    }
    &bytes[end - letters.len()..end] == letters
}
