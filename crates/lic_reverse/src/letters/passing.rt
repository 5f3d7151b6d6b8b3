//! Going back over one letter of a pattern.

ghost use Rattle.std.specs.Prelude.{◌≡◌, ◌≤◌, ◌↔◌, ℕ, ◌∷◌, [], true, length, Contains, IfOk, IsTrue, OnOk, MatchOption};
ghost use Rattle.std.specs.List.Sorted.{IsStrictlyIncreasing};
ghost use Rattle.lic_words.specs.Words.{blank};
ghost use Rattle.lic_words.specs.Expressions.{Language, one};
ghost use Rattle.lic_ere.specs.Trees.{any, tree_of};
ghost use Rattle.lic_places.specs.Places.{spelling_of};
ghost use Rattle.lic_spans.specs.Spans.{gap_of};
ghost use Rattle.lic_spans.specs.declared.span.PlaceSpan.{PlaceSpan};
ghost use Rattle.lic_view.specs.Backward.{AddsBack, IsBack, IsBackFrom};
ghost use Rattle.lic_view.specs.declared.sets.keep.Keep.{Keep};
ghost use Rattle.lic_reverse.specs.Passing.{IsPassing, is_one, passes_of};
ghost use Rattle.lic_view.specs.PlaceSets.{ArePlaced};
ghost use Rattle.lic_reverse.specs.PassingPlaces.{LeadsNowhere, LeadsTo, LeadsToSome};
ghost use Rattle.lic_reverse.specs.Tidily.{AreWays, IsTidyBack, spans_of};
ghost use Rattle.lic_view.specs.Wide.{HoldThoseOf, This};

use crate::ways::Ways;
use lic_ere::Ere;
use lic_spans::{PlaceSpan, SpanKind};
use lic_view::{
    Keep, Stop, View, end_of, first_from, has_place, over_blanks, place_of, single, stretches_of,
    tokens_have_texts,
};
use std::alloc::{AllocError, Global};

/// Where a letter that passes leads to these ways.
#[inline(never)]
pub(crate) fn over_one(
    alloc: Global,
    view: &View<'_>,
    keep: Keep,
    ere: &Ere,
    ways: &Ways,
) -> Result<Ways, Stop>
    requires { AreWays view.now ways.now }
    ensures { IfOk result (λ found. IsTidyBack keep view.now (Language (one (passes_of (tree_of ere.now)))) (spans_of ways.now) (spans_of found)) }
{
    let mut letter = over_passing(alloc, view, keep, ere, &ways.nothing)?;
    let mut more = over_passing(alloc, view, keep, ere, &ways.letter)?;
    let mut others = over_passing(alloc, view, keep, ere, &ways.blank)?;
    letter.append(&mut more)?;
    letter.append(&mut others)?;
    Ok(Ways {
        nothing: Vec::new(alloc),
        letter,
        blank: over_passing_blank(alloc, view, keep, ere, &ways.letter)?,
    })
}

// Where a blank leads to places, if it passes.
fn over_passing_blank(
    alloc: Global,
    view: &View<'_>,
    keep: Keep,
    ere: &Ere,
    spans: &[PlaceSpan],
) -> Result<Vec<PlaceSpan>, Stop>
    requires { ArePlaced view.now spans.now }
    ensures { IfOk result (λ found. IsBack keep view.now (λ w. (passes_of (tree_of ere.now) blank ≡ true) × (w ≡ blank ∷ [])) spans.now found.items) }
{
    if passes(ere, ' ') {
        over_blanks(alloc, view, keep, spans)
    } else {
        Ok(Vec::new(alloc))
    }
}

// Where a letter that passes and is no blank leads to places.
fn over_passing(
    alloc: Global,
    view: &View<'_>,
    keep: Keep,
    ere: &Ere,
    spans: &[PlaceSpan],
) -> Result<Vec<PlaceSpan>, Stop>
    requires { ArePlaced view.now spans.now }
    ensures { IfOk result (λ found. IsBack keep view.now (IsPassing (passes_of (tree_of ere.now))) spans.now found.items) }
{
    let ends = wide_ends(alloc, view, ere, spans)?;
    let mut found = Vec::new(alloc);
    for span in spans {
        match span.kind {
            SpanKind::End | SpanKind::Place => add_passing(view, keep, ere, *span, &mut found)?,
            SpanKind::Letters | SpanKind::Blanks => add_wide(
                view, keep, ere, &ends, *span, &mut found,
            )?,
        }
    }
    Ok(found)
}

// The places after such a letter in the spans of many places, in rising order. Where spans overlap the text is gone over once.
fn wide_ends(
    alloc: Global,
    view: &View<'_>,
    ere: &Ere,
    spans: &[PlaceSpan],
) -> Result<Vec<usize>, AllocError>
    requires { ArePlaced view.now spans.now }
    ensures { IfOk result (λ ends. (span : PlaceSpan) → Contains spans.now span → gap_of span.kind ≡ 1
        → HoldThoseOf (LeadsToSome view.now (passes_of (tree_of ere.now))) span ends.items) }
{
    let stretches = stretches_of(alloc, spans)?;
    let mut ends = Vec::new(alloc);
    for stretch in &stretches {
        let mut more = ends_in(alloc, view, ere, stretch)?;
        ends.append(&mut more)?;
    }
    Ok(ends)
}

// The places after such a letter in one stretch.
fn ends_in(
    alloc: Global,
    view: &View<'_>,
    ere: &Ere,
    stretch: &PlaceSpan,
) -> Result<Vec<usize>, AllocError>
    requires order { stretch.now.low ≤ stretch.now.high }
    requires within { stretch.now.high ≤ length (spelling_of view.now) }
    ensures rising { IfOk result (λ ends. IsStrictlyIncreasing ends.items) }
    ensures exact { IfOk result (λ ends. (place : ℕ) → Contains ends.items place
        ↔ ((stretch.now.low ≤ place) × (place ≤ stretch.now.high) × LeadsToSome view.now (passes_of (tree_of ere.now)) place)) }
{
    let _length = view.bytes().len();
    let mut ends = Vec::new(alloc);
    for place in stretch.low..stretch.high + 1 {
        if passing_before(view, ere, SpanKind::Place, place).is_some() {
            ends.push(place)?;
        }
    }
    Ok(ends)
}

// Adds where such a letter leads to the places of a span of many.
fn add_wide(
    view: &View<'_>,
    keep: Keep,
    ere: &Ere,
    ends: &[usize],
    span: PlaceSpan,
    found: &mut Vec<PlaceSpan>,
) -> Result<(), Stop>
    requires placed { ArePlaced view.now (span ∷ []) }
    requires kind { gap_of span.kind ≡ 1 }
    requires ends { HoldThoseOf (LeadsToSome view.now (passes_of (tree_of ere.now))) span ends.now }
    ensures { OnOk result (AddsBack keep view.now (IsPassing (passes_of (tree_of ere.now))) span found.old.items found.new.items) }
{
    // a blank leads to the place before the first one
    let first = first_from(ends, span.low.saturating_sub(1));
    for number in first..ends.len() {
        let end = ends[number];
        if span.high < end {
            return Ok(());
        }
        if let Some(place) = passing_in(view, ere, span, end) {
            keep.push(found, single(place, span.last))?;
        }
    }
    Ok(())
}

// Where such a letter leads to a place, if this is one of the span's.
fn passing_in(view: &View<'_>, ere: &Ere, span: PlaceSpan, end: usize) -> Option<usize>
    requires placed { ArePlaced view.now (span ∷ []) }
    requires within { end ≤ length (spelling_of view.now) }
    ensures { MatchOption result
        ((keep : Keep) → IsBackFrom keep view.now (IsPassing (passes_of (tree_of ere.now))) (This view.now span end) [])
        (λ place. (keep : Keep) → IsBackFrom keep view.now (IsPassing (passes_of (tree_of ere.now))) (This view.now span end)
        (record { low = place; high = place; last = span.last; kind = SpanKind.Place } ∷ [])) }
{
    tokens_have_texts(view);
    if !has_place(view, span, end) {
        return None;
    }
    passing_before(view, ere, SpanKind::Place, end)
}

// Adds where such a letter leads to the single places of a span.
fn add_passing(
    view: &View<'_>,
    keep: Keep,
    ere: &Ere,
    span: PlaceSpan,
    found: &mut Vec<PlaceSpan>,
) -> Result<(), Stop>
    requires { ArePlaced view.now (span ∷ []) }
    ensures { OnOk result (AddsBack keep view.now (IsPassing (passes_of (tree_of ere.now))) span found.old.items found.new.items) }
{
    tokens_have_texts(view);
    for number in span.low..end_of(view, span) {
        if let Some(place) = passing_before(view, ere, span.kind, number) {
            keep.push(found, single(place, span.last))?;
        }
    }
    Ok(())
}

// Where such a letter leads to the place of a number.
fn passing_before(view: &View<'_>, ere: &Ere, kind: SpanKind, number: usize) -> Option<usize>
    requires { number ≤ length (spelling_of view.now) }
    ensures { MatchOption result (LeadsNowhere view.now (passes_of (tree_of ere.now)) kind number)
        (LeadsTo view.now (passes_of (tree_of ere.now)) kind number) }
{
    tokens_have_texts(view);
    let place = place_of(view, kind, number)?;
    let (start, letter) = view.letter_before(place)?;
    if letter == ' ' || !passes(ere, letter) {
        return None;
    }
    Some(start)
}

/// Whether a pattern of one letter has this one.
pub(crate) fn passes(ere: &Ere, letter: char) -> bool
    ensures { result ≡ passes_of (tree_of ere.now) letter }
{
    match ere {
        Ere::Char(one) => letter == *one,
        Ere::Any => true,
        Ere::Set(class) => class.has(letter),
        _ => false,
    }
}

/// Whether a pattern is one letter of some kind.
pub(crate) fn is_one(ere: &Ere) -> bool
    ensures { result ≡ is_one (tree_of ere.now) }
{
    match ere {
        Ere::Char(_) | Ere::Any | Ere::Set(_) => true,
        _ => false,
    }
}

/// Whether a pattern is one letter of any kind.
pub(crate) fn is_any(ere: &Ere) -> bool
    ensures { IsTrue result → tree_of ere.now ≡ any }
{
    matches!(ere, Ere::Any)
}
