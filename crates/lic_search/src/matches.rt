//! From the places where words of a template begin to ranges of tokens.

ghost use Rattle.std.specs.Prelude.{◌≡◌, ◌≢◌, ◌≤◌, ◌<◌, ◌↔◌, ℕ, [], ◌∷◌, length, Contains, IfOk, MatchOption};
ghost use Rattle.lic_norm.specs.Places.{place_end, place_start};
ghost use Rattle.lic_places.specs.Reads.{BeginsAt};
ghost use Rattle.lic_spans.specs.declared.span.SpanKind.TheVariants.{End};
ghost use Rattle.lic_search.specs.declared.range.Range.{Range};
ghost use Rattle.lic_view.specs.PlaceSets.{ArePlaced, Reaches};
ghost use Rattle.lic_search.specs.Beginnings.{BeginsIn, IsEndOf, IsLastBeginning, LiesWithin};

use crate::range::Range;
use lic_spans::{PlaceSpan, SpanKind};
use lic_view::{View, tokens_have_texts};
use std::alloc::{AllocError, Global};

/// The ends of all tokens, where nothing was taken yet.
pub(crate) fn token_ends(alloc: Global, view: &View<'_>) -> Result<Vec<PlaceSpan>, AllocError>
    ensures placed { IfOk result (λ ends. ArePlaced view.now ends.items) }
    ensures all { IfOk result (λ ends. (p last : ℕ)
        → Reaches view.now ends.items p last ↔ ((last < length view.now) × (p ≡ place_end view.now last))) }
{
    let mut ends = Vec::with_capacity(alloc, view.len())?;
    for last in 0..view.len() {
        ends.push(token_end(view, last))?;
    }
    Ok(ends)
}

/// The end of a token.
pub(crate) fn token_end(view: &View<'_>, last: usize) -> PlaceSpan
    requires { last < length view.now }
    ensures { IsEndOf view.now last result }
{
    let place = view.end(last);
    PlaceSpan {
        low: place,
        high: place,
        last,
        kind: SpanKind::End,
    }
}

/// The ranges of tokens that begin at places of spans, each up to the last token of its span. Of those that begin in one
/// span it is the one that begins last, since the others lie around it.
pub(crate) fn ranges_of(
    alloc: Global,
    view: &View<'_>,
    spans: &[PlaceSpan],
) -> Result<Vec<Range>, AllocError>
    requires placed { ArePlaced view.now spans.now }
    ensures sound { IfOk result (λ found. (range : Range) → Contains found.items range
        → (range.first ≤ range.last)
        × ((p : ℕ) × Reaches view.now spans.now p range.last × BeginsAt view.now range.first p)) }
    ensures within { IfOk result (λ found. (p first last : ℕ)
        → Reaches view.now spans.now p last → BeginsAt view.now first p → first ≤ last
        → (range : Range) × Contains found.items range × (first ≤ range.first) × (range.last ≤ last)) }
{
    let mut found = Vec::new(alloc);
    for span in spans {
        if let Some(range) = last_beginning(view, *span) {
            found.push(range)?;
        }
    }
    Ok(found)
}

/// Of the ranges that begin in a span the one that begins last.
pub(crate) fn last_beginning(view: &View<'_>, span: PlaceSpan) -> Option<Range>
    requires { ArePlaced view.now (span ∷ []) }
    ensures { MatchOption result ((first : ℕ) → ¬ (BeginsIn view.now (span ∷ []) first span.last))
        (λ range. IsLastBeginning view.now span range) }
{
    tokens_have_texts(view);
    if span.kind == SpanKind::End {
        // No letter was taken yet.
        return None;
    }
    let place = last_start(view, span);
    prove!(place < view.end(span.last));
    let first = view.first_beginning_from(place + 1) - 1;
    if view.start(first) < span.low {
        return None;
    }
    Some(Range {
        first,
        last: span.last,
    })
}

// The last place of a span at which a token may begin. Where a span of kind Place ends at a blank it is the place after that.
fn last_start(view: &View<'_>, span: PlaceSpan) -> usize
    requires placed { ArePlaced view.now (span ∷ []) }
    requires taken { span.kind ≢ End }
    ensures before { result < place_end view.now span.last }
    ensures begins { (first : ℕ) → first < length view.now
        → BeginsIn view.now (span ∷ []) first span.last ↔ LiesWithin span.low result (place_start view.now first) }
{
    tokens_have_texts(view);
    if span.kind == SpanKind::Place && view.is_blank(span.high) {
        prove!(span.high < view.bytes().len());
        return span.high + 1;
    }
    span.high
}
