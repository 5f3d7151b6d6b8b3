//! Which places a span has.

ghost use Rattle.std.specs.Prelude.{◌≡◌, ◌≤◌, ◌↔◌, ℕ, [], ◌∷◌, IsTrue, length, MatchOption};
ghost use Rattle.lic_places.specs.Places.{spelling_of};
ghost use Rattle.lic_view.specs.PlaceSets.{ArePlaced, IsPlaceOf};

use crate::view::View;
use lic_spans::{PlaceSpan, SpanKind};

/// The place that a number of a span of this kind gives, if it gives one.
pub fn place_of(view: &View<'_>, kind: SpanKind, number: usize) -> Option<usize>
    requires { number ≤ length (spelling_of view.now) }
    ensures { MatchOption result ((p : ℕ) → ¬ (IsPlaceOf view.now kind number p))
        (λ p. IsPlaceOf view.now kind number p) }
{
    match kind {
        SpanKind::End | SpanKind::Place => Some(number),
        SpanKind::Letters if view.is_letter_place(number) => Some(number),
        SpanKind::Blanks if view.is_letter_place(number) => view.over_blank(number),
        SpanKind::Letters | SpanKind::Blanks => None,
    }
}

/// Whether a span has a place.
pub fn has_place(view: &View<'_>, span: PlaceSpan, place: usize) -> bool
    requires { ArePlaced view.now (span ∷ []) }
    ensures { IsTrue result
        ↔ ((number : ℕ) × (span.low ≤ number) × (number ≤ span.high) × IsPlaceOf view.now span.kind number place) }
{
    let number = number_of(view, span.kind, place);
    span.low <= number && number <= span.high && place_of(view, span.kind, number) == Some(place)
}

// The number that gives a place in spans of a kind, if one does.
fn number_of(view: &View<'_>, kind: SpanKind, place: usize) -> usize
    ensures { (number : ℕ) → IsPlaceOf view.now kind number place → number ≡ result }
{
    if kind == SpanKind::Blanks && view.is_blank(place) {
        prove!(place < view.bytes().len());
        return place + 1;
    }
    place
}
