//! Single places.

ghost use Rattle.std.specs.Prelude.{◌≡◌, ◌∷◌, [], ◌+◌};
ghost use Rattle.lic_view.specs.PlaceSets.{ArePlaced};

use crate::view::View;
use lic_spans::{PlaceSpan, SpanKind};

/// One place, with the last token of a match.
pub fn single(place: usize, last: usize) -> PlaceSpan
    ensures { result ≡ record { low = place; high = place; last = last; kind = SpanKind.Place } }
{
    PlaceSpan {
        low: place,
        high: place,
        last,
        kind: SpanKind::Place,
    }
}

/// One more than the greatest number of a span.
pub fn end_of(view: &View<'_>, span: PlaceSpan) -> usize
    requires { ArePlaced view.now (span ∷ []) }
    ensures { result ≡ span.high + 1 }
{
    let _length = view.bytes().len();
    span.high + 1
}
