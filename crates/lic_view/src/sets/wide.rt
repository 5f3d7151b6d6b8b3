//! Places that lie in spans of many places.

ghost use Rattle.std.specs.Prelude.{◌≡◌, ◌≤◌, ◌-◌, All, length, slice_index, IfOk};
ghost use Rattle.std.specs.List.Sorted.{IsStrictlyIncreasing};
ghost use Rattle.lic_view.specs.Views.{IsFirstFrom};
ghost use Rattle.lic_view.specs.Wide.{AreStretchesOf, stretch_of as the_stretch_of};

use lic_spans::{PlaceSpan, SpanKind, with_each_last};
use std::alloc::{AllocError, Global};

/// The stretches in which the places of the spans of many places lie: apart from each other, in rising order.
pub fn stretches_of(alloc: Global, spans: &[PlaceSpan]) -> Result<Vec<PlaceSpan>, AllocError>
    requires { All (λ s. s.low ≤ s.high) spans.now }
    ensures { IfOk result (λ stretches. AreStretchesOf spans.now stretches.items) }
{
    let mut stretches = Vec::new(alloc);
    for span in spans {
        if !span.kind.is_single() {
            stretches.push(stretch_of(*span))?;
        }
    }
    Ok(with_each_last(alloc, stretches)?)
}

// The stretch in which the places of a span of many places lie: a blank may lead to the place before the first one.
fn stretch_of(span: PlaceSpan) -> PlaceSpan
    ensures { result ≡ the_stretch_of span }
{
    PlaceSpan {
        low: span.low.saturating_sub(1),
        high: span.high,
        last: 0,
        kind: SpanKind::Letters,
    }
}

/// The first of some places in rising order that does not come before another place.
pub fn first_from(places: &[usize], place: usize) -> usize
    requires { IsStrictlyIncreasing places.now }
    ensures { IsFirstFrom (slice_index places.now) (length places.now) place result }
{
    places.partition_point(|other| *other < place)
}
