//! Spans that are joined as they are found.

ghost use Rattle.std.specs.Prelude.{◌≡◌, ◌≤◌, ◌++◌, ◌∷◌, [], All, IsTrue, OnOk};
ghost use Rattle.lic_view.specs.Backward.{Keeps};
ghost use Rattle.lic_view.specs.Joined.{Extends};

use crate::sets::keep::Keep;
use crate::sets::stop::Stop;
use lic_spans::PlaceSpan;

/// Adds a span. If it continues the last one, that one is made longer.
pub fn push_joined(keep: Keep, spans: &mut Vec<PlaceSpan>, span: PlaceSpan) -> Result<(), Stop>
    requires ordered { All (λ s. s.low ≤ s.high) spans.old.items }
    requires span { span.low ≤ span.high }
    ensures { OnOk result (Keeps keep (spans.old.items ++ span ∷ []) spans.new.items) }
{
    let count = spans.len();
    if count > 0 && extends(&spans[count - 1], &span) {
        spans[count - 1] = lengthened(spans[count - 1], span.high);
        return Ok(());
    }
    keep.push(spans, span)
}

// Whether a span continues another: it begins within it or right after it, and ends no earlier.
fn extends(before: &PlaceSpan, span: &PlaceSpan) -> bool
    ensures { IsTrue result → Extends before.now span.now }
{
    before.kind == span.kind
        && before.last == span.last
        && before.low <= span.low
        && span.low.saturating_sub(1) <= before.high
        && before.high <= span.high
}

// The span up to this place.
fn lengthened(span: PlaceSpan, high: usize) -> PlaceSpan
    ensures { result ≡ record span { high = high } }
{
    PlaceSpan {
        low: span.low,
        high,
        last: span.last,
        kind: span.kind,
    }
}
