//! Whether spans are the same.

ghost use Rattle.std.specs.Prelude.{◌≡◌, IsTrue};

use lic_spans::PlaceSpan;

/// Whether a span is the other.
pub(crate) fn is_same(span: &PlaceSpan, other: &PlaceSpan) -> bool
    ensures { IsTrue result → span.now ≡ other.now }
{
    span.low == other.low
        && span.high == other.high
        && span.last == other.last
        && span.kind == other.kind
}

/// Whether the spans are the others, in the same order.
pub fn are_same(spans: &[PlaceSpan], others: &[PlaceSpan]) -> bool
    ensures { IsTrue result → spans.now ≡ others.now }
{
    if spans.len() != others.len() {
        return false;
    }
    for i in 0..spans.len() {
        if !is_same(&spans[i], &others[i]) {
            return false;
        }
    }
    true
}
