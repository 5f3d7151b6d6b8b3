//! Spans that are not known yet.

ghost use Rattle.std.specs.Prelude.{◌≤◌, IfOk, length};
ghost use Rattle.lic_view.specs.Fresh.{AreFresh};

use crate::sets::keep::Keep;
use crate::sets::same::is_same;
use lic_spans::PlaceSpan;
use std::alloc::{AllocError, Global};

/// Those of the spans that are not among the known ones. Both are sorted; of spans that are not, some that are known may be left.
pub fn fresh_spans(
    alloc: Global,
    keep: Keep,
    spans: &[PlaceSpan],
    known: &[PlaceSpan],
) -> Result<Vec<PlaceSpan>, AllocError>
    ensures { IfOk result (λ fresh. AreFresh spans.now known.now fresh.items) }
{
    let mut fresh = Vec::new(alloc);
    let mut from = 0;
    for span in spans {
        from = first_from(keep, known, from, span);
        if from == known.len() || !is_same(&known[from], span) {
            fresh.push(*span)?;
        }
    }
    Ok(fresh)
}

/// The first span from a number on that does not come before another.
pub(crate) fn first_from(keep: Keep, spans: &[PlaceSpan], from: usize, other: &PlaceSpan) -> usize
    requires { from ≤ length spans.now }
    ensures from { from ≤ result }
    ensures within { result ≤ length spans.now }
{
    let mut first = from;
    while first < spans.len() && comes_before(keep, &spans[first], other) {
        first += 1;
    }
    first
}

// Whether a span comes before another where spans are sorted.
fn comes_before(keep: Keep, span: &PlaceSpan, other: &PlaceSpan) -> bool {
    match keep {
        Keep::Least => (span.kind, span.low) < (other.kind, other.low),
        Keep::Each { .. } => {
            (span.kind, span.last, span.low) < (other.kind, other.last, other.low)
        }
    }
}
