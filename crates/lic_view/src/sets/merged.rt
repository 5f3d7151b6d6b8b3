//! The spans of two lists in one.

ghost use Rattle.std.specs.Prelude.{IfOk};
ghost use Rattle.lic_view.specs.Merged.{AreMerged};

use crate::sets::fresh::first_from;
use crate::sets::keep::Keep;
use lic_spans::PlaceSpan;
use std::alloc::{AllocError, Global};

/// The spans of both lists. If both are sorted, so are they, but for spans that begin at one place.
pub fn merged(
    alloc: Global,
    keep: Keep,
    spans: &[PlaceSpan],
    others: &[PlaceSpan],
) -> Result<Vec<PlaceSpan>, AllocError>
    ensures { IfOk result (λ all. AreMerged spans.now others.now all.items) }
{
    let mut all = Vec::new(alloc);
    let mut from = 0;
    for span in spans {
        let next = first_from(keep, others, from, span);
        all.extend_from_slice(&others[from..next])?;
        all.push(*span)?;
        from = next;
    }
    all.extend_from_slice(&others[from..])?;
    Ok(all)
}
