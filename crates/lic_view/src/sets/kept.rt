//! Sets of places, of which those last tokens are kept that are wanted.

ghost use Rattle.std.specs.Prelude.{ℕ, IfOk};
ghost use Rattle.lic_view.specs.Backward.{Keeps};
ghost use Rattle.lic_view.specs.PlaceSets.{ArePlaced};

use crate::sets::keep::Keep;
use crate::sets::stop::Stop;
use crate::view::View;
use lic_spans::{PlaceSpan, with_each_last, with_least_last};
use std::alloc::Global;

/// Each place once with each of its last tokens that is kept.
pub fn kept(
    alloc: Global,
    view: &View<'_>,
    keep: Keep,
    spans: Vec<PlaceSpan>,
) -> Result<Vec<PlaceSpan>, Stop>
    requires { ArePlaced view.now spans.items }
    ensures { IfOk result (λ kept. Keeps keep spans.items kept.items) }
{
    let _length = view.bytes().len();
    match keep {
        Keep::Least => Ok(with_least_last(alloc, spans)?),
        Keep::Each { .. } => {
            let each = with_each_last(alloc, spans)?;
            keep.check(each.len())?;
            Ok(each)
        }
    }
}
