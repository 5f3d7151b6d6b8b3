//! Going back over the pattern of a variable.

ghost use Rattle.std.specs.Prelude.{IfOk};
ghost use Rattle.lic_ere.specs.Trees.{tree_of};
ghost use Rattle.lic_words.specs.Expressions.{Language, tidy};
ghost use Rattle.lic_ere.specs.Meaning.{tree_words};
ghost use Rattle.lic_view.specs.Backward.{IsBack};
ghost use Rattle.lic_view.specs.PlaceSets.{ArePlaced};

use crate::letters::counts::over_any;
use crate::letters::passing::is_any;
use crate::patterns::over_pattern;
use lic_ere::Ere;
use lic_spans::PlaceSpan;
use lic_view::{Keep, Stop, View};
use std::alloc::Global;

/// The places from which a tidy word of a pattern leads to those of the spans.
#[inline(never)]
pub fn over_value(
    alloc: Global,
    view: &View<'_>,
    keep: Keep,
    ere: &Ere,
    spans: Vec<PlaceSpan>,
) -> Result<Vec<PlaceSpan>, Stop>
    requires { ArePlaced view.now spans.items }
    ensures { IfOk result (λ found. IsBack keep view.now (Language (tidy (tree_words (tree_of ere.now)))) spans.items found.items) }
{
    match ere {
        // mostly letters of any kind are counted
        Ere::Repeat { body, min, max } if *min <= 1 && is_any(body) => {
            Ok(over_any(alloc, view, keep, *min, *max, spans)?)
        }
        _ => over_pattern(alloc, view, keep, ere, spans),
    }
}
