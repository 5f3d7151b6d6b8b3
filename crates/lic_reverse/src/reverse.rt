//! Going back over one part of a template at a time, for callers that keep the places before each part.

ghost use Rattle.std.specs.Prelude.{◌≡◌, ◌↔◌, ◌++◌, [], ℕ, IsTrue, IfOk};
ghost use Rattle.std.specs.Str.{chars};
ghost use Rattle.lic_ere.specs.Trees.{tree_of};
ghost use Rattle.lic_words.specs.Expressions.{Language, letters, tidy};
ghost use Rattle.lic_ere.specs.Meaning.{tree_words};
ghost use Rattle.lic_phrases.specs.PieceTexts.{IsPieceText};
ghost use Rattle.lic_view.specs.PlaceSets.{ArePlaced, Reaches};
ghost use Rattle.lic_reverse.specs.Reverse.{LeadBack};

use crate::variable::over_value;
use lic_ere::Ere;
use lic_spans::PlaceSpan;
use lic_view::{Keep, View, has_place, kept, tokens_have_texts};
use std::alloc::{AllocError, Global};

/// The places from which a text leads to those of the spans.
pub fn over_text(
    alloc: Global,
    view: &View<'_>,
    text: &str,
    spans: Vec<PlaceSpan>,
) -> Result<Vec<PlaceSpan>, AllocError>
    requires piece { IsPieceText text.now }
    requires placed { ArePlaced view.now spans.items }
    ensures { IfOk result (λ found. LeadBack view.now (Language (letters (chars text.now))) spans.items found.items) }
{
    Ok(lic_view::over_text(alloc, view, Keep::Least, text, spans)?)
}

/// The places from which a tidy word of a pattern leads to those of the spans.
pub fn over_variable(
    alloc: Global,
    view: &View<'_>,
    ere: &Ere,
    spans: Vec<PlaceSpan>,
) -> Result<Vec<PlaceSpan>, AllocError>
    requires { ArePlaced view.now spans.items }
    ensures { IfOk result (λ found. LeadBack view.now (Language (tidy (tree_words (tree_of ere.now)))) spans.items found.items) }
{
    Ok(over_value(alloc, view, Keep::Least, ere, spans)?)
}

/// The places of the spans and those of other ones.
pub fn either(
    alloc: Global,
    view: &View<'_>,
    spans: &[PlaceSpan],
    others: &[PlaceSpan],
) -> Result<Vec<PlaceSpan>, AllocError>
    requires spans { ArePlaced view.now spans.now }
    requires others { ArePlaced view.now others.now }
    ensures { IfOk result (λ found. LeadBack view.now (λ w. w ≡ []) (spans.now ++ others.now) found.items) }
{
    tokens_have_texts(view);
    let mut all = Vec::from_slice(alloc, spans)?;
    all.extend_from_slice(others)?;
    Ok(kept(alloc, view, Keep::Least, all)?)
}

/// Whether some span has a place.
pub fn have_place(view: &View<'_>, spans: &[PlaceSpan], place: usize) -> bool
    requires { ArePlaced view.now spans.now }
    ensures { IsTrue result ↔ ((last : ℕ) × Reaches view.now spans.now place last) }
{
    for span in spans {
        if has_place(view, *span, place) {
            return true;
        }
    }
    false
}
