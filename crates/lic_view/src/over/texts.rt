//! Going back over a text: the blank at its end, its letters, the blank at its beginning.

ghost use Rattle.std.specs.Prelude.{◌≡◌, ◌<◌, ◌∷◌, [], length, IfOk, if◌then◌else◌};
ghost use Rattle.std.specs.Str.{chars};
ghost use Rattle.lic_words.specs.Expressions.{Language, letters};
ghost use Rattle.lic_phrases.specs.PieceTexts.{IsPieceText};
ghost use Rattle.lic_view.specs.Backward.{IsBack};
ghost use Rattle.lic_view.specs.PlaceSets.{ArePlaced};
ghost use Rattle.lic_places.specs.Texts.{AreLettersIfAny, IsBlankIf};

use crate::over::blanks::over_blanks;
use crate::over::letters::over_letters;
use crate::sets::keep::Keep;
use crate::sets::kept::kept;
use crate::sets::stop::Stop;
use crate::view::{View, tokens_have_texts};
use lic_places::edges_of;
use lic_spans::PlaceSpan;
use std::alloc::Global;

/// The places at which a text begins that ends at those of the spans.
pub fn over_text(
    alloc: Global,
    view: &View<'_>,
    keep: Keep,
    text: &str,
    spans: Vec<PlaceSpan>,
) -> Result<Vec<PlaceSpan>, Stop>
    requires piece { IsPieceText text.now }
    requires placed { ArePlaced view.now spans.items }
    ensures { IfOk result (λ found. IsBack keep view.now (Language (letters (chars text.now))) spans.items found.items) }
{
    tokens_have_texts(view);
    let edges = edges_of(text);
    let spans = over_blank_if(alloc, view, keep, edges.has_end, spans)?;
    let spans = over_letters_if_any(alloc, view, keep, edges.letters, spans)?;
    let spans = over_blank_if(alloc, view, keep, edges.has_front, spans)?;
    Ok(kept(alloc, view, keep, spans)?)
}

// The places to which a blank leads, or where there is none, the places as they are.
fn over_blank_if(
    alloc: Global,
    view: &View<'_>,
    keep: Keep,
    has_blank: bool,
    spans: Vec<PlaceSpan>,
) -> Result<Vec<PlaceSpan>, Stop>
    requires { ArePlaced view.now spans.items }
    ensures { IfOk result (λ found. IsBack keep view.now (IsBlankIf has_blank) spans.items found.items) }
{
    if has_blank {
        Ok(over_blanks(alloc, view, keep, &spans)?)
    } else {
        Ok(spans)
    }
}

// The places at which the letters begin, or where there is none, the places as they are.
fn over_letters_if_any(
    alloc: Global,
    view: &View<'_>,
    keep: Keep,
    letters: &[u8],
    spans: Vec<PlaceSpan>,
) -> Result<Vec<PlaceSpan>, Stop>
    requires letters { AreLettersIfAny letters.now }
    requires placed { ArePlaced view.now spans.items }
    ensures { IfOk result (λ found. IsBack keep view.now (λ w. w ≡ chars letters.now) spans.items found.items) }
{
    if letters.is_empty() {
        Ok(spans)
    } else {
        Ok(over_letters(alloc, view, keep, letters, &spans)?)
    }
}
