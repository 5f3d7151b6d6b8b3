//! Going back over optional copies of a text.

ghost use Rattle.std.specs.Prelude.{◌≡◌, [], IfOk};
ghost use Rattle.std.specs.Str.{chars};
ghost use Rattle.lic_words.specs.Expressions.{Language, letters};
ghost use Rattle.lic_phrases.specs.PieceTexts.{IsPieceText};
ghost use Rattle.lic_view.specs.Backward.{IsBack, Keeps};
ghost use Rattle.lic_view.specs.PlaceSets.{ArePlaced};
ghost use Rattle.lic_reverse.specs.Reached.{reached_of};
ghost use Rattle.lic_reverse.specs.Tidily.{UpTo, spans_of};
ghost use Rattle.lic_reverse.specs.Tidily.Taken.{a_blank, a_letter, nothing};

use crate::ways::Ways;
use crate::ways::reached::Reached;
use lic_spans::PlaceSpan;
use lic_view::{Keep, Stop, View, kept, over_text, tokens_have_texts};
use std::alloc::Global;
use std::mem;

/// The places from which up to `count` copies of a text lead to those of the spans: each time on from places that may be new.
#[inline(never)]
pub fn over_copies(
    alloc: Global,
    view: &View<'_>,
    keep: Keep,
    text: &str,
    count: usize,
    spans: Vec<PlaceSpan>,
) -> Result<Vec<PlaceSpan>, Stop>
    requires piece { IsPieceText text.now }
    requires placed { ArePlaced view.now spans.items }
    ensures { IfOk result (λ found. IsBack keep view.now (UpTo (Language (letters (chars text.now))) count) spans.items found.items) }
{
    tokens_have_texts(view);
    let mut front = Vec::from_slice(alloc, &spans)?;
    let mut reached = Reached::new(alloc, ways_of(alloc, spans));
    for _ in 0..count {
        if front.is_empty() {
            return places_of(alloc, view, keep, reached);
        }
        let next = over_text(alloc, view, keep, text, front)?;
        let mut added = reached.add(alloc, view, keep, ways_of(alloc, next))?;
        front = mem::replace(&mut added.nothing, Vec::new(alloc));
    }
    places_of(alloc, view, keep, reached)
}

// Places, as ways on which nothing is known of what was taken.
fn ways_of(alloc: Global, spans: Vec<PlaceSpan>) -> Ways
    ensures nothing { spans_of result nothing ≡ spans.items }
    ensures letter { spans_of result a_letter ≡ [] }
    ensures blank { spans_of result a_blank ≡ [] }
{
    Ways {
        nothing: spans,
        letter: Vec::new(alloc),
        blank: Vec::new(alloc),
    }
}

// The places that were reached, each once with each of its last tokens that is kept.
fn places_of(
    alloc: Global,
    view: &View<'_>,
    keep: Keep,
    reached: Reached,
) -> Result<Vec<PlaceSpan>, Stop>
    requires { ArePlaced view.now (reached_of reached nothing) }
    ensures { IfOk result (λ found. Keeps keep (reached_of reached nothing) found.items) }
{
    let mut ways = reached.into_ways()?;
    let places = mem::replace(&mut ways.nothing, Vec::new(alloc));
    Ok(kept(alloc, view, keep, places)?)
}
