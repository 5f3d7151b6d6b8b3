//! Ends of tokens up to some bytes after the places where a text of a template ends.

ghost use Rattle.std.specs.Prelude.{◌≡◌, ◌+◌, ◌≤◌, ◌<◌, ℕ, length, map, Contains, IfOk};
ghost use Rattle.std.specs.List.Sorted.{IsStrictlyIncreasing};
ghost use Rattle.lic_words.specs.Words.{Word};
ghost use Rattle.lic_words.specs.Expressions.{Language};
ghost use Rattle.lic_markup.specs.Meaning.{parts_words};
ghost use Rattle.lic_markup.specs.Parts.{part_of};
ghost use Rattle.lic_norm.specs.Places.{place_end};
ghost use Rattle.lic_places.specs.Places.{spelling_of};
ghost use Rattle.lic_places.specs.Reads.{Reads};
ghost use Rattle.lic_view.specs.PlaceSets.{ArePlaced, Reaches};
ghost use Rattle.lic_keys.specs.Required.{HoldEnds};
ghost use Rattle.lic_search.specs.Ends.{AddsEnds, AreTokenEnds, ListsEnd};

use crate::matches::token_end;
use crate::reach::most_bytes;
use lic_markup::Part;
use lic_spans::PlaceSpan;
use lic_view::{View, tokens_have_texts};
use std::alloc::{AllocError, Global};

/// The ends of tokens at which a word of the parts may end, where the text of this number ends at the places alone: those
/// that lie no further after one of them than the parts after the text reach.
pub(crate) fn candidate_ends(
    alloc: Global,
    view: &View<'_>,
    parts: &[Part],
    number: usize,
    places: &[usize],
) -> Result<Vec<PlaceSpan>, AllocError>
    requires text { HoldEnds (spelling_of view.now) parts.now number places.now }
    requires rising { IsStrictlyIncreasing places.now }
    ensures placed { IfOk result (λ ends. ArePlaced view.now ends.items) }
    ensures sound { IfOk result (λ ends. (p last : ℕ) → Reaches view.now ends.items p last
        → (last < length view.now) × (p ≡ place_end view.now last)) }
    ensures complete { IfOk result (λ ends. (p last : ℕ) (w : Word)
        → Language (parts_words (map part_of parts.now)) w → Reads view.now p w (place_end view.now last)
        → last < length view.now → Reaches view.now ends.items (place_end view.now last) last) }
{
    tokens_have_texts(view);
    let _length = view.bytes().len();
    // one byte more for the blank at the end of the text
    let most = most_bytes(&parts[number + 1..]).saturating_add(1);
    Ok(ends_within(alloc, view, places, most)?)
}

// The ends of the tokens that end at one of the places or at most `most` bytes after it.
fn ends_within(
    alloc: Global,
    view: &View<'_>,
    places: &[usize],
    most: usize,
) -> Result<Vec<PlaceSpan>, AllocError>
    requires { IsStrictlyIncreasing places.now }
    ensures ends { IfOk result (λ ends. AreTokenEnds view.now ends.items) }
    ensures all { IfOk result (λ ends. (place last : ℕ) → Contains places.now place → last < length view.now
        → place ≤ place_end view.now last → place_end view.now last ≤ place + most → ListsEnd view.now ends.items last) }
{
    let _length = view.bytes().len();
    let mut ends = Vec::new(alloc);
    let mut next = 0;
    for place in places {
        let first = first_from(view, next, *place);
        next = add_ends(view, first, place.saturating_add(most), &mut ends)?;
    }
    Ok(ends)
}

// The first token from this one on that ends at the place or after it.
fn first_from(view: &View<'_>, token: usize, place: usize) -> usize
    ensures order { token ≤ result }
    ensures before { (last : ℕ) → token ≤ last → last < result → place_end view.now last < place }
    ensures from { (last : ℕ) → token ≤ last → last < length view.now → place ≤ place_end view.now last → result ≤ last }
{
    if token < view.len() && view.end(token) >= place {
        return token;
    }
    view.first_ending_from(place).max(token)
}

// Adds the ends of the tokens from this one on that end at a place or before it. Gives the first token that ends after it.
fn add_ends(
    view: &View<'_>,
    first: usize,
    place: usize,
    ends: &mut Vec<PlaceSpan>,
) -> Result<usize, AllocError>
    ensures added { IfOk result (λ next. AddsEnds view.now first next ends.old.items ends.new.items) }
    ensures after { IfOk result (λ next. (last : ℕ) → next ≤ last → last < length view.now → place < place_end view.now last) }
{
    tokens_have_texts(view);
    for token in first..view.len() {
        if view.end(token) > place {
            return Ok(token);
        }
        ends.push(token_end(view, token))?;
    }
    Ok(view.len())
}
