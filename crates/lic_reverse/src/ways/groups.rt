//! Places in groups, by the letters before them: a pattern whose last letters are known goes back from the places of one group alone.

ghost use Rattle.std.specs.Prelude.{◌≡◌, ◌≤◌, ◌<◌, ◌↔◌, ◌∷◌, [], ℕ, length, map, Contains, IfOk, OnOk};
ghost use Rattle.lic_view.specs.PlaceSets.{ArePlaced, IsPlaceOf, Reaches};
ghost use Rattle.lic_reverse.specs.LetterGroups.{AddsPlaces, AreGroupsOf, HasEntry, HasNone, IsPieceOf, mixed as the_mixed, number_of as the_number_of};
ghost use Rattle.lic_spans.specs.declared.span.PlaceSpan.{PlaceSpan};

use lic_spans::PlaceSpan;
use lic_view::{View, end_of, place_of, tokens_have_texts};
use std::alloc::{AllocError, Global};

/// How many letters before a place are looked at.
pub(crate) const LETTERS: usize = 8;

/// How many groups there are at most, and how many for each place where that is fewer.
const MOST_GROUPS: usize = 1 << 14;

const GROUPS_A_PLACE: usize = 8;

/// A place, as a span with one number, and the hash of letters before it.
#[derive(Clone, Copy, Debug)]
pub(crate) struct Entry {
    hash: u64,
    span: PlaceSpan,
}

/// Places in groups: each once for each sequence of up to eight letters before it.
#[derive(Debug, Drop)]
pub(crate) struct Groups {
    lists: Vec<Vec<Entry>>,
    ghost some: { 0 < length lists.items },
}

impl Groups {
    /// The places of spans.
    pub(crate) fn of(
        alloc: Global,
        view: &View<'_>,
        spans: &[PlaceSpan],
    ) -> Result<Groups, AllocError>
        requires { ArePlaced view.now spans.now }
        ensures { IfOk result (λ groups. AreGroupsOf view.now spans.now groups.lists.items) }
    {
        let count = count_of(spans)
            .saturating_mul(GROUPS_A_PLACE)
            .min(MOST_GROUPS)
            .max(1);
        let mut lists = empty_lists(alloc, count)?;
        for span in spans {
            add_span(view, *span, &mut lists)?;
        }
        Ok(Groups { lists })
    }

    /// The places right after letters with this hash.
    pub(crate) fn with(&self, alloc: Global, hash: u64) -> Result<Vec<PlaceSpan>, AllocError>
        ensures { IfOk result (λ found. (s : PlaceSpan) → Contains found.items s ↔ HasEntry self.now.lists.items hash s) }
    {
        let number = number_of(hash, self.lists.len());
        spans_with(alloc, &self.lists[number], hash)
    }
}

// The spans of the entries with this hash.
fn spans_with(alloc: Global, entries: &[Entry], hash: u64) -> Result<Vec<PlaceSpan>, AllocError>
    ensures { IfOk result (λ found. (s : PlaceSpan) → Contains found.items s ↔ Contains entries.now (record { hash = hash; span = s })) }
{
    let mut found = Vec::new(alloc);
    for entry in entries {
        if entry.hash == hash {
            found.push(entry.span)?;
        }
    }
    Ok(found)
}

/// How many places spans have at most.
pub(crate) fn count_of(spans: &[PlaceSpan]) -> usize {
    let mut count: usize = 0;
    for span in spans {
        count = count
            .saturating_add(span.high.saturating_sub(span.low))
            .saturating_add(1);
    }
    count
}

// `count` lists without an entry.
fn empty_lists(alloc: Global, count: usize) -> Result<Vec<Vec<Entry>>, AllocError>
    ensures count { IfOk result (λ lists. length lists.items ≡ count) }
    ensures none { IfOk result (λ lists. HasNone lists.items) }
{
    let mut lists = Vec::with_capacity(alloc, count)?;
    for _ in 0..count {
        lists.push(Vec::new(alloc))?;
    }
    Ok(lists)
}

// Adds the places of a span.
fn add_span(view: &View<'_>, span: PlaceSpan, lists: &mut Vec<Vec<Entry>>) -> Result<(), AllocError>
    requires placed { ArePlaced view.now (span ∷ []) }
    requires some { 0 < length lists.old.items }
    ensures { OnOk result (AddsPlaces view.now (IsPieceOf (span ∷ [])) (λ q last. Reaches view.now (span ∷ []) q last) lists.old.items lists.new.items) }
{
    for number in span.low..end_of(view, span) {
        let one = PlaceSpan {
            low: number,
            high: number,
            last: span.last,
            kind: span.kind,
        };
        if let Some(place) = place_of(view, span.kind, number) {
            add_place(view, one, place, lists)?;
        }
    }
    Ok(())
}

// Adds a place once for each sequence of letters before it.
fn add_place(
    view: &View<'_>,
    one: PlaceSpan,
    place: usize,
    lists: &mut Vec<Vec<Entry>>,
) -> Result<(), AllocError>
    requires some { 0 < length lists.old.items }
    requires reaches { Reaches view.now (one ∷ []) place one.last }
    ensures { OnOk result (AddsPlaces view.now (λ s. s ≡ one) (λ q last. (q ≡ place) × (last ≡ one.last)) lists.old.items lists.new.items) }
{
    tokens_have_texts(view);
    let mut first = place;
    let mut hash = 0;
    for _ in 0..LETTERS {
        let Some((start, letter)) = view.letter_before(first) else {
            return Ok(());
        };
        if letter == ' ' {
            return Ok(());
        }
        hash = mixed(hash, letter);
        let number = number_of(hash, lists.len());
        lists[number].push(Entry { hash, span: one })?;
        first = start;
    }
    Ok(())
}

// The number of the group for a hash.
fn number_of(hash: u64, count: usize) -> usize
    requires { 0 < count }
    ensures value { result ≡ the_number_of hash count }
    ensures below { result < count }
{
    // most ways have one list of places alone
    if count == 1 {
        return 0;
    }
    (hash >> 32) as usize % count
}

/// The hash of letters with one more before them.
pub(crate) fn mixed(hash: u64, letter: char) -> u64
    ensures { result ≡ the_mixed hash letter }
{
    hash.wrapping_add(letter as u64)
        .wrapping_mul(0x9E37_79B9_7F4A_7C15)
}
