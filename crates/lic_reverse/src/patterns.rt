//! Going back over a variable's pattern, by sets of places alone.

ghost use Rattle.std.specs.Prelude.{◌≡◌, ◌<◌, ◌≤◌, ◌∷◌, [], ℕ, map, length, IfOk, IsTrue, MatchOption};
ghost use Rattle.lic_words.specs.Words.{Power};
ghost use Rattle.lic_words.specs.Expressions.{Language, IsAtMost, repeat, tidy};
ghost use Rattle.lic_ere.specs.Meaning.{tree_words, sequence_words, choice_words};
ghost use Rattle.lic_ere.specs.Trees.{tree_of, sequence};
ghost use Rattle.lic_view.specs.Backward.{IsBack};
ghost use Rattle.lic_view.specs.PlaceSets.{ArePlaced};
ghost use Rattle.lic_reverse.specs.Tidily.{AreWays, IsMore, IsRepeated, IsTidyBack, UpTo, spans_of};

use crate::empty::has_empty_word_alone;
use crate::letters::passing::{is_one, over_one};
use crate::letters::streaks::{are_few, over_many};
use crate::ways::Ways;
use crate::ways::endings::{GroupedWays, part_for};
use crate::ways::reached::Reached;
use lic_ere::Ere;
use lic_spans::PlaceSpan;
use lic_view::{Keep, Stop, View, kept, tokens_have_texts};
use std::alloc::Global;
use std::mem;

/// The places from which a tidy word of the pattern leads to those of the spans.
pub(crate) fn over_pattern(
    alloc: Global,
    view: &View<'_>,
    keep: Keep,
    ere: &Ere,
    spans: Vec<PlaceSpan>,
) -> Result<Vec<PlaceSpan>, Stop>
    requires placed { ArePlaced view.now spans.items }
    ensures { IfOk result (λ found. IsBack keep view.now (Language (tidy (tree_words (tree_of ere.now)))) spans.items found.items) }
{
    if has_empty_word_alone(ere) {
        return Ok(spans);
    }
    tokens_have_texts(view);
    let ways = Ways {
        nothing: spans,
        letter: Vec::new(alloc),
        blank: Vec::new(alloc),
    };
    let mut found = over(alloc, view, keep, ere, ways)?;
    // a tidy word begins with no blank
    found.nothing.append(&mut found.letter)?;
    let places = mem::replace(&mut found.nothing, Vec::new(alloc));
    Ok(kept(alloc, view, keep, places)?)
}

// The ways from which a word of the pattern leads to these.
#[cycle(over)]
fn over(alloc: Global, view: &View<'_>, keep: Keep, ere: &Ere, ways: Ways) -> Result<Ways, Stop>
    requires { AreWays view.now ways }
    ensures { IfOk result (λ found. IsTidyBack keep view.now (Language (tree_words (tree_of ere.now))) (spans_of ways) (spans_of found)) }
{
    match ere {
        Ere::Empty => Ok(ways),
        Ere::Char(_) | Ere::Any | Ere::Set(_) => over_one(alloc, view, keep, ere, &ways),
        Ere::Cat(subs) => over_sequence(alloc, view, keep, subs, ways),
        Ere::Alt(subs) => over_choice(alloc, view, keep, subs, &ways),
        Ere::Repeat { body, min, max } => over_repeat(alloc, view, keep, body, *min, *max, ways),
    }
}

// One pattern after another, from the last one to the first. Those that have the empty word alone change nothing.
#[cycle(over)]
fn over_sequence(
    alloc: Global,
    view: &View<'_>,
    keep: Keep,
    subs: &[Ere],
    mut ways: Ways,
) -> Result<Ways, Stop>
    requires { AreWays view.now ways }
    ensures { IfOk result (λ found. IsTidyBack keep view.now (Language (sequence_words (sequence (map tree_of subs.now)))) (spans_of ways) (spans_of found)) }
{
    for number in (0..subs.len()).rev() {
        let sub = &subs[number];
        if has_empty_word_alone(sub) {
            continue;
        }
        let led = over(alloc, view, keep, sub, ways)?;
        ways = led.kept(alloc, view, keep)?;
    }
    Ok(ways)
}

// Any one of the patterns: where there are many, each goes back from those places alone that are right after its last letters.
// What several of them lead to does not pile up.
#[cycle(over)]
fn over_choice(
    alloc: Global,
    view: &View<'_>,
    keep: Keep,
    subs: &[Ere],
    ways: &Ways,
) -> Result<Ways, Stop>
    requires { AreWays view.now ways.now }
    ensures { IfOk result (λ found. IsTidyBack keep view.now (Language (choice_words (sequence (map tree_of subs.now)))) (spans_of ways.now) (spans_of found)) }
{
    let grouped = GroupedWays::if_many(alloc, view, subs.len(), ways)?;
    let mut found = Ways::none(alloc);
    let mut most = MANY;
    let mut next = 0;
    while next < subs.len() {
        let sub = &subs[next];
        next = after_repeated(subs, next);
        let part = part_for(alloc, sub, ways, &grouped)?;
        if part.is_empty() {
            continue;
        }
        let more = over(alloc, view, keep, sub, part)?;
        found.append(more)?;
        let count = found.longest();
        found = kept_if_many(alloc, view, keep, found, most)?;
        most = limit_after(most, count, found.longest());
    }
    found.kept(alloc, view, keep)
}

// The number of the first pattern after another that is not known to be the one before it once more.
fn after_repeated(subs: &[Ere], number: usize) -> usize
    requires { number < length subs.now }
    ensures after { number < result }
    ensures within { result ≤ length subs.now }
    ensures repeated { (i : ℕ) → number < i → i < result → IsRepeated subs.now i }
{
    let mut next = number + 1;
    while next < subs.len() && are_one_letter(&subs[next - 1], &subs[next]) {
        next += 1;
    }
    next
}

// Whether two patterns are the same letter, or both nothing.
fn are_one_letter(one: &Ere, other: &Ere) -> bool
    ensures { IsTrue result → tree_of one.now ≡ tree_of other.now }
{
    match (one, other) {
        (Ere::Empty, Ere::Empty) => true,
        (Ere::Char(letter), Ere::Char(again)) => letter == again,
        _ => false,
    }
}

// How many spans may be found before those that are there twice go.
const MANY: usize = 1024;

// Twice as many spans as were left, if there were more than `most`, and no fewer than `most`.
fn limit_after(most: usize, count: usize, left: usize) -> usize {
    if count <= most {
        return most;
    }
    most.max(left.saturating_mul(2))
}

// The ways; if they have more spans than `most`, with each place once.
fn kept_if_many(
    alloc: Global,
    view: &View<'_>,
    keep: Keep,
    ways: Ways,
    most: usize,
) -> Result<Ways, Stop>
    requires { AreWays view.now ways }
    ensures { IfOk result (λ found. IsTidyBack keep view.now (λ w. w ≡ []) (spans_of ways) (spans_of found)) }
{
    if ways.longest() <= most {
        return Ok(ways);
    }
    ways.kept(alloc, view, keep)
}

// From `min` to `max` words of the body in a row; without `max`, `min` or more.
#[cycle(over)]
fn over_repeat(
    alloc: Global,
    view: &View<'_>,
    keep: Keep,
    body: &Ere,
    min: u32,
    max: Option<u32>,
    ways: Ways,
) -> Result<Ways, Stop>
    requires { AreWays view.now ways }
    ensures { IfOk result (λ found. IsTidyBack keep view.now (Language (repeat min max (tree_words (tree_of body.now)))) (spans_of ways) (spans_of found)) }
{
    tokens_have_texts(view);
    let _length = view.bytes().len();
    let Some(more) = more_than(min, max) else {
        return Ok(Ways::none(alloc));
    };
    let needed = over_times(alloc, view, keep, body, min, ways)?;
    if more > 1 && is_one(body) && are_few(view, keep, &needed) {
        return over_many(alloc, view, keep, body, more, &needed);
    }
    over_up_to(alloc, view, keep, body, more, needed)
}

// How many words there may be beyond `min`: the text is too short for the greatest number.
fn more_than(min: u32, max: Option<u32>) -> Option<usize>
    ensures { MatchOption result (¬ (IsAtMost max min)) (IsMore min max) }
{
    match max {
        None => Some(usize::MAX),
        Some(max) if max < min => None,
        Some(max) => Some((max - min) as usize),
    }
}

// `count` words of the body in a row.
#[cycle(over)]
#[inline(never)]
fn over_times(
    alloc: Global,
    view: &View<'_>,
    keep: Keep,
    body: &Ere,
    count: u32,
    mut ways: Ways,
) -> Result<Ways, Stop>
    requires { AreWays view.now ways }
    ensures { IfOk result (λ found. IsTidyBack keep view.now (Power (Language (tree_words (tree_of body.now))) count) (spans_of ways) (spans_of found)) }
{
    for _ in 0..count {
        let led = over(alloc, view, keep, body, ways.copy(alloc)?)?;
        let next = led.kept(alloc, view, keep)?;
        if next.is_same(&ways) {
            return Ok(ways);
        }
        ways = next;
    }
    Ok(ways)
}

// Up to `count` words of the body in a row: each time on from what was not found before.
#[cycle(over)]
fn over_up_to(
    alloc: Global,
    view: &View<'_>,
    keep: Keep,
    body: &Ere,
    count: usize,
    ways: Ways,
) -> Result<Ways, Stop>
    requires { AreWays view.now ways }
    ensures { IfOk result (λ found. IsTidyBack keep view.now (UpTo (Language (tree_words (tree_of body.now))) count) (spans_of ways) (spans_of found)) }
{
    let mut front = ways.copy(alloc)?;
    let mut reached = Reached::new(alloc, ways);
    for _ in 0..count {
        if front.is_empty() {
            return Ok(reached.into_ways()?);
        }
        let led = over(alloc, view, keep, body, front.copy(alloc)?)?;
        front = reached.go_on(alloc, view, keep, &front, led)?;
    }
    Ok(reached.into_ways()?)
}
