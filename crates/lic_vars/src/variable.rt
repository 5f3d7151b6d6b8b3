//! The tidy words of a variable's pattern: going back over them, and the shortest one that a variable can match.

ghost use Rattle.std.specs.Prelude.{◌≡◌, ◌+◌, ◌-◌, ◌<◌, ◌&&◌, IfOk, IsTrue, ◌↔◌, if◌then◌else◌, nat_lt, ◌≤◌, length, max};
ghost use Rattle.lic_ere.specs.Trees.{tree_of};
ghost use Rattle.lic_words.specs.Expressions.{Language, tidy};
ghost use Rattle.lic_ere.specs.Meaning.{tree_words};
ghost use Rattle.lic_places.specs.Places.{is_blank_at, spelling_of};
ghost use Rattle.lic_reverse.specs.EmptyWord.{HasEmptyWordAlone};
ghost use Rattle.lic_view.specs.PlaceSets.{ArePlaced};
ghost use Rattle.lic_reverse.specs.Reverse.{LeadBack};
ghost use Rattle.lic_vars.specs.Cuts.{IsOpen};
ghost use Rattle.lic_vars.specs.Shortest.{AreWithin, HaveNone, IsLeastNumber, IsShortest, LeadsWithin};

use crate::cut::{Cut, have_cut, letter_place};
use lic_ere::Ere;
use lic_reverse::over_variable;
use lic_spans::PlaceSpan;
use lic_view::{View, tokens_have_texts};
use std::alloc::{AllocError, Global};

/// The places from which a tidy word of a pattern leads to those of the spans. The pattern is not read where it has the empty word alone.
pub fn over_pattern(
    alloc: Global,
    view: &View<'_>,
    ere: &Ere,
    is_empty: bool,
    spans: Vec<PlaceSpan>,
) -> Result<Vec<PlaceSpan>, AllocError>
    requires placed { ArePlaced view.now spans.items }
    requires alone { IsTrue is_empty → HasEmptyWordAlone (tree_words (tree_of ere.now)) }
    ensures { IfOk result (λ found. LeadBack view.now (Language (tidy (tree_words (tree_of ere.now)))) spans.items found.items) }
{
    if is_empty {
        return Ok(spans);
    }
    over_variable(alloc, view, ere, spans)
}

/// The cut after the shortest tidy word of a pattern that leads to a place of the spans.
pub fn after_shortest(
    alloc: Global,
    view: &View<'_>,
    ere: &Ere,
    is_empty: bool,
    spans: &[PlaceSpan],
    cut: Cut,
) -> Result<Cut, AllocError>
    requires placed { ArePlaced view.now spans.now }
    requires alone { IsTrue is_empty → HasEmptyWordAlone (tree_words (tree_of ere.now)) }
    requires open { IsOpen view.now cut }
    requires can { LeadsWithin view.now (tree_words (tree_of ere.now)) spans.now cut (length (spelling_of view.now)) }
    ensures { IfOk result (λ next. IsShortest view.now (tree_words (tree_of ere.now)) spans.now cut next) }
{
    tokens_have_texts(view);
    let number = least_number(alloc, view, ere, is_empty, spans, cut)?;
    let begin = letter_place(view, cut);
    let end = end_of(view, begin, number);
    if end <= begin {
        return Ok(cut);
    }
    Ok(Cut {
        place: end,
        is_apart: false,
    })
}

// The place that a number gives after a letter: no word ends after a blank.
fn end_of(view: &View<'_>, begin: usize, number: usize) -> usize
    ensures { result ≡ (if nat_lt begin number && is_blank_at (spelling_of view.now) (number - 1) then number - 1 else number) }
{
    if begin < number && view.is_blank(number - 1) {
        number - 1
    } else {
        number
    }
}

// The least number of the spans to whose place a tidy word leads.
fn least_number(
    alloc: Global,
    view: &View<'_>,
    ere: &Ere,
    is_empty: bool,
    spans: &[PlaceSpan],
    cut: Cut,
) -> Result<usize, AllocError>
    requires placed { ArePlaced view.now spans.now }
    requires alone { IsTrue is_empty → HasEmptyWordAlone (tree_words (tree_of ere.now)) }
    requires open { IsOpen view.now cut }
    requires can { LeadsWithin view.now (tree_words (tree_of ere.now)) spans.now cut (length (spelling_of view.now)) }
    ensures { IfOk result (λ number. IsLeastNumber view.now (tree_words (tree_of ere.now)) spans.now cut number) }
{
    tokens_have_texts(view);
    let mut high = view.bytes().len();
    let mut low = first_number(spans, cut.place, high);
    let mut width: usize = 0;
    while low < high {
        let middle = low + width.min((high - low) / 2);
        if leads_within(alloc, view, ere, is_empty, spans, cut, middle)? {
            high = middle;
        } else {
            low = first_number(spans, middle + 1, high);
            width = width.saturating_mul(2).saturating_add(1);
        }
    }
    Ok(high)
}

// The least number of the spans from `low` on, at most `high`.
fn first_number(spans: &[PlaceSpan], low: usize, high: usize) -> usize
    requires { low ≤ high }
    ensures order { low ≤ result }
    ensures within { result ≤ high }
    ensures none { HaveNone spans.now low result }
{
    let mut first = high;
    for span in spans {
        if low <= span.high {
            first = first.min(span.low.max(low));
        }
    }
    first
}

// Whether a tidy word leads from a cut to a place of the spans with a number up to `high`.
fn leads_within(
    alloc: Global,
    view: &View<'_>,
    ere: &Ere,
    is_empty: bool,
    spans: &[PlaceSpan],
    cut: Cut,
    high: usize,
) -> Result<bool, AllocError>
    requires placed { ArePlaced view.now spans.now }
    requires alone { IsTrue is_empty → HasEmptyWordAlone (tree_words (tree_of ere.now)) }
    requires open { IsOpen view.now cut }
    ensures { IfOk result (λ leads. IsTrue leads
        ↔ LeadsWithin view.now (tree_words (tree_of ere.now)) spans.now cut high) }
{
    tokens_have_texts(view);
    let ends = numbers_within(alloc, spans, cut.place, high)?;
    if ends.is_empty() {
        return Ok(false);
    }
    let begins = over_pattern(alloc, view, ere, is_empty, ends)?;
    Ok(have_cut(view, &begins, cut))
}

// The spans with their numbers from `low` to `high` alone.
fn numbers_within(
    alloc: Global,
    spans: &[PlaceSpan],
    low: usize,
    high: usize,
) -> Result<Vec<PlaceSpan>, AllocError>
    ensures { IfOk result (λ found. AreWithin spans.now low high found.items) }
{
    let mut within = Vec::new(alloc);
    for span in spans {
        let part = PlaceSpan {
            low: span.low.max(low),
            high: span.high.min(high),
            last: span.last,
            kind: span.kind,
        };
        if part.low <= part.high {
            within.push(part)?;
        }
    }
    Ok(within)
}
