//! Going back over letters in a row that pass.

ghost use Rattle.std.specs.Prelude.{◌≡◌, ◌⊎◌, ◌≤◌, ◌∷◌, [], All, IfOk, OnOk, MatchOption};
ghost use Rattle.lic_words.specs.Words.{blank};
ghost use Rattle.lic_words.specs.Expressions.{Language, one};
ghost use Rattle.lic_ere.specs.Trees.{tree_of};
ghost use Rattle.lic_places.specs.Places.{spelling_of};
ghost use Rattle.lic_view.specs.Backward.{AddsKept, IsBack, IsBackFrom};
ghost use Rattle.lic_reverse.specs.Passing.{passes_of};
ghost use Rattle.lic_view.specs.declared.sets.keep.Keep.{Keep};
ghost use Rattle.lic_view.specs.PlaceSets.{ArePlaced, IsPlaceOf};
ghost use Rattle.lic_reverse.specs.Streaks.{IsStreak, IsStreakTo};
ghost use Rattle.lic_reverse.specs.StreaksKnown.{IsLongest};
ghost use Rattle.lic_reverse.specs.Tidily.{AreWays, IsTidyBack, UpTo, spans_of};

use crate::letters::passing::passes;
use crate::letters::streak::{Streak, first_streak, streak_start};
use crate::ways::Ways;
use lic_ere::Ere;
use lic_spans::{PlaceSpan, SpanKind};
use lic_view::{Keep, Stop, View, end_of, over_blanks, place_of, push_joined, tokens_have_texts};
use std::alloc::Global;

/// Up to `count` letters and blanks in a row that pass, the first of which is no blank.
#[derive(Debug, Drop)]
pub(crate) struct Letters<'e> {
    pub(crate) ere: &'e Ere,
    pub(crate) count: usize,
    /// Whether a letter was taken last before them: without one the last of them is no blank either.
    pub(crate) after: bool,
}

/// Where up to `count` letters in a row that pass lead to these ways.
pub(crate) fn over_many(
    alloc: Global,
    view: &View<'_>,
    keep: Keep,
    ere: &Ere,
    count: usize,
    ways: &Ways,
) -> Result<Ways, Stop>
    requires { AreWays view.now ways.now }
    ensures { IfOk result (λ found. IsTidyBack keep view.now (UpTo (Language (one (passes_of (tree_of ere.now)))) count)
        (spans_of ways.now) (spans_of found)) }
{
    let mut found = with_streaks(alloc, view, keep, ere, count, ways)?;
    if found.letter.is_empty() {
        // no blank may come first
        return found.kept(alloc, view, keep);
    }
    if count == 0 || !passes(ere, ' ') {
        return found.kept(alloc, view, keep);
    }
    let begun = with_streaks(alloc, view, keep, ere, count - 1, ways)?;
    found.append(over_one_blank(alloc, view, keep, &begun)?)?;
    found.kept(alloc, view, keep)
}

// These ways, and where up to `count` letters that pass lead to them, the first of which is no blank.
fn with_streaks(
    alloc: Global,
    view: &View<'_>,
    keep: Keep,
    ere: &Ere,
    count: usize,
    ways: &Ways,
) -> Result<Ways, Stop>
    requires { AreWays view.now ways.now }
    ensures { IfOk result (λ found. IsTidyBack keep view.now (λ w. (w ≡ []) ⊎ IsStreak (passes_of (tree_of ere.now)) count w)
        (spans_of ways.now) (spans_of found)) }
{
    let mut found = ways.copy(alloc)?;
    found.append(over_streaks(alloc, view, keep, ere, count, ways)?)?;
    Ok(found)
}

// Where a blank leads to these ways.
fn over_one_blank(alloc: Global, view: &View<'_>, keep: Keep, ways: &Ways) -> Result<Ways, Stop>
    requires { AreWays view.now ways.now }
    ensures { IfOk result (λ found. IsTidyBack keep view.now (λ w. w ≡ blank ∷ []) (spans_of ways.now) (spans_of found)) }
{
    Ok(Ways {
        nothing: Vec::new(alloc),
        letter: Vec::new(alloc),
        blank: over_blanks(alloc, view, keep, &ways.letter)?,
    })
}

// Where up to `count` letters that pass lead to these ways, the first of which is no blank.
fn over_streaks(
    alloc: Global,
    view: &View<'_>,
    keep: Keep,
    ere: &Ere,
    count: usize,
    ways: &Ways,
) -> Result<Ways, Stop>
    requires { AreWays view.now ways.now }
    ensures { IfOk result (λ found. IsTidyBack keep view.now (IsStreak (passes_of (tree_of ere.now)) count)
        (spans_of ways.now) (spans_of found)) }
{
    let free = Letters {
        ere,
        count,
        after: false,
    };
    let within = Letters {
        ere,
        count,
        after: true,
    };
    let mut letter = streaks_before(alloc, view, keep, &free, &ways.nothing)?;
    let mut more = streaks_before(alloc, view, keep, &within, &ways.letter)?;
    let mut others = streaks_before(alloc, view, keep, &free, &ways.blank)?;
    letter.append(&mut more)?;
    letter.append(&mut others)?;
    Ok(Ways {
        nothing: Vec::new(alloc),
        letter,
        blank: Vec::new(alloc),
    })
}

/// Where such letters lead to places.
pub(crate) fn streaks_before(
    alloc: Global,
    view: &View<'_>,
    keep: Keep,
    letters: &Letters<'_>,
    spans: &[PlaceSpan],
) -> Result<Vec<PlaceSpan>, Stop>
    requires { ArePlaced view.now spans.now }
    ensures { IfOk result (λ found. IsBack keep view.now
        (IsStreakTo (passes_of (tree_of letters.now.ere.now)) letters.now.count letters.now.after) spans.now found.items) }
{
    tokens_have_texts(view);
    let mut found = Vec::new(alloc);
    let mut known = first_streak();
    for span in spans {
        add_streaks(view, keep, letters, *span, &mut known, &mut found)?;
    }
    Ok(found)
}

// Adds where such letters lead to the places of a span.
fn add_streaks(
    view: &View<'_>,
    keep: Keep,
    letters: &Letters<'_>,
    span: PlaceSpan,
    known: &mut Streak,
    found: &mut Vec<PlaceSpan>,
) -> Result<(), Stop>
    requires placed { ArePlaced view.now (span ∷ []) }
    requires ordered { All (λ s. s.low ≤ s.high) found.old.items }
    requires known { IsLongest (spelling_of view.now) (passes_of (tree_of letters.now.ere.now)) letters.now.count known.old }
    ensures adds { OnOk result (AddsKept keep view.now
        (IsStreakTo (passes_of (tree_of letters.now.ere.now)) letters.now.count letters.now.after) span found.old.items found.new.items) }
    ensures known { OnOk result (IsLongest (spelling_of view.now) (passes_of (tree_of letters.now.ere.now)) letters.now.count known.new) }
{
    for number in span.low..end_of(view, span) {
        if let Some(stretch) = streak_before(view, letters, span, number, known) {
            push_joined(keep, found, stretch)?;
        }
    }
    Ok(())
}

// Where such letters lead to the place of a number of a span.
fn streak_before(
    view: &View<'_>,
    letters: &Letters<'_>,
    span: PlaceSpan,
    number: usize,
    known: &mut Streak,
) -> Option<PlaceSpan>
    requires placed { ArePlaced view.now (span ∷ []) }
    requires low { span.low ≤ number }
    requires high { number ≤ span.high }
    requires known { IsLongest (spelling_of view.now) (passes_of (tree_of letters.now.ere.now)) letters.now.count known.old }
    ensures back { MatchOption result
        ((keep : Keep) → IsBackFrom keep view.now (IsStreakTo (passes_of (tree_of letters.now.ere.now)) letters.now.count letters.now.after)
        (λ q last. (last ≡ span.last) × IsPlaceOf view.now span.kind number q) [])
        (λ stretch. (keep : Keep) → IsBackFrom keep view.now (IsStreakTo (passes_of (tree_of letters.now.ere.now)) letters.now.count letters.now.after)
        (λ q last. (last ≡ span.last) × IsPlaceOf view.now span.kind number q) (stretch ∷ [])) }
    ensures known { IsLongest (spelling_of view.now) (passes_of (tree_of letters.now.ere.now)) letters.now.count known.new }
{
    tokens_have_texts(view);
    let place = place_of(view, span.kind, number)?;
    if !letters.after && view.is_after_blank(place) {
        return None;
    }
    let low = streak_start(view, letters.ere, letters.count, known, place);
    if low >= place {
        return None;
    }
    Some(PlaceSpan {
        low,
        high: place - 1,
        last: span.last,
        kind: SpanKind::Letters,
    })
}

/// Whether the ways have so few numbers that to go over each of them takes little time.
pub(crate) fn are_few(view: &View<'_>, keep: Keep, ways: &Ways) -> bool {
    let length = view.bytes().len();
    keep.check_numbers(&ways.nothing, length).is_ok()
        && keep.check_numbers(&ways.letter, length).is_ok()
        && keep.check_numbers(&ways.blank, length).is_ok()
}
