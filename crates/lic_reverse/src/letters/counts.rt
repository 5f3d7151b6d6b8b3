//! Going back over a number of letters of any kind.

ghost use Rattle.std.specs.Prelude.{◌≡◌, ◌-◌, ◌≤◌, ◌∷◌, [], ℕ, true, IfOk, OnOk, IfNone, IfSome, None, Some};
ghost use Rattle.lic_words.specs.Expressions.{Language, one, repeat, tidy};
ghost use Rattle.lic_view.specs.Backward.{AddsBack, IsBack, IsBackFrom};
ghost use Rattle.lic_view.specs.declared.sets.keep.Keep.{Keep};
ghost use Rattle.lic_view.specs.PlaceSets.{ArePlaced, IsPlaceOf};

use crate::letters::streaks::{Letters, streaks_before};
use lic_ere::Ere;
use lic_spans::{PlaceSpan, SpanKind};
use lic_view::{Keep, Stop, View, end_of, kept, place_of, tokens_have_texts};
use std::alloc::Global;

/// The places from which tidy words of `min` to `max` letters and blanks of any kind lead to those of the spans; without `max` of
/// `min` or more.
pub(crate) fn over_any(
    alloc: Global,
    view: &View<'_>,
    keep: Keep,
    min: u32,
    max: Option<u32>,
    spans: Vec<PlaceSpan>,
) -> Result<Vec<PlaceSpan>, Stop>
    requires few { min ≤ 1 }
    requires placed { ArePlaced view.now spans.items }
    ensures { IfOk result (λ found. IsBack keep view.now
        (Language (tidy (repeat min max (one (λ _. true))))) spans.items found.items) }
{
    tokens_have_texts(view);
    let found = counted_before(alloc, view, keep, min, max, spans)?;
    kept(alloc, view, keep, found)
}

// The places from which those words lead to those of the spans, in any order and with any last tokens.
fn counted_before(
    alloc: Global,
    view: &View<'_>,
    keep: Keep,
    min: u32,
    max: Option<u32>,
    spans: Vec<PlaceSpan>,
) -> Result<Vec<PlaceSpan>, Stop>
    requires few { min ≤ 1 }
    requires placed { ArePlaced view.now spans.items }
    ensures { IfOk result (λ found. IsBack keep view.now
        (Language (tidy (repeat min max (one (λ _. true))))) spans.items found.items) }
{
    keep.check_numbers(&spans, view.bytes().len())?;
    let mut found = some_before(alloc, view, keep, max, &spans)?;
    if min > 0 {
        return Ok(found);
    }
    let mut all = spans;
    all.append(&mut found)?;
    Ok(all)
}

// Where words of one letter or more lead to the places, of no more than `max` letters and blanks.
fn some_before(
    alloc: Global,
    view: &View<'_>,
    keep: Keep,
    max: Option<u32>,
    spans: &[PlaceSpan],
) -> Result<Vec<PlaceSpan>, Stop>
    requires { ArePlaced view.now spans.now }
    ensures { IfOk result (λ found. IsBack keep view.now
        (Language (tidy (repeat 1 max (one (λ _. true))))) spans.now found.items) }
{
    match max {
        Some(max) => up_to(alloc, view, keep, max, spans),
        None => any_before(alloc, view, keep, spans),
    }
}

// Where words of one to `max` letters and blanks lead to the places.
fn up_to(
    alloc: Global,
    view: &View<'_>,
    keep: Keep,
    max: u32,
    spans: &[PlaceSpan],
) -> Result<Vec<PlaceSpan>, Stop>
    requires { ArePlaced view.now spans.now }
    ensures { IfOk result (λ found. IsBack keep view.now
        (Language (tidy (repeat 1 (Some max) (one (λ _. true))))) spans.now found.items) }
{
    let letters = Letters {
        ere: &Ere::Any,
        count: max as usize,
        after: false,
    };
    streaks_before(alloc, view, keep, &letters, spans)
}

// Where words of one letter or more lead to the places.
fn any_before(
    alloc: Global,
    view: &View<'_>,
    keep: Keep,
    spans: &[PlaceSpan],
) -> Result<Vec<PlaceSpan>, Stop>
    requires { ArePlaced view.now spans.now }
    ensures { IfOk result (λ found. IsBack keep view.now
        (Language (tidy (repeat 1 None (one (λ _. true))))) spans.now found.items) }
{
    let mut found = Vec::new(alloc);
    for span in spans {
        add_counted(view, keep, *span, &mut found)?;
    }
    Ok(found)
}

// Adds where such words lead to the places of a span.
//
// It goes from the greatest number down. The first place that letters lead to is enough: all that lead to one before it lead
// to it too.
fn add_counted(
    view: &View<'_>,
    keep: Keep,
    span: PlaceSpan,
    found: &mut Vec<PlaceSpan>,
) -> Result<(), Stop>
    requires { ArePlaced view.now (span ∷ []) }
    ensures { OnOk result (AddsBack keep view.now (Language (tidy (repeat 1 None (one (λ _. true)))))
        span found.old.items found.new.items) }
{
    tokens_have_texts(view);
    for number in (span.low..end_of(view, span)).rev() {
        if let Some(letters) = letters_before(view, span, number) {
            keep.push(found, letters)?;
            return Ok(());
        }
    }
    Ok(())
}

// The places from which such words lead to that of a number of a span, if there are any.
fn letters_before(view: &View<'_>, span: PlaceSpan, number: usize) -> Option<PlaceSpan>
    requires placed { ArePlaced view.now (span ∷ []) }
    requires low { span.low ≤ number }
    requires high { number ≤ span.high }
    ensures none { IfNone result ((keep : Keep) → IsBackFrom keep view.now (Language (tidy (repeat 1 None (one (λ _. true)))))
        (λ q last. IsPlaceOf view.now span.kind number q × (last ≡ span.last)) []) }
    ensures some { IfSome result (λ letters. (keep : Keep) → IsBackFrom keep view.now (Language (tidy (repeat 1 None (one (λ _. true)))))
        (λ q last. IsPlaceOf view.now span.kind number q × (last ≡ span.last)) (letters ∷ [])) }
    ensures all { IfSome result (λ letters. (q : ℕ) × IsPlaceOf view.now span.kind number q
        × (letters ≡ record { low = 0; high = q - 1; last = span.last; kind = SpanKind.Letters })) }
{
    tokens_have_texts(view);
    let place = place_of(view, span.kind, number)?;
    if view.is_after_blank(place) {
        return None;
    }
    if place == 0 {
        return None;
    }
    Some(PlaceSpan {
        low: 0,
        high: place - 1,
        last: span.last,
        kind: SpanKind::Letters,
    })
}
