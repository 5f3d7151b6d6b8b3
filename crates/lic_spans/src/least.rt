//! Of each place of a set its least last token.

ghost use Rattle.std.specs.Prelude.{◌≡◌, ℕ, ◌+◌, ◌*◌, ◌<◌, ◌≤◌, ◌↔◌, List, length, All, AllPairs, IfOk, IsTrue, OnOk, Contains};
ghost use Rattle.lic_spans.specs.declared.span.SpanKind.{SpanKind};
ghost use Rattle.lic_spans.specs.declared.span.PlaceSpan.{PlaceSpan};
ghost use Rattle.lic_spans.specs.Spans.{Holds, AreApart, FitsKind, BeginsBefore, is_before as lies_before, is_covered_by};
ghost use Rattle.lic_spans.specs.Sweeps.{HasLess, IsLeastOf};

use crate::span::PlaceSpan;
use crate::sweep::Sweep;
use std::alloc::{AllocError, Global};

/// Of each place of a kind its least last token alone.
///
/// The spans may come in any order, overlap and repeat. Single places, of the kinds `End` and `Place`, stay single. Places
/// are bytes of the text, last tokens are numbers of tokens.
///
/// Of n spans it takes n log n steps, whatever they are, and n where they come sorted. Where no two of them overlap but those of the
/// same places, it sorts them alone.
pub fn with_least_last(
    alloc: Global,
    mut spans: Vec<PlaceSpan>,
) -> Result<Vec<PlaceSpan>, AllocError>
    requires ordered { All (λ s. s.low ≤ s.high) spans.items }
    requires bounded { All (λ s. s.high < usize.MAX) spans.items }
    ensures sound { IfOk result (λ least. (kind : SpanKind) (place last : ℕ) → Holds least.items kind place last → Holds spans.items kind place last) }
    ensures least { IfOk result (λ least. (kind : SpanKind) (place last : ℕ) → Holds spans.items kind place last
        → (other : ℕ) × (other ≤ last) × Holds least.items kind place other) }
    ensures apart { IfOk result (λ least. AreApart least.items) }
    ensures ordered { IfOk result (λ least. All (λ s. s.low ≤ s.high) least.items) }
    ensures fits { All FitsKind spans.items → IfOk result (λ least. All FitsKind least.items) }
    ensures few { IfOk result (λ least. length least.items ≤ 2 * length spans.items) }
{
    if spans.len() < 2 {
        return Ok(spans);
    }
    sort(&mut spans)?;
    if are_apart(&spans) {
        return Ok(spans);
    }
    swept(alloc, &spans)
}

// Of spans that are sorted by kind and by low place.
fn swept(alloc: Global, spans: &[PlaceSpan]) -> Result<Vec<PlaceSpan>, AllocError>
    requires ordered { All (λ s. s.low ≤ s.high) spans.now }
    requires bounded { All (λ s. s.high < usize.MAX) spans.now }
    requires sorted { AllPairs BeginsBefore spans.now }
    ensures least { IfOk result (λ least. IsLeastOf spans.now least.items) }
    ensures few { IfOk result (λ least. length least.items ≤ 2 * length spans.now) }
{
    let mut sweep = Sweep::new(alloc);
    for span in spans {
        sweep.take(*span)?;
    }
    sweep.finish()
}

// Sorts spans by kind and by low place. A span that follows one of all its places and of no greater last token goes.
//
// The sort takes sorted runs as they are: callers hand in several sorted lists, one after another.
fn sort(spans: &mut Vec<PlaceSpan>) -> Result<(), AllocError>
    ensures sorted { OnOk result (AllPairs BeginsBefore spans.new.items) }
    ensures sound { OnOk result ((span : PlaceSpan) → Contains spans.new.items span → Contains spans.old.items span) }
    ensures least { OnOk result ((kind : SpanKind) (place last : ℕ) → Holds spans.old.items kind place last → HasLess spans.new.items kind place last) }
    ensures few { OnOk result (length spans.new.items ≤ length spans.old.items) }
{
    spans.sort_by_key(|span| (span.kind as u8, span.low, span.last))?;
    spans.dedup_by(|span, kept| is_covered(span, kept));
    Ok(())
}

// Whether another span has all places of a span, with a last token that is no greater.
fn is_covered(span: &PlaceSpan, kept: &PlaceSpan) -> bool
    ensures { result ≡ is_covered_by span.now kept.now }
{
    span.kind == kept.kind
        && span.low >= kept.low
        && span.high <= kept.high
        && span.last >= kept.last
}

// Whether each span lies before the next.
fn are_apart(spans: &[PlaceSpan]) -> bool
    requires { All (λ s. s.low ≤ s.high) spans.now }
    ensures { IsTrue result ↔ AreApart spans.now }
{
    spans.is_sorted_by(|before, span| is_before(before, span))
}

// Whether a span is of an earlier kind than another, or of its kind and ends before it.
fn is_before(before: &PlaceSpan, span: &PlaceSpan) -> bool
    ensures { result ≡ lies_before before.now span.now }
{
    before.kind < span.kind || (before.kind == span.kind && before.high < span.low)
}
