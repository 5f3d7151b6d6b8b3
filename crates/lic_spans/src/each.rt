//! Of each place of a set all its last tokens.

ghost use Rattle.std.specs.Prelude.{◌≡◌, ℕ, ◌≤◌, ◌↔◌, length, All, AllPairs, IfOk};
ghost use Rattle.lic_spans.specs.declared.span.SpanKind.{SpanKind};
ghost use Rattle.lic_spans.specs.Spans.{Holds, AreApartOfLast, StartsBefore};

use crate::join::add;
use crate::span::PlaceSpan;
use std::alloc::{AllocError, Global};

/// Each place of a kind with each of its last tokens, once: spans of one kind and one last token that overlap are joined, and
/// so are those of many places that touch.
///
/// The spans may come in any order, overlap and repeat. Of n spans it takes n log n steps.
pub fn with_each_last(
    alloc: Global,
    mut spans: Vec<PlaceSpan>,
) -> Result<Vec<PlaceSpan>, AllocError>
    requires { All (λ s. s.low ≤ s.high) spans.items }
    ensures same { IfOk result (λ each. (kind : SpanKind) (place last : ℕ) → Holds each.items kind place last ↔ Holds spans.items kind place last) }
    ensures apart { IfOk result (λ each. AreApartOfLast each.items) }
    ensures ordered { IfOk result (λ each. All (λ s. s.low ≤ s.high) each.items) }
    ensures few { IfOk result (λ each. length each.items ≤ length spans.items) }
{
    spans.sort_by_key(|span| (span.kind as u8, span.last, span.low))?;
    joined(alloc, &spans)
}

// The same of spans that are sorted by kind, then by last token and then by low place.
fn joined(alloc: Global, spans: &[PlaceSpan]) -> Result<Vec<PlaceSpan>, AllocError>
    requires ordered { All (λ s. s.low ≤ s.high) spans.now }
    requires sorted { AllPairs StartsBefore spans.now }
    ensures same { IfOk result (λ each. (kind : SpanKind) (place last : ℕ) → Holds each.items kind place last ↔ Holds spans.now kind place last) }
    ensures apart { IfOk result (λ each. AreApartOfLast each.items) }
    ensures ordered { IfOk result (λ each. All (λ s. s.low ≤ s.high) each.items) }
    ensures few { IfOk result (λ each. length each.items ≤ length spans.now) }
{
    let mut each = Vec::new(alloc);
    for span in spans {
        add(&mut each, *span)?;
    }
    Ok(each)
}
