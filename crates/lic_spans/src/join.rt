//! Spans of one kind and one last token that overlap or touch are joined.

ghost use Rattle.std.specs.Prelude.{◌≡◌, ◌+◌, ◌<◌, ◌≤◌, ◌⊎◌, ◌↔◌, ℕ, [], ◌∷◌, length, All, OnOk, if◌then◌else◌};
ghost use Rattle.lic_spans.specs.declared.span.SpanKind.{SpanKind};
ghost use Rattle.lic_spans.specs.Spans.{AreBefore, Holds, FitsKind, is_continued_by, lengthened};
ghost use Rattle.lic_spans.specs.Sweeps.{IsSettled};

use crate::span::PlaceSpan;
use std::alloc::AllocError;

/// Puts a span to the end of a list, joined with the last one there where it continues that.
pub(crate) fn add(spans: &mut Vec<PlaceSpan>, span: PlaceSpan) -> Result<(), AllocError>
    requires { span.low ≤ span.high }
    ensures holds { OnOk result ((k : SpanKind) (p l : ℕ) → Holds spans.new.items k p l ↔ (Holds spans.old.items k p l ⊎ Holds (span ∷ []) k p l)) }
    ensures settled { OnOk result (IsSettled spans.old.items span.kind span.low → IsSettled spans.new.items span.kind (span.high + 1)) }
    ensures fits { OnOk result (FitsKind span → All FitsKind spans.old.items → All FitsKind spans.new.items) }
    ensures ordered { OnOk result (All (λ s. s.low ≤ s.high) spans.old.items → All (λ s. s.low ≤ s.high) spans.new.items) }
    ensures before { OnOk result (AreBefore spans.old.items span → AreBefore spans.new.items span) }
    ensures few { OnOk result (length spans.new.items ≤ length spans.old.items + 1) }
{
    let count = spans.len();
    if count > 0 && join(&mut spans[count - 1], &span) {
        return Ok(());
    }
    spans.push(span)?;
    Ok(())
}

// Makes a span longer by one that continues it, and says whether it does.
fn join(before: &mut PlaceSpan, span: &PlaceSpan) -> bool
    ensures continued { result ≡ is_continued_by before.old span.now }
    ensures length { before.new ≡ (if result then lengthened before.old span.now.high else before.old) }
{
    let continued = is_continued(before, span);
    if continued {
        before.high = before.high.max(span.high);
    }
    continued
}

// Whether a span has the kind and the last token of another, and begins within it or, of many places, next after it.
fn is_continued(before: &PlaceSpan, span: &PlaceSpan) -> bool
    ensures { result ≡ is_continued_by before.now span.now }
{
    before.kind == span.kind
        && before.last == span.last
        && before.low <= span.low
        && (span.low <= before.high || (!before.kind.is_single() && span.low - 1 == before.high))
}
