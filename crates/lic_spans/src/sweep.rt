//! A sweep over sorted spans, place by place, with those that are active at the place.

ghost use Rattle.std.specs.Prelude.{◌≡◌, ℕ, ◌+◌, ◌<◌, ◌≤◌, List, [], ◌∷◌, ◌++◌, length, max, All, IfOk, OnOk};
ghost use Rattle.std.specs.BinaryHeap.{IsHeap, heap_items};
ghost use Rattle.std.proofs.Props.{props};
ghost use Rattle.lic_spans.specs.declared.span.PlaceSpan.{PlaceSpan};
ghost use Rattle.lic_spans.specs.Spans.{rank};
ghost use Rattle.lic_spans.specs.Sweeps.{Covers, IsSettled, IsLeastOf, active_cmp};

use crate::join::add;
use crate::span::{PlaceSpan, SpanKind};
use std::alloc::{AllocError, Global};
use std::cmp::Reverse;
use std::collections::BinaryHeap;

/// A sweep over spans that are sorted by kind and by low place.
#[derive(Drop)]
pub(crate) struct Sweep {
    // The kind of the active spans.
    kind: SpanKind,
    // The first place that is not done.
    at: usize,
    // The active spans, each with its last token and its last place: the one of the least last token comes first.
    active: BinaryHeap<(Reverse<usize>, usize)>,
    // What is done: of each place the least last token.
    least: Vec<PlaceSpan>,
    ghost in_order: { IsHeap active_cmp (heap_items active) } by { Prim.hlevel props },
}

impl Sweep {
    ghost use Rattle.lic_spans.specs.Swept.{HasTaken, HasReached, size_of};

    /// A sweep that has taken no span.
    pub(crate) fn new(alloc: Global) -> Sweep
        ensures sweep { HasTaken [] result }
        ensures kind { rank result.kind ≡ 0 }
        ensures at { result.at ≡ 0 }
        ensures few { size_of result ≡ 0 }
    {
        Sweep {
            kind: SpanKind::End,
            at: 0,
            active: BinaryHeap::new(alloc),
            least: Vec::new(alloc),
        }
    }

    /// Takes one span more. Those that were taken are of no later kind, and those of its kind begin no later.
    pub(crate) fn take(&mut self, span: PlaceSpan) -> Result<(), AllocError>
        requires ordered { span.low ≤ span.high }
        requires bounded { span.high < usize.MAX }
        requires kinds { rank self.old.kind ≤ rank span.kind }
        requires places { self.old.kind ≡ span.kind → self.old.at ≤ span.low }
        ensures sweep { OnOk result ((taken : List PlaceSpan) → HasTaken taken self.old → HasTaken (taken ++ span ∷ []) self.new) }
        ensures kind { OnOk result (self.new.kind ≡ span.kind) }
        ensures at { OnOk result (self.new.at ≡ span.low) }
        ensures few { OnOk result ((taken : List PlaceSpan) → HasTaken taken self.old → size_of self.new ≤ size_of self.old + 2) }
    {
        self.reach(span.kind)?;
        self.settle(span.low)?;
        self.active.push((Reverse(span.last), span.high))?;
        Ok(())
    }

    /// What the spans that were taken come to.
    pub(crate) fn finish(mut self) -> Result<Vec<PlaceSpan>, AllocError>
        ensures sweep { IfOk result (λ least. (taken : List PlaceSpan) → HasTaken taken self → IsLeastOf taken least.items) }
        ensures few { IfOk result (λ least. (taken : List PlaceSpan) → HasTaken taken self → length least.items ≤ size_of self) }
    {
        self.settle(usize::MAX)?;
        Ok(self.least)
    }

    // Moves to a kind, to its first place, after what the active spans have is done.
    fn reach(&mut self, kind: SpanKind) -> Result<(), AllocError>
        requires { rank self.old.kind ≤ rank kind }
        ensures sweep { OnOk result ((taken : List PlaceSpan) → HasTaken taken self.old → HasTaken taken self.new) }
        ensures kind { OnOk result (self.new.kind ≡ kind) }
        ensures at { OnOk result ((low : ℕ) → (self.old.kind ≡ kind → self.old.at ≤ low) → self.new.at ≤ low) }
        ensures few { OnOk result ((taken : List PlaceSpan) → HasTaken taken self.old → size_of self.new ≤ size_of self.old) }
    {
        if self.kind == kind {
            return Ok(());
        }
        let _at = self.at;
        self.settle(usize::MAX)?;
        self.active.clear();
        self.kind = kind;
        self.at = 0;
        Ok(())
    }

    // Moves to a place of the kind, after what the active spans have before it is done; those that end before it leave.
    fn settle(&mut self, to: usize) -> Result<(), AllocError>
        requires { self.old.at ≤ to }
        ensures advances { OnOk result (HasReached self.old to self.new) }
        ensures kind { OnOk result (self.new.kind ≡ self.old.kind) }
        ensures at { OnOk result (self.new.at ≡ to) }
        ensures few { OnOk result (size_of self.new ≤ size_of self.old + 1) }
        ensures fewer { OnOk result (All (λ item. item.1 < to) (heap_items self.old.active) → size_of self.new ≤ size_of self.old) }
    {
        while let Some((Reverse(last), high)) = self.active.peek().copied() {
            if to <= high {
                self.cover(to, last)?;
                return Ok(());
            }
            let _ = self.active.pop();
            self.cover(high + 1, last)?;
        }
        self.at = to;
        Ok(())
    }

    // Adds the places from where it is to before another, with a last token.
    fn cover(&mut self, stop: usize, last: usize) -> Result<(), AllocError>
        ensures covers { OnOk result (Covers self.old.kind self.old.at stop last self.old.least.items self.new.least.items) }
        ensures settled { OnOk result (IsSettled self.old.least.items self.old.kind self.old.at
            → IsSettled self.new.least.items self.old.kind self.new.at) }
        ensures few { OnOk result (length self.new.least.items ≤ length self.old.least.items + 1) }
        ensures kind { OnOk result (self.new.kind ≡ self.old.kind) }
        ensures at { OnOk result (self.new.at ≡ max self.old.at stop) }
        ensures active { OnOk result (heap_items self.new.active ≡ heap_items self.old.active) }
    {
        if self.at < stop {
            let span = PlaceSpan {
                low: self.at,
                high: stop - 1,
                last,
                kind: self.kind,
            };
            add(&mut self.least, span)?;
            self.at = stop;
        }
        Ok(())
    }
}
