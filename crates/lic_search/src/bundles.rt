//! The matches of one template as bundles.

ghost use Rattle.std.specs.Prelude.{◌≡◌, ◌≤◌, ◌↔◌, ℕ, [], ◌∷◌, All, IfOk, MatchOption};
ghost use Rattle.lic_spans.specs.Spans.{AreApartOfLast, Holds};
ghost use Rattle.lic_spans.specs.declared.span.SpanKind.TheVariants.{Letters};
ghost use Rattle.lic_set.specs.declared.triple.Triple.{Triple};
ghost use Rattle.lic_bundles.specs.Bundles.{AreApart};
ghost use Rattle.lic_search.specs.AllMatches.{BundlesHold, IsOrdered};
ghost use Rattle.lic_search.specs.Beginnings.{AreFirsts, BeginsIn};
ghost use Rattle.lic_view.specs.PlaceSets.{ArePlaced};

use crate::matches::last_beginning;
use lic_bundles::Bundle;
use lic_spans::{PlaceSpan, SpanKind, with_each_last};
use lic_view::{View, tokens_have_texts};
use std::alloc::{AllocError, Global};

/// The bundles of a template whose words begin at the places of spans, each up to the last token of its span.
///
/// The bundles of two spans may overlap: one range of tokens may be described by several words. So those of one last token are joined.
pub(crate) fn bundles_of(
    alloc: Global,
    view: &View<'_>,
    spans: &[PlaceSpan],
    template: usize,
) -> Result<Vec<Bundle>, AllocError>
    requires { ArePlaced view.now spans.now }
    ensures exact { IfOk result (λ bundles. (t : Triple)
        → BundlesHold bundles.items t ↔ (BeginsIn view.now spans.now t.first t.last × (t.template ≡ template))) }
    ensures ordered { IfOk result (λ bundles. All IsOrdered bundles.items) }
    ensures once { IfOk result (λ bundles. AreApart bundles.items) }
{
    let firsts = firsts_of(alloc, view, spans)?;
    let mut bundles = Vec::with_capacity(alloc, firsts.len())?;
    for first in &firsts {
        bundles.push(bundle_of(first, template))?;
    }
    Ok(bundles)
}

// The tokens from the low one of a span to its high one as those with which matches of a template begin.
fn bundle_of(firsts: &PlaceSpan, template: usize) -> Bundle
    ensures { result ≡ record { from = firsts.now.low; to = firsts.now.high; last = firsts.now.last; template = template } }
{
    Bundle {
        from: firsts.low,
        to: firsts.high,
        last: firsts.last,
        template,
    }
}

// With which tokens words begin at the places of spans: as spans whose places are numbers of tokens, each of them once.
fn firsts_of(
    alloc: Global,
    view: &View<'_>,
    spans: &[PlaceSpan],
) -> Result<Vec<PlaceSpan>, AllocError>
    requires { ArePlaced view.now spans.now }
    ensures exact { IfOk result (λ firsts. (first last : ℕ)
        → Holds firsts.items Letters first last ↔ BeginsIn view.now spans.now first last) }
    ensures apart { IfOk result (λ firsts. AreApartOfLast firsts.items) }
    ensures ordered { IfOk result (λ firsts. All (λ s. s.low ≤ s.high) firsts.items) }
    ensures kinds { IfOk result (λ firsts. All (λ s. s.kind ≡ Letters) firsts.items) }
{
    let mut firsts = Vec::new(alloc);
    for span in spans {
        if let Some(more) = firsts_in(view, *span) {
            firsts.push(more)?;
        }
    }
    Ok(with_each_last(alloc, firsts)?)
}

// The tokens with which words begin at the places of one span.
fn firsts_in(view: &View<'_>, span: PlaceSpan) -> Option<PlaceSpan>
    requires { ArePlaced view.now (span ∷ []) }
    ensures { MatchOption result ((first : ℕ) → ¬ (BeginsIn view.now (span ∷ []) first span.last))
        (AreFirsts view.now span) }
{
    tokens_have_texts(view);
    let range = last_beginning(view, span)?;
    Some(PlaceSpan {
        low: view.first_beginning_from(span.low),
        high: range.first,
        last: span.last,
        kind: SpanKind::Letters,
    })
}
