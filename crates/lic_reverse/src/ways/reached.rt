//! What going back over words of a pattern again and again has reached.

ghost use Rattle.std.specs.Prelude.{◌≡◌, ◌++◌, [], IfOk, OnOk};
ghost use Rattle.lic_view.specs.PlaceSets.{ArePlaced};
ghost use Rattle.lic_reverse.specs.Reached.{IsFrontierOf, IsNextFrontier, reached_of};
ghost use Rattle.lic_reverse.specs.Tidily.{AreWays, IsTidyBack, Taken, spans_of};

use crate::ways::Ways;
use lic_view::{Keep, Stop, View};
use std::alloc::{AllocError, Global};

/// The ways that were reached.
#[derive(Debug, Drop)]
pub(crate) struct Reached {
    // Each place once with each last token that is kept.
    settled: Ways,
    // Those that came since, as they came: they are settled once they are as many.
    recent: Ways,
}

impl Reached {
    /// These ways.
    pub(crate) fn new(alloc: Global, ways: Ways) -> Reached
        ensures { (s : Taken) → reached_of result s ≡ spans_of ways s }
    {
        Reached {
            settled: ways,
            recent: Ways::none(alloc),
        }
    }

    /// Adds ways, and answers those from which to continue: what was not reached before is among them.
    pub(crate) fn add(
        &mut self,
        alloc: Global,
        view: &View<'_>,
        keep: Keep,
        next: Ways,
    ) -> Result<Ways, Stop>
        requires reached { (s : Taken) → ArePlaced view.now (reached_of self.old s) }
        requires next { AreWays view.now next }
        ensures { IfOk result (λ front. IsFrontierOf keep view.now (reached_of self.old)
            (λ s. reached_of self.old s ++ spans_of next s) (reached_of self.new) (spans_of front)) }
    {
        if self.recent.longest() < self.settled.longest() {
            let front = next.copy(alloc)?;
            self.recent.append(next)?;
            return Ok(front);
        }
        self.settle(alloc, view, keep)?;
        let mut all = self.settled.copy(alloc)?;
        all.append(next)?;
        let kept = all.kept(alloc, view, keep)?;
        let fresh = kept.fresh(alloc, keep, &self.settled)?;
        self.settled = kept;
        Ok(fresh)
    }

    // Settles all of them.
    fn settle(&mut self, alloc: Global, view: &View<'_>, keep: Keep) -> Result<(), Stop>
        requires { (s : Taken) → ArePlaced view.now (reached_of self.old s) }
        ensures settled { OnOk result (IsTidyBack keep view.now (λ w. w ≡ []) (reached_of self.old) (spans_of self.new.settled)) }
        ensures recent { OnOk result ((s : Taken) → spans_of self.new.recent s ≡ []) }
    {
        let mut all = self.settled.copy(alloc)?;
        all.append(self.recent.copy(alloc)?)?;
        let kept = all.kept(alloc, view, keep)?;
        self.settled = kept;
        self.recent = Ways::none(alloc);
        Ok(())
    }

    /// Adds the ways to which those of a frontier led, and answers the next frontier.
    #[inline(never)]
    pub(crate) fn go_on(
        &mut self,
        alloc: Global,
        view: &View<'_>,
        keep: Keep,
        front: &Ways,
        led: Ways,
    ) -> Result<Ways, Stop>
        requires reached { (s : Taken) → ArePlaced view.now (reached_of self.old s) }
        requires led { AreWays view.now led }
        ensures { IfOk result (λ next. IsNextFrontier keep view.now (reached_of self.old) (reached_of self.new)
            (spans_of front.now) (spans_of led) (spans_of next)) }
    {
        let next = led.kept(alloc, view, keep)?;
        let more = next.fresh(alloc, keep, front)?;
        self.add(alloc, view, keep, more)
    }

    /// All of them.
    #[inline(never)]
    pub(crate) fn into_ways(self) -> Result<Ways, AllocError>
        ensures { IfOk result (λ ways. (s : Taken) → spans_of ways s ≡ reached_of self s) }
    {
        let Reached {
            mut settled,
            recent,
        } = self;
        settled.append(recent)?;
        Ok(settled)
    }
}
