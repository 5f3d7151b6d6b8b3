//! Runs of single templates, which take tokens while their templates are live.

ghost use Rattle.std.specs.Prelude.{◌≡◌, ℕ, ◌<◌, ◌↔◌, List, [], length, not, IfOk, IsTrue, Some};
ghost use Rattle.std.specs.List.{list_all, slice_get};
ghost use Rattle.std.specs.Str.{chars};
ghost use Rattle.lic_words.specs.Describing.{IsDescribed};
ghost use Rattle.lic_words.specs.Expressions.{Expression};
ghost use Rattle.lic_set.specs.Sets.{Known, words_of};
ghost use Rattle.lic_auto.specs.Changes.{AreChanged};
ghost use Rattle.lic_auto.specs.TemplateRuns.{BeginsAmong, BeginsIf, Follows, IsOver, Takes, run_numbers};

use crate::chosen::compile_template;
use crate::direction::Direction;
use lic_marks::AnchoredMatcher;
use lic_set::Set;
use std::alloc::{AllocError, Global};

/// The run of one template of a set.
#[derive(Debug, Drop)]
pub struct TemplateRun {
    /// The number of the template.
    pub number: usize,
    run: AnchoredMatcher,
    /// False where the template describes no list that begins with the tokens, and where it is left out.
    pub is_live: bool,
}

impl TemplateRun {
    /// A run over the template of this number, which has taken no token.
    ///
    /// # Errors
    /// Memory ran out.
    pub fn new(alloc: Global, set: &Set, number: usize) -> Result<TemplateRun, AllocError>
        requires { number < length set.now }
        ensures number { IfOk result (λ run. run.number ≡ number) }
        ensures over { IfOk result (λ run. (known : Known) → slice_get set.now number ≡ Some known
            → IsOver run (words_of known)) }
        ensures follows { IfOk result (λ run. (known : Known) → slice_get set.now number ≡ Some known
            → Follows run (words_of known) []) }
    {
        let tree = compile_template(alloc, set, number, Direction::Forward)?;
        let run = AnchoredMatcher::new(alloc, tree)?;
        Ok(TemplateRun {
            number,
            run,
            is_live: true,
        })
    }

    /// Begins anew with no token, or is left out.
    fn begin(&mut self, is_entered: bool)
        ensures { BeginsIf is_entered self.old self.new }
    {
        self.run.reset();
        self.is_live = is_entered;
    }

    /// Takes a token, if the template is live.
    fn push(&mut self, token: &str)
        ensures { Takes (chars token.now) self.old self.new }
    {
        if self.is_live {
            self.run.push(token);
            self.is_live = !self.run.is_dead();
        }
    }

    /// Whether the template is live and describes the tokens.
    pub fn accepts(&self) -> bool
        ensures described { (e : Expression) (ts : List (List ℕ)) → Follows self.now e ts
            → IsTrue result ↔ IsDescribed e ts }
        ensures live { IsTrue result → IsTrue self.now.is_live }
    {
        self.is_live && self.run.accepts()
    }
}

/// All begin anew with no token.
pub fn begin_all(runs: &mut [TemplateRun])
    ensures { AreChanged (BeginsAmong (run_numbers runs.old)) runs.old runs.new }
{
    for run in runs.iter_mut() {
        run.begin(true);
    }
}

/// Those of these numbers begin anew with no token, and the others are left out.
pub fn begin_among(runs: &mut [TemplateRun], numbers: &[usize])
    ensures { AreChanged (BeginsAmong numbers.now) runs.old runs.new }
{
    for run in runs.iter_mut() {
        let is_entered = numbers.contains(&run.number);
        run.begin(is_entered);
    }
}

/// Those that are live take a token.
pub fn push_to_all(runs: &mut [TemplateRun], token: &str)
    ensures { AreChanged (Takes (chars token.now)) runs.old runs.new }
{
    for run in runs.iter_mut() {
        run.push(token);
    }
}

/// Whether none is live.
pub fn none_is_live(runs: &[TemplateRun]) -> bool
    ensures { result ≡ list_all (λ run. not run.is_live) runs.now }
{
    runs.iter().all(|run| !run.is_live)
}
