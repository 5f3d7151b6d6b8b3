//! Templates of a set over a list of tokens that comes token by token.

ghost use Rattle.std.specs.Prelude.{◌≡◌, ◌<◌, ◌≤◌, ◌+◌, ◌*◌, ◌-◌, ◌^◌, ◌∷◌, ◌++◌, [], ℕ, List, false, length, Some, IfOk, IsTrue, Contains};
ghost use Rattle.std.specs.List.{slice_get};
ghost use Rattle.std.specs.Str.{chars};
ghost use Rattle.lic_words.specs.Describing.{IsDescribed};
ghost use Rattle.lic_words.specs.Letters.{letters_in};
ghost use Rattle.lic_phrases.specs.TokenTexts.{IsTokenText};
ghost use Rattle.lic_set.specs.Sets.{Known, words_of};
ghost use Rattle.lic_set.specs.Rising.{IsRising};
ghost use Rattle.lic_auto.specs.Picked.{AreAll, IsLeastOf, OthersFail};
ghost use Rattle.lic_auto.specs.TemplateRuns.{AreOver, run_numbers};

use crate::chosen::all_numbers;
use crate::steps::count_steps;
use crate::template_runs::{TemplateRun, begin_all, begin_among, none_is_live, push_to_all};
use lic_set::Set;
use std::alloc::{AllocError, Global};

/// Templates of a set, all or some, over a list of tokens that comes token by token. It keeps no token, and takes memory in its
/// constructors alone, in proportion to its own templates.
#[derive(Debug, Drop)]
pub struct Run<'s> {
    set: &'s Set,
    // one for each of its templates, by rising numbers
    runs: Vec<TemplateRun>,
    steps: u64,
    ghost rising: { IsRising (run_numbers runs.items) (length set.now) },
    ghost over: { AreOver set.now runs.items },
}

impl<'s> Run<'s> {
    ghost use Rattle.lic_auto.specs.Runs.{RunHasTaken, RunHasTakenAmong, set_of, numbers_of, steps_of, is_dead, IsLeastDescribing};

    /// A run over all templates, which has taken no token.
    ///
    /// # Errors
    /// Memory ran out.
    pub fn new(alloc: Global, set: &'s Set) -> Result<Run<'s>, AllocError>
        ensures taken { IfOk result (λ r. RunHasTaken r []) }
        ensures set { IfOk result (λ r. set_of r ≡ set.now) }
        ensures steps { IfOk result (λ r. steps_of r ≡ 0) }
        ensures all { IfOk result (λ r. AreAll set.now (numbers_of r)) }
    {
        let numbers = all_numbers(alloc, set.len())?;
        Run::over(alloc, set, numbers)
    }

    /// A run over the templates of these numbers alone, which has taken no token.
    ///
    /// # Errors
    /// Memory ran out.
    pub fn over(alloc: Global, set: &'s Set, numbers: Vec<usize>) -> Result<Run<'s>, AllocError>
        requires { IsRising numbers.items (length set.now) }
        ensures taken { IfOk result (λ r. RunHasTaken r []) }
        ensures set { IfOk result (λ r. set_of r ≡ set.now) }
        ensures steps { IfOk result (λ r. steps_of r ≡ 0) }
        ensures numbers { IfOk result (λ r. numbers_of r ≡ numbers.items) }
    {
        let mut runs = Vec::with_capacity(alloc, numbers.len())?;
        for number in &numbers {
            let run = TemplateRun::new(alloc, set, *number)?;
            runs.push(run)?;
        }
        Ok(Run {
            set,
            runs,
            steps: 0,
        })
    }

    /// Begins anew with no token. The steps stay counted.
    pub fn reset(&mut self)
        ensures taken { RunHasTaken self.new [] }
        ensures set { set_of self.new ≡ set_of self.old }
        ensures numbers { numbers_of self.new ≡ numbers_of self.old }
        ensures steps { (steps_of self.old ≤ steps_of self.new)
            × (steps_of self.new ≤ steps_of self.old + 2) }
    {
        begin_all(&mut self.runs);
    }

    /// Begins anew with no token, over the templates of these numbers alone, until it begins anew again. The steps stay counted.
    pub fn begin(&mut self, numbers: &[usize])
        requires { (k : ℕ) → Contains numbers.now k → Contains (numbers_of self.old) k }
        ensures taken { RunHasTakenAmong self.new numbers.now [] }
        ensures set { set_of self.new ≡ set_of self.old }
        ensures numbers { numbers_of self.new ≡ numbers_of self.old }
        ensures steps { (steps_of self.old ≤ steps_of self.new)
            × (steps_of self.new ≤ steps_of self.old + 2) }
    {
        begin_among(&mut self.runs, numbers);
    }

    /// Takes one token more.
    ///
    /// A step is one letter, or one gap before a letter, that all live templates take together; their count stays at the greatest
    /// `u64`. A dead run takes none.
    pub fn push(&mut self, text: &str)
        requires { IsTokenText text.now }
        ensures taken { (ts : List (List ℕ)) → RunHasTaken self.old ts
            → RunHasTaken self.new (ts ++ chars text.now ∷ []) }
        ensures among { (numbers : List ℕ) (ts : List (List ℕ)) → RunHasTakenAmong self.old numbers ts
            → RunHasTakenAmong self.new numbers (ts ++ chars text.now ∷ []) }
        ensures set { set_of self.new ≡ set_of self.old }
        ensures numbers { numbers_of self.new ≡ numbers_of self.old }
        ensures least { is_dead self.old ≡ false → steps_of self.new < 2 ^ 64 - 1
            → steps_of self.old + letters_in (chars text.now) ≤ steps_of self.new }
        ensures most { steps_of self.new ≤ steps_of self.old + 2 * letters_in (chars text.now) }
        ensures never_fall { steps_of self.old ≤ steps_of self.new }
    {
        if !self.dead() {
            self.steps = count_steps(self.steps, text);
        }
        push_to_all(&mut self.runs, text);
    }

    /// The least number, from this one on, of a template of this run that describes the tokens taken.
    pub fn accepted(&self, from: usize) -> Option<usize>
        ensures among { (numbers : List ℕ) (ts : List (List ℕ)) → RunHasTakenAmong self.now numbers ts
            → IsLeastOf (set_of self.now) numbers ts from result }
        ensures least { (ts : List (List ℕ)) → RunHasTaken self.now ts
            → IsLeastOf (set_of self.now) (numbers_of self.now) ts from result }

        // Where no other template describes the list, it is the least of all.
        ensures all { (ts : List (List ℕ)) → RunHasTaken self.now ts
            → OthersFail (set_of self.now) (numbers_of self.now) ts
            → IsLeastDescribing (set_of self.now) ts from result }
    {
        for run in &self.runs {
            if run.number >= from && run.accepts() {
                return Some(run.number);
            }
        }
        None
    }

    /// True only if no template of this run describes a list that begins with the tokens taken.
    pub fn dead(&self) -> bool
        ensures value { result ≡ is_dead self.now }
        ensures among { IsTrue result
            → (numbers : List ℕ) (ts more : List (List ℕ)) (k : ℕ) (known : Known)
            → RunHasTakenAmong self.now numbers ts → Contains numbers k
            → slice_get (set_of self.now) k ≡ Some known
            → ¬ (IsDescribed (words_of known) (ts ++ more)) }
        ensures none { IsTrue result → (ts more : List (List ℕ)) (k : ℕ) (known : Known)
            → RunHasTaken self.now ts → Contains (numbers_of self.now) k
            → slice_get (set_of self.now) k ≡ Some known
            → ¬ (IsDescribed (words_of known) (ts ++ more)) }
    {
        none_is_live(&self.runs)
    }

    /// The steps that were counted, at most the greatest `u64`.
    pub fn steps(&self) -> u64
        ensures { result ≡ steps_of self.now }
    {
        self.steps
    }
}
