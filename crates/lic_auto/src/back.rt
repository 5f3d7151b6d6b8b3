//! Templates of a set over a list of tokens that comes from its end.

ghost use Rattle.std.specs.Prelude.{◌≡◌, ◌<◌, ◌≤◌, ◌+◌, ◌*◌, ◌-◌, ◌^◌, ◌∷◌, ◌↔◌, [], ℕ, List, length, take, vec_len, IfOk, IsTrue, Contains};
ghost use Rattle.std.specs.Str.{chars};
ghost use Rattle.lic_words.specs.Letters.{letters_in};
ghost use Rattle.lic_phrases.specs.TokenTexts.{IsTokenText};
ghost use Rattle.lic_set.specs.Rising.{IsRising};
ghost use Rattle.lic_auto.specs.Picked.{AreAll};
ghost use Rattle.lic_auto.specs.TemplateBacks.{AreReversed, back_numbers};

use crate::chosen::all_numbers;
use crate::steps::count_steps;
use crate::template_backs::{TemplateBack, begin_anew, gather_live, take_reversed};
use lic_set::Set;
use std::alloc::{AllocError, Global};

/// Templates of a set, all or some, over a list of tokens that comes from its end, so that it grows at its start. It keeps no token,
/// and takes memory in its constructors alone, in proportion to its own templates.
#[derive(Debug, Drop)]
pub struct Back<'s> {
    set: &'s Set,
    // one for each of its templates, by rising numbers
    backs: Vec<TemplateBack>,
    // the numbers of the live templates in rising order, and then anything
    live: Vec<usize>,
    live_count: usize,
    steps: u64,
    ghost rising: { IsRising (back_numbers backs.items) (length set.now) },
    ghost mirrors: { AreReversed set.now backs.items },
    ghost live_size: { vec_len live ≡ vec_len backs },
    ghost live_within: { live_count ≤ vec_len live },
    ghost live_rising: { IsRising (take live_count live.items) (length set.now) },
}

impl<'s> Back<'s> {
    ghost use Rattle.lic_auto.specs.Backs.{BackHasTaken, set_of_back, numbers_of_back, steps_of_back, IsLive};

    /// A machine over all templates, which has taken no token.
    ///
    /// # Errors
    /// Memory ran out.
    pub fn new(alloc: Global, set: &'s Set) -> Result<Back<'s>, AllocError>
        ensures taken { IfOk result (λ b. BackHasTaken b []) }
        ensures set { IfOk result (λ b. set_of_back b ≡ set.now) }
        ensures steps { IfOk result (λ b. steps_of_back b ≡ 0) }
        ensures all { IfOk result (λ b. AreAll set.now (numbers_of_back b)) }
    {
        let numbers = all_numbers(alloc, set.len())?;
        Back::over(alloc, set, numbers)
    }

    /// A machine over the templates of these numbers alone, which has taken no token.
    ///
    /// # Errors
    /// Memory ran out.
    pub fn over(alloc: Global, set: &'s Set, numbers: Vec<usize>) -> Result<Back<'s>, AllocError>
        requires { IsRising numbers.items (length set.now) }
        ensures taken { IfOk result (λ b. BackHasTaken b []) }
        ensures set { IfOk result (λ b. set_of_back b ≡ set.now) }
        ensures steps { IfOk result (λ b. steps_of_back b ≡ 0) }
        ensures numbers { IfOk result (λ b. numbers_of_back b ≡ numbers.items) }
    {
        let mut backs = Vec::with_capacity(alloc, numbers.len())?;
        for number in &numbers {
            let matcher = TemplateBack::new(alloc, set, *number)?;
            backs.push(matcher)?;
        }
        Ok(Back {
            set,
            backs,
            live: numbers,
            live_count: 0,
            steps: 0,
        })
    }

    /// Begins anew with no token. The steps stay counted.
    pub fn reset(&mut self)
        ensures taken { BackHasTaken self.new [] }
        ensures set { set_of_back self.new ≡ set_of_back self.old }
        ensures numbers { numbers_of_back self.new ≡ numbers_of_back self.old }
        ensures steps { (steps_of_back self.old ≤ steps_of_back self.new)
            × (steps_of_back self.new ≤ steps_of_back self.old + 2) }
    {
        begin_anew(&mut self.backs);
        self.live_count = 0;
    }

    /// Takes one token more, before those taken.
    ///
    /// A step is one letter, or one gap before a letter, that all templates take together; their count stays at the greatest `u64`.
    pub fn push_front(&mut self, text: &str)
        requires { IsTokenText text.now }
        ensures taken { (ts : List (List ℕ)) → BackHasTaken self.old ts
            → BackHasTaken self.new (chars text.now ∷ ts) }
        ensures set { set_of_back self.new ≡ set_of_back self.old }
        ensures numbers { numbers_of_back self.new ≡ numbers_of_back self.old }
        ensures least { steps_of_back self.new < 2 ^ 64 - 1
            → steps_of_back self.old + letters_in (chars text.now) ≤ steps_of_back self.new }
        ensures most { steps_of_back self.new
            ≤ steps_of_back self.old + 2 * letters_in (chars text.now) }
        ensures never_fall { steps_of_back self.old ≤ steps_of_back self.new }
    {
        self.steps = count_steps(self.steps, text);
        take_reversed(&mut self.backs, text);
        self.live_count = gather_live(&self.backs, &mut self.live);
    }

    /// Whether some template of this machine describes a beginning of the tokens taken.
    pub fn live(&self) -> bool
        ensures { (ts : List (List ℕ)) → BackHasTaken self.now ts
            → IsTrue result ↔ ((k : ℕ) × Contains (numbers_of_back self.now) k
            × IsLive (set_of_back self.now) ts k) }
    {
        self.live_count > 0
    }

    /// The numbers of these templates, in rising order.
    pub fn live_numbers(&self) -> &[usize]
        ensures rising { IsRising result.now (length (set_of_back self.now)) }
        ensures exactly { (ts : List (List ℕ)) → BackHasTaken self.now ts → (k : ℕ)
            → Contains result.now k
            ↔ (Contains (numbers_of_back self.now) k × IsLive (set_of_back self.now) ts k) }
    {
        &self.live[..self.live_count]
    }

    /// The steps that were counted, at most the greatest `u64`.
    pub fn steps(&self) -> u64
        ensures { result ≡ steps_of_back self.now }
    {
        self.steps
    }
}
