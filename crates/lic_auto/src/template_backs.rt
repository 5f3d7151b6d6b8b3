//! Matchers of single templates, over a list of tokens that is read from its end.

ghost use Rattle.std.specs.Prelude.{◌≡◌, ℕ, ◌<◌, ◌≤◌, ◌↔◌, List, [], length, take, IfOk, Some, Contains};
ghost use Rattle.std.specs.List.{slice_get};
ghost use Rattle.std.specs.Str.{chars};
ghost use Rattle.lic_words.specs.Letters.{letters_in};
ghost use Rattle.lic_set.specs.Rising.{IsRising};
ghost use Rattle.lic_set.specs.Sets.{Known};
ghost use Rattle.lic_auto.specs.Changes.{AreChanged};
ghost use Rattle.lic_auto.specs.TemplateBacks.{BeginsAnew, HasTakenBackward, HaveTakenBackward, IsFoundBefore, IsReversed, TakesReversed, back_numbers};

use crate::chosen::compile_template;
use crate::direction::Direction;
use lic_marks::UnanchoredMatcher;
use lic_set::Set;
use std::alloc::{AllocError, Global};

/// The matcher of one template of a set.
#[derive(Debug, Drop)]
pub struct TemplateBack {
    /// The number of the template.
    pub number: usize,
    matcher: UnanchoredMatcher,
}

impl TemplateBack {
    /// A matcher over the template of this number, which has taken no token.
    ///
    /// # Errors
    /// Memory ran out.
    pub fn new(alloc: Global, set: &Set, number: usize) -> Result<TemplateBack, AllocError>
        requires { number < length set.now }
        ensures number { IfOk result (λ one. one.number ≡ number) }
        ensures reversed { IfOk result (λ one. (known : Known) → slice_get set.now number ≡ Some known
            → IsReversed one known) }
        ensures sought { IfOk result (λ one. (known : Known) → slice_get set.now number ≡ Some known
            → HasTakenBackward one known []) }
    {
        let tree = compile_template(alloc, set, number, Direction::Backward)?;
        let matcher = UnanchoredMatcher::new(alloc, tree)?;
        Ok(TemplateBack { number, matcher })
    }
}

/// All begin anew.
pub fn begin_anew(backs: &mut [TemplateBack])
    ensures { AreChanged BeginsAnew backs.old backs.new }
{
    for one in backs.iter_mut() {
        one.matcher.reset();
    }
}

/// All take a token, from its end.
pub fn take_reversed(backs: &mut [TemplateBack], token: &str)
    requires { 0 < letters_in (chars token.now) }
    ensures { AreChanged (TakesReversed (chars token.now)) backs.old backs.new }
{
    for one in backs.iter_mut() {
        one.matcher.push_reversed(token);
    }
}

/// Writes the numbers of the templates that describe some end of the tokens first, in rising order, and gives how many they are.
pub fn gather_live(backs: &[TemplateBack], live: &mut [usize]) -> usize
    requires { length live.old ≡ length backs.now }
    ensures count { result ≤ length live.new }
    ensures rising { (bound : ℕ) → IsRising (back_numbers backs.now) bound
        → IsRising (take result live.new) bound }
    ensures exactly { (set : List Known) (ts : List (List ℕ))
        → IsRising (back_numbers backs.now) (length set) → HaveTakenBackward set backs.now ts
        → (n : ℕ) → Contains (take result live.new) n
        ↔ IsFoundBefore set backs.now (length backs.now) ts n }
{
    let mut count = 0;
    for one in backs {
        if one.matcher.accepts() {
            live[count] = one.number;
            count += 1;
        }
    }
    count
}
