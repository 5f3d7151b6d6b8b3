//! The finder: one match after another, by a run from each token with which matches begin.

ghost use Rattle.std.specs.Prelude.{◌≡◌, ℕ, ◌+◌, ◌-◌, ◌*◌, ◌^◌, ◌<◌, ◌≤◌, ◌↔◌, ◌∷◌, [], List, IfOk, IfSome, IfNone, Some, None, Contains, length, drop};
ghost use Rattle.std.specs.Iterator.{item_count};
ghost use Rattle.std.specs.Option.{option_or};
ghost use Rattle.lic_set.specs.Rising.{IsRising};
ghost use Rattle.lic_auto.specs.Runs.{RunHasTakenAmong, set_of, numbers_of, steps_of};
ghost use Rattle.lic_find.specs.Among.{AreMatchesAmong, HaveAllMatches};
ghost use Rattle.lic_find.specs.Bounds.{letters_of, scan_steps, firsts_of};
ghost use Rattle.lic_find.specs.Counts.{AreCounted};
ghost use Rattle.lic_find.specs.Firsts.{NotedFirst, noted_with};
ghost use Rattle.lic_set.specs.Matches.{AreMatches, IsAfter, triple_at};
ghost use Rattle.lic_find.specs.Starts.{starts_in};
ghost use Rattle.lic_find.specs.Scans.{AllEndBy, BeginsAt, HasCome, IsNextOfRange, NoneBegins};

use crate::laws::matches_are_listed;
use crate::reverse_scan::first_tokens;
use crate::starts::Starts;
use lic_auto::{Run, Set, Triple};
use lic_norm::Text;
use std::alloc::{AllocError, Global};
use std::cmp::Ordering;

/// Gives the matches of a set's templates, or of some of them, in a text: each range of tokens that such a template describes, once,
/// in the order of triples.
///
/// It keeps no list of them. A reverse scan of the text notes the tokens with which matches begin. Then a run takes the tokens from each
/// of these on, until no template can describe a longer range. Giving matches takes no memory.
#[derive(Debug, Drop)]
pub struct Finder<'a> {
    set: &'a Set,
    text: &'a Text,
    run: Run<'a>,
    /// The noted first tokens that it has not come to.
    starts: Starts,
    /// The steps of the reverse scan that noted them.
    noting: u64,
    /// Where it began: after a triple, or with the first match.
    began: Option<Triple>,
    /// The last triple that it gave.
    given: Option<Triple>,
    /// The first token of the range that it has come to.
    first: usize,
    /// The end of this range: the run has read the tokens from the first one up to here.
    end: usize,
    ghost come: { ∥ HasCome set.now text.now.tokens (option_or given began) run
        (starts_in starts) first end ∥₁ },
    ghost order: { first ≤ end },
    ghost counted: { AreCounted set.now text.now.tokens (numbers_of run) began noting (steps_of run) first end },
}

impl<'a> Finder<'a> {
    ghost use Rattle.lic_find.specs.Remaining.{HasAllMatches, IsBegun, IsInSameScan, numbers_in, cursor_of, remaining_matches, set_in, steps_taken, tokens_in};

    /// All matches. Fails if memory runs out.
    ///
    /// It is over the candidates alone: the templates that are not ruled out for the text.
    pub fn new(alloc: Global, set: &'a Set, text: &'a Text) -> Result<Finder<'a>, AllocError>
        ensures all { IfOk result (λ f. AreMatches set.now text.now.tokens None (remaining_matches f)) }
        ensures only { IfOk result (λ f. (others : List Triple)
            → AreMatches set.now text.now.tokens None others → others ≡ remaining_matches f) }
        ensures begun { IfOk result (λ f. IsBegun f set.now text.now.tokens None) }
        ensures whole { IfOk result HasAllMatches }
        ensures most { IfOk result (λ f. steps_taken f ≤ 2 * (letters_of text.now.tokens + 1)) }
        ensures least { IfOk result (λ f. steps_taken f < 2 ^ 64 - 1
            → letters_of text.now.tokens ≤ steps_taken f) }
    {
        let numbers = candidate_numbers(alloc, set, text)?;
        Finder::over(alloc, set, text, numbers, None)
    }

    /// The matches after a triple, which may be a match or not, in range or not. Fails if memory runs out.
    ///
    /// It takes no token before the triple's first one.
    pub fn resume(
        alloc: Global,
        set: &'a Set,
        text: &'a Text,
        after: Triple,
    ) -> Result<Finder<'a>, AllocError>
        ensures later { IfOk result (λ f.
            AreMatches set.now text.now.tokens (Some after) (remaining_matches f)) }
        ensures only { IfOk result (λ f. (others : List Triple)
            → AreMatches set.now text.now.tokens (Some after) others → others ≡ remaining_matches f) }
        ensures begun { IfOk result (λ f. IsBegun f set.now text.now.tokens (Some after)) }
        ensures most { IfOk result (λ f. steps_taken f ≤ 2 * (letters_of text.now.tokens + 1)) }
    {
        let numbers = candidate_numbers(alloc, set, text)?;
        Finder::over(alloc, set, text, numbers, Some(after))
    }

    /// The matches of the templates of these numbers alone, or those of them after a triple. Fails if memory runs out.
    pub fn over(
        alloc: Global,
        set: &'a Set,
        text: &'a Text,
        numbers: Vec<usize>,
        after: Option<Triple>,
    ) -> Result<Finder<'a>, AllocError>
        requires { IsRising numbers.items (length set.now) }
        ensures matches { IfOk result (λ f.
            AreMatchesAmong set.now text.now.tokens numbers.items after (remaining_matches f)) }
        ensures begun { IfOk result (λ f. IsBegun f set.now text.now.tokens after) }
        ensures numbers { IfOk result (λ f. numbers_in f ≡ numbers.items) }
        ensures most { IfOk result (λ f. steps_taken f ≤ 2 * (letters_of text.now.tokens + 1)) }
        ensures least { IfOk result (λ f. after ≡ None → steps_taken f < 2 ^ 64 - 1
            → letters_of text.now.tokens ≤ steps_taken f) }
    {
        matches_are_listed();
        let scanned = Vec::from_slice(alloc, &numbers)?;
        let from = first_token(after).min(text.len());
        let (mut starts, noting) = first_tokens(alloc, set, text, scanned, from)?;
        let mut run = Run::over(alloc, set, numbers)?;
        let first = begin_next(&mut run, &mut starts).unwrap_or(text.len());
        Ok(Finder {
            set,
            text,
            run,
            starts,
            noting,
            began: after,
            given: None,
            first,
            end: first,
        })
    }

    /// The steps that the matching has taken so far. The count stays at the greatest `u64`.
    pub fn steps(&self) -> u64
        ensures value { result ≡ steps_taken self.now }
        ensures most { result
            ≤ 2 * (letters_of (tokens_in self.now) + 1) *
            (1 + length (firsts_of (set_in self.now) (tokens_in self.now))) }
    {
        self.noting.saturating_add(self.run.steps())
    }

    // The least number with which the range up to this last token comes after the cursor.
    fn least_number(&self, last: usize) -> Option<usize>
        ensures some { IfSome result (λ from. (k : ℕ)
            → IsAfter (cursor_of self.now) (triple_at self.now.first last k) ↔ (from ≤ k)) }
        ensures none { IfNone result ((k : ℕ) → k < length self.now.set.now
            → ¬ (IsAfter (cursor_of self.now) (triple_at self.now.first last k))) }
    {
        let Some(cursor) = self.given.or(self.began) else {
            return Some(0);
        };
        match (self.first, last).cmp(&(cursor.first, cursor.last)) {
            Ordering::Greater => Some(0),
            Ordering::Equal if cursor.template < self.set.len() => Some(cursor.template + 1),
            _ => None,
        }
    }

    // The first match after the cursor, if it has the range that the run has come to.
    fn accepted(&self) -> Option<Triple>
        ensures { HasCome self.now.set.now self.now.text.now.tokens
            (cursor_of self.now) self.now.run (starts_in self.now.starts)
            self.now.first self.now.end
            → IsNextOfRange self.now.set.now self.now.text.now.tokens
            (numbers_in self.now) (cursor_of self.now) self.now.first self.now.end result }
    {
        let last = self.end.checked_sub(1)?;
        let from = self.least_number(last)?;
        let template = self.run.accepted(from)?;
        Some(Triple {
            first: self.first,
            last,
            template,
        })
    }

    // The next match, if it begins with the current first token.
    fn next_of_first(&mut self) -> Option<Triple>
        ensures some { IfSome result (λ triple. remaining_matches self.old ≡ triple ∷ remaining_matches self.new) }
        ensures none { IfNone result
            (NoneBegins self.new.set.now self.new.text.now.tokens (numbers_in self.new)
            (cursor_of self.new) self.new.first) }
        ensures ended { IfNone result
            (AllEndBy self.new.set.now self.new.text.now.tokens (numbers_in self.new) self.new.first self.new.end) }
        ensures rest { IfNone result (remaining_matches self.new ≡ remaining_matches self.old) }
        ensures given { self.new.given ≡ option_or result self.old.given }
        ensures same { IsInSameScan self.old self.new }
        ensures never_fall { steps_of self.old.run ≤ steps_of self.new.run }
        ensures most { steps_of self.new.run
            ≤ steps_of self.old.run + 2 * letters_of self.old.text.now.tokens }
    {
        loop {
            if let Some(triple) = self.accepted() {
                matches_are_listed();
                self.given = Some(triple);
                return Some(triple);
            }
            if self.end >= self.text.len() || self.run.dead() {
                return None;
            }
            self.run.push(self.text.token(self.end).text);
            self.end += 1;
        }
    }
}

// The numbers of the candidates, in rising order: all other templates describe no range of the text's tokens.
fn candidate_numbers(alloc: Global, set: &Set, text: &Text) -> Result<Vec<usize>, AllocError>
    ensures rising { IfOk result (λ numbers. IsRising numbers.items (length set.now)) }
    ensures others { IfOk result (λ numbers.
        HaveAllMatches set.now text.now.tokens numbers.items) }
{
    let candidates = set.candidates(alloc, text)?;
    candidates
        .iter()
        .map(|candidate| candidate.number)
        .collect(alloc)
}

// The first token with which a range after a cursor can begin.
fn first_token(cursor: Option<Triple>) -> usize
    ensures { BeginsAt cursor result }
{
    cursor.map_or(0, |triple| triple.first)
}

// Takes the least noted first token that is left, and begins a run there over the templates that are noted with it.
fn begin_next(run: &mut Run<'_>, starts: &mut Starts) -> Option<usize>
    requires { (noted : NotedFirst) (more : List NotedFirst)
        → starts_in starts.old ≡ noted ∷ more
        → (k : ℕ) → Contains noted.numbers k → Contains (numbers_of run.old) k }
    ensures some { IfSome result (λ first. (noted : NotedFirst)
        × (starts_in starts.old ≡ noted ∷ starts_in starts.new) × (noted.first ≡ first)
        × RunHasTakenAmong run.new (noted_with (numbers_of run.old) noted.numbers) []) }
    ensures none { IfNone result
        ((starts_in starts.old ≡ []) × (starts.new ≡ starts.old) × (run.new ≡ run.old)) }
    ensures set { set_of run.new ≡ set_of run.old }
    ensures numbers { numbers_of run.new ≡ numbers_of run.old }
    ensures steps { (steps_of run.old ≤ steps_of run.new)
        × (steps_of run.new ≤ steps_of run.old + 2) }
{
    let noted = starts.least()?;
    let first = noted.first;
    match noted.numbers {
        [] => run.reset(),
        numbers => run.begin(numbers),
    }
    starts.remove_least();
    Some(first)
}

impl Iterator for Finder<'_> {
    type Item = Triple;

    ghost use Rattle.lic_find.specs.Giving.{GivesMatch};
    ghost use Rattle.lic_find.specs.Remaining.{remaining_matches};

    ghost next_gives = { GivesMatch };

    ghost remaining = { item_count remaining_matches };

    fn next(&mut self) -> Option<Triple> {
        if let Some(triple) = self.next_of_first() {
            return Some(triple);
        }
        matches_are_listed();
        let first = begin_next(&mut self.run, &mut self.starts)?;
        self.first = first;
        self.end = first;
        // Some match begins with it.
        self.next_of_first()
    }
}
