//! The last letters of patterns, and the places of ways that such letters can lead to.

ghost use Rattle.std.specs.Prelude.{◌≡◌, ◌<◌, ◌↔◌, List, Contains, IfOk, IfSome, map};
ghost use Rattle.lic_ere.specs.Trees.{char, sequence, tree_of};
ghost use Rattle.lic_ere.specs.Meaning.{sequence_words, tree_words};
ghost use Rattle.lic_words.specs.Expressions.{Language};
ghost use Rattle.lic_words.specs.Words.{blank};
ghost use Rattle.lic_tokens.specs.Tokens.{TokenValue};
ghost use Rattle.lic_spans.specs.declared.span.PlaceSpan.{PlaceSpan};
ghost use Rattle.lic_reverse.specs.Grouped.{AreGroupedWays};
ghost use Rattle.lic_reverse.specs.LetterGroups.{EndIn, HasEntry, IsPartFor};
ghost use Rattle.lic_reverse.specs.Tidily.{AreWays, Taken, spans_of};

use crate::ways::Ways;
use crate::ways::groups::{Groups, LETTERS, count_of, mixed};
use lic_ere::Ere;
use lic_view::View;
use std::alloc::{AllocError, Global};

// From how many patterns on the places are put into groups, and of how many places.
const MANY_PATTERNS: usize = 16;

const MOST_PLACES: usize = 1 << 18;

/// The places of ways in groups, by what was taken last.
#[derive(Debug, Drop)]
pub(crate) struct GroupedWays {
    nothing: Groups,
    letter: Groups,
    blank: Groups,
}

impl GroupedWays {
    /// The places of ways, where there are many patterns to go back over.
    pub(crate) fn if_many(
        alloc: Global,
        view: &View<'_>,
        patterns: usize,
        ways: &Ways,
    ) -> Result<Option<GroupedWays>, AllocError>
        requires { AreWays view.now ways.now }
        ensures { IfOk result (λ found. IfSome found (AreGroupedWays view.now ways.now)) }
    {
        if patterns < MANY_PATTERNS || !are_few(ways) {
            return Ok(None);
        }
        Ok(Some(GroupedWays {
            nothing: Groups::of(alloc, view, &ways.nothing)?,
            letter: Groups::of(alloc, view, &ways.letter)?,
            blank: Groups::of(alloc, view, &ways.blank)?,
        }))
    }

    // The places right after letters with this hash.
    fn with(&self, alloc: Global, hash: u64) -> Result<Ways, AllocError>
        ensures nothing { IfOk result (λ found. (s : PlaceSpan) → Contains found.nothing.items s ↔ HasEntry self.now.nothing.lists.items hash s) }
        ensures letter { IfOk result (λ found. (s : PlaceSpan) → Contains found.letter.items s ↔ HasEntry self.now.letter.lists.items hash s) }
        ensures blank { IfOk result (λ found. (s : PlaceSpan) → Contains found.blank.items s ↔ HasEntry self.now.blank.lists.items hash s) }
    {
        Ok(Ways {
            nothing: self.nothing.with(alloc, hash)?,
            letter: self.letter.with(alloc, hash)?,
            blank: self.blank.with(alloc, hash)?,
        })
    }
}

// Whether ways have few enough places.
fn are_few(ways: &Ways) -> bool {
    count_of(&ways.nothing) <= MOST_PLACES
        && count_of(&ways.letter) <= MOST_PLACES
        && count_of(&ways.blank) <= MOST_PLACES
}

/// The part of ways that has all places to which a word of the pattern leads.
pub(crate) fn part_for(
    alloc: Global,
    ere: &Ere,
    ways: &Ways,
    grouped: &Option<GroupedWays>,
) -> Result<Ways, AllocError>
    ensures { IfOk result (λ part. (tokens : List TokenValue) (s : Taken) → AreWays tokens ways.now
        → IfSome grouped.now (AreGroupedWays tokens ways.now)
        → IsPartFor tokens (Language (tree_words (tree_of ere.now))) (spans_of ways.now s) (spans_of part s)) }
{
    if let Some(grouped) = grouped
        && let Some(hash) = last_letters(ere)
    {
        return grouped.with(alloc, hash);
    }
    ways.copy(alloc)
}

// The hash of the last letters of each word of a pattern, where they are known.
fn last_letters(ere: &Ere) -> Option<u64>
    ensures { IfSome result (EndIn (Language (tree_words (tree_of ere.now)))) }
{
    if let Ere::Cat(subs) = ere {
        return last_letters_of_sequence(subs);
    }
    let letter = letter_of(ere)?;
    Some(mixed(0, letter))
}

// The same of patterns in a row: of the letters after the last one that is none, and of no more than the last eight.
fn last_letters_of_sequence(subs: &[Ere]) -> Option<u64>
    ensures { IfSome result (EndIn (Language (sequence_words (sequence (map tree_of subs.now))))) }
{
    let mut hash = 0;
    let first = subs.len().saturating_sub(LETTERS);
    for number in (first..subs.len()).rev() {
        let Some(letter) = letter_of(&subs[number]) else {
            return hash_of_some(hash, subs.len() - 1 - number);
        };
        hash = mixed(hash, letter);
    }
    hash_of_some(hash, subs.len())
}

// The hash of `count` letters, if there are any.
fn hash_of_some(hash: u64, count: usize) -> Option<u64>
    ensures { IfSome result (λ known. (known ≡ hash) × (0 < count)) }
{
    if count == 0 { None } else { Some(hash) }
}

// The letter that a pattern is, if it is one and no blank.
fn letter_of(ere: &Ere) -> Option<char>
    ensures { IfSome result (λ letter. (tree_of ere.now ≡ char letter) × ¬ (letter ≡ blank)) }
{
    match ere {
        Ere::Char(letter) if *letter != ' ' => Some(*letter),
        _ => None,
    }
}
