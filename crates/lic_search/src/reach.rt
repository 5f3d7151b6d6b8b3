//! How far the words of a template's parts reach: how many bytes they take at most.

ghost use Rattle.std.specs.Prelude.{◌≡◌, ◌<◌, ◌*◌, min, map, MatchOption};
ghost use Rattle.std.specs.Str.{chars};
ghost use Rattle.lic_ere.specs.Trees as trees;
ghost use Rattle.lic_ere.specs.Trees.{tree_of};
ghost use Rattle.lic_words.specs.Expressions.{letters};
ghost use Rattle.lic_ere.specs.Meaning.{choice_words, sequence_words, tree_words};
ghost use Rattle.lic_markup.specs.Meaning.{part_words, parts_words};
ghost use Rattle.lic_markup.specs.Parts.{part_of};
ghost use Rattle.lic_search.specs.Ends.{HasAtMost, TakesAtMost};

use lic_ere::Ere;
use lic_markup::Part;

/// How many bytes a word of the parts takes at most, or the greatest `usize` where there is no bound below that.
#[cycle(most)]
pub(crate) fn most_bytes(parts: &[Part]) -> usize
    ensures { result < usize.MAX → TakesAtMost (parts_words (map part_of parts.now)) result }
{
    let mut most: usize = 0;
    for part in parts {
        most = most.saturating_add(most_part_bytes(part));
    }
    most
}

// How many bytes a word of the part takes at most.
#[cycle(most)]
fn most_part_bytes(part: &Part) -> usize
    ensures { result < usize.MAX → TakesAtMost (part_words part.now) result }
{
    match part {
        Part::Text(text) => text_bytes(text),
        Part::Var { ere, .. } => most_letters(ere).saturating_mul(4),
        Part::Optional(parts) => most_bytes(parts),
    }
}

// How many bytes the letters of a text take at most.
fn text_bytes(text: &str) -> usize
    ensures { TakesAtMost (letters (chars text.now)) result }
{
    text.len()
}

// How many letters a word of a pattern has at most, or the greatest `usize` where there is no bound below that.
#[cycle(most_letters)]
fn most_letters(ere: &Ere) -> usize
    ensures { result < usize.MAX → HasAtMost (tree_words (tree_of ere.now)) result }
{
    match ere {
        Ere::Empty => 0,
        Ere::Char(_) | Ere::Any | Ere::Set(_) => 1,
        Ere::Cat(subs) => most_sequence_letters(subs),
        Ere::Alt(subs) => most_choice_letters(subs),
        Ere::Repeat { body, max, .. } => most_repeated(most_letters(body), *max),
    }
}

// How many letters up to `max` words have together at most, if each has at most `most`.
fn most_repeated(most: usize, max: Option<u32>) -> usize
    ensures { MatchOption max (result ≡ usize.MAX) (λ times. result ≡ min (most * times) usize.MAX) }
{
    match max {
        None => usize::MAX,
        Some(times) => most.saturating_mul(times as usize),
    }
}

// How many letters a word of patterns in a row has at most.
#[cycle(most_letters)]
fn most_sequence_letters(subs: &[Ere]) -> usize
    ensures { result < usize.MAX → HasAtMost (sequence_words (trees.sequence (map tree_of subs.now))) result }
{
    let mut most: usize = 0;
    for sub in subs {
        most = most.saturating_add(most_letters(sub));
    }
    most
}

// How many letters a word of any one of the patterns has at most.
#[cycle(most_letters)]
fn most_choice_letters(subs: &[Ere]) -> usize
    ensures { result < usize.MAX → HasAtMost (choice_words (trees.sequence (map tree_of subs.now))) result }
{
    let mut most = 0;
    for sub in subs {
        most = most_letters(sub).max(most);
    }
    most
}
