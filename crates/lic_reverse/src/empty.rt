//! Patterns that have the empty word and no other.

ghost use Rattle.std.specs.Prelude.{◌≡◌, All, IsTrue, Some};
ghost use Rattle.lic_ere.specs.Trees.{tree_of};
ghost use Rattle.lic_ere.specs.Meaning.{tree_words};
ghost use Rattle.lic_words.specs.Expressions.{IsAtMost};
ghost use Rattle.lic_reverse.specs.EmptyWord.{HasEmptyWordAlone};

use lic_ere::Ere;

/// Whether the pattern is known to have the empty word and no other.
#[cycle(has_empty_word_alone)]
pub fn has_empty_word_alone(ere: &Ere) -> bool
    ensures { IsTrue result → HasEmptyWordAlone (tree_words (tree_of ere.now)) }
{
    match ere {
        Ere::Empty => true,
        Ere::Char(_) | Ere::Any | Ere::Set(_) => false,
        Ere::Cat(subs) => have_empty_word_alone(subs),
        Ere::Alt(subs) => !subs.is_empty() && have_empty_word_alone(subs),
        Ere::Repeat { body, min, max } => {
            is_zero_times(*min, *max) || (is_possible(*min, *max) && has_empty_word_alone(body))
        }
    }
}

// Whether each of the patterns is known to have the empty word and no other.
#[cycle(has_empty_word_alone)]
fn have_empty_word_alone(subs: &[Ere]) -> bool
    ensures { IsTrue result → All (λ sub. HasEmptyWordAlone (tree_words (tree_of sub))) subs.now }
{
    for sub in subs {
        if !has_empty_word_alone(sub) {
            return false;
        }
    }
    true
}

// Whether a repetition with these bounds is one of zero times.
fn is_zero_times(min: u32, max: Option<u32>) -> bool
    ensures { IsTrue result → (min ≡ 0) × (max ≡ Some 0) }
{
    min == 0 && max == Some(0)
}

// Whether the least count of a repetition is not over its greatest.
fn is_possible(min: u32, max: Option<u32>) -> bool
    ensures { IsTrue result → IsAtMost max min }
{
    match max {
        None => true,
        Some(max) => min <= max,
    }
}
