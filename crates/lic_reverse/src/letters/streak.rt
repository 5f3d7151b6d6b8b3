//! The letters in a row up to a place that pass.

ghost use Rattle.std.specs.Prelude.{◌≡◌, ◌+◌, ◌-◌, ◌<◌, ◌≤◌, ℕ, Bool, IsTrue, MatchOption, length, List, slice_index, slice_range};
ghost use Rattle.std.specs.Str.{IsAscii};
ghost use Rattle.std.specs.Char.{encode_utf8};
ghost use Rattle.lic_ere.specs.Trees.{tree_of};
ghost use Rattle.lic_places.specs.Places.{spelling_of};
ghost use Rattle.lic_view.specs.LettersBefore.{IsLetterBefore};
ghost use Rattle.lic_reverse.specs.Passing.{passes_of};
ghost use Rattle.lic_reverse.specs.Streaks.{IsChain, IsStreakStart};
ghost use Rattle.lic_reverse.specs.StreaksKnown.{IsLongest, IsNoneBefore, IsStreakBackTo};

use crate::letters::passing::{is_any, passes};
use lic_ere::Ere;
use lic_view::{View, tokens_have_texts};

/// A number of letters, from one place up to another.
#[derive(Clone, Copy, Debug)]
pub(crate) struct Streak {
    pub(crate) low: usize,
    pub(crate) place: usize,
    pub(crate) number: usize,
}

/// The letters before the first place of a text: none.
pub(crate) fn first_streak() -> Streak
    ensures { (bytes : List ℕ) (passes : ℕ → Bool) (count : ℕ) → IsLongest bytes passes count result }
{
    Streak {
        low: 0,
        place: 0,
        number: 0,
    }
}

/// The place at which the letters before a place begin that all pass, `count` of them at most.
///
/// The known streak is continued: places that are asked for in rising order cost the letters of the text once together. A place before
/// the known one costs the letters of its own streak.
pub(crate) fn streak_start(
    view: &View<'_>,
    ere: &Ere,
    count: usize,
    known: &mut Streak,
    place: usize,
) -> usize
    requires { IsLongest (spelling_of view.now) (passes_of (tree_of ere.now)) count known.old }
    ensures start { IsStreakStart (spelling_of view.now) (passes_of (tree_of ere.now)) count place result }
    ensures known { IsLongest (spelling_of view.now) (passes_of (tree_of ere.now)) count known.new }
{
    tokens_have_texts(view);
    if is_any(ere) && view.is_boundary(place) {
        if place <= count {
            return 0;
        }
        if view.is_ascii() {
            return place - count;
        }
    }
    *known = streak_up_to(view, ere, count, *known, place);
    known.low
}

// The longest streak up to a place: back from there, and where it meets the known one, on with this.
fn streak_up_to(view: &View<'_>, ere: &Ere, count: usize, known: Streak, place: usize) -> Streak
    requires { IsLongest (spelling_of view.now) (passes_of (tree_of ere.now)) count known }
    ensures longest { IsLongest (spelling_of view.now) (passes_of (tree_of ere.now)) count result }
    ensures place { result.place ≡ place }
{
    let streak = streak_back(view, ere, count, known.place, place);
    if streak.low != known.place {
        return streak;
    }
    joined(view.bytes(), count, known, streak)
}

// How many letters are taken at once where each is one byte and any letter passes.
const BLOCK: usize = 64;

// The longest streak up to a place, but that it goes no further back than to another.
fn streak_back(view: &View<'_>, ere: &Ere, count: usize, until: usize, place: usize) -> Streak
    ensures back { IsStreakBackTo (spelling_of view.now) (passes_of (tree_of ere.now)) count until result }
    ensures place { result.place ≡ place }
{
    let mut low = place;
    let mut number = 0;
    while low != until && number < count {
        match stretch_back(view, ere, BLOCK, count - number, until, low) {
            Some((start, letters)) => {
                low = start;
                number += letters;
            }
            None => return Streak { low, place, number },
        }
    }
    Streak { low, place, number }
}

// Where the letters right before a place begin that pass, and how many they are: a block of this size, or one. None if the
// letter before the place does not pass.
fn stretch_back(
    view: &View<'_>,
    ere: &Ere,
    size: usize,
    most: usize,
    until: usize,
    place: usize,
) -> Option<(usize, usize)>
    requires size { 0 < size }
    requires most { 0 < most }
    ensures { MatchOption result (IsNoneBefore (spelling_of view.now) (passes_of (tree_of ere.now)) place)
        (λ found. (0 < found.1) × (found.1 ≤ most) × IsChain (spelling_of view.now) (passes_of (tree_of ere.now)) found.1 found.0 place) }
{
    tokens_have_texts(view);
    if size <= most
        && size <= place.abs_diff(until)
        && is_any(ere)
        && ends_block(view.bytes(), size, place)
    {
        return Some((place - size, size));
    }
    match view.letter_before(place) {
        Some((start, letter)) if passes(ere, letter) => Some((start, 1)),
        _ => None,
    }
}

// Whether `size` letters of one byte each end at a place.
fn ends_block(bytes: &[u8], size: usize, place: usize) -> bool
    ensures { IsTrue result → (size ≤ place) × (place ≤ length bytes.now) × IsAscii (slice_range bytes.now (place - size) place) }
{
    size <= place && place <= bytes.len() && bytes[place - size..place].is_ascii()
}

// Two streaks, the second one right after the first, as one: its first letters go where they are too many.
fn joined(bytes: &[u8], count: usize, first: Streak, second: Streak) -> Streak
    requires few { second.number ≤ count }
    requires known { first.number ≤ count }
    ensures longest { (passes : ℕ → Bool) → IsLongest bytes.now passes count first → IsStreakBackTo bytes.now passes count first.place second
        → second.low ≡ first.place → IsLongest bytes.now passes count result }
    ensures place { result.place ≡ second.place }
{
    let others = count - second.number;
    let many = first.number.saturating_sub(others);
    Streak {
        low: shortened(bytes, first.low, many),
        place: second.place,
        number: first.number - many + second.number,
    }
}

// Where letters in a row begin, without the first ones.
fn shortened(bytes: &[u8], low: usize, many: usize) -> usize
    ensures { (passes : ℕ → Bool) (number place : ℕ) → IsChain bytes.now passes (many + number) low place → IsChain bytes.now passes number result place }
{
    let mut from = low;
    for _ in 0..many {
        from = letter_end(bytes, from);
    }
    from
}

// Where the letter ends that begins at a place.
fn letter_end(bytes: &[u8], place: usize) -> usize
    ensures { (end letter : ℕ) → IsLetterBefore bytes.now end place letter → end ≡ result }
{
    if place >= bytes.len() {
        return place;
    }
    place + letter_length(bytes[place])
}

// How many bytes the letter has that begins with this one.
fn letter_length(first: u8) -> usize
    ensures length { (letter : ℕ) → slice_index (encode_utf8 letter) 0 ≡ first → length (encode_utf8 letter) ≡ result }
    ensures few { result ≤ 4 }
{
    if first < 0x80 {
        1
    } else if first < 0xE0 {
        2
    } else if first < 0xF0 {
        3
    } else {
        4
    }
}
