//! Active positions moved on by one.

ghost use Rattle.std.specs.Prelude.{◌≡◌, ◌==◌, ◌+◌, ◌≤◌, ◌<◌, length, slice_index};
ghost use Rattle.lic_marks.specs.Moves.{Moves, Advances};

use lic_rows::Bits;

/// The letter that is read, and whether the letter before it was a blank.
#[derive(Clone, Copy, Debug)]
pub struct Reading {
    pub letter: char,
    pub after: bool,
}

/// Takes the active positions of these letters, which are in the row from `at` on, over the letter that is read.
pub fn move_letters(text: &[char], row: &mut Bits, at: usize, entry: bool, letter: char)
    requires { at + length text.now ≤ length row.old }
    ensures moves { Moves (λ j. letter == slice_index text.now j) entry row.old at (length text.now) row.new }
    ensures len { length row.new ≡ length row.old }
{
    let width = row.len();
    prove!(at <= width);
    let end = at + text.len();
    let mut to = end;
    while at < to {
        to = match row.last_set(at, to) {
            Some(position) => {
                advance(text, row, at, position, letter);
                position
            }
            None => at,
        };
    }
    if entry && at < end {
        row.put(at, letter == text[0]);
    }
}

// Makes this position of the letters, which are in the row from `at` on, inactive, and the next one active if it passes.
fn advance(text: &[char], row: &mut Bits, at: usize, position: usize, letter: char)
    requires begun { at ≤ position }
    requires inside { position < at + length text.now }
    requires within { at + length text.now ≤ length row.old }
    ensures moves { Advances (λ j. letter == slice_index text.now j) row.old at (length text.now) position row.new }
    ensures len { length row.new ≡ length row.old }
{
    let width = row.len();
    prove!(position < width);
    row.put(position, false);
    let next = position + 1;
    if next < at + text.len() {
        row.put(next, letter == text[next - at]);
    }
}

/// Takes the active positions of `count` letters over the letter that is read, which passes the test of all of them or of
/// none. They are a row of counts: the one numbered `k` says that `k + 1` of the letters were taken.
pub fn move_copies(count: usize, is_passed: bool, row: &mut Bits, at: usize, entry: bool)
    requires { at + count ≤ length row.old }
    ensures moves { Moves (λ j. is_passed) entry row.old at count row.new }
    ensures len { length row.new ≡ length row.old }
{
    let width = row.len();
    prove!(at <= width);
    let end = at + count;
    if at < end {
        if is_passed {
            row.move_up(at, end, entry);
        } else {
            row.clear(at, end);
        }
    }
}
