//! The active positions of a compiled expression after one more letter.

ghost use Rattle.std.specs.Prelude.{◌≡◌, ℕ, ◌+◌, ◌≤◌, IsTrue, length, map, replicate};
ghost use Rattle.std.specs.List.{list_all};
ghost use Rattle.lic_marks.specs.Cores.{one, cat_all, alt_all, any_prefix, copies, up_to, plus, tidy};
ghost use Rattle.lic_marks.specs.Marks.{is_nullable};
ghost use Rattle.lic_marks.specs.Rows.{weight, Shifts};
ghost use Rattle.lic_marks.specs.Nodes.{core_of, is_measured, letter_cores, passes, times_over};

use crate::leave::{leaves, leaves_copies, leaves_letters, leaves_up_to};
use crate::moves::{Reading, move_copies, move_letters};
use crate::node::{Node, Times};
use crate::test::Test;
use lic_rows::Bits;

/// Takes the active positions, which are in the row from `at` on, over the letter that is read. `entry` says that a word may
/// begin with it. Answers whether a word could end before the letter.
#[cycle(shift)]
pub fn shift(node: &Node, row: &mut Bits, at: usize, entry: bool, reading: Reading) -> bool
    requires measured { IsTrue (is_measured node.now) }
    requires within { at + weight (core_of node.now) ≤ length row.old }
    ensures shifts { Shifts (core_of node.now) reading.after entry reading.letter row.old at row.new result }
    ensures len { length row.new ≡ length row.old }
{
    let width = row.len();
    prove!(at <= width);
    let end = at + node.weight();
    // where no position is active and no word begins, none will be
    if !entry && !row.is_any_set(at, end) {
        return false;
    }
    match node {
        Node::Letters(text) => shift_letters(text, row, at, entry, reading),
        Node::One(test) => {
            let out = row.get(at);
            let is_passed = test.passes(reading.letter);
            row.put(at, entry & is_passed);
            out
        }
        Node::Copies { test, count } => { shift_copies(test, *count, row, at, entry, reading) }
        Node::UpTo { test, count } => shift_up_to(test, *count, row, at, entry, reading),
        Node::Cat { children, .. } => shift_row(children, row, at, entry, reading),
        Node::Alt { children, .. } => shift_any(children, row, at, entry, reading),
        Node::Repeat { child, times, .. } => {
            shift_repeat(child, *times, row, at, entry, reading)
        }
        Node::Plus { child, .. } => shift_plus(child, row, at, entry, reading),
        Node::Tidy {
            child,
            is_nullable,
            ..
        } => shift_tidy(child, *is_nullable, row, at, entry, reading),
    }
}

fn shift_letters(text: &[char], row: &mut Bits, at: usize, entry: bool, reading: Reading) -> bool
    requires { at + weight (cat_all (letter_cores text.now)) ≤ length row.old }
    ensures shifts { Shifts (cat_all
        (letter_cores text.now)) reading.after entry reading.letter row.old at row.new result }
    ensures len { length row.new ≡ length row.old }
{
    let out = leaves_letters(text, row, at, reading.after, entry);
    move_letters(text, row, at, entry, reading.letter);
    out
}

fn shift_copies(
    test: &Test,
    count: usize,
    row: &mut Bits,
    at: usize,
    entry: bool,
    reading: Reading,
) -> bool
    requires { at + count ≤ length row.old }
    ensures shifts { Shifts (cat_all
        (replicate count (one (passes test.now)))) reading.after entry reading.letter row.old at row.new result }
    ensures len { length row.new ≡ length row.old }
{
    let out = leaves_copies(count, row, at, reading.after, entry);
    let is_passed = test.passes(reading.letter);
    move_copies(count, is_passed, row, at, entry);
    out
}

fn shift_up_to(
    test: &Test,
    count: usize,
    row: &mut Bits,
    at: usize,
    entry: bool,
    reading: Reading,
) -> bool
    requires { at + count ≤ length row.old }
    ensures shifts { Shifts (any_prefix
        (replicate count (one (passes test.now)))) reading.after entry reading.letter row.old at row.new result }
    ensures len { length row.new ≡ length row.old }
{
    let out = leaves_up_to(count, row, at, reading.after, entry);
    let is_passed = test.passes(reading.letter);
    move_copies(count, is_passed, row, at, entry);
    out
}

// The same for one or more of the child's words in a row.
#[cycle(shift)]
fn shift_plus(child: &Node, row: &mut Bits, at: usize, entry: bool, reading: Reading) -> bool
    requires measured { IsTrue (is_measured child.now) }
    requires within { at + weight (plus (core_of child.now)) ≤ length row.old }
    ensures shifts { Shifts (plus
        (core_of child.now)) reading.after entry reading.letter row.old at row.new result }
    ensures len { length row.new ≡ length row.old }
{
    if let Node::One(test) = child {
        return shift_letters_of(test, row, at, entry, reading);
    }
    let again = leaves(child, row, at, reading.after, entry);
    shift(child, row, at, entry | again, reading);
    again
}

// The same where the words are letters that pass.
fn shift_letters_of(test: &Test, row: &mut Bits, at: usize, entry: bool, reading: Reading) -> bool
    requires { at + 1 ≤ length row.old }
    ensures shifts { Shifts (plus
        (one (passes test.now))) reading.after entry reading.letter row.old at row.new result }
    ensures len { length row.new ≡ length row.old }
{
    let width = row.len();
    prove!(at < width);
    let again = row.get(at);
    let is_passed = test.passes(reading.letter);
    row.put(at, (entry | again) & is_passed);
    again
}

// The same for the child's words, `times` in a row.
#[cycle(shift)]
fn shift_repeat(
    child: &Node,
    times: Times,
    row: &mut Bits,
    at: usize,
    entry: bool,
    reading: Reading,
) -> bool
    requires measured { IsTrue (is_measured child.now) }
    requires within { at + weight (times_over times (core_of child.now)) ≤ length row.old }
    ensures shifts { Shifts (times_over times
        (core_of child.now)) reading.after entry reading.letter row.old at row.new result }
    ensures len { length row.new ≡ length row.old }
{
    let width = row.len();
    prove!(at <= width);
    match times {
        Times::Bounded { needed, more } => {
            let (past, _) = shift_copies_of(child, needed, row, at, entry, reading);
            let position = at + needed * child.weight();
            let (_, out) = shift_copies_of(child, more, row, position, past, reading);
            out
        }
        Times::Unbounded { before } => {
            let (past, _) = shift_copies_of(child, before, row, at, entry, reading);
            let position = at + before * child.weight();
            shift_plus(child, row, position, past, reading)
        }
    }
}

// The same for `count` copies of the child, one after another. Answers whether a word could end before the letter after all
// copies, and whether after any of them or before the first.
#[cycle(shift)]
fn shift_copies_of(
    child: &Node,
    count: usize,
    row: &mut Bits,
    at: usize,
    entry: bool,
    reading: Reading,
) -> (bool, bool)
    requires measured { IsTrue (is_measured child.now) }
    requires within { at + weight (copies count (core_of child.now)) ≤ length row.old }
    ensures all { Shifts (copies count
        (core_of child.now)) reading.after entry reading.letter row.old at row.new result.0 }
    ensures any { Shifts (up_to count
        (core_of child.now)) reading.after entry reading.letter row.old at row.new result.1 }
    ensures len { length row.new ≡ length row.old }
{
    let width = row.len();
    prove!(at <= width);
    let weight = child.weight();
    let mut position = at;
    let mut flag = entry;
    let mut found = false;
    for _ in 0..count {
        found = found | flag;
        flag = shift(child, row, position, flag, reading);
        position += weight;
    }
    (flag, found | flag)
}

// The same for one child after another.
#[cycle(shift)]
fn shift_row(children: &[Node], row: &mut Bits, at: usize, entry: bool, reading: Reading) -> bool
    requires measured { IsTrue (list_all is_measured children.now) }
    requires within { at + weight (cat_all (map core_of children.now)) ≤ length row.old }
    ensures shifts { Shifts (cat_all
        (map core_of children.now)) reading.after entry reading.letter row.old at row.new result }
    ensures len { length row.new ≡ length row.old }
{
    let width = row.len();
    prove!(at <= width);
    let mut position = at;
    let mut flag = entry;
    for child in children {
        flag = shift(child, row, position, flag, reading);
        position += child.weight();
    }
    flag
}

#[cycle(shift)]
fn shift_any(children: &[Node], row: &mut Bits, at: usize, entry: bool, reading: Reading) -> bool
    requires measured { IsTrue (list_all is_measured children.now) }
    requires within { at + weight (alt_all (map core_of children.now)) ≤ length row.old }
    ensures shifts { Shifts (alt_all
        (map core_of children.now)) reading.after entry reading.letter row.old at row.new result }
    ensures len { length row.new ≡ length row.old }
{
    let width = row.len();
    prove!(at <= width);
    let mut position = at;
    let mut found = false;
    for child in children {
        let out = shift(child, row, position, entry, reading);
        found = found | out;
        position += child.weight();
    }
    found
}

// A tidy word neither begins nor ends with a blank, and has no two together.
#[cycle(shift)]
fn shift_tidy(
    child: &Node,
    has_empty: bool,
    row: &mut Bits,
    at: usize,
    entry: bool,
    reading: Reading,
) -> bool
    requires measured { IsTrue (is_measured child.now) }
    requires empty { has_empty ≡ is_nullable (core_of child.now) }
    requires within { at + weight (core_of child.now) ≤ length row.old }
    ensures shifts { Shifts (tidy
        (core_of child.now)) reading.after entry reading.letter row.old at row.new result }
    ensures len { length row.new ≡ length row.old }
{
    let enters_empty = entry & has_empty;
    if reading.letter == ' ' && reading.after {
        let width = row.len();
        prove!(at <= width);
        let end = at + child.weight();
        row.clear(at, end);
        return enters_empty;
    }
    let begins = entry & (reading.letter != ' ');
    let past = shift(child, row, at, begins, reading);
    enters_empty | (past & !reading.after)
}
