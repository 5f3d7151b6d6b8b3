//! Whether a word of a compiled expression may end.

ghost use Rattle.std.specs.Prelude.{◌≡◌, ℕ, Bool, ◌+◌, ◌≤◌, IsTrue, length, map, replicate};
ghost use Rattle.std.specs.List.{list_all};
ghost use Rattle.lic_marks.specs.Cores.{one, cat_all, alt_all, any_prefix, copies, up_to, tidy};
ghost use Rattle.lic_marks.specs.Marks.{is_nullable};
ghost use Rattle.lic_marks.specs.Rows.{weight, Leaves};
ghost use Rattle.lic_marks.specs.Nodes.{core_of, is_measured, letter_cores, times_over};

use crate::node::{Node, Times};
use lic_rows::Bits;

/// Whether a word of the expression may end here. Its active positions are in the row from `at` on: one of them is a last
/// one, or a word begins here that is empty. `after` says that the last letter was a blank.
#[cycle(leaves)]
pub fn leaves(node: &Node, row: &Bits, at: usize, after: bool, entry: bool) -> bool
    requires measured { IsTrue (is_measured node.now) }
    requires within { at + weight (core_of node.now) ≤ length row.now }
    ensures { Leaves (core_of node.now) after entry row.now at result }
{
    let width = row.len();
    prove!(at <= width);
    let end = at + node.weight();
    // where nothing is marked and none begins, none can leave
    if !entry && !row.is_any_set(at, end) {
        return false;
    }
    match node {
        Node::Letters(text) => leaves_letters(text, row, at, after, entry),
        Node::One(_) => row.get(at),
        Node::Copies { count, .. } => leaves_copies(*count, row, at, after, entry),
        Node::UpTo { count, .. } => leaves_up_to(*count, row, at, after, entry),
        Node::Cat { children, .. } => leaves_row(children, row, at, after, entry),
        Node::Alt { children, .. } => leaves_any(children, row, at, after, entry),
        Node::Repeat { child, times, .. } => { leaves_repeat(child, *times, row, at, after, entry) }
        Node::Plus { child, .. } => leaves(child, row, at, after, entry),
        Node::Tidy {
            child,
            is_nullable,
            ..
        } => leaves_tidy(child, *is_nullable, row, at, after, entry),
    }
}

// The same for a tidy word of the child: not after a blank, unless it begins here and is empty.
#[cycle(leaves)]
fn leaves_tidy(
    child: &Node,
    has_empty: bool,
    row: &Bits,
    at: usize,
    after: bool,
    entry: bool,
) -> bool
    requires measured { IsTrue (is_measured child.now) }
    requires empty { has_empty ≡ is_nullable (core_of child.now) }
    requires within { at + weight (core_of child.now) ≤ length row.now }
    ensures { Leaves (tidy (core_of child.now)) after entry row.now at result }
{
    if after {
        entry & has_empty
    } else {
        leaves(child, row, at, after, entry)
    }
}

/// The same for these letters: the last one is active, or there is none and a word begins here.
pub fn leaves_letters(text: &[char], row: &Bits, at: usize, after: bool, entry: bool) -> bool
    requires { at + weight (cat_all (letter_cores text.now)) ≤ length row.now }
    ensures { Leaves (cat_all (letter_cores text.now)) after entry row.now at result }
{
    let width = row.len();
    prove!(at <= width);
    if text.is_empty() {
        entry
    } else {
        row.get(at + text.len() - 1)
    }
}

/// The same for `count` letters: the last one is active, or there is none and a word begins here.
pub fn leaves_copies(count: usize, row: &Bits, at: usize, after: bool, entry: bool) -> bool
    requires { at + count ≤ length row.now }
    ensures { (passes : ℕ → Bool)
        → Leaves (cat_all (replicate count (one passes))) after entry row.now at result }
{
    let width = row.len();
    prove!(at <= width);
    if count == 0 {
        entry
    } else {
        row.get(at + count - 1)
    }
}

/// The same for up to `count` letters: one of them is active, or a word begins here.
pub fn leaves_up_to(count: usize, row: &Bits, at: usize, after: bool, entry: bool) -> bool
    requires { at + count ≤ length row.now }
    ensures { (passes : ℕ → Bool)
        → Leaves (any_prefix (replicate count (one passes))) after entry row.now at result }
{
    let width = row.len();
    prove!(at <= width);
    let is_marked = row.is_any_set(at, at + count);
    entry | is_marked
}

// The same for the child's words, `times` in a row.
#[cycle(leaves)]
fn leaves_repeat(
    child: &Node,
    times: Times,
    row: &Bits,
    at: usize,
    after: bool,
    entry: bool,
) -> bool
    requires measured { IsTrue (is_measured child.now) }
    requires within { at + weight (times_over times (core_of child.now)) ≤ length row.now }
    ensures { Leaves (times_over times (core_of child.now)) after entry row.now at result }
{
    let width = row.len();
    prove!(at <= width);
    match times {
        Times::Bounded { needed, more } => {
            let (past, _) = leaves_copies_of(child, needed, row, at, after, entry);
            let position = at + needed * child.weight();
            let (_, out) = leaves_copies_of(child, more, row, position, after, past);
            out
        }
        Times::Unbounded { before } => {
            let (past, _) = leaves_copies_of(child, before, row, at, after, entry);
            let position = at + before * child.weight();
            leaves(child, row, position, after, past)
        }
    }
}

// The same for `count` copies of the child, one after another; and whether a word may end after any of them or before the
// first.
#[cycle(leaves)]
fn leaves_copies_of(
    child: &Node,
    count: usize,
    row: &Bits,
    at: usize,
    after: bool,
    entry: bool,
) -> (bool, bool)
    requires measured { IsTrue (is_measured child.now) }
    requires within { at + weight (copies count (core_of child.now)) ≤ length row.now }
    ensures all { Leaves (copies count (core_of child.now)) after entry row.now at result.0 }
    ensures any { Leaves (up_to count (core_of child.now)) after entry row.now at result.1 }
{
    let width = row.len();
    prove!(at <= width);
    let weight = child.weight();
    let mut position = at;
    let mut flag = entry;
    let mut found = false;
    for _ in 0..count {
        found = found | flag;
        flag = leaves(child, row, position, after, flag);
        position += weight;
    }
    (flag, found | flag)
}

// The same for all children, one after another.
#[cycle(leaves)]
fn leaves_row(children: &[Node], row: &Bits, at: usize, after: bool, entry: bool) -> bool
    requires measured { IsTrue (list_all is_measured children.now) }
    requires within { at + weight (cat_all (map core_of children.now)) ≤ length row.now }
    ensures { Leaves (cat_all (map core_of children.now)) after entry row.now at result }
{
    let width = row.len();
    prove!(at <= width);
    let mut position = at;
    let mut flag = entry;
    for child in children {
        flag = leaves(child, row, position, after, flag);
        position += child.weight();
    }
    flag
}

#[cycle(leaves)]
fn leaves_any(children: &[Node], row: &Bits, at: usize, after: bool, entry: bool) -> bool
    requires measured { IsTrue (list_all is_measured children.now) }
    requires within { at + weight (alt_all (map core_of children.now)) ≤ length row.now }
    ensures { Leaves (alt_all (map core_of children.now)) after entry row.now at result }
{
    let width = row.len();
    prove!(at <= width);
    let mut position = at;
    let mut found = false;
    for child in children {
        let out = leaves(child, row, position, after, entry);
        found = found | out;
        position += child.weight();
    }
    found
}
