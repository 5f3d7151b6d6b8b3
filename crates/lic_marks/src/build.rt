//! Making compiled expressions.

ghost use Rattle.std.specs.Prelude.{◌≡◌, ◌<◌, IsTrue, IfSome, IfNone, map, replicate};
ghost use Rattle.std.specs.List.{list_all};
ghost use Rattle.lic_marks.specs.Cores.{one, cat_all, alt_all, any_prefix, plus, tidy};
ghost use Rattle.lic_marks.specs.Marks.{is_nullable};
ghost use Rattle.lic_marks.specs.Rows.{weight};
ghost use Rattle.lic_marks.specs.Nodes.{core_of, is_measured, letter_cores, passes, times_over, IsBuilt};

use crate::node::{Node, Times};
use crate::test::Test;

/// These letters in a row.
pub fn letters(text: Vec<char>) -> Node
    ensures { IsBuilt (cat_all (letter_cores text.items)) result }
{
    Node::Letters(text)
}

/// One letter that passes.
pub fn one(test: Test) -> Node
    ensures { IsBuilt (one (passes test)) result }
{
    Node::One(test)
}

/// `count` letters in a row that each pass.
pub fn copies(test: Test, count: usize) -> Node
    ensures { IsBuilt (cat_all (replicate count (one (passes test)))) result }
{
    Node::Copies { test, count }
}

/// Up to `count` letters in a row that each pass.
pub fn up_to(test: Test, count: usize) -> Node
    ensures { IsBuilt (any_prefix (replicate count (one (passes test)))) result }
{
    Node::UpTo { test, count }
}

/// One child after another, or `None` where the children together weigh more than the greatest `usize`.
pub fn cat(children: Vec<Node>) -> Option<Node>
    requires { IsTrue (list_all is_measured children.items) }
    ensures built { IfSome result (IsBuilt (cat_all (map core_of children.items))) }
    ensures heavy { IfNone result (usize.MAX < weight (cat_all (map core_of children.items))) }
{
    let weight = total_weight(&children)?;
    Some(Node::Cat { children, weight })
}

/// Any one child, or `None` where the children together weigh more than the greatest `usize`.
pub fn alt(children: Vec<Node>) -> Option<Node>
    requires { IsTrue (list_all is_measured children.items) }
    ensures built { IfSome result (IsBuilt (alt_all (map core_of children.items))) }
    ensures heavy { IfNone result (usize.MAX < weight (cat_all (map core_of children.items))) }
{
    let weight = total_weight(&children)?;
    Some(Node::Alt { children, weight })
}

/// The child's words, `times` in a row, or `None` if they weigh more than the greatest `usize`.
pub fn repeat(child: Box<Node>, times: Times) -> Option<Node>
    requires { IsTrue (is_measured child.value) }
    ensures built { IfSome result (IsBuilt (times_over times (core_of child.value))) }
    ensures heavy { IfNone result (usize.MAX < weight (times_over times (core_of child.value))) }
{
    let (needed, more) = times.counts();
    let one = child.weight();
    let needed = needed.checked_mul(one)?;
    let more = more.checked_mul(one)?;
    let weight = needed.checked_add(more)?;
    Some(Node::Repeat {
        child,
        times,
        weight,
    })
}

/// The child's words, one or more in a row.
pub fn plus(child: Box<Node>) -> Node
    requires { IsTrue (is_measured child.value) }
    ensures { IsBuilt (plus (core_of child.value)) result }
{
    let weight = child.weight();
    Node::Plus { child, weight }
}

/// The child's tidy words.
pub fn tidy(child: Box<Node>) -> Node
    requires { IsTrue (is_measured child.value) }
    ensures { IsBuilt (tidy (core_of child.value)) result }
{
    let weight = child.weight();
    let is_nullable = is_nullable(&child);
    Node::Tidy {
        child,
        weight,
        is_nullable,
    }
}

// The weights together, unless they are above the greatest `usize`.
fn total_weight(children: &[Node]) -> Option<usize>
    requires { IsTrue (list_all is_measured children.now) }
    ensures total { IfSome result (λ total. total ≡ weight (cat_all (map core_of children.now))) }
    ensures heavy { IfNone result (usize.MAX < weight (cat_all (map core_of children.now))) }
{
    let mut total: usize = 0;
    for child in children {
        total = total.checked_add(child.weight())?;
    }
    Some(total)
}

/// Whether the expression has the empty word.
#[cycle(is_nullable)]
pub fn is_nullable(node: &Node) -> bool
    ensures { result ≡ is_nullable (core_of node.now) }
{
    match node {
        Node::Letters(text) => text.is_empty(),
        Node::One(_) => false,
        Node::Copies { count, .. } => *count == 0,
        Node::UpTo { .. } => true,
        Node::Cat { children, .. } => are_all_nullable(children),
        Node::Alt { children, .. } => is_any_nullable(children),
        Node::Repeat { child, times, .. } => match times {
            Times::Bounded { needed, .. } => (*needed == 0) | is_nullable(child),
            Times::Unbounded { .. } => is_nullable(child),
        },
        Node::Plus { child, .. } => is_nullable(child),
        Node::Tidy { child, .. } => is_nullable(child),
    }
}

#[cycle(is_nullable)]
fn are_all_nullable(children: &[Node]) -> bool
    ensures { result ≡ is_nullable (cat_all (map core_of children.now)) }
{
    let mut all = true;
    for child in children {
        all = all & is_nullable(child);
    }
    all
}

#[cycle(is_nullable)]
fn is_any_nullable(children: &[Node]) -> bool
    ensures { result ≡ is_nullable (alt_all (map core_of children.now)) }
{
    let mut any = false;
    for child in children {
        any = any | is_nullable(child);
    }
    any
}
