//! Parts of templates as compiled trees.

ghost use Rattle.std.specs.Prelude.{◌≡◌, ◌<◌, ◌≤◌, ◌==◌, ◌++◌, ℕ, Option, IsTrue, IfOk, IfSome, OnOk, Some, None, [], ◌∷◌, map, chars};
ghost use Rattle.std.specs.List.{list_all};
ghost use Rattle.lic_words.specs.Expressions.{Language, IsAtMost, letters, empty, none, alt_all as any_of};
ghost use Rattle.lic_markup.specs.Meaning.{parts_words, part_words};
ghost use Rattle.lic_markup.specs.Parts.{part_of};
ghost use Rattle.lic_marks.specs.Cores.{WordsOf, one, cat_all, alt as either, empty as nothing};
ghost use Rattle.lic_marks.specs.Marks.{is_nullable};
ghost use Rattle.lic_marks.specs.Rows.{weight};
ghost use Rattle.lic_marks.specs.Nodes.{core_of, is_measured, letter_cores, passes};
ghost use Rattle.lic_auto.specs.Directions.{ordered, read};
ghost use Rattle.lic_auto.specs.Compiling.{AreSame, HasWords, AllHaveWords, Repeats, pattern_words};

use crate::direction::Direction;
use lic_ere::Ere;
use lic_marks::{Node, Test, Times};
use lic_markup::Part;
use std::alloc::{AllocError, Global};

/// The words of parts in a row as they are read in a direction, as a compiled tree.
///
/// # Errors
/// Memory ran out, or the tree weighs more than the greatest `usize`.
#[cycle(compile)]
pub(crate) fn compile(
    alloc: Global,
    parts: &[Part],
    direction: Direction,
) -> Result<Node, AllocError>
    ensures { IfOk result (HasWords
        (Language (read direction (parts_words (map part_of parts.now))))) }
{
    let mut children = Vec::new(alloc);
    for part in parts {
        children.push(compile_part(alloc, part, direction)?)?;
    }
    ordered_sequence(alloc, children, direction)
}

#[cycle(compile)]
fn compile_part(alloc: Global, part: &Part, direction: Direction) -> Result<Node, AllocError>
    ensures { IfOk result (HasWords (Language (read direction (part_words part.now)))) }
{
    match part {
        Part::Text(text) => compile_text(alloc, text, direction),
        Part::Var { ere, .. } => {
            let pattern = Box::new(alloc, compile_tree(alloc, ere, direction)?)?;
            Ok(lic_marks::tidy(pattern))
        }
        Part::Optional(parts) => optional(alloc, compile(alloc, parts, direction)?),
    }
}

fn compile_text(alloc: Global, text: &str, direction: Direction) -> Result<Node, AllocError>
    ensures { IfOk result (HasWords (Language (read direction (letters (chars text.now))))) }
{
    let mut text: Vec<char> = text.chars().collect(alloc)?;
    direction.order(&mut text);
    Ok(lic_marks::letters(text))
}

/// The words of a pattern, as a compiled tree.
///
/// # Errors
/// Memory ran out, or the tree weighs more than the greatest `usize`.
pub fn compile_pattern(alloc: Global, ere: &Ere) -> Result<Node, AllocError>
    ensures { IfOk result (HasWords (Language (pattern_words ere.now))) }
{
    compile_tree(alloc, ere, Direction::Forward)
}

#[cycle(compile_tree)]
fn compile_tree(alloc: Global, ere: &Ere, direction: Direction) -> Result<Node, AllocError>
    ensures { IfOk result (HasWords (Language (read direction (pattern_words ere.now)))) }
{
    match ere {
        Ere::Empty => Ok(empty_word(alloc)),
        Ere::Char(letter) => Ok(lic_marks::one(Test::Letter(*letter))),
        Ere::Any => Ok(lic_marks::one(Test::Any)),
        Ere::Set(class) => Ok(lic_marks::one(Test::Class(class.copy(alloc)?))),
        Ere::Cat(subs) => ordered_sequence(
            alloc,
            compile_trees(alloc, subs, direction)?,
            direction,
        ),
        Ere::Alt(subs) => compile_choice(alloc, subs, direction),
        Ere::Repeat { body, min, max } => match *max {
            Some(max) if max < *min => Ok(no_word(alloc)),
            Some(0) => Ok(empty_word(alloc)),
            max => {
                let body = compile_tree(alloc, body, direction)?;
                repetition(alloc, body, *min, max)
            }
        },
    }
}

#[cycle(compile_tree)]
fn compile_trees(alloc: Global, subs: &[Ere], direction: Direction) -> Result<Vec<Node>, AllocError>
    ensures { IfOk result (λ nodes.
        AllHaveWords nodes.items (map (read direction) (map pattern_words subs.now))) }
{
    let mut nodes = Vec::new(alloc);
    for sub in subs {
        nodes.push(compile_tree(alloc, sub, direction)?)?;
    }
    Ok(nodes)
}

/// Any one of these patterns. Those that weigh 0 are left out, but for one empty word where one of them has it.
#[cycle(compile_tree)]
fn compile_choice(alloc: Global, subs: &[Ere], direction: Direction) -> Result<Node, AllocError>
    ensures { IfOk result (HasWords
        (Language (any_of (map (read direction) (map pattern_words subs.now))))) }
{
    let mut kept = Vec::new(alloc);
    let mut has_empty = false;
    for sub in subs {
        let node = compile_tree(alloc, sub, direction)?;
        if node.weight() > 0 {
            kept.push(node)?;
        } else {
            has_empty = has_empty | has_empty_word(node);
        }
    }
    if has_empty {
        kept.push(empty_word(alloc))?;
    }
    lic_marks::alt(kept).ok_or(AllocError)
}

/// The empty word alone.
fn empty_word(alloc: Global) -> Node
    ensures { HasWords (Language empty) result }
{
    lic_marks::letters(Vec::new(alloc))
}

/// No word.
fn no_word(alloc: Global) -> Node
    ensures { HasWords (Language none) result }
{
    let Some(node) = lic_marks::alt(Vec::new(alloc)) else {
        unreachable!()
    };
    node
}

fn has_empty_word(node: Node) -> bool
    ensures { result ≡ is_nullable (core_of node) }
{
    lic_marks::is_nullable(&node)
}

/// One child after another as they are read in a direction.
fn ordered_sequence(
    alloc: Global,
    mut children: Vec<Node>,
    direction: Direction,
) -> Result<Node, AllocError>
    requires { IsTrue (list_all is_measured children.items) }
    ensures { IfOk result (HasWords
        (WordsOf (cat_all (ordered direction (map core_of children.items))))) }
{
    direction.order(&mut children);
    sequence(alloc, children)
}

/// One child after another. The children that weigh 0 are left out, and letters in a row are one text.
fn sequence(alloc: Global, children: Vec<Node>) -> Result<Node, AllocError>
    requires { IsTrue (list_all is_measured children.items) }
    ensures { IfOk result (HasWords (WordsOf (cat_all (map core_of children.items)))) }
{
    let mut kept = Vec::new(alloc);
    for child in children {
        if child.weight() > 0 {
            push_joined(alloc, &mut kept, child)?;
        } else if !has_empty_word(child) {
            return Ok(no_word(alloc));
        }
    }
    joined(kept)
}

/// Appends the child. A letter is joined to the text or the letter before it.
fn push_joined(alloc: Global, kept: &mut Vec<Node>, child: Node) -> Result<(), AllocError>
    requires kept { IsTrue (list_all is_measured kept.old.items) }
    requires child { IsTrue (is_measured child) }
    ensures measured { OnOk result (IsTrue (list_all is_measured kept.new.items)) }
    ensures words { OnOk result
        (AreSame (WordsOf (cat_all (map core_of kept.new.items)))
        (WordsOf (cat_all (map core_of (kept.old.items ++ child ∷ []))))) }
{
    let Some(letter) = letter_of(&child) else {
        kept.push(child)?;
        return Ok(());
    };
    let Some(last) = kept.pop() else {
        kept.push(child)?;
        return Ok(());
    };
    let mut text = end_text(alloc, kept, last)?;
    text.push(letter)?;
    kept.push(lic_marks::letters(text))?;
    Ok(())
}

// The letter, of a node that is one letter.
fn letter_of(node: &Node) -> Option<char>
    ensures { IfSome result (λ letter. core_of node.now ≡ one (λ c. c == letter)) }
{
    match node {
        Node::One(Test::Letter(letter)) => Some(*letter),
        _ => None,
    }
}

// The text of the last child, which is not among the others; if it is no text, it is appended to them, and the answer is empty.
fn end_text(alloc: Global, kept: &mut Vec<Node>, last: Node) -> Result<Vec<char>, AllocError>
    requires kept { IsTrue (list_all is_measured kept.old.items) }
    requires last { IsTrue (is_measured last) }
    ensures measured { IfOk result (λ text. IsTrue (list_all is_measured kept.new.items)) }
    ensures words { IfOk result (λ text.
        AreSame (WordsOf (cat_all
        (map core_of kept.new.items ++ cat_all (letter_cores text.items) ∷ [])))
        (WordsOf (cat_all (map core_of (kept.old.items ++ last ∷ []))))) }
{
    match last {
        Node::Letters(letters) => Ok(letters),
        Node::One(test) => letter_text(alloc, kept, test),
        last => {
            kept.push(last)?;
            Ok(Vec::new(alloc))
        }
    }
}

// The same of one letter that passes: a text where it is a letter.
fn letter_text(alloc: Global, kept: &mut Vec<Node>, test: Test) -> Result<Vec<char>, AllocError>
    requires { IsTrue (list_all is_measured kept.old.items) }
    ensures measured { IfOk result (λ text. IsTrue (list_all is_measured kept.new.items)) }
    ensures words { IfOk result (λ text.
        AreSame (WordsOf (cat_all
        (map core_of kept.new.items ++ cat_all (letter_cores text.items) ∷ [])))
        (WordsOf (cat_all (map core_of kept.old.items ++ one (passes test) ∷ [])))) }
{
    let mut text = Vec::new(alloc);
    match test {
        Test::Letter(letter) => {
            text.push(letter)?;
            Ok(text)
        }
        test => {
            kept.push(lic_marks::one(test))?;
            Ok(text)
        }
    }
}

/// Children in a row; a single one is the answer itself.
fn joined(mut children: Vec<Node>) -> Result<Node, AllocError>
    requires { IsTrue (list_all is_measured children.items) }
    ensures { IfOk result (HasWords (WordsOf (cat_all (map core_of children.items)))) }
{
    match children.len() {
        1 => Ok(children.remove(0)),
        _ => lic_marks::cat(children).ok_or(AllocError),
    }
}

/// The body, or the empty word.
fn optional(alloc: Global, body: Node) -> Result<Node, AllocError>
    requires { IsTrue (is_measured body) }
    ensures { IfOk result (HasWords (WordsOf (either nothing (core_of body)))) }
{
    if body.weight() == 0 {
        return Ok(empty_word(alloc));
    }
    let mut children = Vec::new(alloc);
    children.push(body)?;
    children.push(empty_word(alloc))?;
    lic_marks::alt(children).ok_or(AllocError)
}

/// From `min` to `max` words of the body in a row; without `max`, `min` or more.
fn repetition(alloc: Global, body: Node, min: u32, max: Option<u32>) -> Result<Node, AllocError>
    requires measured { IsTrue (is_measured body) }
    requires some { IsAtMost max min }
    ensures { IfOk result (HasWords (Repeats (WordsOf (core_of body)) min max)) }
{
    if body.weight() == 0 {
        return Ok(weightless_repetition(alloc, body, min));
    }
    match max {
        Some(max) => bounded(alloc, body, min as usize, max as usize),
        None => unbounded(alloc, body, min as usize),
    }
}

/// `min` words or more of a body that weighs 0, in a row: the empty word, or no word.
fn weightless_repetition(alloc: Global, body: Node, min: u32) -> Node
    requires { weight (core_of body) ≡ 0 }
    ensures { (max : Option ℕ) → IsAtMost max min
        → HasWords (Repeats (WordsOf (core_of body)) min max) result }
{
    let may_be_empty = (min == 0) | has_empty_word(body);
    if may_be_empty {
        empty_word(alloc)
    } else {
        no_word(alloc)
    }
}

/// From `min` to `max` words of the body in a row.
fn bounded(alloc: Global, body: Node, min: usize, max: usize) -> Result<Node, AllocError>
    requires measured { IsTrue (is_measured body) }
    requires some { min ≤ max }
    ensures { IfOk result (HasWords (Repeats (WordsOf (core_of body)) min (Some max))) }
{
    match body {
        Node::One(test) => {
            let mut children = Vec::new(alloc);
            children.push(lic_marks::copies(test.copy(alloc)?, min))?;
            children.push(lic_marks::up_to(test, max - min))?;
            sequence(alloc, children)
        }
        body => {
            let times = Times::Bounded {
                needed: min,
                more: max - min,
            };
            lic_marks::repeat(Box::new(alloc, body)?, times).ok_or(AllocError)
        }
    }
}

/// `min` words of the body in a row, or more.
fn unbounded(alloc: Global, body: Node, min: usize) -> Result<Node, AllocError>
    requires { IsTrue (is_measured body) }
    ensures { IfOk result (HasWords (Repeats (WordsOf (core_of body)) min None)) }
{
    if min == 0 {
        return optional(alloc, lic_marks::plus(Box::new(alloc, body)?));
    }
    if min == 1 {
        return Ok(lic_marks::plus(Box::new(alloc, body)?));
    }
    let before = min - 1;
    match body {
        Node::One(test) => {
            let mut children = Vec::new(alloc);
            children.push(lic_marks::copies(test.copy(alloc)?, before))?;
            children.push(lic_marks::plus(Box::new(alloc, lic_marks::one(test))?))?;
            sequence(alloc, children)
        }
        body => {
            let times = Times::Unbounded { before };
            lic_marks::repeat(Box::new(alloc, body)?, times).ok_or(AllocError)
        }
    }
}
