//! Compiled expressions.

ghost use Rattle.std.specs.Prelude.{◌≡◌, ◌+◌, ◌*◌, IsTrue};

use crate::test::Test;

/// How many words are in a row.
#[derive(Clone, Copy, Debug)]
pub enum Times {
    /// `needed` words, and up to `more` more.
    Bounded { needed: usize, more: usize },
    /// `before` words, and one or more.
    Unbounded { before: usize },
}

impl Times {
    ghost use Rattle.lic_marks.specs.Cores.{Core};
    ghost use Rattle.lic_marks.specs.Rows.{weight};
    ghost use Rattle.lic_marks.specs.Nodes.{times_over};

    /// How many of the words are needed at first, and how many positions for one word each there are after them.
    pub fn counts(self) -> (usize, usize)
        ensures { (r : Core) → weight (times_over self r) ≡ result.0 * weight r + result.1 * weight r }
    {
        match self {
            Times::Bounded { needed, more } => (needed, more),
            Times::Unbounded { before } => (before, 1),
        }
    }
}

/// A compiled expression. Its weight is the number of its letter positions once its repetitions are written out; it has one
/// child for all words of a repetition.
#[derive(Drop, Debug)]
pub enum Node {
    /// These letters in a row.
    Letters(Vec<char>),
    /// One letter that passes.
    One(Test),
    /// `count` letters in a row that each pass.
    Copies {
        test: Test,
        count: usize,
    },
    /// Up to `count` letters in a row that each pass.
    UpTo {
        test: Test,
        count: usize,
    },
    /// One child after another.
    Cat {
        children: Vec<Node>,
        weight: usize,
    },
    /// Any one child.
    Alt {
        children: Vec<Node>,
        weight: usize,
    },
    /// The child's words, `times` in a row.
    Repeat {
        child: Box<Node>,
        times: Times,
        weight: usize,
    },
    /// The child's words, one or more in a row.
    Plus {
        child: Box<Node>,
        weight: usize,
    },
    /// The child's tidy words.
    Tidy {
        child: Box<Node>,
        weight: usize,
        is_nullable: bool,
    },
}

impl Node {
    ghost use Rattle.lic_marks.specs.Nodes.{core_of, is_measured};
    ghost use Rattle.lic_marks.specs.Rows.{weight};

    /// The number of letter positions.
    pub fn weight(&self) -> usize
        requires { IsTrue (is_measured self.now) }
        ensures { result ≡ weight (core_of self.now) }
    {
        match self {
            Node::Letters(text) => text.len(),
            Node::One(_) => 1,
            Node::Copies { count, .. } => *count,
            Node::UpTo { count, .. } => *count,
            Node::Cat { weight, .. } => *weight,
            Node::Alt { weight, .. } => *weight,
            Node::Repeat { weight, .. } => *weight,
            Node::Plus { weight, .. } => *weight,
            Node::Tidy { weight, .. } => *weight,
        }
    }
}
