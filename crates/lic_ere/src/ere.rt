//! Patterns as trees.
ghost use Rattle.std.specs.Prelude.{◌≡◌, map, IfOk};

use crate::class::Class;
use std::alloc::{AllocError, Global};
use std::mem::size_of;

/// A pattern as a tree.
#[derive(Debug, Drop)]
pub enum Ere {
    /// The empty word.
    Empty,
    /// One letter.
    Char(char),
    /// Any one letter, the blank too.
    Any,
    /// One letter of a set.
    Set(Class),
    /// One after another.
    Cat(Vec<Ere>),
    /// One of these.
    Alt(Vec<Ere>),
    /// The body, `min` to `max` times; without `max` any number of times from `min` on.
    Repeat {
        body: Box<Ere>,
        min: u32,
        max: Option<u32>,
    },
}

/// A pattern of a million bytes may have more than a million of them.
const _: () = prove!(size_of::<Ere>() == 32);

/// A list of at most this many trees is moved to memory of its own size: what it leaves free would be too small to be of
/// use if it were given back alone.
const SHORT: usize = 64;

/// The same trees in a list that holds no more.
fn fitted(alloc: Global, trees: Vec<Ere>) -> Result<Vec<Ere>, AllocError>
    ensures { IfOk result (λ fitted. fitted.items ≡ trees.items) }
{
    let mut trees = trees;
    if trees.len() > SHORT {
        trees.shrink_to_fit();
        return Ok(trees);
    }
    let mut fitted = Vec::with_capacity(alloc, trees.len())?;
    fitted.append(&mut trees)?;
    Ok(fitted)
}

impl Ere {
    ghost use Rattle.lic_ere.specs.Trees.{tree_of, units_tree, choice_tree};

    /// Units in a row: a single one is the answer itself, and none is the empty word.
    pub(crate) fn sequence(alloc: Global, mut units: Vec<Ere>) -> Result<Ere, AllocError>
        ensures { IfOk result (λ sequence. tree_of sequence ≡ units_tree (map tree_of units.items)) }
    {
        match units.len() {
            0 => Ok(Ere::Empty),
            1 => Ok(units.remove(0)),
            _ => Ok(Ere::Cat(fitted(alloc, units)?)),
        }
    }

    /// Alternatives: a single one is the answer itself.
    pub(crate) fn choice(alloc: Global, mut alternatives: Vec<Ere>) -> Result<Ere, AllocError>
        ensures { IfOk result (λ choice. tree_of choice
            ≡ choice_tree (map tree_of alternatives.items)) }
    {
        match alternatives.len() {
            0 => Ok(Ere::Empty),
            1 => Ok(alternatives.remove(0)),
            _ => Ok(Ere::Alt(fitted(alloc, alternatives)?)),
        }
    }
}
