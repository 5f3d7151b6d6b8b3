//! The pattern or an open group while it is read.
ghost use Rattle.std.specs.Prelude.{◌≡◌, IfOk, OnOk};

use crate::ere::Ere;
use crate::fault::{EreCause, EreFault};
use crate::lexeme::bounds::Bounds;
use std::alloc::{AllocError, Global};
use std::mem;

/// The last unit of a sequence.
#[derive(Drop)]
pub enum LastUnit {
    None,
    /// A unit that may be repeated.
    Single(Ere),
    /// A unit with its repetition sign.
    Repeated(Ere),
}

/// The whole pattern, or an open group.
#[derive(Drop)]
pub struct GroupLevel {
    /// The byte at which it begins.
    pub offset: usize,
    /// The alternatives before the last `|`.
    pub alternatives: Vec<Ere>,
    /// The units after that `|`, but for the last one.
    pub before: Vec<Ere>,
    pub last: LastUnit,
}

impl GroupLevel {
    ghost use Rattle.lic_ere.specs.Trees.{tree_of};
    ghost use Rattle.lic_ere.specs.Faults.{Gives};
    ghost use Rattle.lic_ere.specs.Reading.{new_level, with_unit, with_sign, with_alternative, level_tree};
    ghost use Rattle.lic_ere.specs.Views.{level_of};

    /// A level with nothing read.
    pub fn new(alloc: Global, offset: usize) -> GroupLevel
        ensures { level_of result ≡ new_level offset }
    {
        GroupLevel {
            offset,
            alternatives: Vec::new(alloc),
            before: Vec::new(alloc),
            last: LastUnit::None,
        }
    }

    /// One more unit.
    pub fn push(&mut self, unit: Ere) -> Result<(), AllocError>
        ensures { OnOk result (level_of self.new ≡ with_unit (tree_of unit) (level_of self.old)) }
    {
        match mem::replace(&mut self.last, LastUnit::Single(unit)) {
            LastUnit::None => {}
            LastUnit::Single(last) | LastUnit::Repeated(last) => self.before.push(last)?,
        }
        Ok(())
    }

    /// A repetition sign at an offset, with its bounds where they could be read.
    pub fn repeat(
        &mut self,
        alloc: Global,
        offset: usize,
        bounds: Option<Bounds>,
    ) -> Result<(), EreFault>
        ensures { Gives (λ _. level_of self.new) result
            (with_sign offset bounds (level_of self.old)) }
    {
        let cause = match mem::replace(&mut self.last, LastUnit::None) {
            LastUnit::None => EreCause::NothingToRepeat,
            LastUnit::Repeated(_) => EreCause::TwoSigns,
            LastUnit::Single(unit) => {
                if let Some(Bounds { min, max }) = bounds {
                    let body = Box::new(alloc, unit)?;
                    self.last = LastUnit::Repeated(Ere::Repeat { body, min, max });
                    return Ok(());
                }
                EreCause::BadBound
            }
        };
        Err(EreFault { offset, cause })
    }

    /// A `|`.
    pub fn end_sequence(&mut self, alloc: Global) -> Result<(), AllocError>
        ensures { OnOk result (level_of self.new ≡ with_alternative (level_of self.old)) }
    {
        let mut units = mem::replace(&mut self.before, Vec::new(alloc));
        match mem::replace(&mut self.last, LastUnit::None) {
            LastUnit::None => {}
            LastUnit::Single(last) | LastUnit::Repeated(last) => units.push(last)?,
        }
        self.alternatives.push(Ere::sequence(alloc, units)?)?;
        Ok(())
    }

    /// The tree of what was read.
    pub fn into_tree(self, alloc: Global) -> Result<Ere, AllocError>
        ensures { IfOk result (λ tree. tree_of tree ≡ level_tree (level_of self)) }
    {
        let mut level = self;
        level.end_sequence(alloc)?;
        Ere::choice(alloc, level.alternatives)
    }
}
