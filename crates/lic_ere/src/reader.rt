//! The pattern and its open groups while they are read.
ghost use Rattle.std.specs.Prelude.{◌≡◌, OnOk};

use crate::ere::Ere;
use crate::fault::{EreCause, EreFault};
use crate::letters::letters;
use crate::level::GroupLevel;
use crate::lexeme::Lexeme;
use std::alloc::{AllocError, Global};
use std::mem;

/// How deep groups may be in one another.
const MAX_DEPTH: usize = 64;

/// The innermost level, and those round it.
#[derive(Drop)]
pub struct PatternReader {
    pub level: GroupLevel,
    /// The innermost one is last.
    pub outer: Vec<GroupLevel>,
}

impl PatternReader {
    ghost use Rattle.lic_ere.specs.Trees.{tree_of};
    ghost use Rattle.lic_ere.specs.Faults.{Gives};
    ghost use Rattle.lic_ere.specs.Reading.{start, open_group, close_group, meet, finish};
    ghost use Rattle.lic_ere.specs.Views.{lexeme_of, state_of};

    /// Before the first lexeme.
    pub fn new(alloc: Global) -> PatternReader
        ensures { state_of result ≡ start }
    {
        PatternReader {
            level: GroupLevel::new(alloc, 0),
            outer: Vec::new(alloc),
        }
    }

    /// A `(` at an offset.
    fn open(&mut self, alloc: Global, offset: usize) -> Result<(), EreFault>
        ensures { Gives (λ _. state_of self.new) result (open_group offset (state_of self.old)) }
    {
        if self.outer.len() >= MAX_DEPTH {
            return Err(EreFault {
                offset,
                cause: EreCause::TooDeep,
            });
        }
        let outer = mem::replace(&mut self.level, GroupLevel::new(alloc, offset));
        self.outer.push(outer)?;
        Ok(())
    }

    /// A `)`.
    fn close(&mut self, alloc: Global) -> Result<(), AllocError>
        ensures { OnOk result (state_of self.new
            ≡ close_group (state_of self.old).level (state_of self.old).outer) }
    {
        let unit = match self.outer.pop() {
            None => letters(alloc, ')')?,
            Some(outer) => mem::replace(&mut self.level, outer).into_tree(alloc)?,
        };
        self.level.push(unit)
    }

    /// One more lexeme, which begins at an offset.
    #[tactic(auto, unfolding(crate::specs::Reading::meet))]
    pub fn meet(&mut self, alloc: Global, offset: usize, lexeme: Lexeme) -> Result<(), EreFault>
        ensures { Gives (λ _. state_of self.new) result
            (meet offset (lexeme_of lexeme) (state_of self.old)) }
    {
        match lexeme {
            Lexeme::Unit(unit) => self.level.push(unit)?,
            Lexeme::Sign(bounds) => self.level.repeat(alloc, offset, bounds)?,
            Lexeme::Opening => self.open(alloc, offset)?,
            Lexeme::Closing => self.close(alloc)?,
            Lexeme::Bar => self.level.end_sequence(alloc)?,
            Lexeme::Anchor => {}
        }
        Ok(())
    }

    /// After the last lexeme.
    pub fn finish(self, alloc: Global) -> Result<Ere, EreFault>
        ensures { Gives tree_of result (finish (state_of self).level (state_of self).outer) }
    {
        if !self.outer.is_empty() {
            return Err(EreFault {
                offset: self.level.offset,
                cause: EreCause::GroupNotClosed,
            });
        }
        Ok(self.level.into_tree(alloc)?)
    }
}
