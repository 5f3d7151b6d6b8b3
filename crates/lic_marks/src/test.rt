//! Tests of one letter.

ghost use Rattle.std.specs.Prelude.{◌≡◌, IfOk};

use lic_ere::Class;
use std::alloc::{AllocError, Global};

/// A test of one letter.
#[derive(Drop, Debug)]
pub enum Test {
    /// This letter.
    Letter(char),
    /// Any letter, the blank too.
    Any,
    /// A letter of the set that a bracket denotes.
    Class(Class),
}

impl Test {
    ghost use Rattle.lic_marks.specs.Nodes.{passes};

    /// Whether the letter passes.
    pub fn passes(&self, c: char) -> bool
        ensures { result ≡ passes self.now c }
    {
        match self {
            Test::Letter(d) => c == *d,
            Test::Any => true,
            Test::Class(class) => class.has(c),
        }
    }

    /// The same test once more.
    ///
    /// # Errors
    /// Memory ran out.
    pub fn copy(&self, alloc: Global) -> Result<Test, AllocError>
        ensures { IfOk result (λ copy. copy ≡ self.now) }
    {
        Ok(match self {
            Test::Letter(letter) => Test::Letter(*letter),
            Test::Any => Test::Any,
            Test::Class(class) => Test::Class(class.copy(alloc)?),
        })
    }
}
