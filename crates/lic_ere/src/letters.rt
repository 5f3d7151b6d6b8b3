//! Ordinary characters.
ghost use Rattle.std.specs.Prelude.{◌≡◌, map, IfOk};
ghost use Rattle.lic_ere.specs.Trees.{tree_of, letters_tree};

use crate::ere::Ere;
use lic_kind::spell;
use std::alloc::{AllocError, Global};

/// The unit that an ordinary or an escaped character is: its letters in a row.
pub fn letters(alloc: Global, character: char) -> Result<Ere, AllocError>
    ensures { IfOk result (λ unit. tree_of unit ≡ letters_tree character) }
{
    let spelling = spell(alloc, character)?;
    let mut units = Vec::with_capacity(alloc, spelling.as_slice().len())?;
    for letter in spelling.as_slice() {
        units.push(Ere::Char(*letter))?;
    }
    Ere::sequence(alloc, units)
}
