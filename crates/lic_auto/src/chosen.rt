//! Templates chosen from a set by their numbers.

ghost use Rattle.std.specs.Prelude.{◌≡◌, ◌<◌, ℕ, length, IfOk, Some, Contains};
ghost use Rattle.std.specs.List.{slice_get};
ghost use Rattle.lic_words.specs.Expressions.{Language};
ghost use Rattle.lic_set.specs.Rising.{IsRising};
ghost use Rattle.lic_set.specs.Sets.{Known, words_of};
ghost use Rattle.lic_auto.specs.Compiling.{HasWords};
ghost use Rattle.lic_auto.specs.Directions.{read};

use crate::compile::compile;
use crate::direction::Direction;
use lic_marks::Node;
use lic_set::Set;
use std::alloc::{AllocError, Global};

/// All numbers below a count.
///
/// # Errors
/// Memory ran out.
pub fn all_numbers(alloc: Global, count: usize) -> Result<Vec<usize>, AllocError>
    ensures rising { IfOk result (λ numbers. IsRising numbers.items count) }
    ensures all { IfOk result (λ numbers. (k : ℕ) → k < count → Contains numbers.items k) }
{
    let mut numbers = Vec::with_capacity(alloc, count)?;
    for number in 0..count {
        numbers.push(number)?;
    }
    Ok(numbers)
}

/// The words of the template of this number as they are read in a direction, as a compiled tree.
///
/// # Errors
/// Memory ran out, or the tree weighs more than the greatest `usize`.
pub fn compile_template(
    alloc: Global,
    set: &Set,
    number: usize,
    direction: Direction,
) -> Result<Node, AllocError>
    requires { number < length set.now }
    ensures { IfOk result (λ tree. (known : Known) → slice_get set.now number ≡ Some known
        → HasWords (Language (read direction (words_of known))) tree) }
{
    compile(alloc, set.template(number).parts(), direction)
}
