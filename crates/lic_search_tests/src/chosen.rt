//! Some of the numbers below a count.

ghost use Rattle.std.specs.Prelude.{◌+◌, IfOk, OnOk};
ghost use Rattle.lic_set.specs.Rising.{IsRising};

use std::alloc::{AllocError, Global};

/// The numbers below a count at whose index a choice has a bit, in rising order.
pub fn chosen_numbers(alloc: Global, choice: u64, count: usize) -> Result<Vec<usize>, AllocError>
    ensures { IfOk result (λ numbers. IsRising numbers.items count) }
{
    let mut numbers = Vec::new(alloc);
    let mut bits = choice;
    for number in 0..count {
        push_if(&mut numbers, number, bits & 1 == 1)?;
        bits >>= 1;
    }
    Ok(numbers)
}

// Adds a number that is above the others, if it is wanted.
fn push_if(numbers: &mut Vec<usize>, number: usize, wanted: bool) -> Result<(), AllocError>
    requires { IsRising numbers.old.items number }
    ensures { OnOk result (IsRising numbers.new.items (number + 1)) }
{
    if wanted {
        numbers.push(number)?;
    }
    Ok(())
}
