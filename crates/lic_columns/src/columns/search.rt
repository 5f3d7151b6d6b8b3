//! The first flag that is set, from an offset on.
ghost use Rattle.std.specs.Prelude.{◌≡◌, ℕ, ◌≤◌, ◌<◌, true, false, length, IfSome, IfNone};
ghost use Rattle.lic_columns.specs.Masks.{flag_at};

use crate::block::SIZE;
use crate::flags::Flags;
use crate::mask::below;

/// The first flag that is set, from this offset on.
#[inline]
pub fn first_set(flags: &Flags, from: usize) -> Option<usize>
    requires { from ≤ length flags.now }
    ensures found { IfSome result (λ at. (from ≤ at) × (at < length flags.now) × (flag_at flags.now at ≡ true)
        × ((k : ℕ) → from ≤ k → k < at → flag_at flags.now k ≡ false)) }
    ensures none { IfNone result ((k : ℕ) → from ≤ k → k < length flags.now → flag_at flags.now k ≡ false) }
{
    let last = flags.len() / SIZE;
    let mut k = from / SIZE;
    let mut mask = flags.column(k) & !below(from % SIZE);
    while mask == 0 {
        if k >= last {
            return None;
        }
        k += 1;
        mask = flags.column(k);
    }
    Some(k * SIZE + mask.trailing_zeros() as usize)
}
