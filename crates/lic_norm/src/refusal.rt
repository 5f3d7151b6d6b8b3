//! How long an input may be.

ghost use Rattle.std.specs.Prelude.{◌≡◌, ◌≤◌, length, IfErr, OnOk, Some, None};
ghost use Rattle.lic_norm.specs.Refusal.{refusal_of};

use crate::fault::TextFault;

/// The most bytes of an input.
pub const MAX_BYTES: usize = 67_108_864;

/// Refuses an input that is too long, and no other.
#[tactic(auto, unfolding(crate::specs::Refusal::refusal_of))]
pub(crate) fn check_length(input: &[u8]) -> Result<(), TextFault>
    ensures short { OnOk result (length input.now ≤ MAX_BYTES) }
    ensures accepted { OnOk result (refusal_of input.now ≡ None) }
    ensures refused { IfErr result (λ fault. refusal_of input.now ≡ Some fault) }
{
    if input.len() > MAX_BYTES {
        return Err(TextFault::TooLong);
    }
    Ok(())
}
