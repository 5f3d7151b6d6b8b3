//! Why a call was refused, and how a call is made that may be refused for lack of memory.

ghost use Rattle.std.specs.Prelude.{◌≡◌};
ghost use Rattle.lic_memory_tests.specs.declared.refused.Refused.TheVariants.{Memory};

use lic_engine::RunFault;
use lic_ere::{EreCause, EreFault};
use lic_kind::{RulesCause, RulesFault};
use lic_markup::{MarkupCause, MarkupFault};
use lic_norm::{TextFault, WordsCause, WordsFault};
use lic_set::BuildFault;
use std::alloc::AllocError;
use std::process::Abort;

/// Why a call was refused, by the kind of the call.
#[derive(Debug, Drop)]
pub enum Refused {
    Words(WordsFault),
    Rules(RulesFault),
    Pattern(EreFault),
    Template(MarkupFault),
    Set(BuildFault),
    Text(TextFault),
    Run(RunFault),
    /// A call that can be refused for this alone, or the test's own request.
    Memory,
}

impl From<AllocError> for Refused {
    ghost from_gives = { λ _ refused. refused ≡ Memory };

    fn from(_error: AllocError) -> Refused {
        Refused::Memory
    }
}

impl Refused {
    /// Whether memory ran out, reported where that is reported.
    fn is_memory(&self) -> bool {
        match self {
            Refused::Words(WordsFault { line, cause }) => {
                *line == 0 && matches!(cause, WordsCause::OutOfMemory)
            }
            Refused::Rules(RulesFault { line, cause }) => {
                *line == 0 && matches!(cause, RulesCause::OutOfMemory)
            }
            Refused::Pattern(EreFault { offset, cause }) => {
                *offset == 0 && matches!(cause, EreCause::OutOfMemory)
            }
            Refused::Template(MarkupFault { offset, cause }) => {
                *offset == 0 && matches!(cause, MarkupCause::OutOfMemory)
            }
            Refused::Set(fault) => matches!(fault, BuildFault::Memory),
            Refused::Text(fault) => matches!(fault, TextFault::Memory),
            Refused::Run(fault) => {
                matches!(fault, RunFault::Memory | RunFault::Text(TextFault::Memory))
            }
            Refused::Memory => true,
        }
    }
}

/// What was made, or nothing where memory ran out.
fn made<T: Drop>(rt: &impl Abort, outcome: Result<T, Refused>) -> Option<T> {
    match outcome {
        Ok(value) => Some(value),
        Err(refused) => {
            assert!(rt; refused.is_memory(), "{refused:?}");
            None
        }
    }
}

/// What a call gives. Where memory runs out it is made again; any other refusal fails the test.
pub fn retried<T: Drop, F: FnMut() -> Result<T, Refused>>(rt: &impl Abort, mut call: F) -> T
    requires { F.IsAlwaysCallable call }
{
    match made(rt, call()) {
        Some(value) => value,
        None => made(rt, call()).expect(rt, "the call made again"),
    }
}
