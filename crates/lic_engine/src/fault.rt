//! Why a scan stops.

ghost use Rattle.std.specs.Prelude.{◌≡◌};
ghost use Rattle.lic_norm.specs.declared.fault.FeedFault.{FeedFault};
ghost use Rattle.lic_norm.specs.declared.fault.TextFault.{TextFault};
ghost use Rattle.lic_engine.specs.declared.fault.RunFault.{RunFault};
ghost use Rattle.lic_engine.specs.declared.fault.RunFault.TheVariants.{Write, Memory};

use lic_norm::{FeedFault, TextFault};
use lic_stream::WriteFailed;
use std::alloc::AllocError;
use thiserror::Error;

/// Why a scan stopped.
#[derive(Clone, Copy, Debug, PartialEq, Eq, Error)]
pub enum RunFault {
    /// The input is refused.
    #[error("{0}")]
    Text(TextFault),
    /// The reader failed.
    #[error("cannot be read")]
    Read,
    /// The writer failed.
    #[error("cannot be written")]
    Write,
    /// Memory ran out.
    #[error("out of memory")]
    Memory,
}

impl From<AllocError> for RunFault {
    ghost from_gives = { λ _ fault. fault ≡ Memory };

    fn from(_error: AllocError) -> RunFault {
        RunFault::Memory
    }
}

impl From<FeedFault> for RunFault {
    ghost from_gives = { λ from fault. (from ≡ FeedFault.Read → fault ≡ RunFault.Read)
        × ((refusal : TextFault) → from ≡ FeedFault.Text refusal → fault ≡ RunFault.Text refusal) };

    fn from(fault: FeedFault) -> RunFault {
        match fault {
            FeedFault::Text(refusal) => RunFault::Text(refusal),
            FeedFault::Read => RunFault::Read,
        }
    }
}

impl From<WriteFailed> for RunFault {
    ghost from_gives = { λ _ fault. fault ≡ Write };

    fn from(_error: WriteFailed) -> RunFault {
        RunFault::Write
    }
}
