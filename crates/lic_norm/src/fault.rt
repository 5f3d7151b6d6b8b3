//! Why an input is refused.

ghost use Rattle.std.specs.Prelude.{◌≡◌};
ghost use Rattle.lic_norm.specs.declared.fault.TextFault.TheVariants.{Memory};
ghost use Rattle.lic_norm.specs.declared.fault.FeedFault.TheVariants.{Text};
ghost use Rattle.lic_norm.specs.declared.fault.FeedFault.{FeedFault};
ghost use Rattle.lic_norm.specs.declared.fault.TextFault.{TextFault};
ghost use Rattle.lic_stream.specs.declared.transfer.ReadFault.{ReadFault};

use lic_stream::ReadFault;
use std::alloc::AllocError;
use thiserror::Error;

/// Why an input is refused.
#[derive(Clone, Copy, Debug, PartialEq, Eq, Error)]
pub enum TextFault {
    /// More than 67,108,864 bytes.
    #[error("X2: more than 67108864 bytes")]
    TooLong,
    /// Memory ran out.
    #[error("X3: out of memory")]
    Memory,
}

impl From<AllocError> for TextFault {
    ghost from_gives = { λ _ fault. fault ≡ Memory };

    fn from(_: AllocError) -> TextFault {
        TextFault::Memory
    }
}

/// Why an input could not be read to its end.
#[derive(Clone, Copy, Debug, PartialEq, Eq, Error)]
pub enum FeedFault {
    /// The input is refused.
    #[error("{0}")]
    Text(TextFault),
    /// The reader failed.
    #[error("cannot be read")]
    Read,
}

impl From<AllocError> for FeedFault {
    ghost from_gives = { λ _ fault. fault ≡ Text Memory };

    fn from(_: AllocError) -> FeedFault {
        FeedFault::Text(TextFault::Memory)
    }
}

impl From<ReadFault> for FeedFault {
    ghost from_gives = { λ from fault. (from ≡ ReadFault.Read → fault ≡ FeedFault.Read)
        × (from ≡ ReadFault.Memory → fault ≡ FeedFault.Text TextFault.Memory) };

    fn from(fault: ReadFault) -> FeedFault {
        match fault {
            ReadFault::Read => FeedFault::Read,
            ReadFault::Memory => FeedFault::Text(TextFault::Memory),
        }
    }
}
