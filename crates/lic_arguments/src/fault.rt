//! What is wrong with arguments.

ghost use Rattle.std.specs.Prelude.{◌≡◌};
ghost use Rattle.lic_arguments.specs.declared.fault.ArgumentFault.TheVariants.{Memory};

use lic_fields::Escaped;
use std::alloc::{AllocError, AllocFailed};
use thiserror::Error;

/// What is wrong with the arguments, where their parser accepts them.
#[derive(Debug, Drop, Error)]
pub enum ArgumentFault {
    #[error("argument {number} is not UTF-8")]
    NotUtf8 { number: usize },
    #[error("no command")]
    NoCommand,
    #[error("--after needs --all")]
    AfterNeedsAll,
    #[error("--limit needs --all")]
    LimitNeedsAll,
    #[error("--after takes one file")]
    AfterFiles,
    #[error("--after: bad triple")]
    BadTriple,
    #[error("--after: no template {}", Escaped(.id.as_str()))]
    NoTemplate { id: String },
    #[error("out of memory")]
    Memory,
}

impl From<AllocError> for ArgumentFault {
    ghost from_gives = { λ _ fault. fault ≡ Memory };

    fn from(_error: AllocError) -> ArgumentFault {
        ArgumentFault::Memory
    }
}

impl<T: Drop> From<AllocFailed<T>> for ArgumentFault {
    ghost from_gives = { λ _ fault. fault ≡ Memory };

    fn from(_error: AllocFailed<T>) -> ArgumentFault {
        ArgumentFault::Memory
    }
}
