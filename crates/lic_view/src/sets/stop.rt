//! Why a search ends before it has all.

use std::alloc::{AllocError, AllocFailed};

/// Why a search ended before it had all.
#[derive(Debug, Drop)]
pub enum Stop {
    /// Memory ran out.
    Memory,
    /// There were more spans, or numbers in them, than are kept.
    TooMany,
}

impl From<AllocError> for Stop {
    ghost use Rattle.std.specs.Prelude.{◌≡◌};
    ghost use Rattle.lic_view.specs.declared.sets.stop.Stop.TheVariants.{Memory};

    ghost from_gives = { λ _ stop. stop ≡ Memory };

    fn from(_: AllocError) -> Stop {
        Stop::Memory
    }
}

impl<T: Drop> From<AllocFailed<T>> for Stop {
    ghost use Rattle.std.specs.Prelude.{◌≡◌};
    ghost use Rattle.lic_view.specs.declared.sets.stop.Stop.TheVariants.{Memory};

    ghost from_gives = { λ _ stop. stop ≡ Memory };

    fn from(_: AllocFailed<T>) -> Stop {
        Stop::Memory
    }
}

// Where the least last tokens alone are kept nothing else ends a search.
impl From<Stop> for AllocError {
    fn from(_: Stop) -> AllocError {
        AllocError
    }
}
