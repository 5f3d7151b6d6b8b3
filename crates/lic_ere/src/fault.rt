//! Why a pattern was refused.
ghost use Rattle.std.specs.Prelude.{◌≡◌};
ghost use Rattle.lic_ere.specs.Faults.{out_of_memory};

use std::alloc::{AllocError, AllocFailed};
use thiserror::Error;

/// What is wrong with a pattern.
#[derive(Clone, Copy, Debug, PartialEq, Eq)]
pub enum EreCause {
    /// A repetition sign with nothing before it.
    NothingToRepeat,
    /// A repetition sign directly after a repetition sign.
    TwoSigns,
    /// A `{` that no bounds follow, or bounds that are too great or out of order.
    BadBound,
    BracketNotClosed,
    /// A `[` directly before `:`, `.` or `=` inside a bracket.
    BracketExtension,
    /// A range that ends before it begins.
    RangeOutOfOrder,
    GroupNotClosed,
    /// A `\` before a character that is no ASCII punctuation.
    UnknownEscape,
    EndsInBackslash,
    /// A `^` that is not first, or a `$` that is not last.
    AnchorInside,
    /// Groups in one another to more than 64 levels.
    TooDeep,
    OutOfMemory,
}

impl EreCause {
    /// The short name of the cause.
    fn code(&self) -> &'static str {
        match self {
            EreCause::NothingToRepeat => "E1",
            EreCause::TwoSigns => "E2",
            EreCause::BadBound => "E3",
            EreCause::BracketNotClosed => "E4",
            EreCause::BracketExtension => "E5",
            EreCause::RangeOutOfOrder => "E6",
            EreCause::GroupNotClosed => "E7",
            EreCause::UnknownEscape => "E8",
            EreCause::EndsInBackslash => "E9",
            EreCause::AnchorInside => "E10",
            EreCause::TooDeep => "E11",
            EreCause::OutOfMemory => "E12",
        }
    }

    /// The cause in words.
    fn text(&self) -> &'static str {
        match self {
            EreCause::NothingToRepeat => "nothing to repeat",
            EreCause::TwoSigns => "two repetition signs",
            EreCause::BadBound => "bad bound",
            EreCause::BracketNotClosed => "bracket not closed",
            EreCause::BracketExtension => "bracket extension",
            EreCause::RangeOutOfOrder => "range out of order",
            EreCause::GroupNotClosed => "group not closed",
            EreCause::UnknownEscape => "unknown escape",
            EreCause::EndsInBackslash => "ends in a backslash",
            EreCause::AnchorInside => "anchor inside",
            EreCause::TooDeep => "deeper than 64",
            EreCause::OutOfMemory => "out of memory",
        }
    }
}

/// Why a pattern was refused, and where: the first fault from left to right.
#[derive(Clone, Copy, Debug, PartialEq, Eq, Error)]
#[error("{} at {offset}: {}", .cause.code(), .cause.text())]
pub struct EreFault {
    /// A byte of the pattern; 0 where memory ran out.
    pub offset: usize,
    pub cause: EreCause,
}

impl EreFault {
    ghost use Rattle.std.specs.Prelude.{◌≡◌};
    ghost use Rattle.lic_ere.specs.Faults.{out_of_memory};

    /// Out of memory, reported at 0.
    pub(crate) fn out_of_memory() -> EreFault
        ensures { result ≡ out_of_memory }
    {
        EreFault {
            offset: 0,
            cause: EreCause::OutOfMemory,
        }
    }
}

impl From<AllocError> for EreFault {
    ghost from_gives = { λ _ e. e ≡ out_of_memory };

    fn from(_e: AllocError) -> EreFault {
        EreFault::out_of_memory()
    }
}

impl<T: Drop> From<AllocFailed<T>> for EreFault {
    ghost from_gives = { λ _ e. e ≡ out_of_memory };

    fn from(_e: AllocFailed<T>) -> EreFault {
        EreFault::out_of_memory()
    }
}
