//! Why a template was refused.
ghost use Rattle.std.specs.Prelude.{◌≡◌};
ghost use Rattle.lic_elements.specs.Faults.{out_of_memory};

use lic_ere::EreFault;
use std::alloc::{AllocError, AllocFailed};
use thiserror::Error;

/// What is wrong with a template.
#[derive(Clone, Copy, Debug, PartialEq, Eq, Error)]
pub enum MarkupCause {
    /// Neither `;` nor `>>` follows the tag or a field's value, or the text ends inside the rule.
    #[error("rule not closed")]
    NotClosed,
    /// An `endOptional` with no `beginOptional` open.
    #[error("end without begin")]
    EndWithoutBegin,
    /// An optional part that is open at the end, the innermost one.
    #[error("optional not ended")]
    NotEnded,
    /// A `var` without `name`, `original` or `match`.
    #[error("field missing")]
    FieldMissing,
    /// `name`, `original` or `match` twice in one `var`.
    #[error("field twice")]
    FieldTwice,
    /// A field with no `=`.
    #[error("field without =")]
    NoEquals,
    /// The pattern of a variable was refused.
    #[error("{0}")]
    Pattern(EreFault),
    /// Optional parts in one another to more than 64 levels.
    #[error("deeper than 64")]
    TooDeep,
    /// A weight over 131,072.
    #[error("weight over 131072")]
    TooHeavy,
    /// No piece of text gives a token.
    #[error("no letter in it")]
    NoLetter,
    /// More than 1,048,576 bytes.
    #[error("more than 1048576 bytes")]
    TooLong,
    #[error("out of memory")]
    OutOfMemory,
}

impl MarkupCause {
    /// The short name of the cause.
    pub fn code(&self) -> &'static str {
        match self {
            MarkupCause::NotClosed => "M1",
            MarkupCause::EndWithoutBegin => "M2",
            MarkupCause::NotEnded => "M3",
            MarkupCause::FieldMissing => "M4",
            MarkupCause::FieldTwice => "M5",
            MarkupCause::NoEquals => "M6",
            MarkupCause::Pattern(_) => "M7",
            MarkupCause::TooDeep => "M8",
            MarkupCause::TooHeavy => "M9",
            MarkupCause::NoLetter => "M10",
            MarkupCause::TooLong => "M11",
            MarkupCause::OutOfMemory => "M12",
        }
    }
}

/// Why a template was refused, and where: the fault that decides.
#[derive(Clone, Copy, Debug, PartialEq, Eq, Error)]
#[error("{} at {offset}: {cause}", .cause.code())]
pub struct MarkupFault {
    /// A byte of the template; 0 where memory ran out and where the whole template is meant.
    pub offset: usize,
    pub cause: MarkupCause,
}

impl MarkupFault {
    ghost use Rattle.std.specs.Prelude.{◌≡◌};
    ghost use Rattle.lic_elements.specs.Faults.{out_of_memory};

    /// Out of memory, reported at 0.
    pub fn out_of_memory() -> MarkupFault
        ensures { result ≡ out_of_memory }
    {
        MarkupFault {
            offset: 0,
            cause: MarkupCause::OutOfMemory,
        }
    }
}

impl From<AllocError> for MarkupFault {
    ghost from_gives = { λ _ e. e ≡ out_of_memory };

    fn from(_e: AllocError) -> MarkupFault {
        MarkupFault::out_of_memory()
    }
}

impl<T: Drop> From<AllocFailed<T>> for MarkupFault {
    ghost from_gives = { λ _ e. e ≡ out_of_memory };

    fn from(_e: AllocFailed<T>) -> MarkupFault {
        MarkupFault::out_of_memory()
    }
}
