//! Why a file of line rules is refused.

ghost use Rattle.std.specs.Prelude.{◌≡◌};
ghost use Rattle.lic_kind.specs.declared.rules_fault.RulesCause.TheVariants.{OutOfMemory};

use std::alloc::{AllocError, AllocFailed};
use std::fmt;
use thiserror::Error;

/// Why a file of line rules is refused.
#[derive(Clone, Copy, Debug, PartialEq, Eq)]
pub enum RulesCause {
    /// A line is of no known form.
    UnknownRule,
    /// A text is missing, or has more than 16 characters, or white space or a dropped character in it.
    BadText,
    /// There is a text number 257, repeats counted.
    TooManyTexts,
    /// There was no memory.
    OutOfMemory,
}

impl RulesCause {
    fn code(self) -> &'static str {
        match self {
            RulesCause::UnknownRule => "L1",
            RulesCause::BadText => "L2",
            RulesCause::TooManyTexts => "L3",
            RulesCause::OutOfMemory => "L4",
        }
    }

    fn text(self) -> &'static str {
        match self {
            RulesCause::UnknownRule => "unknown rule",
            RulesCause::BadText => "bad text",
            RulesCause::TooManyTexts => "more than 256 texts",
            RulesCause::OutOfMemory => "out of memory",
        }
    }
}

impl From<AllocError> for RulesCause {
    ghost from_gives = { λ _ cause. cause ≡ OutOfMemory };

    fn from(_error: AllocError) -> RulesCause {
        RulesCause::OutOfMemory
    }
}

impl<T: Drop> From<AllocFailed<T>> for RulesCause {
    ghost from_gives = { λ _ cause. cause ≡ OutOfMemory };

    fn from(_error: AllocFailed<T>) -> RulesCause {
        RulesCause::OutOfMemory
    }
}

/// The first fault of a file of line rules.
#[derive(Clone, Copy, Debug, PartialEq, Eq, Error)]
#[error("{}{}: {}", .cause.code(), AtLine(*.line), .cause.text())]
pub struct RulesFault {
    /// The line at fault, counted from 1; 0 for lack of memory.
    pub line: usize,
    pub cause: RulesCause,
}

impl RulesCause {
    ghost use Rattle.lic_kind.specs.RuleFiles.{fault_at};

    /// The fault on this line; lack of memory is on no line, which is reported as line 0.
    pub(crate) fn at(self, line: usize) -> RulesFault
        ensures { result ≡ fault_at line self }
    {
        match self {
            RulesCause::OutOfMemory => RulesFault {
                line: 0,
                cause: self,
            },
            _ => RulesFault { line, cause: self },
        }
    }
}

/// The line of a fault, as it is written: nothing of line 0.
#[derive(Clone, Copy)]
struct AtLine(usize);

impl fmt::Display for AtLine {
    fn fmt<W: fmt::Write>(&self, f: &mut fmt::Formatter<W>) -> fmt::Result {
        match self.0 {
            0 => Ok(()),
            line => write!(f, " at line {line}"),
        }
    }
}
