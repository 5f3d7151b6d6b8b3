//! Why a list of equivalent words is refused.

ghost use Rattle.std.specs.Prelude.{◌≡◌};
ghost use Rattle.lic_phrases.specs.declared.fault.WordsCause.TheVariants.{OutOfMemory};

use std::alloc::{AllocError, AllocFailed};
use std::fmt;
use thiserror::Error;

/// Why a list of equivalent words is refused.
#[derive(Clone, Copy, Debug, PartialEq, Eq)]
pub enum WordsCause {
    /// A phrase has no token.
    EmptyPhrase,
    /// There is a phrase number 4,097, repeats counted.
    TooManyPhrases,
    /// A phrase has more than 8 tokens, or more than 256 bytes in canonical spelling.
    PhraseTooLong,
    /// There was no memory.
    OutOfMemory,
}

impl WordsCause {
    fn code(self) -> &'static str {
        match self {
            WordsCause::EmptyPhrase => "Q1",
            WordsCause::TooManyPhrases => "Q2",
            WordsCause::PhraseTooLong => "Q3",
            WordsCause::OutOfMemory => "Q4",
        }
    }

    fn text(self) -> &'static str {
        match self {
            WordsCause::EmptyPhrase => "empty phrase",
            WordsCause::TooManyPhrases => "more than 4096 phrases",
            WordsCause::PhraseTooLong => "phrase too long",
            WordsCause::OutOfMemory => "out of memory",
        }
    }
}

impl From<AllocError> for WordsCause {
    ghost from_gives = { λ _ cause. cause ≡ OutOfMemory };

    fn from(_error: AllocError) -> WordsCause {
        WordsCause::OutOfMemory
    }
}

impl<T: Drop> From<AllocFailed<T>> for WordsCause {
    ghost from_gives = { λ _ cause. cause ≡ OutOfMemory };

    fn from(_error: AllocFailed<T>) -> WordsCause {
        WordsCause::OutOfMemory
    }
}

/// The first fault of a list of equivalent words.
#[derive(Clone, Copy, Debug, PartialEq, Eq, Error)]
#[error("{}{}: {}", .cause.code(), AtLine(*.line), .cause.text())]
pub struct WordsFault {
    /// The line of the phrase at fault, counted from 1; 0 for lack of memory.
    pub line: usize,
    pub cause: WordsCause,
}

impl From<AllocError> for WordsFault {
    ghost use Rattle.std.specs.Prelude.{◌≡◌};
    ghost use Rattle.lic_phrases.specs.WordLists.{out_of_memory};

    ghost from_gives = { λ _ fault. fault ≡ out_of_memory };

    fn from(error: AllocError) -> WordsFault {
        WordsCause::from(error).at(0)
    }
}

impl WordsCause {
    ghost use Rattle.lic_phrases.specs.WordLists.{fault_at};

    /// The fault on this line; lack of memory is on no line, which is reported as line 0.
    pub(crate) fn at(self, line: usize) -> WordsFault
        ensures { result ≡ fault_at line self }
    {
        match self {
            WordsCause::OutOfMemory => WordsFault {
                line: 0,
                cause: self,
            },
            _ => WordsFault { line, cause: self },
        }
    }
}

/// The line of a fault, as it is written: nothing of line 0.
#[derive(Clone, Copy)]
struct AtLine(usize);

impl fmt::Display for AtLine {
    fn fmt<W: fmt::Write>(&self, f: &mut fmt::Formatter<W>) -> fmt::Result {
        match self.0 {
            0 => Ok(()),
            line => write!(f, " at line {line}"),
        }
    }
}
