//! Why the line rules, the list of equivalent words or the templates cannot be loaded.

ghost use Rattle.std.specs.Prelude.{◌≡◌, ◌↔◌, IsTrue};
ghost use Rattle.std.specs.IoError.{error_kind};
ghost use Rattle.lic_load.specs.Reporting.{IsReported};
ghost use Rattle.lic_load.specs.declared.fault.LoadFault.TheVariants.{Memory};

use lic_kind::RulesFault;
use lic_norm::WordsFault;
use lic_set::BuildFault;
use lic_stream::{Sink, put_all};
use std::alloc::{AllocError, AllocFailed};
use std::fmt::Display;
use std::io;
use std::io::ErrorKind;
use thiserror::Error;

/// Why a file that an option names is refused: a file of line rules, or a list of equivalent words.
#[derive(Clone, Copy, Debug, PartialEq, Eq, Error)]
#[error_bound(F: Display)]
pub enum FileFault<F> {
    /// The file cannot be opened or read, or has more than 67,108,864 bytes.
    #[error("cannot be read")]
    Unreadable,
    /// `at` is the length in bytes of the longest prefix that is UTF-8.
    #[error("not UTF-8 at byte {at}")]
    NotUtf8 { at: usize },
    #[error("{0}")]
    Refused(F),
}

/// Why nothing can be scanned.
#[derive(Debug, Drop, Error)]
pub enum LoadFault {
    #[error("rules: {0}")]
    Rules(FileFault<RulesFault>),
    #[error("words: {0}")]
    Words(FileFault<WordsFault>),
    #[error("templates: cannot be listed")]
    Listing,
    #[error("templates: {0}")]
    Set(BuildFault),
    #[error("out of memory")]
    Memory,
}

impl<T: Drop> From<AllocFailed<T>> for LoadFault {
    ghost from_gives = { λ _ fault. fault ≡ Memory };

    fn from(_error: AllocFailed<T>) -> LoadFault {
        LoadFault::Memory
    }
}

impl From<AllocError> for LoadFault {
    ghost from_gives = { λ _ fault. fault ≡ Memory };

    fn from(_error: AllocError) -> LoadFault {
        LoadFault::Memory
    }
}

/// Whether a call of the system failed because memory ran out.
pub fn wants_memory(error: &io::Error) -> bool
    ensures { IsTrue result ↔ (error_kind error.now ≡ ErrorKind.OutOfMemory) }
{
    error.kind() == ErrorKind::OutOfMemory
}

/// Writes to standard error. A failure there can be reported nowhere.
pub fn tell<E: Sink>(err: &mut E, text: &str)
    ensures { IsReported (E.taken err.old) (E.taken err.new) (E.failed err.old) (E.failed err.new) text.now }
{
    let _ = put_all(err, text.as_bytes());
}
