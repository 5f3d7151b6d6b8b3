//! Why the program ends before its work is done, and how it reports that.

ghost use Rattle.std.specs.Prelude.{◌≡◌, ℕ, List, IfOk, string_bytes};
ghost use Rattle.lic_load.specs.Reporting.{IsReported};
ghost use Rattle.lic_command.specs.Reporting.{line_of_stop};
ghost use Rattle.lic_command.specs.declared.faults.Stop.TheVariants.{Arguments, Load, Memory};

use lic_arguments::ArgumentFault;
use lic_engine::RunFault;
use lic_load::{LoadFault, tell};
use lic_stream::Sink;
use std::alloc::{AllocError, AllocFailed, Global};
use thiserror::Error;

/// Why the program ends.
#[derive(Debug, Drop, Error)]
pub enum Stop {
    #[error("{0}")]
    Arguments(ArgumentFault),
    #[error("{0}")]
    Load(LoadFault),
    #[error("check: {0}")]
    Check(RunFault),
    #[error("standard output: cannot be written")]
    Write,
    #[error("out of memory")]
    Memory,
}

impl From<ArgumentFault> for Stop {
    ghost from_gives = { λ fault stop. stop ≡ Arguments fault };

    fn from(fault: ArgumentFault) -> Stop {
        Stop::Arguments(fault)
    }
}

impl From<LoadFault> for Stop {
    ghost from_gives = { λ fault stop. stop ≡ Load fault };

    fn from(fault: LoadFault) -> Stop {
        Stop::Load(fault)
    }
}

impl<T: Drop> From<AllocFailed<T>> for Stop {
    ghost from_gives = { λ _ stop. stop ≡ Memory };

    fn from(_error: AllocFailed<T>) -> Stop {
        Stop::Memory
    }
}

impl From<AllocError> for Stop {
    ghost from_gives = { λ _ stop. stop ≡ Memory };

    fn from(_error: AllocError) -> Stop {
        Stop::Memory
    }
}

/// The line about why the program ends.
fn line_of(alloc: Global, stop: &Stop) -> Result<String, AllocError>
    ensures { IfOk result (λ line. (why : List ℕ) × (string_bytes line ≡ line_of_stop why)) }
{
    let why = stop.to_string(alloc)?;
    format!(in alloc; "licscan: {why}\n")
}

/// Reports why the program ends.
pub fn report_stop<E: Sink>(alloc: Global, err: &mut E, stop: &Stop)
    ensures { (why : List ℕ)
        × IsReported (E.taken err.old) (E.taken err.new) (E.failed err.old) (E.failed err.new)
        (line_of_stop why) }
{
    match line_of(alloc, stop) {
        Ok(line) => tell(err, line.as_str()),
        Err(_) => tell(err, "licscan: out of memory\n"),
    }
}
