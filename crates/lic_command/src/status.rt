//! The statuses that the program ends with.

ghost use Rattle.std.specs.Prelude.{◌≡◌, ◌≤◌, ◌||◌, ℕ, List, Ok, IfOk, IsErr};
ghost use Rattle.lic_load.specs.Reporting.{IsReported};
ghost use Rattle.lic_command.specs.Statuses.{IsStatus, IsStatusOfCheck};
ghost use Rattle.lic_command.specs.Reporting.{line_of_stop};

use crate::faults::{Stop, report_stop};
use crate::files::Written;
use lic_engine::RunFault;
use lic_stream::Sink;
use std::alloc::Global;

/// What was asked for is so: a line was written, or no line says `no`.
pub const DONE: u8 = 0;

/// It is not so.
pub const NOT_SO: u8 = 1;

/// Something was refused, or could not be read or written.
pub const REFUSED: u8 = 2;

/// The status after all files, where a template may have been left out.
pub fn status_of(written: Written, is_left_out: bool) -> u8
    ensures status { IsStatus (written.is_refused || is_left_out) written.has_line result }
    ensures few { result ≤ 2 }
{
    if written.is_refused | is_left_out {
        REFUSED
    } else if written.has_line {
        DONE
    } else {
        NOT_SO
    }
}

/// The status after `check`, where a template may have been left out.
pub fn status_of_check(answer: Result<bool, RunFault>, is_left_out: bool) -> Result<u8, Stop>
    ensures status { IsStatusOfCheck answer is_left_out result }
    ensures few { IfOk result (λ status. status ≤ 2) }
{
    match answer {
        Ok(_) if is_left_out => Ok(REFUSED),
        Ok(true) => Ok(DONE),
        Ok(false) => Ok(NOT_SO),
        Err(RunFault::Write) => Err(Stop::Write),
        Err(fault) => Err(Stop::Check(fault)),
    }
}

/// The status that the program ends with. Where its work was not done, it is reported why.
pub fn status_at_end<E: Sink>(alloc: Global, err: &mut E, outcome: Result<u8, Stop>) -> u8
    ensures done { (status : _) → outcome ≡ Ok status → result ≡ status }
    ensures silent { (status : _) → outcome ≡ Ok status → err.new ≡ err.old }
    ensures stopped { IsErr outcome → result ≡ 2 }
    ensures few { IfOk outcome (λ status. status ≤ 2) → result ≤ 2 }
    ensures reported { IsErr outcome → (why : List ℕ)
        × IsReported (E.taken err.old) (E.taken err.new) (E.failed err.old) (E.failed err.new)
        (line_of_stop why) }
{
    match outcome {
        Ok(status) => status,
        Err(stop) => {
            report_stop(alloc, err, &stop);
            REFUSED
        }
    }
}
