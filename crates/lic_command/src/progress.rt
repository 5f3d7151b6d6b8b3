//! How far the work on many files has come, for whoever waits at a terminal.

ghost use Rattle.std.specs.Prelude.{◌≡◌, ◌<◌, ◌≤◌, ◌∷◌, []};
ghost use Rattle.lic_load.specs.Reporting.{IsReported};

use lic_load::tell;
use lic_stream::Sink;
use std::alloc::Global;

/// To the start of the line, and clears it.
const CLEAR: &str = "\r\x1b[K";

/// With fewer files nothing is shown.
const MANY: usize = 20;

/// How often something is shown, at most, whatever the number of files.
const TIMES: usize = 200;

/// Whether a line on standard error says how far the work is. It is gone at the end.
#[derive(Clone, Copy, Debug, PartialEq, Eq)]
pub enum Progress {
    Hidden,
    Shown,
}

impl Progress {
    /// Says how many files are done of how many, in place of what was said before. Where memory is lacking, nothing is said.
    pub fn show<E: Sink>(self, alloc: Global, err: &mut E, done: usize, all: usize)
        ensures hidden { self ≡ Progress.Hidden → err.new ≡ err.old }
        ensures few { all < 20 → err.new ≡ err.old }
    {
        if self == Progress::Hidden || all < MANY || done % (all / TIMES + 1) != 0 {
            return;
        }
        if let Ok(line) = format!(in alloc; "{CLEAR}{done} of {all} files") {
            tell(err, line.as_str());
        }
    }

    /// Takes away what was said.
    pub fn clear<E: Sink>(self, err: &mut E, all: usize)
        ensures hidden { self ≡ Progress.Hidden → err.new ≡ err.old }
        ensures few { all < 20 → err.new ≡ err.old }
        // A carriage return, and what clears the line from there on.
        ensures shown { self ≡ Progress.Shown → 20 ≤ all
            → IsReported (E.taken err.old) (E.taken err.new) (E.failed err.old) (E.failed err.new)
            (0x0D ∷ 0x1B ∷ 0x5B ∷ 0x4B ∷ []) }
    {
        if self == Progress::Shown && all >= MANY {
            tell(err, CLEAR);
        }
    }
}
