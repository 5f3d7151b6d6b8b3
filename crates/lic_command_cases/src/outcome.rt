//! What comes of a run.

use std::fmt;

/// The status of a run, and all that it wrote.
#[derive(Debug, PartialEq, Eq, Drop)]
pub struct Outcome {
    pub status: u8,
    pub output: Vec<u8>,
    pub errors: Vec<u8>,
}

impl fmt::Display for Outcome {
    fn fmt<W: fmt::Write>(&self, f: &mut fmt::Formatter<W>) -> fmt::Result {
        let output = std::str::from_utf8(self.output.as_slice()).unwrap_or("(not UTF-8)");
        let errors = std::str::from_utf8(self.errors.as_slice()).unwrap_or("(not UTF-8)");
        write!(f, "status {}, {output:?}, {errors:?}", self.status)
    }
}
