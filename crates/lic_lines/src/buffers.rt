//! Buffers for the work on a line.

use crate::cell::Cell;
use crate::streaks::Streaks;
use std::alloc::Global;

/// Buffers for the work on a line, reused from line to line. What they hold has no effect.
#[derive(Drop)]
pub struct Buffers {
    /// The cells of a sequence of marks.
    pub(crate) cells: Vec<Cell>,
    pub(crate) streaks: Streaks,
    /// The letters of a token.
    pub(crate) letters: String,
}

impl Buffers {
    /// Empty buffers, which take no memory yet.
    pub fn new(alloc: Global) -> Buffers {
        Buffers {
            cells: Vec::new(alloc),
            streaks: Streaks::new(alloc),
            letters: String::new(alloc),
        }
    }
}
