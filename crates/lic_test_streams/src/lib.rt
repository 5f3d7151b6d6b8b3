//! A reader and a writer for tests, which take no memory.
#![tactic(auto)]

mod streams;

pub use streams::{Awaited, Pieces};
