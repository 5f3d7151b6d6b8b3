//! The letters of text beyond ASCII, byte for byte.
#![tactic(auto)]

mod edges;
mod plain;
mod wide;

pub use plain::spell_lines;
