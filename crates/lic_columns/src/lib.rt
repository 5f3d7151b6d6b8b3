//! A text in columns: what each of its bytes says, 64 bytes at a time.
#![tactic(auto)]

mod block;
mod columns;
mod edges;
mod flags;
pub mod laws;
mod lines;
mod marks;
mod mask;
mod offsets;
mod tokens;

pub use lines::Lines;
