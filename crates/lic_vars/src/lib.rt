//! The values of the variables of a match, by the sets of places from which the last parts of a template can finish.
#![tactic(auto)]

mod cut;
mod instructions;
mod keep;
pub mod laws;
mod letters;
mod search;
mod sets;
mod values;
mod variable;

pub use values::{Assigner, Value, assign};
