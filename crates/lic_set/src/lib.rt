//! Sets of templates, and what a match of one of them is.
#![tactic(auto)]

mod set;
mod triple;

pub use set::{BuildFault, MAX_TEMPLATES, Set};
pub use triple::Triple;
