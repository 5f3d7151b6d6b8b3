//! Extended regular expressions: a profile of POSIX.1-2017, XBD 9.4, read into trees.
#![tactic(auto)]

mod class;
mod ere;
mod fault;
pub mod laws;
mod letters;
mod level;
mod lexeme;
mod reader;
mod reading;
mod remaining;

pub use class::Class;
pub use ere::Ere;
pub use fault::{EreCause, EreFault};
pub use reading::read;
