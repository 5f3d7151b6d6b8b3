//! The engine: from a reader to a writer, the report of what was read, the lines of its tokens, and the check of templates.
#![tactic(auto)]

mod checking;
mod engine;
mod fault;
mod input;
mod memory;
mod outer;

pub use checking::check;
pub use engine::{run, run_tokens};
pub use fault::RunFault;
pub use memory::Memory;
