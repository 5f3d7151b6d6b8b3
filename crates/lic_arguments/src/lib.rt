//! The command line: what it may hold, and what is asked for by it.
#![tactic(auto)]

mod after;
mod arguments;
mod command_line;
mod fault;

pub use after::{After, Given};
pub use arguments::{CheckArguments, ScanArguments, TokensArguments, ask_of};
pub use command_line::{VERSION, parse};
pub use fault::ArgumentFault;
