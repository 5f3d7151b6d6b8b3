//! The machines over the templates of a set: which of them describe a list of tokens that comes token by token.
#![tactic(auto)]

mod back;
mod chosen;
mod compile;
mod direction;
pub mod laws;
mod run;
mod steps;
mod template_backs;
mod template_runs;

pub use back::Back;
pub use compile::compile_pattern;
pub use lic_set::{Set, Triple};
pub use run::Run;
