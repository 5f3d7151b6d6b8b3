//! The walk over a text: where templates describe ranges of its tokens.
#![tactic(auto)]

mod ask;
mod finder;
pub mod laws;
mod matches;
mod reverse_scan;
mod starts;

pub use ask::Ask;
pub use finder::Finder;
pub use lic_auto::Triple;
pub use matches::is_match;
