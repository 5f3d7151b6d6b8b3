//! The required literal of each template, which is in whatever it describes, and a prefilter by these literals.
#![tactic(auto)]

mod keys;
pub mod laws;
mod longest;
mod required_ends;

pub use keys::Keys;
/// A template that has no text with letters, or one whose longest text may occur in the bytes: the literal of its number.
pub use lic_literals::Kept as Candidate;
pub use required_ends::RequiredEnds;
