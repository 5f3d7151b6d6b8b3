//! Where literals occur in bytes: each offset at which one ends, and a prefilter over many at once.
#![tactic(auto)]

mod counts;
mod ends;
mod flags;
mod grams;
mod groups;
mod hits;
mod kept;
pub mod laws;
mod prefilter;
mod tables;

pub use ends::ends_within;
pub use kept::Kept;
pub use prefilter::Prefilter;
