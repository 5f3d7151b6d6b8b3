//! Where templates describe ranges of a text: sets of places go back over the parts of a template, from the last part to the first.
#![tactic(auto)]

mod all;
mod backward;
mod bundles;
mod copies;
mod ends;
mod last_text;
mod matches;
mod range;
mod reach;
mod search;
mod tight;

pub use all::{BundledMatches, all_matches};
pub use tight::tight_matches;
