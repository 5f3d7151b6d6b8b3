//! Matches as bundles, and the triples of bundles in order.
#![tactic(auto)]

mod bundle;
mod triples;

pub use bundle::Bundle;
pub use triples::Triples;
