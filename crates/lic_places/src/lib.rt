//! Texts in canonical spelling by their places: which words spell what is between two places of a text; and the blanks at the edges of one.
#![tactic(auto)]

mod edges;
pub mod laws;

pub use edges::{Edges, edges_of};
