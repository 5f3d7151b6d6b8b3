//! A template's text cut into its elements: pieces of plain text, and the rules of the markup.
#![tactic(auto)]

mod elements;
mod fault;
pub mod laws;
mod piece;
mod rule;
mod texts;

pub use elements::{Element, pieces_and_rules};
pub use fault::{MarkupCause, MarkupFault};
pub use piece::Piece;
pub use rule::Rule;
