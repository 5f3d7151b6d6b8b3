//! From first tokens to the tokens of the rewriting, which are added to a list.
#![tactic(auto)]

mod rewriting;
mod section;
mod word_bytes;

pub use rewriting::batch::Batch;
pub use rewriting::{PartBuffers, Rewriting};
pub use section::Section;
