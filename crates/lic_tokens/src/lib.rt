//! The tokens of a text: their list, and its spelling.
#![tactic(auto)]

mod entries;
mod token;
mod token_list;
mod token_slices;

pub use entries::SourceBytes;
pub use token::{Span, Token};
pub use token_list::{TokenList, utf8_text};
pub use token_slices::TokenSlices;
