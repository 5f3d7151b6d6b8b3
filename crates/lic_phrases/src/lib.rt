//! Lists of equivalent words, and the rewriting of a text's tokens by them.
#![tactic(auto)]

mod fault;
mod final_token;
pub mod laws;
mod phrases;
mod rewriter;
mod spelling;
mod tokens;
mod words;

pub use fault::{WordsCause, WordsFault};
pub use final_token::{FinalToken, TokenText};
pub use phrases::{MAX_TOKENS, Phrases};
pub use rewriter::Rewriter;
pub use spelling::{begins_in_word, ends_in_word};
pub use words::Words;
