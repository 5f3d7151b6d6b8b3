//! Words over letters and blanks, the expressions that have sets of them, and the words that
//! spell a list of tokens: definitions and their laws, read from either end; and the letters of a token one by one.
#![tactic(auto)]

pub mod laws;
mod letters;
mod reversed_letters;

pub use letters::{Letter, Letters};
pub use reversed_letters::ReversedLetters;
