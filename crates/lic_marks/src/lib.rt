//! Position automata (Glushkov's) of expressions. A compiled expression has one position for each letter that it is written
//! with; a row of bits says which positions are active, those that the letters read so far can end at. `State` reads letters and
//! gaps with two such rows, `AnchoredMatcher` a list of tokens from its beginning, `UnanchoredMatcher` one that may begin at each token.
//!
//! In clauses the active positions are the marks of the expression (specs/Marks.antt).
#![tactic(auto)]

mod anchored;
mod build;
pub mod laws;
mod leave;
mod moves;
mod node;
mod rows;
mod shift;
mod state;
mod test;
mod unanchored;

pub use anchored::AnchoredMatcher;
pub use build::{alt, cat, copies, is_nullable, letters, one, plus, repeat, tidy, up_to};
pub use node::{Node, Times};
pub use state::State;
pub use test::Test;
pub use unanchored::UnanchoredMatcher;
