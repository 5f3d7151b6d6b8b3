//! What a report is: the matches that are asked for, and the lines that are written about them.
#![tactic(auto)]

mod all_matches;
mod assigners;
pub mod laws;
mod lines;
mod match_lines;
mod outer;
mod token_lines;
mod valued_lines;
mod wanted;

pub use all_matches::AllMatches;
pub use assigners::Assigners;
pub use lines::{add_checked, add_value};
pub use match_lines::MatchLines;
pub use outer::outer_matches;
pub use token_lines::TokenLines;
pub use valued_lines::ValuedLines;
pub use wanted::Wanted;
