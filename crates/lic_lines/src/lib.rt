//! From the source characters of one line to its first tokens: streaks of marks in what the line rules
//! leave, tokens with their letters, and single copyright signs.
#![tactic(auto)]

mod buffers;
mod cell;
mod line;
mod mark_sequences;
mod signs;
mod small_string;
mod streaks;
mod text;
mod text_start;
mod tokens;

pub use buffers::Buffers;
pub use cell::Cell;
pub use lic_kind::Rules;
pub use line::{cells_of_line, left_of_line, push_tokens_of_line};
pub use small_string::SmallString;
pub use text::{FrontPart, front_part};
pub use text_start::{TextStart, start_of_text};
pub use tokens::FirstToken;
