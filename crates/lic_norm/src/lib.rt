//! From bytes to tokens, each with the bytes that it was made from.
#![tactic(auto)]

mod fault;
mod feeder;
pub mod laws;
mod reader;
mod refusal;
mod text;
mod words;

pub use fault::{FeedFault, TextFault};
pub use feeder::{Feeder, read_pieces};
pub use lic_rewriting::Rewriting;
pub use lic_tokens::{Span, Token, TokenList, TokenSlices, utf8_text};
pub use reader::line_tokens::{LineBuffers, take_ascii, take_part};
pub use reader::lines::{line_end, lines_end, text_line_end};
pub use refusal::MAX_BYTES;
pub use text::Text;
pub use words::{Words, WordsCause, WordsFault};
