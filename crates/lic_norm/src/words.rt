//! Lists of equivalent words.

pub use lic_phrases::{Words, WordsCause, WordsFault};
