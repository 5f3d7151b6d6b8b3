//! What the line rules take from a line: its lead, a list item and its tail.
#![tactic(auto)]

mod ascii_cut;
mod ascii_sequences;
mod ascii_texts;
mod cut;
mod item;
pub mod laws;
mod line_part;
mod plain_edges;
mod sequences;
mod side;
mod source;
mod space_sequences;

pub use ascii_cut::{AsciiCut, cut_of_ascii, cut_with_spaces, takes_spaces};
pub use cut::{LineCut, cut_line};
pub use line_part::LinePart;
pub use plain_edges::keeps_all;
pub use source::{SourceChar, unplaced};
