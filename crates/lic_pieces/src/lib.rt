//! The letters of a piece of a template's text.
#![tactic(auto)]

mod cell_edges;
mod piece_reader;
mod pieces;

pub use piece_reader::PieceBuffers;
pub use pieces::{Next, piece};
