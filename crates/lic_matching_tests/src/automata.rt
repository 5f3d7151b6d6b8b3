//! Tests of the automata: their rows, their trees, and what they say of tokens.
mod rows;
mod runs;
mod trees;
