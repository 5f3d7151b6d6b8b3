//! Filters of matches: the tight ones, and the outer ones among these.
#![tactic(auto)]

mod filters;
pub mod laws;

pub use filters::{outer, outermost, tight};
