//! A match as three numbers: its template, its first token and its last.

/// A match: its first and last token, and the number of its template, each from 0.
///
/// The order is by first token, then last token, then template.
#[derive(Clone, Copy, Debug, PartialEq, Eq, PartialOrd, Ord)]
pub struct Triple {
    pub first: usize,
    pub last: usize,
    pub template: usize,
}
