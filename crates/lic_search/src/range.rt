//! Ranges of tokens.

/// The tokens from the first to the last, both included, each by its number from 0.
#[derive(Clone, Copy, Debug, PartialEq, Eq)]
pub(crate) struct Range {
    pub(crate) first: usize,
    pub(crate) last: usize,
}
