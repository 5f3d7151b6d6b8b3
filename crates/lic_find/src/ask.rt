//! What is asked of a scan.

use lic_auto::Triple;

/// What is asked of a scan.
#[derive(Clone, Copy, Debug, PartialEq, Eq)]
pub struct Ask {
    /// All matches; without it the outer ones, each with the values of its variables.
    pub all: bool,
    /// Of all matches only those that come after a triple, which need be no match.
    pub after: Option<Triple>,
    /// The greatest number of matches that are given.
    pub limit: Option<u64>,
}
