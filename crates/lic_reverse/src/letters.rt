//! Going back over letters that pass a test, and sequences of them.

pub(crate) mod counts;
pub(crate) mod passing;
pub(crate) mod streak;
pub(crate) mod streaks;
