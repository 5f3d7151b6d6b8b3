//! Going back over a blank, letters, a text.

pub(crate) mod blanks;
pub(crate) mod letters;
pub(crate) mod texts;
