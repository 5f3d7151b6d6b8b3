//! Going back over the patterns of variables: from the places where their words end to those where they begin.
#![tactic(auto)]

mod empty;
mod letters;
mod patterns;
mod reverse;
mod text_copies;
mod variable;
mod ways;

pub use empty::has_empty_word_alone;
pub use reverse::{either, have_place, over_text, over_variable};
pub use text_copies::over_copies;
pub use variable::over_value;
