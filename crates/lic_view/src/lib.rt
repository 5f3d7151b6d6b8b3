//! A text by its places, sets of them, and going back over the texts of templates.
#![tactic(auto)]

mod last_letter;
mod over;
mod sets;
mod view;

pub use over::blanks::over_blanks;
pub use over::texts::over_text;
pub use sets::fresh::fresh_spans;
pub use sets::joined::push_joined;
pub use sets::keep::Keep;
pub use sets::kept::kept;
pub use sets::merged::merged;
pub use sets::places::{has_place, place_of};
pub use sets::same::are_same;
pub use sets::singles::{end_of, single};
pub use sets::stop::Stop;
pub use sets::wide::{first_from, stretches_of};
pub use view::{View, tokens_have_texts};
