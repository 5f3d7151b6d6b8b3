//! Sets of places of a text, as spans with the last token of a match, and the least last token of each place.
#![tactic(auto)]

mod each;
mod join;
mod least;
mod span;
mod sweep;

pub use each::with_each_last;
pub use least::with_least_last;
pub use span::{PlaceSpan, SpanKind};
