//! Template markup: the templates of SPDX 2.3, Annex B, in this project's profile, read into parts.
#![tactic(auto)]

pub mod laws;
mod lines;
mod part;
mod reader;
mod reading;
mod weights;

pub use lic_elements::{MarkupCause, MarkupFault};
pub use part::{Part, Template};
pub use reading::read_template;
