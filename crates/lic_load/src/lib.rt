//! What is loaded before any input is read: the line rules, the list of equivalent words, and the folder of the templates.
#![tactic(auto)]

mod fault;
mod file;
mod rules;
mod templates;
mod word_list;

pub use fault::{FileFault, LoadFault, tell, wants_memory};
pub use rules::load_rules;
pub use templates::{Listing, Loaded, list_templates, load_all};
pub use word_list::load_words;
