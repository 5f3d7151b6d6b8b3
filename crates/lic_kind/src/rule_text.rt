//! A text of a rules file.
ghost use Rattle.std.specs.Prelude.{◌≡◌, IfOk, string_bytes};
ghost use Rattle.std.specs.Str.{chars};

use std::alloc::{AllocError, Global};

/// A text, as a string and as its characters.
#[derive(Drop)]
pub(crate) struct RuleText {
    pub(crate) string: String,
    pub(crate) characters: Vec<char>,
    ghost same: { chars (string_bytes string) ≡ characters.items },
}

impl RuleText {
    pub(crate) fn new(alloc: Global, text: &str) -> Result<RuleText, AllocError>
        ensures { IfOk result (λ t. t.characters.items ≡ chars text.now) }
    {
        Ok(RuleText {
            string: String::from_str(alloc, text)?,
            characters: text.chars().collect(alloc)?,
        })
    }
}
