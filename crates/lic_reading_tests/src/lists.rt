//! What inputs are read by.

use lic_kind::Rules;
use lic_norm::{Words, WordsFault};
use std::alloc::Global;

/// A list of equivalent words, and rules.
#[derive(Drop)]
pub struct Lists {
    pub words: Words,
    pub rules: Rules,
}

/// The words of this list, and these rules.
pub fn lists_of(alloc: Global, words: &str, rules: Rules) -> Result<Lists, WordsFault> {
    let words = Words::read(alloc, words)?;
    Ok(Lists { words, rules })
}

/// Two equivalent words, and the rules of the profile.
pub fn two_words(alloc: Global) -> Result<Lists, WordsFault> {
    lists_of(alloc, "sub-license,sub license\n", Rules::profile(alloc))
}

/// No words, and the rules of the profile.
pub fn no_words(alloc: Global) -> Lists {
    Lists {
        words: Words::none(alloc),
        rules: Rules::profile(alloc),
    }
}
