//! Templates, sets and texts by the rules of the profile.

use lic_kind::Rules;
use lic_markup::read_template;
use lic_norm::{Text, Words};
use lic_set::Set;
use std::alloc::Global;
use std::test::Fail;

/// What templates and texts are read by.
#[derive(Drop)]
pub struct Profile {
    rules: Rules,
    words: Words,
}

impl Profile {
    /// The rules of the profile, with these equivalent words in texts.
    pub fn new(alloc: Global, list: &str) -> Result<Profile, Fail> {
        Ok(Profile {
            rules: Rules::profile(alloc),
            words: Words::read(alloc, list)?,
        })
    }

    /// A set of templates, at most ten, which are numbered in this order; none if one of them is refused.
    pub fn set(&self, alloc: Global, texts: &[&str]) -> Result<Option<Set>, Fail> {
        let none = Words::none(alloc);
        let mut templates = Vec::new(alloc);
        for (k, text) in texts.iter().enumerate() {
            let Ok(template) = read_template(alloc, text, &none, &self.rules) else {
                return Ok(None);
            };
            templates.push((format!(in alloc; "{k}")?, template))?;
        }
        Ok(Some(Set::build(alloc, templates)?))
    }

    /// A text.
    pub fn text(&self, alloc: Global, source: &str) -> Result<Text, Fail> {
        let source = source.as_bytes().to_vec(alloc)?;
        Ok(Text::read(alloc, source, &self.words, &self.rules)?)
    }
}
