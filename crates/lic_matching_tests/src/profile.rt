//! Templates, sets and texts by the rules of the profile, with no equivalent words.

use lic_kind::Rules;
use lic_markup::{MarkupFault, Template, read_template};
use lic_norm::{Text, TextFault, Words};
use lic_set::Set;
use std::alloc::Global;
use std::test::Fail;

pub fn template_of(alloc: Global, text: &str) -> Result<Template, MarkupFault> {
    read_template(alloc, text, &Words::none(alloc), &Rules::profile(alloc))
}

/// A template of this text under its number.
fn numbered(alloc: Global, number: usize, text: &str) -> Result<(String, Template), Fail> {
    let template = template_of(alloc, text)?;
    Ok((format!(in alloc; "{number}")?, template))
}

/// Adds templates, which are numbered in this order.
fn add_numbered(
    alloc: Global,
    templates: &mut Vec<(String, Template)>,
    texts: &[&str],
) -> Result<(), Fail> {
    for (k, text) in texts.iter().enumerate() {
        templates.push(numbered(alloc, k, text)?)?;
    }
    Ok(())
}

/// A set of templates, at most ten, which are numbered in this order.
pub fn set_of(alloc: Global, texts: &[&str]) -> Result<Set, Fail> {
    let mut templates = Vec::new(alloc);
    add_numbered(alloc, &mut templates, texts)?;
    Ok(Set::build(alloc, templates)?)
}

/// A text, or why there is none.
fn read(alloc: Global, source: Vec<u8>) -> Result<Text, TextFault> {
    let (words, rules) = (Words::none(alloc), Rules::profile(alloc));
    Text::read(alloc, source, &words, &rules)
}

pub fn text_of(alloc: Global, source: &str) -> Result<Text, Fail> {
    let source = source.as_bytes().to_vec(alloc)?;
    Ok(read(alloc, source)?)
}
