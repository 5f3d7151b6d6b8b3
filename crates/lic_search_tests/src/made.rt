//! Random templates and texts.

use crate::seed::Seed;
use std::alloc::{AllocError, Global};

/// Pieces of templates.
const PIECES: &[&str] = &[
    "a", "b", "ab", " a ", " b ", " ab", "a b ", "-", " - ", ".", ". ", " (", ") ", "(a) ", " b.a",
    " ",
];

/// Patterns of variables.
const PATTERNS: &[&str] = &[
    ".+",
    ".*",
    ".{0,3}",
    ".{0,5}",
    ".{2,4}",
    ".{3,80}",
    "[ab]+",
    "[a-z]{2}",
    "[^a]*",
    "[a-z]+( b [a-z]+)?",
    "(a|b){2,3}",
    "(a|ab)( b)*",
    "((a*)*)*",
    "(a|b a|)",
    "(a ?b?|[.(])+",
    "a?b?",
    "[ab ]{2,6}",
    "(.a){0,2}",
];

/// What texts are made of.
const TOKENS: &[&str] = &["a", "b", "ab", "a", "b", "ba", "-", ".", "(", ")"];

/// What is between two of these.
const GAPS: &[&str] = &[" ", " ", " ", "", "  ", "\n"];

/// Adds a piece, a variable, or where an optional part begins or ends. Gives how many parts are open then.
fn add_element(seed: &mut Seed, open: u64, text: &mut String) -> Result<u64, AllocError> {
    match seed.below(12) {
        0..=6 => text.push_str(seed.pick(PIECES))?,
        7..=9 => {
            text.push_str("<<var;name=v;original=o;match=")?;
            text.push_str(seed.pick(PATTERNS))?;
            text.push_str(">>")?;
        }
        10 => {
            text.push_str("<<beginOptional>>")?;
            return Ok(open.saturating_add(1));
        }
        _ => {
            if open > 0 {
                text.push_str("<<endOptional>>")?;
            }
            return Ok(open.saturating_sub(1));
        }
    }
    Ok(open)
}

/// The text of a template, or one that is refused.
pub fn template(alloc: Global, seed: &mut Seed) -> Result<String, AllocError> {
    let mut text = String::new(alloc);
    let mut open = 0;
    for _ in 0..seed.below(6).saturating_add(2) {
        open = add_element(seed, open, &mut text)?;
    }
    for _ in 0..open {
        text.push_str("<<endOptional>>")?;
    }
    Ok(text)
}

/// A text of `count` words and marks, which are as many tokens or some fewer.
pub fn source(alloc: Global, seed: &mut Seed, count: u64) -> Result<String, AllocError> {
    let mut text = String::new(alloc);
    for _ in 0..count {
        text.push_str(seed.pick(TOKENS))?;
        text.push_str(seed.pick(GAPS))?;
    }
    Ok(text)
}
