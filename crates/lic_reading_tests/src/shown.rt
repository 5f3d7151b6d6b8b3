//! Tokens as tests show them, and what is shown compared with what is wanted.

use crate::lists::Lists;
use lic_norm::{Text, TextFault};
use std::alloc::{AllocError, Global};
use std::fmt::Write;
use std::process::Abort;

/// Adds a token, as its text and its span.
pub fn add_token(
    shown: &mut String,
    text: &str,
    start: usize,
    end: usize,
) -> Result<(), AllocError> {
    write!(shown, "{text} {start}-{end}, ")
}

fn add_tokens(shown: &mut String, text: &Text) -> Result<(), AllocError> {
    for i in 0..text.len() {
        let token = text.token(i);
        add_token(shown, token.text, token.span.start, token.span.end)?;
    }
    Ok(())
}

/// The tokens of a text, each as its text and its span.
fn show_tokens(alloc: Global, text: &Text) -> Result<String, AllocError> {
    let mut shown = String::new(alloc);
    add_tokens(&mut shown, text)?;
    Ok(shown)
}

/// The tokens of a text, or why there is none.
pub fn shown(alloc: Global, text: Result<Text, TextFault>) -> Result<String, AllocError> {
    match text {
        Ok(text) => show_tokens(alloc, &text),
        Err(fault) => format!(in alloc; "{fault}"),
    }
}

/// The tokens of an input that is read at once, or why there is no text.
pub fn shown_whole(alloc: Global, input: &[u8], lists: &Lists) -> Result<String, AllocError> {
    let text = Text::read(alloc, input.to_vec(alloc)?, &lists.words, &lists.rules);
    shown(alloc, text)
}

/// Fails the test where the tokens of an input that is cut there are not those that are wanted.
pub fn assert_same(rt: &impl Abort, shown: &str, wanted: &str, input: &[u8], cut: usize) {
    assert_eq!(rt; shown, wanted, "{input:?} cut at {cut}");
}
