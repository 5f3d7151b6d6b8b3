//! A plain reader to compare with: one character after another, one line after another, and the rewriting of all its tokens.

use crate::shown::add_token;
use lic_kind::{Rules, is_dropped};
use lic_lines::{Buffers, FirstToken, push_tokens_of_line};
use lic_phrases::{FinalToken, Phrases, Rewriter, TokenText, Words};
use lic_trim::{LinePart, SourceChar};
use std::alloc::{AllocError, Global};
use std::str::from_utf8;

/// A line of a whole input.
const WHOLE_LINE: LinePart = LinePart {
    has_front: true,
    has_end: true,
    past: None,
};

/// The first of the characters of these bytes, if they are some.
fn first_character(bytes: &[u8]) -> Option<char> {
    match from_utf8(bytes) {
        Ok(text) => text.chars().next(),
        Err(_) => None,
    }
}

/// The character that begins at this byte, and how many bytes it has: U+FFFD for a byte at which none begins.
fn character_at(bytes: &[u8], at: usize) -> (char, usize) {
    for length in 1..5usize {
        let front = bytes.get(at..at.saturating_add(length)).unwrap_or(b"");
        if let Some(char) = first_character(front) {
            return (char, length);
        }
    }
    (char::REPLACEMENT_CHARACTER, 1)
}

/// The number of a byte, as spans have it.
fn byte_number(offset: usize) -> u32 {
    u32::try_from(offset).unwrap_or(u32::MAX)
}

/// Adds a character that begins and ends at these bytes, unless it is dropped.
fn add_character(
    characters: &mut Vec<SourceChar>,
    char: char,
    start: usize,
    end: usize,
) -> Result<(), AllocError> {
    if is_dropped(char) {
        return Ok(());
    }
    let (start, end) = (byte_number(start), byte_number(end));
    Ok(characters.push(SourceChar { char, start, end })?)
}

/// Adds the source characters of a line that begins at this byte of the input, without the dropped ones.
fn add_characters(
    characters: &mut Vec<SourceChar>,
    at: usize,
    line: &[u8],
) -> Result<(), AllocError> {
    let mut next = 0;
    for offset in 0..line.len() {
        if offset < next {
            continue;
        }
        let (char, length) = character_at(line, offset);
        next = offset.saturating_add(length);
        let (start, end) = (at.saturating_add(offset), at.saturating_add(next));
        add_character(characters, char, start, end)?;
    }
    Ok(())
}

/// Adds the first tokens of a line that begins at this byte of the input.
fn add_line(
    alloc: Global,
    rules: &Rules,
    at: usize,
    line: &[u8],
    tokens: &mut Vec<FirstToken>,
) -> Result<(), AllocError> {
    let mut characters = Vec::new(alloc);
    add_characters(&mut characters, at, line)?;
    let mut buffers = Buffers::new(alloc);
    push_tokens_of_line(alloc, rules, WHOLE_LINE, &characters, &mut buffers, tokens)
}

/// Adds the first tokens of an input.
fn add_lines(
    alloc: Global,
    rules: &Rules,
    input: &[u8],
    tokens: &mut Vec<FirstToken>,
) -> Result<(), AllocError> {
    let mut start = 0;
    for (offset, byte) in input.iter().enumerate() {
        let end = offset.saturating_add(1);
        if *byte == b'\n' || end == input.len() {
            let line = input.get(start..end).unwrap_or(b"");
            add_line(alloc, rules, start, line, tokens)?;
            start = end;
        }
    }
    Ok(())
}

/// Puts the tokens that come of first tokens by the rewriting where the caller says.
fn rewrite(
    rewriter: &mut Rewriter,
    phrases: &Phrases,
    tokens: Vec<FirstToken>,
    settled: &mut Vec<FinalToken>,
) -> Result<(), AllocError> {
    for token in tokens {
        rewriter.push(phrases, token, settled)?;
    }
    Ok(())
}

/// The tokens that come of first tokens by the rewriting.
fn rewritten(
    alloc: Global,
    phrases: &Phrases,
    tokens: Vec<FirstToken>,
) -> Result<Vec<FinalToken>, AllocError> {
    let mut rewriter = Rewriter::new(alloc);
    let mut settled = Vec::new(alloc);
    rewrite(&mut rewriter, phrases, tokens, &mut settled)?;
    rewriter.finish(phrases, &mut settled)?;
    Ok(settled)
}

/// The text of a token.
fn text_of<'a>(phrases: &'a Phrases, token: &'a FinalToken) -> &'a str {
    match &token.text {
        TokenText::Own(text) => text.as_str(),
        TokenText::Class(class) => match phrases.spellings().get(*class) {
            Some(spelling) => spelling.as_str(),
            None => "",
        },
    }
}

/// The tokens, each as its text and its span.
fn show_finals(
    alloc: Global,
    phrases: &Phrases,
    tokens: &[FinalToken],
) -> Result<String, AllocError> {
    let mut shown = String::new(alloc);
    for token in tokens {
        let text = text_of(phrases, token);
        add_token(&mut shown, text, token.start as usize, token.end as usize)?;
    }
    Ok(shown)
}

/// The tokens of an input, each as its text and its span.
pub(crate) fn read_plainly(
    alloc: Global,
    input: &[u8],
    words: &Words,
    rules: &Rules,
) -> Result<String, AllocError> {
    let mut tokens = Vec::new(alloc);
    add_lines(alloc, rules, input, &mut tokens)?;
    let tokens = rewritten(alloc, words.phrases(), tokens)?;
    show_finals(alloc, words.phrases(), &tokens)
}
