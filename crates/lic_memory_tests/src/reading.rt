//! What is read: a list, rules, a pattern, a piece of text, the spelling of a character, and an input in two pieces.

use crate::lent::{Lists, profile};
use crate::refused::{Refused, retried};
use lic_ere::Ere;
use lic_kind::{Rules, spell};
use lic_norm::{Feeder, Text, TextFault, Words};
use lic_pieces::{Next, PieceBuffers, piece};
use std::alloc::Global;
use std::process::Abort;

/// Whether a pattern is read as two alternatives.
fn reads_pattern(alloc: Global) -> Result<bool, Refused> {
    let pattern = lic_ere::read(alloc, "[a-c]x{2,3}|(y|[^z])*").map_err(Refused::Pattern)?;
    Ok(matches!(&pattern, Ere::Alt(children) if children.len() == 2))
}

/// Whether a character is spelled as two letters.
fn spells_letters(alloc: Global) -> Result<bool, Refused> {
    Ok(spell(alloc, '\u{DF}')?.as_slice() == ['s', 's'].as_slice())
}

/// A list of equivalent words and rules; made again if memory runs out.
fn lists_read(rt: &impl Abort, alloc: Global, list: &str, lines: &str) -> Lists {
    let words = retried(rt, || Words::read(alloc, list).map_err(Refused::Words));
    let rules = retried(rt, || Rules::read(alloc, lines).map_err(Refused::Rules));
    Lists { words, rules }
}

/// The letters of a piece at the end of a line.
fn letters_of(alloc: Global, text: &str, lists: &Lists) -> Result<String, Refused> {
    let mut buffers = PieceBuffers::new(alloc);
    let next = Next::LineEnd;
    let (words, rules) = (&lists.words, &lists.rules);
    Ok(piece(alloc, text, true, next, words, rules, &mut buffers)?)
}

/// Those letters; made again if memory runs out.
fn letters_read(rt: &impl Abort, alloc: Global, text: &str, lists: &Lists) -> String {
    retried(rt, || letters_of(alloc, text, lists))
}

/// Whether a pattern and a character are read rightly; made again if memory runs out.
fn are_read(rt: &impl Abort, alloc: Global) -> bool {
    let is_pattern = retried(rt, || reads_pattern(alloc));
    let are_letters = retried(rt, || spells_letters(alloc));
    is_pattern & are_letters
}

#[test]
fn texts_are_read_when_there_is_memory(rt: HostRuntime) {
    let list = "colour, color\nper cent,percent\n";
    let lists = lists_read(&rt, rt.alloc(), list, "lead @@\nitems off\n");
    let letters = letters_read(&rt, rt.alloc(), "@@ 1. The Color\n of percent", &lists);
    assert_eq!(rt; letters.as_str(), " 1.the colour of per cent");
    assert!(rt; are_read(&rt, rt.alloc()));
}

/// The text of an input that is fed in two pieces. Once memory has run out, each call says so;
/// nothing where one does not.
fn fed(alloc: Global, input: &[u8], cut: usize, lists: &Lists) -> Result<Option<Text>, Refused> {
    let (front, rest) = input.split_at(cut.min(input.len()));
    let mut feeder = Feeder::new(alloc, &lists.words, &lists.rules);
    let is_fed = feeder.feed(front).is_ok() && feeder.feed(rest).is_ok();
    let stays = is_fed || (feeder.ready() == 0 && feeder.feed(b"a") == Err(TextFault::Memory));
    match feeder.finish() {
        Ok(_) if !is_fed => Ok(None),
        Ok(text) => Ok(Some(text)),
        Err(_) if !stays => Ok(None),
        Err(fault) => Err(Refused::Text(fault)),
    }
}

/// Tokens, each with the byte at which it begins.
type Tokens<'a> = &'a [(&'a str, usize)];

/// Whether a token has these letters and begins at this byte.
fn is_token(text: &Text, k: usize, letters: &str, start: usize) -> bool {
    if k >= text.len() {
        return false;
    }
    let token = text.token(k);
    token.text == letters && token.span.start == start
}

/// Whether a text has these tokens.
fn has_tokens(text: &Text, tokens: Tokens<'_>) -> bool {
    for (k, (letters, start)) in tokens.iter().enumerate() {
        if !is_token(text, k, letters, *start) {
            return false;
        }
    }
    text.len() == tokens.len()
}

const INPUTS: &[(&[u8], Tokens<'static>)] = &[
    (b"ab==cd", &[("ab", 0), ("=", 2), ("=", 3), ("cd", 4)]),
    (b"ab===cd", &[("ab", 0), ("cd", 5)]),
    (b"ab====cd", &[("ab", 0), ("cd", 6)]),
];

/// Whether an input that is fed in two pieces has these tokens; made again if memory runs out.
fn feeds(
    rt: &impl Abort,
    alloc: Global,
    input: &[u8],
    cut: usize,
    tokens: Tokens<'_>,
    lists: &Lists,
) -> bool {
    match retried(rt, || fed(alloc, input, cut, lists)) {
        Some(text) => has_tokens(&text, tokens),
        None => false,
    }
}

fn try_cuts(rt: &impl Abort, alloc: Global, input: &[u8], tokens: Tokens<'_>, lists: &Lists) {
    for cut in 0..9usize {
        assert!(rt; feeds(rt, alloc, input, cut, tokens, lists));
    }
}

#[test]
fn pieces_are_fed_when_there_is_memory(rt: HostRuntime) {
    let lists = profile(rt.alloc());
    for (input, tokens) in INPUTS {
        try_cuts(&rt, rt.alloc(), input, tokens, &lists);
    }
}
