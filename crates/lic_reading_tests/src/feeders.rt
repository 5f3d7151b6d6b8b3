//! Inputs that come in pieces.

use crate::drawn::drawn_text;
use crate::lists::{Lists, two_words};
use crate::shown::{assert_same, shown, shown_whole};
use lic_kind::Rules;
use lic_norm::{Feeder, MAX_BYTES, Words, read_pieces};
use std::alloc::{AllocError, Global};
use std::process::Abort;
use std::test::Fail;

/// Feeds pieces of `size` bytes, whatever is answered: how many are refused.
fn feed(feeder: &mut Feeder<'_>, input: &[u8], size: usize) -> usize {
    let mut refused = 0usize;
    for piece in input.chunks(size.max(1)) {
        refused = refused.saturating_add(usize::from(feeder.feed(piece).is_err()));
    }
    refused
}

/// A feeder in the memory of the text of these bytes, if there is one.
fn feeder_after<'w>(alloc: Global, bytes: &[u8], words: &'w Words, rules: &'w Rules) -> Feeder<'w> {
    match read_pieces(alloc, &[bytes], words, rules) {
        Ok(text) => Feeder::reuse(alloc, text, words, rules),
        Err(_) => Feeder::new(alloc, words, rules),
    }
}

/// A feeder that is fed a front at once, and a rest in pieces of `size` bytes.
fn feeder_of<'w>(
    alloc: Global,
    front: &[u8],
    rest: &[u8],
    size: usize,
    lists: &'w Lists,
) -> Feeder<'w> {
    let mut feeder = feeder_after(alloc, rest, &lists.words, &lists.rules);
    feed(&mut feeder, front, MAX_BYTES);
    feed(&mut feeder, rest, size);
    feeder
}

/// What the tokens are of a front and of a rest that is fed in pieces of `size` bytes.
fn shown_as_fed(
    alloc: Global,
    front: &[u8],
    rest: &[u8],
    size: usize,
    lists: &Lists,
) -> Result<String, AllocError> {
    shown(alloc, feeder_of(alloc, front, rest, size, lists).finish())
}

/// What the tokens are of a list of two pieces.
fn shown_as_read(
    alloc: Global,
    front: &[u8],
    rest: &[u8],
    lists: &Lists,
) -> Result<String, AllocError> {
    let text = read_pieces(alloc, &[front, rest], &lists.words, &lists.rules);
    shown(alloc, text)
}

/// Feeds an input: what is before the cut at once, and the rest in pieces of `size` bytes.
fn try_size(
    rt: &impl Abort,
    alloc: Global,
    input: &[u8],
    cut: usize,
    size: usize,
    wanted: &str,
    lists: &Lists,
) -> Result<(), AllocError> {
    let (front, rest) = input.split_at(cut.min(input.len()));
    let found = shown_as_fed(alloc, front, rest, size, lists)?;
    assert_same(rt, found.as_str(), wanted, input, cut);
    Ok(())
}

/// Reads the two pieces of an input that is cut there.
fn try_list(
    rt: &impl Abort,
    alloc: Global,
    input: &[u8],
    cut: usize,
    wanted: &str,
    lists: &Lists,
) -> Result<(), AllocError> {
    let (front, rest) = input.split_at(cut.min(input.len()));
    let found = shown_as_read(alloc, front, rest, lists)?;
    assert_same(rt, found.as_str(), wanted, input, cut);
    Ok(())
}

/// Feeds and reads an input that is cut anywhere.
fn try_cuts(
    rt: &impl Abort,
    alloc: Global,
    input: &[u8],
    wanted: &str,
    lists: &Lists,
) -> Result<(), AllocError> {
    for cut in 0..input.len() + 1 {
        try_size(rt, alloc, input, cut, 1, wanted, lists)?;
        try_size(rt, alloc, input, cut, MAX_BYTES, wanted, lists)?;
        try_list(rt, alloc, input, cut, wanted, lists)?;
    }
    Ok(())
}

/// Inputs and their tokens.
const WORKED: &[(&[u8], &str)] = &[
    (b"ab==cd", "ab 0-2, = 2-3, = 3-4, cd 4-6, "),
    (
        b"ab===cd\n\ncd====ef",
        "ab 0-2, cd 5-7, cd 9-11, ef 15-17, ",
    ),
    (b"/* Foo\n * bar\n */\n", "foo 3-6, bar 10-13, "),
    (
        b"Copyright (C) \xC2\xA9 2001\r\nHTTPS://x.org",
        "copyright 0-16, 2001 17-21, http 23-28, : 28-29, / 29-30, / 30-31, x 31-32, . 32-33, org 33-36, ",
    ),
    (
        b"\xEF\xAC\x81le so\xC2\xADft\xE2\x80\x94\xE2\x80\x9Cx",
        "file 0-5, soft 6-12, - 12-15, ' 15-18, x 18-19, ",
    ),
    (
        b"a\xC3(\xE2\x82\n\x80\xF0\x9F\x98",
        "a\u{FFFD} 0-2, ( 2-3, \u{FFFD}\u{FFFD} 3-5, \u{FFFD}\u{FFFD}\u{FFFD}\u{FFFD} 6-10, ",
    ),
    (
        b"| foo bar |\n# sub license ===\n",
        "foo 2-5, bar 6-9, sub-license 14-25, ",
    ),
    (b"", ""),
];

#[test]
fn pieces_are_read_as_the_whole(rt: HostRuntime) -> Result<(), Fail> {
    let lists = two_words(rt.alloc())?;
    for (input, wanted) in WORKED {
        try_cuts(&rt, rt.alloc(), input, wanted, &lists)?;
    }
    Ok(())
}

/// The bytes that random inputs are made of.
const SIGNS: &[&[u8]] = &[
    b"a", b"b", b" ", b"(", b"c", b")", b"=", b"-", b"\n", b"\n", b"#", b"*", b"/", b".", b"\xC2",
    b"\xA9", b"\xE2", b"\x80", b"\x9C", b"\xFF", b"\xF0", b"\xEF", b"\xBF", b"\xBD",
];

/// Feeds an input that is cut as a state has it, in pieces of up to seven bytes.
fn try_drawn(
    rt: &impl Abort,
    alloc: Global,
    input: &[u8],
    state: u64,
    lists: &Lists,
) -> Result<(), AllocError> {
    let wanted = shown_whole(alloc, input, lists)?;
    let cut = (state >> 40) as usize % 24;
    let size = (state >> 50) as usize % 7 + 1;
    try_size(rt, alloc, input, cut, size, wanted.as_str(), lists)
}

/// Tries 4,000 random inputs of 24 bytes.
fn try_all_drawn(rt: &impl Abort, alloc: Global, lists: &Lists) -> Result<(), AllocError> {
    let mut state = 1u64;
    for _ in 0..4000u32 {
        let (input, next) = drawn_text(alloc, SIGNS, state, 24)?;
        state = next;
        try_drawn(rt, alloc, &input, state, lists)?;
    }
    Ok(())
}

#[test]
fn random_pieces_are_read_as_the_whole(rt: HostRuntime) -> Result<(), Fail> {
    let lists = two_words(rt.alloc())?;
    try_all_drawn(&rt, rt.alloc(), &lists)?;
    Ok(())
}

/// Thirty-two lines of one token.
const LINES: &[u8] =
    b"a\na\na\na\na\na\na\na\na\na\na\na\na\na\na\na\na\na\na\na\na\na\na\na\na\na\na\na\na\na\na\na\n";

/// How many tokens of these lines are ready once they are fed.
fn count_ready(alloc: Global, lines: usize, lists: &Lists) -> usize {
    let (input, _) = LINES.split_at(lines.saturating_mul(2).min(LINES.len()));
    feeder_of(alloc, b"", input, 2, lists).ready()
}

#[test]
fn tokens_are_ready_as_lines_come(rt: HostRuntime) -> Result<(), Fail> {
    let lists = two_words(rt.alloc())?;
    for lines in 1..33usize {
        let ready = count_ready(rt.alloc(), lines, &lists);
        assert!(rt; ready.saturating_add(12) >= lines && ready <= lines);
    }
    Ok(())
}

/// Feeds as many bytes as there may be and four more: how many of these are refused, how many tokens are ready then, and what is
/// shown.
fn refused(alloc: Global, lists: &Lists) -> Result<(usize, usize, String), AllocError> {
    let long = vec![in alloc; b'a'; MAX_BYTES]?;
    let mut feeder = Feeder::new(alloc, &lists.words, &lists.rules);
    feed(&mut feeder, &long, MAX_BYTES);
    let refused = feed(&mut feeder, b"b\nc\n", 1);
    let ready = feeder.ready();
    let shown = shown(alloc, feeder.finish())?;
    Ok((refused, ready, shown))
}

#[test]
fn a_refusal_stays(rt: HostRuntime) -> Result<(), Fail> {
    let lists = two_words(rt.alloc())?;
    let (refused, ready, shown) = refused(rt.alloc(), &lists)?;
    assert_eq!(rt; (refused, ready), (4, 0));
    assert_same(&rt, shown.as_str(), "X2: more than 67108864 bytes", b"", 0);
    Ok(())
}
