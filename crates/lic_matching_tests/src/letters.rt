//! Letters of a token, each with the gap before it.

use crate::shown::assert_same;
use lic_words::Letters;
use std::alloc::{AllocError, Global};
use std::fmt::Write;
use std::process::Abort;
use std::test::Fail;

/// Adds a letter, with whether it is apart and whether it and the letter before are of words.
fn add_letter(
    shown: &mut String,
    letter: char,
    is_apart: bool,
    are_words: bool,
) -> Result<(), AllocError> {
    write!(shown, "{letter} {is_apart} {are_words}, ")
}

/// Adds the last letter, and whether a gap follows it.
fn add_last(shown: &mut String, letter: char, is_apart: bool) -> Result<(), AllocError> {
    write!(shown, "{letter} {is_apart}")
}

/// Adds the letters as they are given, and what is known of the last one then.
fn add_letters(shown: &mut String, letters: &mut Letters<'_>) -> Result<(), AllocError> {
    while let Some(given) = letters.next() {
        add_letter(shown, given.letter, given.is_apart, given.are_words)?;
    }
    add_last(shown, letters.last_letter(), letters.is_apart())
}

/// The letters of a token after a letter.
fn shown_letters(
    alloc: Global,
    token: &str,
    last: char,
    is_apart: bool,
) -> Result<String, AllocError> {
    let mut shown = String::new(alloc);
    let mut letters = Letters::new(token, last, is_apart);
    add_letters(&mut shown, &mut letters)?;
    Ok(shown)
}

/// A token, the letter before it and whether there is a gap between them, and its letters.
const WORKED: &[(&str, char, bool, &str)] = &[
    ("ab", 'x', true, "a true true, b false true, b false"),
    ("a  b ", '.', false, "a false false, b true true, b true"),
    (
        "-\u{E9}",
        'x',
        true,
        "- true false, \u{E9} false false, \u{E9} false",
    ),
    ("", 'x', false, "x false"),
    ("", 'x', true, "x true"),
    (" ", 'x', false, "x true"),
];

fn try_token(
    rt: &impl Abort,
    alloc: Global,
    token: &str,
    last: char,
    is_apart: bool,
    wanted: &str,
) -> Result<(), AllocError> {
    let shown = shown_letters(alloc, token, last, is_apart)?;
    assert_same(rt, shown.as_str(), wanted, token);
    Ok(())
}

#[test]
fn letters_come_one_by_one_with_their_gaps(rt: HostRuntime) -> Result<(), Fail> {
    for (token, last, is_apart, wanted) in WORKED {
        try_token(&rt, rt.alloc(), token, *last, *is_apart, wanted)?;
    }
    Ok(())
}
