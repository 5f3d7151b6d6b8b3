//! Random texts, rich in what the fast way of reading has to look at twice, read as a plain reader reads them.

use crate::drawn::{drawn_below, drawn_text, next_state};
use crate::lists::{Lists, lists_of};
use crate::plain::read_plainly;
use crate::shown::{assert_same, shown, shown_whole};
use lic_kind::Rules;
use lic_norm::Feeder;
use std::alloc::{AllocError, Global};
use std::process::Abort;
use std::test::Fail;

/// What the texts are made of: words, marks that are joined, separators, comment marks, items, signs, addresses, letters beyond
/// ASCII, dropped characters, bytes that are no characters, and runs that go over a border of 64 bytes.
const FRAGMENTS: &[&[u8]] = &[
    b"a",
    b"Foo",
    b"foo bar",
    b" ",
    b"  ",
    b"\t",
    b"\n",
    b"\n",
    b"\r\n",
    b"\x0B",
    b"//",
    b" * ",
    b"/*",
    b"*/",
    b"# ",
    b";;",
    b"dnl ",
    b"| ",
    b" |\n",
    b"-",
    b"--",
    b"---",
    b"==",
    b"===",
    b".",
    b", ",
    b"'",
    b"\"",
    b"''",
    b"`",
    b"_",
    b"1. ",
    b"(a) ",
    b"iv) ",
    b"(",
    b")",
    b"(c)",
    b"(C) 2012",
    b"( c )",
    b"copyright",
    b"Copyright \xC2\xA9",
    b"https",
    b"https://",
    b"HTTPS:/",
    b"sub license",
    b"sub-license",
    b"sub",
    b"\xC2\xAD",
    b"\xC2\xA0",
    b"\xC2\xAB",
    b"\xC3\xA9",
    b"\xC3\x9F",
    b"\xD0\x96\xD0\xB8",
    b"\xCE\xA3",
    b"\xE2\x80\x93",
    b"\xE2\x80\x9C",
    b"\xE2\x84\xA2",
    b"\xE4\xB8\xAD",
    b"\xEF\xAC\x81",
    b"\xEF\xBB\xBF",
    b"\xF0\x9F\x98\x80",
    b"\xFF",
    b"\xC3",
    b"\xE2\x80",
    b"\xED\xA0\x80",
    b"\0",
    b"aaaaaaaaaaaaaaaaaaaaaaaaaaaaaaaaaaaaaaaaaaaaaaaaaaaaaaaaaaaaaaaaa",
    b"----------------------------------------------------------------------",
    b"                                                              ",
    b"*************************************************************",
];

/// What other texts are made of, of which most lines have only simple characters, and such beyond ASCII: words of letters of two
/// and three bytes, white space, quotes and dashes beyond ASCII, next to the same of ASCII, and words of more than 16 bytes.
const SIMPLE: &[&[u8]] = &[
    b"a",
    b"Foo",
    b"foo bar",
    b" ",
    b"\n",
    b"\n",
    b"\xC3\xA9t\xC3\xA9",
    b"\xC3\x89",
    b"gro\xC3\x9F",
    b"\xD0\x96\xD0\xB8",
    b"\xCE\xA3",
    b"\xE4\xB8\xAD\xE6\x96\x87",
    b"\xE3\x80\x82",
    b"\xC2\xA0",
    b"\xE3\x80\x80",
    b"\xE2\x80\x93",
    b"\xE2\x80\x94",
    b"\xE2\x80\x99",
    b"\xC2\xAB",
    b"\xC2\xBB ",
    b"-",
    b"---",
    b"'",
    b"\"",
    b".",
    b", ",
    b"(",
    b")",
    b"(c)",
    b"copyright",
    b"https://",
    b"sub license",
    b"sub-license",
    b"\xC3\xA9\xC3\xA9\xC3\xA9\xC3\xA9\xC3\xA9\xC3\xA9\xC3\xA9\xC3\xA9\xC3\xA9\xC3\xA9",
    b"aaaaaaaaaaaaaaaaaaaaaaaaaaaaaaaaaaaaaaaaaaaaaaaaaaaaaaaaaaaaaaaaa",
    b"                                                              ",
];

/// Feeds a text in pieces of random lengths, whatever is answered: a refusal stays.
fn feed_pieces(feeder: &mut Feeder<'_>, input: &[u8], mut state: u64) {
    let mut start = 0;
    for end in 1..input.len() + 1 {
        state = next_state(state);
        if end == input.len() || drawn_below(state, 40) == 0 {
            let _ = feeder.feed(input.get(start..end).unwrap_or(b""));
            start = end;
        }
    }
}

/// The tokens of a text that is fed in pieces of random lengths.
fn shown_in_pieces(
    alloc: Global,
    input: &[u8],
    state: u64,
    lists: &Lists,
) -> Result<String, AllocError> {
    let mut feeder = Feeder::new(alloc, &lists.words, &lists.rules);
    feed_pieces(&mut feeder, input, state);
    shown(alloc, feeder.finish())
}

/// Reads a text plainly, at once and in pieces.
fn try_text(
    rt: &impl Abort,
    alloc: Global,
    input: &[u8],
    state: u64,
    lists: &Lists,
) -> Result<(), AllocError> {
    let wanted = read_plainly(alloc, input, &lists.words, &lists.rules)?;
    let whole = shown_whole(alloc, input, lists)?;
    assert_same(rt, whole.as_str(), wanted.as_str(), input, 0);
    let pieces = shown_in_pieces(alloc, input, state, lists)?;
    assert_same(rt, pieces.as_str(), wanted.as_str(), input, input.len());
    Ok(())
}

/// Tries 1,500 random texts of these fragments.
fn try_texts(
    rt: &impl Abort,
    alloc: Global,
    fragments: &[&[u8]],
    lists: &Lists,
) -> Result<(), AllocError> {
    let mut state = 1u64;
    for number in 0..1500usize {
        let (input, next) = drawn_text(alloc, fragments, state, number % 60 + 1)?;
        state = next;
        try_text(rt, alloc, &input, state, lists)?;
    }
    Ok(())
}

/// Tries random texts of these fragments by the words of a list and by rules.
fn try_fragments(
    rt: &impl Abort,
    alloc: Global,
    fragments: &[&[u8]],
    words: &str,
    rules: Rules,
) -> Result<(), Fail> {
    let lists = lists_of(alloc, words, rules)?;
    try_texts(rt, alloc, fragments, &lists)?;
    Ok(())
}

#[test]
fn random_texts_are_read_by_the_profile(rt: HostRuntime) -> Result<(), Fail> {
    let rules = Rules::profile(rt.alloc());
    try_fragments(&rt, rt.alloc(), FRAGMENTS, "", rules)
}

#[test]
fn random_texts_are_read_by_equivalent_words(rt: HostRuntime) -> Result<(), Fail> {
    let rules = Rules::profile(rt.alloc());
    let words = "sub-license,sub license\nfoo,foo bar foo\ncopyright owner,a\n";
    try_fragments(&rt, rt.alloc(), FRAGMENTS, words, rules)
}

#[test]
fn random_texts_are_read_by_other_rules(rt: HostRuntime) -> Result<(), Fail> {
    let rules = Rules::read(
        rt.alloc(),
        "lead //\nlead *\nlead-space Foo\ntail */\ntail-space |\ntail-repeat -\nitems off\nseparators off\n",
    )?;
    try_fragments(
        &rt,
        rt.alloc(),
        FRAGMENTS,
        "sub-license,sub license\n",
        rules,
    )
}

#[test]
fn random_texts_of_simple_characters_are_read_by_the_profile(rt: HostRuntime) -> Result<(), Fail> {
    let rules = Rules::profile(rt.alloc());
    let words = "sub-license,sub license\nfoo,foo bar foo\n\u{E9}t\u{E9},a\n";
    try_fragments(&rt, rt.alloc(), SIMPLE, words, rules)
}

#[test]
fn random_texts_of_simple_characters_are_read_by_other_rules(rt: HostRuntime) -> Result<(), Fail> {
    let rules = Rules::read(
        rt.alloc(),
        "lead Foo\nlead-space .\ntail a\ntail-space -\ntail-repeat -\nitems off\nseparators off\n",
    )?;
    try_fragments(&rt, rt.alloc(), SIMPLE, "sub-license,sub license\n", rules)
}
