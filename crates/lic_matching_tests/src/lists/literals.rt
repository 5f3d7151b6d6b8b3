//! Worked literals: where one ends, and which of many may occur in some bytes.

use crate::shown::{add_number, assert_same};
use lic_literals::{Kept, Prefilter, ends_within};
use std::alloc::{AllocError, Global};
use std::fmt::Write;
use std::process::Abort;
use std::test::Fail;

/// All ends of a literal; none of an empty one.
fn all_ends(alloc: Global, bytes: &[u8], literal: &[u8]) -> Result<Vec<usize>, AllocError> {
    if literal.is_empty() {
        return Ok(Vec::new(alloc));
    }
    ends_within(alloc, bytes, literal, 0, bytes.len())
}

fn add_ends(shown: &mut String, ends: &[usize]) -> Result<(), AllocError> {
    for end in ends {
        add_number(shown, *end)?;
    }
    Ok(())
}

fn shown_ends(alloc: Global, bytes: &[u8], literal: &[u8]) -> Result<String, AllocError> {
    let mut shown = String::new(alloc);
    let ends = all_ends(alloc, bytes, literal)?;
    add_ends(&mut shown, &ends)?;
    Ok(shown)
}

/// Bytes, a literal, and where it ends in them.
const ENDS: &[(&str, &str, &str)] = &[
    ("aaaa", "aa", "2 3 4 "),
    ("foo bar foo", "foo", "3 11 "),
    ("foo bar", "baz", ""),
    ("fo", "foo", ""),
    ("", "a", ""),
];

fn try_literal(
    rt: &impl Abort,
    alloc: Global,
    bytes: &str,
    literal: &str,
    wanted: &str,
) -> Result<(), AllocError> {
    let shown = shown_ends(alloc, bytes.as_bytes(), literal.as_bytes())?;
    assert_same(rt, shown.as_str(), wanted, bytes);
    Ok(())
}

#[test]
fn finds_each_end_of_a_literal(rt: HostRuntime) -> Result<(), Fail> {
    for (bytes, literal, wanted) in ENDS {
        try_literal(&rt, rt.alloc(), bytes, literal, wanted)?;
    }
    Ok(())
}

/// The ends of a kept literal, if they are known.
fn ends_of(alloc: Global, kept: &Kept) -> Result<Option<Vec<usize>>, AllocError> {
    kept.ends(alloc)
}

/// Adds a kept literal: its number, and its ends or `?`.
fn add_kept(
    shown: &mut String,
    number: usize,
    ends: &Option<Vec<usize>>,
) -> Result<(), AllocError> {
    write!(shown, "{number}: ")?;
    match ends {
        Some(ends) => add_ends(shown, ends),
        None => shown.push_str("? "),
    }
}

fn add_all_kept(alloc: Global, shown: &mut String, all: &[Kept]) -> Result<(), AllocError> {
    for kept in all {
        let ends = ends_of(alloc, kept)?;
        add_kept(shown, kept.number, &ends)?;
    }
    Ok(())
}

fn shown_kept(alloc: Global, keys: &Prefilter, bytes: &[u8]) -> Result<String, AllocError> {
    let mut shown = String::new(alloc);
    let all = keys.kept(alloc, bytes)?;
    add_all_kept(alloc, &mut shown, &all)?;
    Ok(shown)
}

const LITERALS: &[&[u8]] = &[
    b"permission is hereby granted",
    b"the software is provided",
    b"gpl",
    b"license",
];

/// Bytes, and which literals may occur in them.
const KEPT: &[(&str, &str)] = &[
    // a literal of fewer than four bytes is always among them, and may end anywhere
    ("", "2: ? "),
    ("mit license", "2: ? 3: 11 "),
    (
        "a license, and permission is hereby granted: license",
        "0: 43 2: ? 3: 9 52 ",
    ),
    // only a window of it was compared
    ("the software is not provided", "1: 24 2: ? "),
];

fn try_kept(
    rt: &impl Abort,
    alloc: Global,
    keys: &Prefilter,
    bytes: &str,
    wanted: &str,
) -> Result<(), AllocError> {
    let shown = shown_kept(alloc, keys, bytes.as_bytes())?;
    assert_same(rt, shown.as_str(), wanted, bytes);
    Ok(())
}

#[test]
fn keeps_the_literals_that_may_occur(rt: HostRuntime) -> Result<(), Fail> {
    let keys = Prefilter::build(rt.alloc(), LITERALS)?;
    for (bytes, wanted) in KEPT {
        try_kept(&rt, rt.alloc(), &keys, bytes, wanted)?;
    }
    Ok(())
}
