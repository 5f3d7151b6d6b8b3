//! The filters of the default report.

use crate::shown::{add_triple, assert_same};
use lic_filters::{outer, tight};
use lic_set::Triple;
use std::alloc::{AllocError, Global};
use std::process::Abort;
use std::test::Fail;

/// Triples as lists in a table write them: first token, last token, template.
type Listed<'a> = &'a [(usize, usize, usize)];

fn triple(first: usize, last: usize, template: usize) -> Triple {
    Triple {
        first,
        last,
        template,
    }
}

fn triples(alloc: Global, listed: Listed) -> Result<Vec<Triple>, AllocError> {
    let mut all = Vec::new(alloc);
    for (first, last, template) in listed {
        all.push(triple(*first, *last, *template))?;
    }
    Ok(all)
}

fn add_triples(shown: &mut String, triples: &[Triple]) -> Result<(), AllocError> {
    for triple in triples {
        add_triple(shown, *triple)?;
    }
    Ok(())
}

/// The tight triples of a list, or the outer ones.
fn kept(alloc: Global, all: &[Triple], is_outer: bool) -> Result<Vec<Triple>, AllocError> {
    if is_outer {
        outer(alloc, all)
    } else {
        tight(alloc, all)
    }
}

/// Those of a table's list.
fn shown_kept(alloc: Global, listed: Listed, is_outer: bool) -> Result<String, AllocError> {
    let all = triples(alloc, listed)?;
    let kept = kept(alloc, &all, is_outer)?;
    let mut shown = String::new(alloc);
    add_triples(&mut shown, &kept)?;
    Ok(shown)
}

/// Lists, the tight triples of each, and the outer ones.
const WORKED: &[(Listed, &str, &str)] = &[
    (
        &[(0, 1, 1), (0, 2, 1), (0, 3, 0), (1, 2, 0)],
        "0-1-1 1-2-0 ",
        "0-1-1 1-2-0 ",
    ),
    (&[(0, 3, 0), (1, 2, 1)], "0-3-0 1-2-1 ", "0-3-0 "),
    (&[], "", ""),
    // equal ranges do not contain each other
    (&[(0, 1, 0), (0, 1, 1)], "0-1-0 0-1-1 ", "0-1-0 0-1-1 "),
    // repeats, and an order that is not that of the tokens
    (
        &[(4, 6, 0), (0, 2, 0), (4, 6, 0), (0, 2, 1), (0, 3, 1)],
        "4-6-0 0-2-0 4-6-0 0-2-1 ",
        "4-6-0 0-2-0 4-6-0 0-2-1 ",
    ),
    // a triple that is not tight contains nothing
    (
        &[(0, 9, 0), (2, 3, 0), (1, 5, 1), (7, 8, 1)],
        "2-3-0 1-5-1 7-8-1 ",
        "1-5-1 7-8-1 ",
    ),
    // overlapping ranges
    (&[(0, 2, 0), (1, 3, 1)], "0-2-0 1-3-1 ", "0-2-0 1-3-1 "),
    // one end in common
    (
        &[(0, 2, 0), (0, 1, 1), (1, 2, 2)],
        "0-2-0 0-1-1 1-2-2 ",
        "0-2-0 ",
    ),
    // the triples of a template `.+ of .+` in `x of y of z`
    (
        &[(0, 2, 0), (0, 3, 0), (0, 4, 0), (1, 4, 0), (2, 4, 0)],
        "0-2-0 2-4-0 ",
        "0-2-0 2-4-0 ",
    ),
    // a last token before the first is a pair of numbers like any other
    (&[(5, 1, 0), (3, 4, 0), (4, 2, 1)], "5-1-0 4-2-1 ", "4-2-1 "),
];

fn try_list(
    rt: &impl Abort,
    alloc: Global,
    listed: Listed,
    wanted_tight: &str,
    wanted_outer: &str,
) -> Result<(), AllocError> {
    let shown = shown_kept(alloc, listed, false)?;
    assert_same(rt, shown.as_str(), wanted_tight, "tight triples");
    let shown = shown_kept(alloc, listed, true)?;
    assert_same(rt, shown.as_str(), wanted_outer, "outer triples");
    Ok(())
}

#[test]
fn keeps_tight_and_outer_triples(rt: HostRuntime) -> Result<(), Fail> {
    for (listed, wanted_tight, wanted_outer) in WORKED {
        try_list(&rt, rt.alloc(), listed, wanted_tight, wanted_outer)?;
    }
    Ok(())
}

/// Long lists of triples.
#[derive(Clone, Copy)]
enum Long {
    Equal,
    Nested,
    NestedTemplates,
    Apart,
}

/// The triple of this number.
fn triple_of(long: Long, k: u32) -> Triple {
    let k = k as usize;
    let (before, after) = (200_000usize.saturating_sub(k), 200_000 + k);
    let apart = k * 7919 % 200_000;
    match long {
        Long::Equal => triple(1, 2, 3),
        Long::Nested => triple(before, after, 0),
        Long::NestedTemplates => triple(before, after, k),
        Long::Apart => triple(apart, apart, k % 5),
    }
}

/// A list of 200,000 triples.
fn long_list(alloc: Global, long: Long) -> Result<Vec<Triple>, AllocError> {
    let mut list = Vec::new(alloc);
    for k in 0..200_000u32 {
        list.push(triple_of(long, k))?;
    }
    Ok(list)
}

/// How many of a long list are tight, and how many of these are outer.
fn lengths(alloc: Global, long: Long) -> Result<(usize, usize), AllocError> {
    let list = long_list(alloc, long)?;
    Ok((tight(alloc, &list)?.len(), outer(alloc, &list)?.len()))
}

const LONG: &[(Long, usize, usize)] = &[
    (Long::Equal, 200_000, 200_000),
    (Long::Nested, 1, 1),
    (Long::NestedTemplates, 200_000, 1),
    (Long::Apart, 200_000, 200_000),
];

#[test]
fn ends_soon_on_long_lists(rt: HostRuntime) -> Result<(), Fail> {
    for (long, wanted_tight, wanted_outer) in LONG {
        assert_eq!(rt; lengths(rt.alloc(), *long)?, (*wanted_tight, *wanted_outer));
    }
    Ok(())
}
