//! A worked list, resumed after each of its triples and after others, and many bundles.

ghost use Rattle.std.specs.Prelude.{All, IfOk, IsTrue};
ghost use Rattle.lic_bundles.specs.Bundles.{AreApart, IsOf};
ghost use Rattle.lic_set.specs.declared.triple.Triple.{Triple};

use crate::shown::assert_same;
use lic_bundles::{Bundle, Triples};
use lic_set::Triple;
use std::alloc::{AllocError, Global};
use std::fmt::Write;
use std::process::Abort;
use std::test::Fail;

/// Bundles as a table writes them: from, to, last token, template.
type Listed<'a> = &'a [(usize, usize, usize, usize)];

// Whether no triple is of both.
fn is_apart(bundle: &Bundle, other: &Bundle) -> bool
    ensures { IsTrue result → (t : Triple) → IsOf bundle.now t → ¬ (IsOf other.now t) }
{
    bundle.last != other.last
        || bundle.template != other.template
        || bundle.to < other.from
        || other.to < bundle.from
}

// Whether no triple is of the bundle and of one of the others.
fn is_apart_from_all(others: &[Bundle], bundle: &Bundle) -> bool
    ensures { IsTrue result → All (λ other. (t : Triple) → IsOf other t → ¬ (IsOf bundle.now t)) others.now }
{
    others.iter().all(|other| is_apart(other, bundle))
}

/// The bundles of a table, but for those that have a triple of one before them.
fn bundles(alloc: Global, listed: Listed) -> Result<Vec<Bundle>, AllocError>
    ensures apart { IfOk result (λ all. AreApart all.items) }
{
    let mut all = Vec::new(alloc);
    for one in listed {
        let (from, to, last, template) = *one;
        let bundle = Bundle {
            from,
            to,
            last,
            template,
        };
        if !is_apart_from_all(&all, &bundle) {
            continue;
        }
        all.push(bundle)?;
    }
    Ok(all)
}

/// Adds a triple: its first token, its last token and its template.
fn add_triple(shown: &mut String, triple: Triple) -> Result<(), AllocError> {
    let (first, last, template) = (triple.first, triple.last, triple.template);
    write!(shown, "{first}-{last}:{template} ")
}

fn add_triples(shown: &mut String, triples: Triples) -> Result<(), AllocError> {
    for triple in triples {
        add_triple(shown, triple)?;
    }
    Ok(())
}

/// The triples of a table's bundles after a triple.
fn triples_after(
    alloc: Global,
    listed: Listed,
    after: Option<Triple>,
) -> Result<Triples, AllocError> {
    Triples::new(alloc, bundles(alloc, listed)?, after)
}

fn shown_after(alloc: Global, listed: Listed, after: Option<Triple>) -> Result<String, AllocError> {
    let mut shown = String::new(alloc);
    add_triples(&mut shown, triples_after(alloc, listed, after)?)?;
    Ok(shown)
}

const WORKED: Listed = &[
    (2, 4, 6, 1),
    (9, 10, 12, 0),
    (0, 3, 3, 0),
    (3, 3, 3, 2),
    (8, 7, 9, 3),
    (2, 2, 2, 5),
    (0, 0, 6, 1),
];

/// Triples, as first token, last token and template, and those of the worked list after each.
const AFTER: &[((usize, usize, usize), &str)] = &[
    // after each of them
    (
        (0, 3, 0),
        "0-6:1 1-3:0 2-2:5 2-3:0 2-6:1 3-3:0 3-3:2 3-6:1 4-6:1 9-12:0 10-12:0 ",
    ),
    (
        (0, 6, 1),
        "1-3:0 2-2:5 2-3:0 2-6:1 3-3:0 3-3:2 3-6:1 4-6:1 9-12:0 10-12:0 ",
    ),
    (
        (1, 3, 0),
        "2-2:5 2-3:0 2-6:1 3-3:0 3-3:2 3-6:1 4-6:1 9-12:0 10-12:0 ",
    ),
    (
        (2, 2, 5),
        "2-3:0 2-6:1 3-3:0 3-3:2 3-6:1 4-6:1 9-12:0 10-12:0 ",
    ),
    ((2, 3, 0), "2-6:1 3-3:0 3-3:2 3-6:1 4-6:1 9-12:0 10-12:0 "),
    ((2, 6, 1), "3-3:0 3-3:2 3-6:1 4-6:1 9-12:0 10-12:0 "),
    ((3, 3, 0), "3-3:2 3-6:1 4-6:1 9-12:0 10-12:0 "),
    ((3, 3, 2), "3-6:1 4-6:1 9-12:0 10-12:0 "),
    ((3, 6, 1), "4-6:1 9-12:0 10-12:0 "),
    ((4, 6, 1), "9-12:0 10-12:0 "),
    ((9, 12, 0), "10-12:0 "),
    ((10, 12, 0), ""),
    // after triples that are none of them
    (
        (0, 3, 1),
        "0-6:1 1-3:0 2-2:5 2-3:0 2-6:1 3-3:0 3-3:2 3-6:1 4-6:1 9-12:0 10-12:0 ",
    ),
    ((2, 7, 0), "3-3:0 3-3:2 3-6:1 4-6:1 9-12:0 10-12:0 "),
    ((3, 3, 1), "3-3:2 3-6:1 4-6:1 9-12:0 10-12:0 "),
    ((5, 0, 0), "9-12:0 10-12:0 "),
    ((10, 12, 1), ""),
    ((usize::MAX, usize::MAX, usize::MAX), ""),
];

fn try_after(
    rt: &impl Abort,
    alloc: Global,
    after: Option<Triple>,
    wanted: &str,
) -> Result<(), AllocError> {
    let shown = shown_after(alloc, WORKED, after)?;
    assert_same(rt, shown.as_str(), wanted, "triples after a triple");
    Ok(())
}

const ALL: &str = "0-3:0 0-6:1 1-3:0 2-2:5 2-3:0 2-6:1 3-3:0 3-3:2 3-6:1 4-6:1 9-12:0 10-12:0 ";

#[test]
fn gives_triples_in_order_after_any_triple(rt: HostRuntime) -> Result<(), Fail> {
    try_after(&rt, rt.alloc(), None, ALL)?;
    for ((first, last, template), wanted) in AFTER {
        let after = Triple {
            first: *first,
            last: *last,
            template: *template,
        };
        try_after(&rt, rt.alloc(), Some(after), wanted)?;
    }
    Ok(())
}

/// `count` bundles of ten triples each. Each begins one token after the one before, and ends far after it.
fn overlapping(alloc: Global, count: u32) -> Result<Vec<Bundle>, AllocError>
    ensures apart { IfOk result (λ all. AreApart all.items) }
{
    let mut all = Vec::new(alloc);
    for number in 0..count {
        let from = number as usize;
        let bundle = Bundle {
            from,
            to: from + 9,
            last: from + 1000,
            template: from,
        };
        all.push(bundle)?;
    }
    Ok(all)
}

/// How many triples there are, and whether each comes after the one before.
fn count_rising(triples: Triples) -> (u64, bool) {
    let mut before = None;
    let mut count = 0u64;
    let mut is_rising = true;
    for triple in triples {
        let triple = Some(triple);
        is_rising &= before < triple;
        before = triple;
        count = count.saturating_add(1);
    }
    (count, is_rising)
}

#[test]
fn many_triples_end_soon(rt: HostRuntime) -> Result<(), Fail> {
    let bundles = overlapping(rt.alloc(), 100_000)?;
    let triples = Triples::new(rt.alloc(), bundles, None)?;
    assert_eq!(rt; count_rising(triples), (1_000_000, true));
    Ok(())
}
