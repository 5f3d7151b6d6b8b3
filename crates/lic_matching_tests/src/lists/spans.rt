//! Worked lists, and long lists of spans that overlap each other.

ghost use Rattle.std.specs.Prelude.{◌≤◌, ◌<◌, All, IfOk};

use crate::shown::assert_same;
use lic_spans::{PlaceSpan, SpanKind, with_least_last};
use std::alloc::{AllocError, Global};
use std::fmt::Write;
use std::process::Abort;
use std::test::Fail;

/// Spans as lists in a table write them: kind, low place, high place, last token.
type Listed<'a> = &'a [(SpanKind, usize, usize, usize)];

/// The spans of a table.
fn spans(alloc: Global, listed: Listed) -> Result<Vec<PlaceSpan>, AllocError>
    ensures ordered { IfOk result (λ all. All (λ s. s.low ≤ s.high) all.items) }
    ensures bounded { IfOk result (λ all. All (λ s. s.high < usize.MAX) all.items) }
{
    let mut all = Vec::new(alloc);
    for one in listed {
        let (kind, low, high, last) = *one;
        if low <= high && high < usize::MAX {
            let span = PlaceSpan {
                low,
                high,
                last,
                kind,
            };
            all.push(span)?;
        }
    }
    Ok(all)
}

fn add_span(shown: &mut String, span: &PlaceSpan) -> Result<(), AllocError> {
    let kind = span.kind as u8;
    write!(shown, "{kind}:{}-{}:{} ", span.low, span.high, span.last)
}

fn add_spans(shown: &mut String, spans: &[PlaceSpan]) -> Result<(), AllocError> {
    for span in spans {
        add_span(shown, span)?;
    }
    Ok(())
}

/// The spans of the least last token of each place of a table's spans.
fn least_of(alloc: Global, listed: Listed) -> Result<Vec<PlaceSpan>, AllocError> {
    with_least_last(alloc, spans(alloc, listed)?)
}

fn shown_least(alloc: Global, listed: Listed) -> Result<String, AllocError> {
    let mut shown = String::new(alloc);
    let least = least_of(alloc, listed)?;
    add_spans(&mut shown, &least)?;
    Ok(shown)
}

/// Spans, and those of the least last token of each place.
const WORKED: &[(Listed, &str)] = &[
    (&[], ""),
    (&[(SpanKind::Letters, 3, 7, 1)], "2:3-7:1 "),
    // single places in any order, with repeats
    (
        &[
            (SpanKind::Place, 7, 7, 3),
            (SpanKind::Place, 2, 2, 9),
            (SpanKind::Place, 7, 7, 1),
            (SpanKind::End, 7, 7, 4),
        ],
        "0:7-7:4 1:2-2:9 1:7-7:1 ",
    ),
    // a better one within, and a worse one that reaches further
    (
        &[(SpanKind::Letters, 0, 9, 5), (SpanKind::Letters, 3, 4, 2)],
        "2:0-2:5 2:3-4:2 2:5-9:5 ",
    ),
    (
        &[(SpanKind::Letters, 2, 8, 3), (SpanKind::Letters, 0, 5, 1)],
        "2:0-5:1 2:6-8:3 ",
    ),
    // neighbours of one last token, with a worse one across
    (
        &[
            (SpanKind::Letters, 0, 4, 2),
            (SpanKind::Letters, 3, 6, 8),
            (SpanKind::Letters, 5, 9, 2),
        ],
        "2:0-9:2 ",
    ),
    // single places next to each other stay single, also where a sweep is needed
    (
        &[
            (SpanKind::Letters, 0, 9, 5),
            (SpanKind::Place, 5, 5, 1),
            (SpanKind::Letters, 3, 4, 2),
            (SpanKind::Place, 4, 4, 1),
        ],
        "1:4-4:1 1:5-5:1 2:0-2:5 2:3-4:2 2:5-9:5 ",
    ),
    // kinds have nothing to do with each other
    (
        &[(SpanKind::Blanks, 0, 5, 1), (SpanKind::Letters, 0, 5, 2)],
        "2:0-5:2 3:0-5:1 ",
    ),
];

fn try_spans(
    rt: &impl Abort,
    alloc: Global,
    listed: Listed,
    wanted: &str,
) -> Result<(), AllocError> {
    let shown = shown_least(alloc, listed)?;
    assert_same(rt, shown.as_str(), wanted, "least last tokens");
    Ok(())
}

#[test]
fn keeps_the_least_last_token_of_each_place(rt: HostRuntime) -> Result<(), Fail> {
    for (listed, wanted) in WORKED {
        try_spans(&rt, rt.alloc(), listed, wanted)?;
    }
    Ok(())
}

/// `count` spans, each within the one before and of a lesser last token.
fn nested(alloc: Global, count: u32) -> Result<Vec<PlaceSpan>, AllocError>
    ensures ordered { IfOk result (λ all. All (λ s. s.low ≤ s.high) all.items) }
    ensures bounded { IfOk result (λ all. All (λ s. s.high < usize.MAX) all.items) }
{
    let mut all = Vec::new(alloc);
    for low in 0..count {
        let below = (count - low) as usize;
        let span = PlaceSpan {
            low: low as usize,
            high: count as usize + below,
            last: below,
            kind: SpanKind::Letters,
        };
        all.push(span)?;
    }
    Ok(all)
}

/// `count` spans of one length, each a place after the one before and of a greater last token.
fn shifted(alloc: Global, count: u32) -> Result<Vec<PlaceSpan>, AllocError>
    ensures ordered { IfOk result (λ all. All (λ s. s.low ≤ s.high) all.items) }
    ensures bounded { IfOk result (λ all. All (λ s. s.high < usize.MAX) all.items) }
{
    let mut all = Vec::new(alloc);
    for low in 0..count {
        let low = low as usize;
        let span = PlaceSpan {
            low,
            high: low + count as usize,
            last: low,
            kind: SpanKind::Letters,
        };
        all.push(span)?;
    }
    Ok(all)
}

/// How many spans of the least last token nested spans make.
fn count_nested(alloc: Global, count: u32) -> Result<usize, AllocError> {
    Ok(with_least_last(alloc, nested(alloc, count)?)?.len())
}

/// How many spans of the least last token shifted spans make.
fn count_shifted(alloc: Global, count: u32) -> Result<usize, AllocError> {
    Ok(with_least_last(alloc, shifted(alloc, count)?)?.len())
}

#[test]
fn long_lists_end_soon(rt: HostRuntime) -> Result<(), Fail> {
    assert_eq!(rt; count_nested(rt.alloc(), 100_000)?, 199_999);
    assert_eq!(rt; count_shifted(rt.alloc(), 100_000)?, 100_000);
    Ok(())
}
