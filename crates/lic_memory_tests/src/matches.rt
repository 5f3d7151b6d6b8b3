//! Matches in worked texts, one by one and after one; filters of them, the values of one, and what the machines answer.

use crate::lent::{CHOICE, Lists, OF, ONE, OPTIONAL, TWO, Templates, profile, set_lent, text_lent};
use crate::refused::{Refused, retried};
use lic_auto::{Back, Run};
use lic_filters::{outer, tight};
use lic_find::{Finder, is_match};
use lic_norm::{Span, Text};
use lic_report::AllMatches;
use lic_search::tight_matches;
use lic_set::{Set, Triple};
use lic_vars::assign;
use std::alloc::{AllocError, Global};
use std::process::Abort;

/// A range of tokens, the last one counted, and the number of a template.
type Range = (usize, usize, usize);

/// Templates, an input, its matches, ranges that are none, and the first template that describes all of the input.
#[derive(Clone, Copy)]
struct Case {
    templates: Templates<'static>,
    input: &'static [u8],
    matches: &'static [Range],
    others: &'static [Range],
    whole: Option<usize>,
}

const CASES: &[Case] = &[
    Case {
        templates: OPTIONAL,
        input: b"a d",
        matches: &[(0, 1, 0)],
        others: &[],
        whole: Some(0),
    },
    Case {
        templates: OPTIONAL,
        input: b"a b d",
        matches: &[(0, 2, 0)],
        others: &[],
        whole: Some(0),
    },
    Case {
        templates: OPTIONAL,
        input: b"a b c d",
        matches: &[(0, 3, 0)],
        others: &[],
        whole: Some(0),
    },
    Case {
        templates: OPTIONAL,
        input: b"a c d",
        matches: &[],
        others: &[(0, 2, 0)],
        whole: None,
    },
    Case {
        templates: ONE,
        input: b"Foo   bar foo bar",
        matches: &[(0, 1, 0), (2, 3, 0)],
        others: &[(0, 3, 0), (1, 0, 0), (9, 9, 0)],
        whole: None,
    },
    Case {
        templates: TWO,
        input: b"foo bar",
        matches: &[(0, 1, 0), (0, 1, 1)],
        others: &[(0, 0, 0), (0, 1, 2)],
        whole: Some(0),
    },
    Case {
        templates: OF,
        input: b"x of y of z",
        matches: &[(0, 2, 0), (0, 3, 0), (0, 4, 0), (1, 4, 0), (2, 4, 0)],
        others: &[(1, 3, 0)],
        whole: Some(0),
    },
    Case {
        templates: CHOICE,
        input: b"bxx end yz end bxxxx end",
        matches: &[(0, 1, 0), (1, 1, 0), (2, 3, 0), (3, 3, 0), (5, 5, 0)],
        others: &[(4, 5, 0)],
        whole: None,
    },
];

fn triple_of(range: Range) -> Triple {
    Triple {
        first: range.0,
        last: range.1,
        template: range.2,
    }
}

/// Whether these are the matches, found one by one.
fn finds(alloc: Global, set: &Set, text: &Text, matches: &[Range]) -> Result<bool, Refused> {
    let mut finder = Finder::new(alloc, set, text)?;
    for range in matches {
        if finder.next() != Some(triple_of(*range)) {
            return Ok(false);
        }
    }
    Ok(finder.next().is_none())
}

/// Whether these are the matches, found one by one over the first template alone.
fn finds_of_first(
    alloc: Global,
    set: &Set,
    text: &Text,
    matches: &[Range],
) -> Result<bool, Refused> {
    if set.len() == 0 {
        return Ok(matches.is_empty());
    }
    let first = Vec::from_slice(alloc, &[0])?;
    let mut finder = Finder::over(alloc, set, text, first, None)?;
    for range in matches.iter().filter(|range| range.2 == 0) {
        if finder.next() != Some(triple_of(*range)) {
            return Ok(false);
        }
    }
    Ok(finder.next().is_none())
}

/// Whether these are the matches that the search gives.
fn gives(alloc: Global, set: &Set, text: &Text, matches: &[Range]) -> Result<bool, Refused> {
    let mut found = AllMatches::new(alloc, set, text, None)?;
    for range in matches {
        if found.next() != Some(triple_of(*range)) {
            return Ok(false);
        }
    }
    Ok(found.next().is_none())
}

/// Whether the tight ones of these are those that the search gives.
fn gives_tight(alloc: Global, set: &Set, text: &Text, matches: &[Range]) -> Result<bool, Refused> {
    let mut all = Vec::new(alloc);
    for range in matches {
        all.push(triple_of(*range)).map_err(AllocError::from)?;
    }
    let wanted = tight(alloc, &all)?;
    Ok(tight_matches(alloc, set, text)?.as_slice() == wanted.as_slice())
}

/// Whether no template is ruled out, and the required literal of each occurs in the text.
fn keeps_all(alloc: Global, set: &Set, text: &Text) -> Result<bool, Refused> {
    let candidates = set.candidates(alloc, text)?;
    for candidate in &candidates {
        match set.required_ends(alloc, text, candidate)? {
            Some(ends) if !ends.places.is_empty() => (),
            _ => return Ok(false),
        }
    }
    Ok(candidates.len() == set.len())
}

/// Whether all of these ranges are matches, or none is.
fn are_matches(
    alloc: Global,
    set: &Set,
    text: &Text,
    ranges: &[Range],
    wanted: bool,
) -> Result<bool, Refused> {
    for range in ranges {
        if is_match(alloc, set, text, triple_of(*range))? != wanted {
            return Ok(false);
        }
    }
    Ok(true)
}

/// Lets a machine read the text: the first template that describes all of it.
fn read_on(alloc: Global, set: &Set, text: &Text) -> Result<Option<usize>, Refused> {
    let mut machine = Run::new(alloc, set)?;
    for k in 0..text.len() {
        machine.push(text.token(k).text);
    }
    Ok(machine.accepted(0))
}

/// Lets a machine read the text from its end: whether a match begins with it.
fn read_back(alloc: Global, set: &Set, text: &Text) -> Result<bool, Refused> {
    let mut machine = Back::new(alloc, set)?;
    for k in (0..text.len()).rev() {
        machine.push_front(text.token(k).text);
    }
    Ok(machine.live())
}

/// Whether the finder and the search give the matches of a case.
fn finds_all(alloc: Global, set: &Set, text: &Text, case: &Case) -> Result<bool, Refused> {
    let are_found = finds(alloc, set, text, case.matches)?
        && finds_of_first(alloc, set, text, case.matches)?;
    Ok(
        are_found
            && gives(alloc, set, text, case.matches)?
            && gives_tight(alloc, set, text, case.matches)?,
    )
}

/// Whether the matches of a case are matches, and the other ranges are none.
fn knows_matches(alloc: Global, set: &Set, text: &Text, case: &Case) -> Result<bool, Refused> {
    Ok(
        are_matches(alloc, set, text, case.matches, true)?
            && are_matches(alloc, set, text, case.others, false)?,
    )
}

/// Whether a machine answers rightly that reads the text, and one that reads it from its end.
fn reads(alloc: Global, set: &Set, text: &Text, case: &Case) -> Result<bool, Refused> {
    let begins = case.matches.first().is_some_and(|range| range.0 == 0);
    Ok(read_on(alloc, set, text)? == case.whole && read_back(alloc, set, text)? == begins)
}

/// Makes all calls of a case: whether each answers rightly.
fn answers(alloc: Global, set: &Set, text: &Text, case: &Case) -> Result<bool, Refused> {
    Ok(
        keeps_all(alloc, set, text)?
            && finds_all(alloc, set, text, case)?
            && knows_matches(alloc, set, text, case)?
            && reads(alloc, set, text, case)?,
    )
}

/// Whether all calls of a case answer rightly; made again if memory runs out.
fn are_answered(rt: &impl Abort, alloc: Global, set: &Set, text: &Text, case: &Case) -> bool {
    retried(rt, || answers(alloc, set, text, case))
}

fn try_case(rt: &impl Abort, alloc: Global, case: &Case, lists: &Lists) {
    let set = set_lent(rt, alloc, case.templates, lists);
    let text = text_lent(rt, alloc, case.input, lists);
    assert!(rt; are_answered(rt, alloc, &set, &text, case));
}

#[test]
fn matches_are_found_when_there_is_memory(rt: HostRuntime) {
    let lists = profile(rt.alloc());
    for case in CASES {
        try_case(&rt, rt.alloc(), case, &lists);
    }
}

/// A match of the first template.
fn of(first: usize, last: usize) -> Triple {
    Triple {
        first,
        last,
        template: 0,
    }
}

/// Whether two matches at the ends are the tight ones and the outer ones.
fn filters(alloc: Global) -> Result<bool, Refused> {
    let all = [of(0, 2), of(0, 3), of(0, 4), of(1, 4), of(2, 4)];
    let ends = [of(0, 2), of(2, 4)];
    let tight = tight(alloc, &all)?;
    let outer = outer(alloc, &all)?;
    Ok(tight.as_slice() == ends.as_slice() && outer.as_slice() == ends.as_slice())
}

#[test]
fn matches_are_filtered_when_there_is_memory(rt: HostRuntime) {
    assert!(rt; retried(&rt, || filters(rt.alloc())));
}

/// The match after another, that of the finder and that of the search.
fn go_on(
    alloc: Global,
    set: &Set,
    text: &Text,
) -> Result<(Option<Triple>, Option<Triple>), Refused> {
    let mut later = Finder::resume(alloc, set, text, of(0, 3))?;
    let mut found = AllMatches::new(alloc, set, text, Some(of(0, 3)))?;
    Ok((later.next(), found.next()))
}

/// The values of the two variables of a match; nothing if it is no match.
fn spans(
    alloc: Global,
    set: &Set,
    text: &Text,
    triple: Triple,
) -> Result<Option<(Span, Span)>, Refused> {
    if !is_match(alloc, set, text, triple)? {
        return Ok(None);
    }
    let values = assign(alloc, set, text, triple)?;
    match values.as_slice() {
        [first, second] => Ok(first.span.zip(second.span)),
        _ => Ok(None),
    }
}

/// The match after another, twice; made again if memory runs out.
fn gone_on(
    rt: &impl Abort,
    alloc: Global,
    set: &Set,
    text: &Text,
) -> (Option<Triple>, Option<Triple>) {
    retried(rt, || go_on(alloc, set, text))
}

/// The values of a match; made again if memory runs out.
fn spans_of(
    rt: &impl Abort,
    alloc: Global,
    set: &Set,
    text: &Text,
    triple: Triple,
) -> Option<(Span, Span)> {
    retried(rt, || spans(alloc, set, text, triple))
}

/// Whether two matches go on with the whole, and it has its two values.
fn has_values(rt: &impl Abort, alloc: Global, set: &Set, text: &Text) -> bool {
    let whole = of(0, 4);
    let is_right = gone_on(rt, alloc, set, text) == (Some(whole), Some(whole));
    let wanted = (Span { start: 0, end: 1 }, Span { start: 5, end: 11 });
    is_right & (spans_of(rt, alloc, set, text, whole) == Some(wanted))
}

#[test]
fn matches_have_values_when_there_is_memory(rt: HostRuntime) {
    let lists = profile(rt.alloc());
    let set = set_lent(&rt, rt.alloc(), OF, &lists);
    let text = text_lent(&rt, rt.alloc(), b"x of y of z", &lists);
    assert!(rt; has_values(&rt, rt.alloc(), &set, &text));
}
