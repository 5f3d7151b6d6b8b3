//! Matches of templates in texts.

use crate::profile::{set_of, text_of};
use crate::shown::add_triple;
use lic_find::{Finder, is_match};
use lic_norm::Text;
use lic_set::{Set, Triple};
use std::alloc::{AllocError, Global};
use std::process::Abort;
use std::test::Fail;

const OF: &str =
    "<<var;name=\"a\";original=\"p\";match=\".+\">> of <<var;name=\"b\";original=\"q\";match=\".+\">>";

fn add_all(shown: &mut String, finder: &mut Finder<'_>) -> Result<(), AllocError> {
    while let Some(triple) = finder.next() {
        add_triple(shown, triple)?;
    }
    Ok(())
}

/// What a finder gives, each as first token, last token and template.
fn shown(alloc: Global, mut finder: Finder<'_>) -> Result<String, AllocError> {
    let mut shown = String::new(alloc);
    add_all(&mut shown, &mut finder)?;
    if finder.next().is_some() {
        shown.push_str("and more")?;
    }
    Ok(shown)
}

/// First token, last token, template.
type Numbers = (usize, usize, usize);

fn triple_of(numbers: &Numbers) -> Triple {
    Triple {
        first: numbers.0,
        last: numbers.1,
        template: numbers.2,
    }
}

/// What a finder gives after a triple.
fn found_in(alloc: Global, set: &Set, text: &Text, after: Triple) -> Result<String, AllocError> {
    shown(alloc, Finder::resume(alloc, set, text, after)?)
}

/// The matches of some templates in a text after a triple.
fn found_after(alloc: Global, after: &Numbers) -> Result<String, Fail> {
    let set = set_of(alloc, &["x y", "x", "x y z", "y"])?;
    let text = text_of(alloc, "X y z x")?;
    Ok(found_in(alloc, &set, &text, triple_of(after))?)
}

/// Triples, some with numbers that no token and no template has, and what comes after each.
const LATER: &[(Numbers, &str)] = &[
    ((0, 0, 1), "0-1-0 0-2-2 1-1-3 3-3-1 "),
    ((0, 1, usize::MAX), "0-2-2 1-1-3 3-3-1 "),
    ((0, usize::MAX, 0), "1-1-3 3-3-1 "),
    ((4, 0, 0), ""),
    ((usize::MAX, usize::MAX, usize::MAX), ""),
];

fn try_after(rt: &impl Abort, alloc: Global, after: &Numbers, wanted: &str) -> Result<(), Fail> {
    let shown = found_after(alloc, after)?;
    assert_eq!(rt; shown.as_str(), wanted, "after {after:?}");
    Ok(())
}

#[test]
fn continues_after_any_triple(rt: HostRuntime) -> Result<(), Fail> {
    for (after, wanted) in LATER {
        try_after(&rt, rt.alloc(), after, wanted)?;
    }
    Ok(())
}

/// Whether a template matches a range of a text.
fn is_found(alloc: Global, numbers: &Numbers) -> Result<bool, Fail> {
    let set = set_of(alloc, &["foo bar"])?;
    let text = text_of(alloc, "Foo   bar foo bar")?;
    Ok(is_match(alloc, &set, &text, triple_of(numbers))?)
}

/// Ranges of tokens, and whether each is a match.
const RANGES: &[(Numbers, bool)] = &[
    ((0, 1, 0), true),
    ((2, 3, 0), true),
    ((0, 3, 0), false),
    ((1, 0, 0), false),
    ((0, 1, 1), false),
    ((3, 4, 0), false),
    ((9, 9, 0), false),
    ((usize::MAX, usize::MAX, usize::MAX), false),
];

fn try_range(rt: &impl Abort, alloc: Global, numbers: &Numbers, wanted: bool) -> Result<(), Fail> {
    let found = is_found(alloc, numbers)?;
    assert!(rt; found == wanted, "{numbers:?}");
    Ok(())
}

#[test]
fn tells_whether_one_triple_is_a_match(rt: HostRuntime) -> Result<(), Fail> {
    for (numbers, wanted) in RANGES {
        try_range(&rt, rt.alloc(), numbers, *wanted)?;
    }
    Ok(())
}

/// The steps of a finder: those of a new one, the most of one call of `next`, and those once it has given all matches.
type Steps = (u64, u64, u64);

/// The most steps of one call of a finder's `next`.
fn most_of_next(finder: &mut Finder<'_>) -> u64 {
    let mut before = finder.steps();
    let mut most = 0;
    while finder.next().is_some() {
        most = finder.steps().saturating_sub(before).max(most);
        before = finder.steps();
    }
    finder.steps().saturating_sub(before).max(most)
}

fn steps_of(mut finder: Finder<'_>) -> Steps {
    let new = finder.steps();
    let most_of_next = most_of_next(&mut finder);
    (new, most_of_next, finder.steps())
}

/// A text: its beginning, what follows and how often, and its end.
type Source = (&'static str, &'static str, usize, &'static str);

fn joined(alloc: Global, source: &Source) -> Result<String, AllocError> {
    let bodies = source.1.repeat(alloc, source.2)?;
    format!(in alloc; "{}{bodies}{}", source.0, source.3)
}

fn source_of(alloc: Global, source: &Source) -> Result<Text, Fail> {
    let whole = joined(alloc, source)?;
    text_of(alloc, whole.as_str())
}

/// The steps of a finder of all matches of a set.
fn steps_in(alloc: Global, set: &Set, text: &Text) -> Result<Steps, AllocError> {
    Ok(steps_of(Finder::new(alloc, set, text)?))
}

/// The steps of a finder of all matches of some templates in such a text.
fn count_steps(alloc: Global, templates: &[&str], source: &Source) -> Result<Steps, Fail> {
    let set = set_of(alloc, templates)?;
    let text = source_of(alloc, source)?;
    Ok(steps_in(alloc, &set, &text)?)
}

/// The least and the most.
type Bounds = (u64, u64);

fn is_within(number: u64, bounds: &Bounds) -> bool {
    bounds.0 <= number && number <= bounds.1
}

/// Templates and a text, and what is worked out by hand of a new finder, of one call of `next`, of all calls, and of all with the
/// first.
type Worked = (&'static [&'static str], Source, Bounds, u64, Bounds, Bounds);

const WORKED: &[Worked] = &[
    (&["foo bar"], ("", "", 0, ""), (0, 2), 2, (0, 2), (0, 2)),
    // Twelve letters, and each of two first tokens begins a match of six.
    (
        &["foo bar"],
        ("Foo   bar ", "", 0, "foo bar"),
        (12, 26),
        52,
        (0, 66),
        (24, 78),
    ),
    // Seven letters; matches begin with three tokens, and are up to seven, six and four letters long.
    (
        &[OF],
        ("x of y of z", "", 0, ""),
        (7, 16),
        32,
        (0, 57),
        (24, 64),
    ),
    // Ten letters from the end, with at most a gap before each; then the letter of the match, with the gap before it.
    (&["z"], ("", "abc ", 3, "z"), (10, 22), 2, (1, 2), (11, 24)),
    // No match, no walk from any token; the text is walked once all the same.
    (
        &["abc z"],
        ("", "abc ", 3, "y"),
        (10, 22),
        0,
        (0, 0),
        (10, 22),
    ),
    (&[], ("", "abc ", 3, "y"), (10, 22), 0, (0, 0), (10, 22)),
    // A text that begins a template over and over and never ends it.
    (
        &["foo bar"],
        ("", "foo ", 1_000, ""),
        (3_000, 6_002),
        0,
        (0, 0),
        (3_000, 6_002),
    ),
    // Repetitions nested in one another could be read in very many ways.
    (
        &[r#"x <<var;name="v";original="";match="((a*)*)*">> y"#],
        ("x ", "a", 10_000, " z"),
        (10_002, 20_006),
        0,
        (0, 0),
        (10_002, 20_006),
    ),
];

/// Whether steps are as they were worked out.
fn are_steps(steps: &Steps, worked: &Worked) -> bool {
    let (_, _, new, next, later, all) = worked;
    is_within(steps.0, new)
        & (steps.1 <= *next)
        & is_within(steps.2.saturating_sub(steps.0), later)
        & is_within(steps.2, all)
}

fn try_steps(rt: &impl Abort, alloc: Global, worked: &Worked) -> Result<(), Fail> {
    let steps = count_steps(alloc, worked.0, &worked.1)?;
    assert!(rt; are_steps(&steps, worked), "{:?}: {steps:?}", worked.0);
    Ok(())
}

#[test]
fn counts_the_steps_of_worked_texts(rt: HostRuntime) -> Result<(), Fail> {
    for worked in WORKED {
        try_steps(&rt, rt.alloc(), worked)?;
    }
    Ok(())
}

/// The steps of a finder that has given its first match after a triple, if there is one.
fn first_steps(
    alloc: Global,
    set: &Set,
    text: &Text,
    after: Triple,
) -> Result<Option<u64>, AllocError> {
    let mut finder = Finder::resume(alloc, set, text, after)?;
    match finder.next() {
        Some(_) => Ok(Some(finder.steps())),
        None => Ok(None),
    }
}

/// Those of a match of one word at a text's end.
fn steps_to_first(alloc: Global, after: &Numbers) -> Result<Option<u64>, Fail> {
    let set = set_of(alloc, &["z"])?;
    let text = text_of(alloc, "abc abc abc z")?;
    Ok(first_steps(alloc, &set, &text, triple_of(after))?)
}

#[test]
fn counts_steps_from_where_it_begins(rt: HostRuntime) -> Result<(), Fail> {
    let all = steps_to_first(rt.alloc(), &(0, 0, 0))?;
    let later = steps_to_first(rt.alloc(), &(3, 2, 0))?;
    assert!(rt; later.is_some() && later < all);
    Ok(())
}
