//! The values of matches.

use crate::profile::{set_of, text_of};
use crate::shown::assert_same;
use lic_find::is_match;
use lic_norm::{Span, Text};
use lic_set::{Set, Triple};
use lic_vars::{Value, assign};
use std::alloc::{AllocError, Global};
use std::fmt::Write;
use std::process::Abort;
use std::test::Fail;

/// Adds a value, as `name start end`, or `name -`.
fn add_value(shown: &mut String, name: &str, span: Option<Span>) -> Result<(), AllocError> {
    shown.push_str(name)?;
    match span {
        Some(span) => write!(shown, " {} {};", span.start, span.end),
        None => shown.push_str(" -;"),
    }
}

fn add_values(shown: &mut String, values: &[Value<'_>]) -> Result<(), AllocError> {
    for value in values {
        add_value(shown, value.name, value.span)?;
    }
    Ok(())
}

/// Adds those of a match.
fn add_match(
    alloc: Global,
    shown: &mut String,
    set: &Set,
    text: &Text,
    triple: Triple,
) -> Result<(), Fail> {
    if !is_match(alloc, set, text, triple)? {
        return Err(Fail::from("no match"));
    }
    let values = assign(alloc, set, text, triple)?;
    Ok(add_values(shown, &values)?)
}

/// Those of a match of a template in a source.
fn shown_of(
    alloc: Global,
    template: &str,
    source: &str,
    first: usize,
    last: usize,
) -> Result<String, Fail> {
    let triple = Triple {
        first,
        last,
        template: 0,
    };
    let set = set_of(alloc, &[template])?;
    let text = text_of(alloc, source)?;
    let mut shown = String::new(alloc);
    add_match(alloc, &mut shown, &set, &text, triple)?;
    Ok(shown)
}

const TWO: &str =
    r#"<<var;name="a";original="p";match=".+">> of <<var;name="b";original="q";match=".+">>"#;

const BEFORE: &str = r#"<<var;name="c";original="";match=".{0,5000}">> foo bar"#;

const LAST: &str = r#"q<<beginOptional>> b<<endOptional>> <<var;name="v";original="";match=".*">>"#;

const ABSENT: &str =
    r#"q <<beginOptional>><<var;name="w";original="";match="z">><<endOptional>><<var;name="v";original="";match=".*">>"#;

/// Matches that no default report has, since shorter ones lie within them, and their values.
const WORKED: &[(&str, &str, usize, usize, &str)] = &[
    (TWO, "x of y of z", 0, 4, "a 0 1;b 5 11;"),
    (TWO, "x of y of z", 0, 2, "a 0 1;b 5 6;"),
    (BEFORE, "x y foo bar", 0, 3, "c 0 3;"),
    (BEFORE, "x y foo bar", 2, 3, "c -;"),
    (LAST, "q b", 0, 1, "v -;"),
    (ABSENT, "q b", 0, 1, "w -;v 2 3;"),
];

fn try_match(
    rt: &impl Abort,
    alloc: Global,
    template: &str,
    source: &str,
    first: usize,
    last: usize,
    wanted: &str,
) -> Result<(), Fail> {
    let shown = shown_of(alloc, template, source, first, last)?;
    assert_same(rt, shown.as_str(), wanted, source);
    Ok(())
}

#[test]
fn values_are_those_of_the_least_record(rt: HostRuntime) -> Result<(), Fail> {
    for (template, source, first, last, wanted) in WORKED {
        try_match(&rt, rt.alloc(), template, source, *first, *last, wanted)?;
    }
    Ok(())
}
