//! Which templates describe the tokens so far, or a beginning of them.
ghost use Rattle.std.specs.Prelude.{IsTrue};
ghost use Rattle.lic_phrases.specs.TokenTexts.{IsTokenText};

use crate::profile::set_of;
use crate::shown::{add_number, assert_same};
use lic_auto::{Back, Run};
use lic_set::Set;
use std::alloc::{AllocError, Global};
use std::process::Abort;
use std::test::Fail;

/// Whether the text is that of a token without a blank.
fn is_plain(text: &str) -> bool
    ensures { IsTrue result → IsTokenText text.now }
{
    for byte in text.as_bytes() {
        if *byte == b' ' {
            return false;
        }
    }
    !text.is_empty()
}

/// Takes a token.
fn push(run: &mut Run<'_>, token: &str) -> Result<(), Fail> {
    if !is_plain(token) {
        return Err(Fail::from("no token"));
    }
    run.push(token);
    Ok(())
}

/// Takes the tokens of a list, in which one blank parts two.
fn push_all(run: &mut Run<'_>, tokens: &str) -> Result<(), Fail> {
    for token in tokens.split_whitespace() {
        push(run, token)?;
    }
    Ok(())
}

const TWO: &[&str] = &[
    "foo bar",
    r#"foo <<var;name="w";original="bar";match="[a-z]+">>"#,
];

/// Adds the number of a template, or `-` if there is none.
fn add_accepted(shown: &mut String, number: Option<usize>) -> Result<(), AllocError> {
    match number {
        Some(number) => add_number(shown, number),
        None => shown.push_str("- "),
    }
}

/// Adds which template is the least from 0, from 1 and from 2 that describes the tokens, and whether the run is dead.
fn add_state(shown: &mut String, run: &Run<'_>) -> Result<(), AllocError> {
    for from in 0..3 {
        add_accepted(shown, run.accepted(from))?;
    }
    shown.push_str(if run.dead() { "dead; " } else { "live; " })
}

/// Adds what a run says of each of these lists of tokens; it begins anew for each.
fn add_lists(shown: &mut String, run: &mut Run<'_>, lists: &[&str]) -> Result<(), Fail> {
    for tokens in lists {
        push_all(run, tokens)?;
        add_state(shown, run)?;
        run.reset();
    }
    Ok(())
}

/// Adds what a new run says of each of these lists of tokens.
fn add_run(alloc: Global, shown: &mut String, set: &Set, lists: &[&str]) -> Result<(), Fail> {
    let mut run = Run::new(alloc, set)?;
    add_lists(shown, &mut run, lists)
}

/// What a run says of each of these lists of tokens.
fn shown_lists(alloc: Global, templates: &[&str], lists: &[&str]) -> Result<String, Fail> {
    let set = set_of(alloc, templates)?;
    let mut shown = String::new(alloc);
    add_run(alloc, &mut shown, &set, lists)?;
    Ok(shown)
}

/// The steps of a new run, once it has taken the tokens, and once it begins anew.
fn steps(run: &mut Run<'_>, tokens: &str) -> Result<(u64, u64, u64), Fail> {
    let new = run.steps();
    push_all(run, tokens)?;
    let taken = run.steps();
    run.reset();
    Ok((new, taken, run.steps()))
}

/// Those of a run of a set.
fn steps_over(alloc: Global, set: &Set, tokens: &str) -> Result<(u64, u64, u64), Fail> {
    let mut run = Run::new(alloc, set)?;
    steps(&mut run, tokens)
}

/// Those of a run of two templates.
fn steps_of_two(alloc: Global, tokens: &str) -> Result<(u64, u64, u64), Fail> {
    let set = set_of(alloc, TWO)?;
    steps_over(alloc, &set, tokens)
}

#[test]
fn letters_and_gaps_are_steps(rt: HostRuntime) -> Result<(), Fail> {
    // each token has three letters, and a gap before the first of them
    assert_eq!(rt; steps_of_two(rt.alloc(), "foo bar")?, (0, 8, 8));
    Ok(())
}

/// A word and then more; a mark; one word that is the whole template; a variable; an optional word in front.
const HEADS: &[&str] = &[
    "foo bar",
    "[x] foo",
    "foo",
    r#"<<var;name="w";original="bar";match="[a-z]{3}">>!"#,
    "<<beginOptional>>The <<endOptional>>foo.bar",
];

/// Templates, lists of tokens, and what a run says of each.
const LISTS: &[(&[&str], &[&str], &str)] = &[
    (
        TWO,
        &["", "foo bar", "foo bar x", "foo", "", "bar", "foo qux"],
        "- - - live; 0 1 - live; - - - dead; - - - live; - - - live; - - - dead; 1 1 - live; ",
    ),
    (
        HEADS,
        &[
            "foo bar",
            "[ x ] foo",
            "foo",
            "foo !",
            "qux !",
            "foo . bar",
            "the foo . bar",
            "the",
            "[[",
            "foob ar",
        ],
        "0 - - live; 1 1 - live; 2 2 2 live; 3 3 3 live; 3 3 3 live; 4 4 4 live; 4 4 4 live; \
            - - - live; - - - dead; - - - dead; ",
    ),
];

fn try_lists(
    rt: &impl Abort,
    alloc: Global,
    templates: &[&str],
    lists: &[&str],
    wanted: &str,
) -> Result<(), Fail> {
    let shown = shown_lists(alloc, templates, lists)?;
    assert_same(rt, shown.as_str(), wanted, "lists of tokens");
    Ok(())
}

#[test]
fn templates_are_reported_in_order(rt: HostRuntime) -> Result<(), Fail> {
    for (templates, lists, wanted) in LISTS {
        try_lists(&rt, rt.alloc(), templates, lists, wanted)?;
    }
    Ok(())
}

/// Takes a token at the front.
fn push_front(back: &mut Back<'_>, token: &str) -> Result<(), Fail> {
    if !is_plain(token) {
        return Err(Fail::from("no token"));
    }
    back.push_front(token);
    Ok(())
}

fn add_numbers(shown: &mut String, numbers: &[usize]) -> Result<(), AllocError> {
    for number in numbers {
        add_number(shown, *number)?;
    }
    Ok(())
}

/// Adds the live templates of a machine, and whether it has any.
fn add_live(shown: &mut String, back: &Back<'_>) -> Result<(), AllocError> {
    add_numbers(shown, back.live_numbers())?;
    shown.push_str(if back.live() { "live; " } else { "dead; " })
}

/// Adds what the machine answers after each token, taken from the end, and once it has begun anew.
fn add_tokens(shown: &mut String, back: &mut Back<'_>, tokens: &[&str]) -> Result<(), Fail> {
    for token in tokens {
        push_front(back, token)?;
        add_live(shown, back)?;
    }
    back.reset();
    Ok(add_live(shown, back)?)
}

/// Adds what a new machine answers.
fn add_back(alloc: Global, shown: &mut String, set: &Set, tokens: &[&str]) -> Result<(), Fail> {
    let mut back = Back::new(alloc, set)?;
    add_tokens(shown, &mut back, tokens)
}

/// What a machine of two templates answers.
fn shown_from_the_end(alloc: Global, tokens: &[&str]) -> Result<String, Fail> {
    let set = set_of(alloc, TWO)?;
    let mut shown = String::new(alloc);
    add_back(alloc, &mut shown, &set, tokens)?;
    Ok(shown)
}

/// Tokens from the end of a text, and what the machine answers after each.
const BACK: &[(&[&str], &str)] = &[
    (
        &["x", "bar", "foo", "foo", "!"],
        "dead; dead; 0 1 live; 1 live; dead; dead; ",
    ),
    // letter by letter
    (
        &["car", "bar", "food", "bar", "foo"],
        "dead; dead; dead; dead; 0 1 live; dead; ",
    ),
];

fn try_from_the_end(
    rt: &impl Abort,
    alloc: Global,
    tokens: &[&str],
    wanted: &str,
) -> Result<(), Fail> {
    let shown = shown_from_the_end(alloc, tokens)?;
    assert_same(rt, shown.as_str(), wanted, "tokens from the end");
    Ok(())
}

#[test]
fn a_run_from_the_end_says_what_begins_here(rt: HostRuntime) -> Result<(), Fail> {
    for (tokens, wanted) in BACK {
        try_from_the_end(&rt, rt.alloc(), tokens, wanted)?;
    }
    Ok(())
}
