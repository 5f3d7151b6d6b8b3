//! Tight matches in worked texts, and each form of matching against the finder's list of all matches.

use crate::asked::Asked;
use crate::forms::{Form, found, given};
use crate::profile::Profile;
use crate::wanted::differing_form;
use lic_norm::Text;
use lic_set::{Set, Triple};
use std::alloc::Global;
use std::fmt::Write;
use std::test::Fail;

/// One text and its tight matches, each as template, first token and last token.
type Worked<'a> = (&'a [&'a str], &'a str, &'a str);

/// Triples, each as template, first token and last token.
fn listed(alloc: Global, triples: &[Triple]) -> Result<String, Fail> {
    let mut listed = String::new(alloc);
    for triple in triples {
        write!(
            listed,
            "{}:{}-{} ",
            triple.template, triple.first, triple.last
        )?;
    }
    Ok(listed)
}

/// The tight matches of a set in a text, where each form of matching gives what it has to; else a
/// form that does not.
fn shown_in(alloc: Global, set: &Set, text: &Text) -> Result<String, Fail> {
    let all = found(alloc, set, text)?;
    let asked = Asked::in_middle(&all);
    if let Some(form) = differing_form(alloc, set, text, &all, asked)? {
        return Ok(format!(in alloc; "{form:?}")?);
    }
    listed(alloc, &given(alloc, Form::Tight, set, text, asked)?)
}

/// The same of templates and the source of a text, with these equivalent words.
fn shown(alloc: Global, templates: &[&str], source: &str, list: &str) -> Result<String, Fail> {
    let profile = Profile::new(alloc, list)?;
    let Some(set) = profile.set(alloc, templates)? else {
        return Err(Fail::from("refused"));
    };
    let text = profile.text(alloc, source)?;
    shown_in(alloc, &set, &text)
}

#[test]
fn finds_the_tight_matches_of_worked_texts(rt: HostRuntime) -> Result<(), Fail> {
    let table: &[Worked] = &[
        // none to five letters, blanks counted
        (
            &["a <<var;name=v;original=o;match=.{0,5}>> b"],
            "a b x a xx b",
            "0:0-1 0:3-5 ",
        ),
        (
            &["a <<var;name=v;original=o;match=.+>> b"],
            "a b x b",
            "0:0-3 ",
        ),
        (
            &["a <<var;name=v;original=o;match=.*>> b"],
            "a a b b",
            "0:1-2 ",
        ),
        // a blank may be written between `a` and the dash, and counts then
        (
            &["( <<var;name=v;original=o;match=.{3,80}>> )"],
            "x ( a - ) ( ab ) ( abc )",
            "0:1-4 0:8-10 ",
        ),
        (
            &[
                "by <<var;name=v;original=o;match=.{3,80}>> - <<var;name=w;original=o;match=[a-z]{3}>>.",
            ],
            "by ab - def. by a-b - def.",
            "0:5-11 ",
        ),
        (
            &[
                "gpl <<var;name=v;original=o;match=[a-z0-9]+( with [a-z]+)?>>",
                "gpl <<var;name=v;original=o;match=[a-z0-9]+( with [a-z]+)?>> only",
            ],
            "gpl 2 with classpath only",
            "0:0-1 1:0-4 ",
        ),
        (
            &["x <<var;name=v;original=o;match=(a|b){2,3}>> y"],
            "x ab y x a b y x abab y x bba y",
            "0:0-2 0:10-12 ",
        ),
        (
            &["x <<beginOptional>>a <<beginOptional>>b<<endOptional>> c<<endOptional>> y"],
            "x y x a c y x a b c y x a b y",
            "0:0-1 0:2-5 0:6-10 ",
        ),
        // variables that touch letters
        (
            &["ab<<var;name=v;original=o;match=[0-9]{1,3}>>cd"],
            "ab12cd ab 12 cd abcd ab1234cd",
            "0:0-0 ",
        ),
        (
            &["ab<<var;name=v;original=o;match=.{1,3}>>cd"],
            "ab.cd abxcd ab x cd",
            "0:0-2 0:3-3 ",
        ),
        // a blank that the pattern does not have
        (
            &["a <<var;name=v;original=o;match=[a-z]+>> b"],
            "a x y b a x b",
            "0:4-6 ",
        ),
        // one match ends with the token with which the next begins
        (
            &["<<var;name=v;original=o;match=.+>> of <<var;name=w;original=o;match=.+>>"],
            "x of y of z",
            "0:0-2 0:2-4 ",
        ),
        (
            &["x y", "x", "x y z", "y"],
            "X y z x",
            "1:0-0 0:0-1 2:0-2 3:1-1 1:3-3 ",
        ),
        (
            &["\u{E9}t\u{E9} <<var;name=v;original=o;match=.{1,2}>> \u{4E2D}"],
            "x \u{C9}t\u{C9} \u{E9} \u{4E2D} \u{4E2D}",
            "0:1-3 ",
        ),
        // at either end of a text
        (&["foo"], "foo bar foo", "0:0-0 0:2-2 "),
        (&["foo <<var;name=v;original=o;match=.+>>"], "bar foo", ""),
        (
            &["foo <<var;name=v;original=o;match=.*>>"],
            "bar foo",
            "0:1-1 ",
        ),
        (
            &["<<var;name=v;original=o;match=.{0,4}>> foo"],
            "foo bar foo",
            "0:0-0 0:2-2 ",
        ),
        (&["foo <<var;name=v;original=o;match=.*>>"], "", ""),
        (&[], "foo", ""),
        (
            &["x <<var;name=v;original=o;match=((a*)*)*>> y"],
            "x aaa y x y x a a y",
            "0:0-2 0:3-4 ",
        ),
        (
            &["x <<var;name=v;original=o;match=a( b)*>> y"],
            "x a b b y x a y",
            "0:0-4 0:5-7 ",
        ),
        (
            &["x <<var;name=v;original=o;match=(a|b c|)>> y"],
            "x y x b c y x a y",
            "0:0-1 0:2-5 0:6-8 ",
        ),
        (
            &["x <<var;name=v;original=o;match=[^a]+>> y"],
            "x b. y x a y x c.",
            "0:0-3 ",
        ),
    ];
    for (templates, source, expected) in table {
        let shown = shown(rt.alloc(), templates, source, "")?;
        assert_eq!(rt; shown.as_str(), *expected, "{templates:?} in {source}");
    }
    Ok(())
}

/// Templates of a text in which two words are one token with a blank in it, where they are equivalent to one word.
const SUB: &[&str] = &[
    "sub license is",
    "license is",
    "the <<var;name=v;original=o;match=[a-z ]+>> is",
    "the <<var;name=v;original=o;match=[a-z]+>> is",
];

#[test]
fn finds_matches_at_tokens_with_a_blank(rt: HostRuntime) -> Result<(), Fail> {
    let table: &[(&str, &str)] = &[
        ("", "2:0-3 0:1-3 1:2-3 "),
        ("sub license,sublicense\n", "2:0-2 0:1-2 "),
    ];
    for (list, expected) in table {
        let shown = shown(rt.alloc(), SUB, "the sub license is", list)?;
        assert_eq!(rt; shown.as_str(), *expected, "with {list}");
    }
    Ok(())
}
