//! Sets of templates: how they are numbered, and why one is refused.

ghost use Rattle.std.specs.Prelude.{All, IfOk};
ghost use Rattle.lic_set.specs.Candidates.{IsCandidateOf};

use crate::profile::{set_of, template_of, text_of};
use crate::shown::{add_candidate, assert_same};
use lic_keys::{Candidate, RequiredEnds};
use lic_markup::Template;
use lic_norm::Text;
use lic_set::Set;
use std::alloc::{AllocError, Global};
use std::fmt::Write;
use std::process::Abort;
use std::test::Fail;

/// A template of one word under it.
fn template_under(alloc: Global, id: &str) -> Result<(String, Template), Fail> {
    let template = template_of(alloc, id)?;
    Ok((id.to_string(alloc)?, template))
}

/// Adds templates under the identifiers `0`, `1` and so on.
fn add_numbered(
    alloc: Global,
    all: &mut Vec<(String, Template)>,
    count: usize,
) -> Result<(), Fail> {
    for number in 0..count {
        let id = format!(in alloc; "{number}")?;
        all.push(template_under(alloc, id.as_str())?)?;
    }
    Ok(())
}

/// Adds templates under these words.
fn add_named(alloc: Global, all: &mut Vec<(String, Template)>, ids: &str) -> Result<(), Fail> {
    for id in ids.split_whitespace() {
        all.push(template_under(alloc, id)?)?;
    }
    Ok(())
}

/// Templates of one word each, under the identifiers `0`, `1` and so on, and then under these words.
fn templates(alloc: Global, count: usize, ids: &str) -> Result<Vec<(String, Template)>, Fail> {
    let mut all = Vec::new(alloc);
    add_numbered(alloc, &mut all, count)?;
    add_named(alloc, &mut all, ids)?;
    Ok(all)
}

/// Adds an identifier and its template's original text.
fn add_template(shown: &mut String, id: &str, original: &str) -> Result<(), AllocError> {
    write!(shown, "{id}={original} ")
}

/// The identifiers of a set's templates, each with its template's original text.
fn named(alloc: Global, set: &Set) -> Result<String, AllocError> {
    let mut named = String::new(alloc);
    for k in 0..set.len() {
        add_template(&mut named, set.id(k), set.template(k).original())?;
    }
    Ok(named)
}

/// What a set is like: of many templates, how many they are.
fn shown_set(alloc: Global, count: usize, set: &Set) -> Result<String, AllocError> {
    if count > 0 {
        return format!(in alloc; "{} templates", set.len());
    }
    named(alloc, set)
}

/// What comes of templates: how they are numbered, or why they are no set.
fn reported(alloc: Global, count: usize, ids: &str) -> Result<String, Fail> {
    let templates = templates(alloc, count, ids)?;
    match Set::build(alloc, templates) {
        Ok(set) => Ok(shown_set(alloc, count, &set)?),
        Err(fault) => Ok(format!(in alloc; "{fault}")?),
    }
}

/// How many templates under numbers there are, the identifiers of others, and what comes of all.
const NAMED: &[(usize, &str, &str)] = &[
    (0, "", ""),
    // by the bytes of their identifiers
    (
        0,
        "b B ab \u{e9} a a-1",
        "B=B a=a a-1=a-1 ab=ab b=b \u{e9}=\u{e9} ",
    ),
    (4096, "", "4096 templates"),
    (0, "K L K", "B1: K"),
    (4093, "K K L", "B1: K"),
    (4094, "K K L", "B2: more than 4096 templates"),
    (4094, "K L M", "B2: more than 4096 templates"),
];

fn try_named(
    rt: &impl Abort,
    alloc: Global,
    count: usize,
    ids: &str,
    wanted: &str,
) -> Result<(), Fail> {
    let reported = reported(alloc, count, ids)?;
    assert_eq!(rt; reported.as_str(), wanted, "{count} and {ids}");
    Ok(())
}

#[test]
fn templates_are_numbered_or_no_set(rt: HostRuntime) -> Result<(), Fail> {
    for (count, ids, wanted) in NAMED {
        try_named(&rt, rt.alloc(), *count, ids, wanted)?;
    }
    Ok(())
}

/// Where the letters of a candidate's required text end in a text's canonical spelling.
fn ends_of(
    alloc: Global,
    set: &Set,
    text: &Text,
    candidate: &Candidate,
) -> Result<Option<RequiredEnds>, AllocError>
    requires { IsCandidateOf set.now text.now.tokens candidate.now }
{
    set.required_ends(alloc, text, candidate)
}

/// The candidates of a set for a text.
fn candidates_of(alloc: Global, set: &Set, text: &Text) -> Result<Vec<Candidate>, AllocError>
    ensures each { IfOk result (λ found. All (IsCandidateOf set.now text.now.tokens) found.items) }
{
    set.candidates(alloc, text)
}

/// Adds the templates of a set that can describe a range of a text, each with the places at which its required text ends.
fn add_candidates(
    alloc: Global,
    shown: &mut String,
    set: &Set,
    text: &Text,
) -> Result<(), AllocError> {
    let candidates = candidates_of(alloc, set, text)?;
    for candidate in &candidates {
        let ends = ends_of(alloc, set, text, candidate)?;
        add_candidate(shown, candidate.number, &ends)?;
    }
    Ok(())
}

/// Those of a set of templates and of a source.
fn shown_candidates(alloc: Global, texts: &[&str], source: &str) -> Result<String, Fail> {
    let set = set_of(alloc, texts)?;
    let text = text_of(alloc, source)?;
    let mut shown = String::new(alloc);
    add_candidates(alloc, &mut shown, &set, &text)?;
    Ok(shown)
}

/// Texts of templates, a source, and which templates can describe a range of it.
const CANDIDATES: &[(&[&str], &str, &str)] = &[
    (
        &[
            "foo bar",
            "foo",
            "<<beginOptional>>z<<endOptional>><<var;name=\"a\";original=\"b\";match=\".+\">>",
        ],
        "Foo BAR  foo",
        "0: 7; 1: 3 11; 2:; ",
    ),
    // with no blank beside a mark, wherever the source has one
    (
        &["licens", "( licens )"],
        "the license ( Licens )",
        "0: 10 18; 1: 19; ",
    ),
    (&["foo bar"], "foo the bar", ""),
    (&["foo bar"], "", ""),
];

fn try_candidates(
    rt: &impl Abort,
    alloc: Global,
    texts: &[&str],
    source: &str,
    wanted: &str,
) -> Result<(), Fail> {
    let shown = shown_candidates(alloc, texts, source)?;
    assert_same(rt, shown.as_str(), wanted, source);
    Ok(())
}

#[test]
fn a_set_rules_out_templates_for_a_text(rt: HostRuntime) -> Result<(), Fail> {
    for (texts, source, wanted) in CANDIDATES {
        try_candidates(&rt, rt.alloc(), texts, source, wanted)?;
    }
    Ok(())
}
