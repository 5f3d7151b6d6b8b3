//! Which templates are kept for a text by their required texts.

ghost use Rattle.std.specs.Prelude.{All, IfOk};
ghost use Rattle.lic_keys.specs.Candidates.{IsCandidateIn};

use crate::profile::template_of;
use crate::shown::{add_candidate, assert_same};
use lic_keys::{Candidate, Keys, RequiredEnds};
use lic_markup::Template;
use std::alloc::{AllocError, Global};
use std::process::Abort;
use std::test::Fail;

/// The templates of these texts.
fn templates_of(alloc: Global, texts: &[&str]) -> Result<Vec<Template>, Fail> {
    let mut templates = Vec::new(alloc);
    for text in texts {
        templates.push(template_of(alloc, text)?)?;
    }
    Ok(templates)
}

/// What is looked for of templates.
fn keys_of(alloc: Global, templates: &[Template]) -> Result<Keys, AllocError> {
    let mut all = Vec::new(alloc);
    for template in templates {
        all.push(template)?;
    }
    Keys::build(alloc, &all)
}

/// Where the letters of a candidate's required text end in a text in canonical spelling.
fn ends_of(
    alloc: Global,
    keys: &Keys,
    spelled: &[u8],
    candidate: &Candidate,
) -> Result<Option<RequiredEnds>, AllocError>
    requires { IsCandidateIn keys.now spelled.now candidate.now }
{
    keys.ends(alloc, spelled, candidate)
}

/// The candidates for a text in canonical spelling.
fn candidates_of(alloc: Global, keys: &Keys, spelled: &[u8]) -> Result<Vec<Candidate>, AllocError>
    ensures each { IfOk result (λ found. All (IsCandidateIn keys.now spelled.now) found.items) }
{
    keys.candidates(alloc, spelled)
}

fn add_candidates(
    alloc: Global,
    shown: &mut String,
    keys: &Keys,
    spelled: &[u8],
) -> Result<(), AllocError> {
    let candidates = candidates_of(alloc, keys, spelled)?;
    for candidate in &candidates {
        let ends = ends_of(alloc, keys, spelled, candidate)?;
        add_candidate(shown, candidate.number, &ends)?;
    }
    Ok(())
}

/// Adds the candidates of templates for a text in canonical spelling.
fn add_kept(
    alloc: Global,
    shown: &mut String,
    templates: &[Template],
    spelled: &str,
) -> Result<(), AllocError> {
    let keys = keys_of(alloc, templates)?;
    add_candidates(alloc, shown, &keys, spelled.as_bytes())
}

/// The numbers of the templates that cannot be ruled out for this text in canonical spelling, each with the places at which its
/// required text ends.
fn shown_kept(alloc: Global, texts: &[&str], spelled: &str) -> Result<String, Fail> {
    let templates = templates_of(alloc, texts)?;
    let mut shown = String::new(alloc);
    add_kept(alloc, &mut shown, &templates, spelled)?;
    Ok(shown)
}

const MIT: &str = "Permission is hereby granted, free of charge";

const BSD: &str = "Redistribution and use in source and binary forms";

/// Templates, a text, and which templates are kept, with the places at which their texts end.
const WORKED: &[(&[&str], &str, &str)] = &[
    (
        &[MIT, BSD],
        "permission is hereby granted,free of charge",
        "0: 43; ",
    ),
    (
        &[MIT, BSD],
        "so redistribution and use in source and binary forms go",
        "1: 52; ",
    ),
    (&[MIT, BSD], "permission is not hereby granted free", ""),
    (&[MIT, BSD], "a", ""),
    (&[MIT, BSD], "", ""),
    // at both ends of a text, side by side
    (&["foo bar"], "foo barfoo bar", "0: 7 14; "),
    // a text of less than four letters is always looked for, and that of an optional part is not
    (
        &[
            "abcdefgh ijklmno",
            "foo",
            "<<beginOptional>>Redistribution and use in source and binary forms<<endOptional>> x",
            "<<beginOptional>>z<<endOptional>><<var;name=\"a\";original=\"b\";match=\".+\">>",
        ],
        "y foo",
        "1: 5; 2:; 3:; ",
    ),
];

fn try_texts(
    rt: &impl Abort,
    alloc: Global,
    texts: &[&str],
    spelled: &str,
    wanted: &str,
) -> Result<(), Fail> {
    let shown = shown_kept(alloc, texts, spelled)?;
    assert_same(rt, shown.as_str(), wanted, spelled);
    Ok(())
}

#[test]
fn keeps_the_templates_whose_text_occurs(rt: HostRuntime) -> Result<(), Fail> {
    for (texts, spelled, wanted) in WORKED {
        try_texts(&rt, rt.alloc(), texts, spelled, wanted)?;
    }
    Ok(())
}
