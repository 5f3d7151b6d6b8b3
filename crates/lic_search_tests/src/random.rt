//! Random templates in random texts: each form of matching against the finder's list of all matches.

use crate::asked::Asked;
use crate::forms::found;
use crate::left::left_in;
use crate::made::{source, template};
use crate::profile::Profile;
use crate::seed::Seed;
use crate::tally::{Case, Tally};
use crate::wanted::differing_form;
use lic_norm::Text;
use lic_set::{Set, Triple};
use std::alloc::{AllocError, Global};
use std::test::Fail;

/// How cases are made.
#[derive(Clone, Copy)]
enum Kind {
    /// Sets of three random templates, each in three texts of 2 to 25 words and marks.
    Short,
    /// Sets of two random templates and one that the search leaves to the finder, each in a text of
    /// 230 to 279 words and marks.
    Long,
}

impl Kind {
    /// How many sets are tried.
    fn sets(self) -> u64 {
        match self {
            Kind::Short => 1_300,
            Kind::Long => 40,
        }
    }

    /// In how many texts each set is tried.
    fn texts(self) -> u64 {
        match self {
            Kind::Short => 3,
            Kind::Long => 1,
        }
    }

    /// Of how many words and marks a text is made.
    fn length(self, seed: &mut Seed) -> u64 {
        match self {
            Kind::Short => seed.below(24).saturating_add(2),
            Kind::Long => seed.below(50).saturating_add(230),
        }
    }
}

/// A template that the search leaves to the finder in a long text, as two wide counts are side by
/// side in it.
const WIDE: &str =
    "a<<var;name=v;original=o;match=.{0,300}>><<var;name=w;original=o;match=.{0,300}>>";

/// The third template of a set.
fn third_template(alloc: Global, kind: Kind, seed: &mut Seed) -> Result<String, AllocError> {
    match kind {
        Kind::Short => template(alloc, seed),
        Kind::Long => String::from_str(alloc, WIDE),
    }
}

/// The templates of the set of a number.
fn shown_templates(alloc: Global, kind: Kind, number: u64) -> Result<String, Fail> {
    let mut seed = Seed::of(number);
    let first = template(alloc, &mut seed)?;
    let second = template(alloc, &mut seed)?;
    let third = third_template(alloc, kind, &mut seed)?;
    Ok(format!(in alloc; "{first:?} {second:?} {third:?}")?)
}

/// A random set, or none if one of its templates is refused.
fn random_set(
    alloc: Global,
    profile: &Profile,
    kind: Kind,
    seed: &mut Seed,
) -> Result<Option<Set>, Fail> {
    let first = template(alloc, seed)?;
    let second = template(alloc, seed)?;
    let third = third_template(alloc, kind, seed)?;
    profile.set(alloc, &[first.as_str(), second.as_str(), third.as_str()])
}

/// What a set shows in a text, whose source this is.
fn case_in(
    alloc: Global,
    set: &Set,
    text: &Text,
    source: &str,
    seed: &mut Seed,
) -> Result<Case, Fail> {
    let all = found(alloc, set, text)?;
    let asked = Asked::random(seed, text.len(), &all);
    Ok(Case {
        matched: !all.is_empty(),
        left: !left_in(alloc, set, text)?.is_empty(),
        differing: difference(alloc, set, text, source, &all, asked)?,
    })
}

/// A form that does not give what it has to, what was asked for, and the source of the text.
fn difference(
    alloc: Global,
    set: &Set,
    text: &Text,
    source: &str,
    all: &[Triple],
    asked: Asked,
) -> Result<Option<String>, Fail> {
    match differing_form(alloc, set, text, all, asked)? {
        Some(form) => Ok(Some(format!(in alloc; "{form:?} by {asked:?} in {source:?}")?)),
        None => Ok(None),
    }
}

/// What a set shows in a random text.
fn random_case(
    alloc: Global,
    profile: &Profile,
    kind: Kind,
    set: &Set,
    seed: &mut Seed,
) -> Result<Case, Fail> {
    let length = kind.length(seed);
    let source = source(alloc, seed, length)?;
    let text = profile.text(alloc, source.as_str())?;
    case_in(alloc, set, &text, source.as_str(), seed)
}

/// Adds what the set of a number shows in random texts.
fn add_texts(
    alloc: Global,
    profile: &Profile,
    kind: Kind,
    number: u64,
    set: &Set,
    seed: &mut Seed,
    tally: &mut Tally,
) -> Result<(), Fail> {
    for _ in 0..kind.texts() {
        tally.add(number, random_case(alloc, profile, kind, set, seed)?);
    }
    Ok(())
}

/// Adds what the set of a number shows, if no template of it is refused.
fn add_set(
    alloc: Global,
    profile: &Profile,
    kind: Kind,
    number: u64,
    tally: &mut Tally,
) -> Result<(), Fail> {
    let mut seed = Seed::of(number);
    match random_set(alloc, profile, kind, &mut seed)? {
        Some(set) => add_texts(alloc, profile, kind, number, &set, &mut seed, tally),
        None => Ok(()),
    }
}

/// What all sets of a kind show.
fn tally_of(alloc: Global, kind: Kind) -> Result<Tally, Fail> {
    let profile = Profile::new(alloc, "")?;
    let mut tally = Tally::new(alloc);
    for number in 0..kind.sets() {
        add_set(alloc, &profile, kind, number, &mut tally)?;
    }
    Ok(tally)
}

#[test]
fn each_form_gives_what_the_finder_says(rt: HostRuntime) -> Result<(), Fail> {
    let tally = tally_of(rt.alloc(), Kind::Short)?;
    let templates = shown_templates(rt.alloc(), Kind::Short, tally.last_set)?;
    assert_eq!(rt; tally.differing, 0, "{templates}: {}", tally.last);
    assert!(rt;
        tally.cases > 3_000 && tally.matched > 1_500,
        "{} with matches of {}",
        tally.matched,
        tally.cases
    );
    Ok(())
}

#[test]
fn each_form_gives_what_the_finder_says_where_a_template_is_left(
    rt: HostRuntime,
) -> Result<(), Fail> {
    let tally = tally_of(rt.alloc(), Kind::Long)?;
    let templates = shown_templates(rt.alloc(), Kind::Long, tally.last_set)?;
    assert_eq!(rt; tally.differing, 0, "{templates}: {}", tally.last);
    assert!(rt;
        tally.cases > 30 && tally.left == tally.cases,
        "{} with a template that is left of {}",
        tally.left,
        tally.cases
    );
    Ok(())
}
