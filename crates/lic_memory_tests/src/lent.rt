//! What is lent to the calls: templates, and a set and a text that were made with a list and rules.

use crate::refused::{Refused, retried};
use lic_kind::Rules;
use lic_markup::{Template, read_template};
use lic_norm::{Text, Words};
use lic_set::Set;
use std::alloc::{AllocError, Global};
use std::process::Abort;

/// Identifiers and texts of templates.
pub type Templates<'a> = &'a [(&'a str, &'a str)];

/// A text alone.
pub const ONE: Templates<'static> = &[("A", "foo bar")];

/// A part that may be left out, with another in it.
pub const OPTIONAL: Templates<'static> = &[(
    "O",
    "a<<beginOptional>> b<<beginOptional>> c<<endOptional>><<endOptional>> d",
)];

/// Two templates that describe the same tokens.
pub const TWO: Templates<'static> = &[
    ("A", "foo bar"),
    ("B", r#"foo <<var;name="w";original="bar";match="[a-z]+">>"#),
];

/// A word between two variables of any text.
pub const OF: Templates<'static> = &[(
    "V",
    r#"<<var;name="a";original="p";match=".+">> of <<var;name="b";original="q";match=".+">>"#,
)];

/// A pattern with sets, bounds, a choice and a group.
pub const CHOICE: Templates<'static> = &[(
    "C",
    r#"<<var;name="c";original="y";match="[^d-z]x{2,3}|(y|z)*">> end"#,
)];

/// Templates of which the last does not describe its original text.
pub const CHECKED: Templates<'static> = &[
    ("A", "foo bar"),
    ("C", r#"<<var;name="v";original="";match=".{0,5}">> end"#),
    ("Z", r#"<<var;name="z";original="12";match="[a-z]+">> end"#),
];

/// A list of equivalent words, and rules.
#[derive(Drop)]
pub struct Lists {
    pub words: Words,
    pub rules: Rules,
}

/// No words, and the rules of the profile.
pub fn profile(alloc: Global) -> Lists {
    Lists {
        words: Words::none(alloc),
        rules: Rules::profile(alloc),
    }
}

/// A template under its identifier.
fn template_of(
    alloc: Global,
    id: &str,
    text: &str,
    lists: &Lists,
) -> Result<(String, Template), Refused> {
    let read = read_template(alloc, text, &lists.words, &lists.rules);
    let template = read.map_err(Refused::Template)?;
    Ok((id.to_string(alloc)?, template))
}

/// A set, by a list and rules that are lent.
pub fn set_of(alloc: Global, templates: Templates<'_>, lists: &Lists) -> Result<Set, Refused> {
    let mut all = Vec::new(alloc);
    for (id, text) in templates {
        let template = template_of(alloc, id, text, lists)?;
        all.push(template).map_err(AllocError::from)?;
    }
    Set::build(alloc, all).map_err(Refused::Set)
}

/// A text, by a list and rules that are lent.
pub fn text_of(alloc: Global, input: &[u8], lists: &Lists) -> Result<Text, Refused> {
    let bytes = input.to_vec(alloc)?;
    Text::read(alloc, bytes, &lists.words, &lists.rules).map_err(Refused::Text)
}

/// Puts a set where the caller says, since `retried` gives what can be dropped whatever it is, and a set is dropped as a set alone.
fn lend_set(
    alloc: Global,
    templates: Templates<'_>,
    lists: &Lists,
    lent: &mut Option<Set>,
) -> Result<(), Refused> {
    *lent = Some(set_of(alloc, templates, lists)?);
    Ok(())
}

/// A set; made again if memory runs out.
pub fn set_lent(rt: &impl Abort, alloc: Global, templates: Templates<'_>, lists: &Lists) -> Set {
    let mut lent = None;
    retried(rt, || lend_set(alloc, templates, lists, &mut lent));
    lent.expect(rt, "a set")
}

/// A text; made again if memory runs out.
pub fn text_lent(rt: &impl Abort, alloc: Global, input: &[u8], lists: &Lists) -> Text {
    retried(rt, || text_of(alloc, input, lists))
}
