//! Texts in which the search leaves a template to the finder.

use crate::asked::Asked;
use crate::forms::found;
use crate::profile::Profile;
use crate::wanted::differing_form;
use lic_norm::Text;
use lic_search::all_matches;
use lic_set::Set;
use std::alloc::{AllocError, Global};
use std::test::Fail;

/// The numbers of the templates that the search leaves to the finder.
pub fn left_in(alloc: Global, set: &Set, text: &Text) -> Result<Vec<usize>, AllocError> {
    let matches = all_matches(alloc, set, text)?;
    Ok(matches.left)
}

/// A word `count` times.
fn repeated(alloc: Global, word: &str, count: u64) -> Result<String, AllocError> {
    let mut text = String::new(alloc);
    for _ in 0..count {
        text.push_str(word)?;
    }
    Ok(text)
}

/// How many matches a set has in a text, which templates are left to the finder, and a form that
/// does not give what it has to.
fn shown_in(alloc: Global, set: &Set, text: &Text) -> Result<String, Fail> {
    let all = found(alloc, set, text)?;
    let left = left_in(alloc, set, text)?;
    let differing = differing_form(alloc, set, text, &all, Asked::in_middle(&all))?;
    Ok(format!(in alloc; "{} {left:?} {differing:?}", all.len())?)
}

/// The same of templates and the source of a text.
fn shown(alloc: Global, templates: &[&str], source: &str) -> Result<String, Fail> {
    let profile = Profile::new(alloc, "")?;
    let Some(set) = profile.set(alloc, templates)? else {
        return Err(Fail::from("refused"));
    };
    let text = profile.text(alloc, source)?;
    shown_in(alloc, &set, &text)
}

#[test]
fn leaves_templates_to_the_finder(rt: HostRuntime) -> Result<(), Fail> {
    let table: &[(&[&str], &str, u64, &str)] = &[
        // each range is a match of the first template, and each of two tokens one of the second:
        // 150 * 151 / 2 + 149
        (
            &[
                "a <<var;name=v;original=o;match=.{0,300}>><<var;name=w;original=o;match=.{0,300}>>",
                "a a",
            ],
            "a ",
            150,
            "11474 [0] None",
        ),
        // each range of an even number of tokens is a match of the first and a bundle of its own, and each
        // token one of the second: 520 * 520 + 1,040
        (
            &["x <<var;name=v;original=o;match=x( x x)*>>", "x"],
            "x ",
            1_040,
            "271440 [0] None",
        ),
    ];
    for (templates, word, count, expected) in table {
        let source = repeated(rt.alloc(), word, *count)?;
        let shown = shown(rt.alloc(), templates, source.as_str())?;
        assert_eq!(rt; shown.as_str(), *expected, "{templates:?}");
    }
    Ok(())
}
