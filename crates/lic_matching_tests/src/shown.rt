//! What tests show, and what is shown compared with what is wanted.

use lic_keys::RequiredEnds;
use lic_set::Triple;
use std::alloc::AllocError;
use std::fmt::Write;
use std::process::Abort;

/// Fails the test where what is shown of something is not what is wanted.
pub fn assert_same(rt: &impl Abort, shown: &str, wanted: &str, what: &str) {
    assert_eq!(rt; shown, wanted, "{what}");
}

/// Adds a number, and a blank.
pub fn add_number(shown: &mut String, number: usize) -> Result<(), AllocError> {
    write!(shown, "{number} ")
}

/// Adds a triple: its first token, its last token and its template.
pub fn add_triple(shown: &mut String, triple: Triple) -> Result<(), AllocError> {
    let (first, last, template) = (triple.first, triple.last, triple.template);
    write!(shown, "{first}-{last}-{template} ")
}

fn add_places(shown: &mut String, places: &[usize]) -> Result<(), AllocError> {
    for place in places {
        write!(shown, " {place}")?;
    }
    Ok(())
}

/// Adds the number of a template, and the places at which its required text ends if it has one.
pub fn add_candidate(
    shown: &mut String,
    number: usize,
    ends: &Option<RequiredEnds>,
) -> Result<(), AllocError> {
    write!(shown, "{number}:")?;
    if let Some(ends) = ends {
        add_places(shown, &ends.places)?;
    }
    shown.push_str("; ")
}
