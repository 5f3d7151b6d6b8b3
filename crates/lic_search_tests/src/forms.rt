//! The forms of matching, and what each gives.

use crate::asked::Asked;
use crate::chosen::chosen_numbers;
use lic_find::Finder;
use lic_norm::Text;
use lic_report::AllMatches;
use lic_search::tight_matches;
use lic_set::{Set, Triple};
use std::alloc::{AllocError, Global};

/// A form of matching.
#[derive(Clone, Copy, Debug)]
pub enum Form {
    /// The tight matches, by the search.
    Tight,
    /// All matches, by the search, and by the finder for templates that have too many.
    All,
    /// Those of all matches that come after a triple.
    After,
    /// What the finder gives after a triple.
    Resumed,
    /// What the finder gives of some templates.
    Over,
    /// What the finder gives of some templates after a triple.
    OverAfter,
}

/// Each form.
pub const FORMS: &[Form] = &[
    Form::Tight,
    Form::All,
    Form::After,
    Form::Resumed,
    Form::Over,
    Form::OverAfter,
];

/// What a form gives.
pub fn given(
    alloc: Global,
    form: Form,
    set: &Set,
    text: &Text,
    asked: Asked,
) -> Result<Vec<Triple>, AllocError> {
    match form {
        Form::Tight => tight_matches(alloc, set, text),
        Form::All => all_matches(alloc, set, text, None),
        Form::After => all_matches(alloc, set, text, Some(asked.after)),
        Form::Resumed => resumed(alloc, set, text, asked.after),
        Form::Over => over(alloc, set, text, asked.choice, None),
        Form::OverAfter => over(alloc, set, text, asked.choice, Some(asked.after)),
    }
}

/// All matches, by the finder: what the forms are compared with.
pub fn found(alloc: Global, set: &Set, text: &Text) -> Result<Vec<Triple>, AllocError> {
    listed(alloc, Finder::new(alloc, set, text)?)
}

// All matches, or those after a triple.
fn all_matches(
    alloc: Global,
    set: &Set,
    text: &Text,
    after: Option<Triple>,
) -> Result<Vec<Triple>, AllocError> {
    let mut all = Vec::new(alloc);
    for triple in AllMatches::new(alloc, set, text, after)? {
        all.push(triple)?;
    }
    Ok(all)
}

// What the finder gives after a triple.
fn resumed(
    alloc: Global,
    set: &Set,
    text: &Text,
    after: Triple,
) -> Result<Vec<Triple>, AllocError> {
    listed(alloc, Finder::resume(alloc, set, text, after)?)
}

// What the finder gives of the templates of a choice.
fn over(
    alloc: Global,
    set: &Set,
    text: &Text,
    choice: u64,
    after: Option<Triple>,
) -> Result<Vec<Triple>, AllocError> {
    let numbers = chosen_numbers(alloc, choice, set.len())?;
    listed(alloc, Finder::over(alloc, set, text, numbers, after)?)
}

// The matches that a finder gives.
fn listed(alloc: Global, mut finder: Finder<'_>) -> Result<Vec<Triple>, AllocError> {
    let mut all = Vec::new(alloc);
    while let Some(triple) = finder.next() {
        all.push(triple)?;
    }
    Ok(all)
}
