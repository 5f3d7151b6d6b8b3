//! What each form of matching has to give, by the list of all matches.

use crate::asked::Asked;
use crate::forms::{FORMS, Form, given};
use lic_filters::tight;
use lic_norm::Text;
use lic_set::{Set, Triple};
use std::alloc::{AllocError, Global};

/// The first form that does not give what it has to, by the list of all matches.
pub fn differing_form(
    alloc: Global,
    set: &Set,
    text: &Text,
    all: &[Triple],
    asked: Asked,
) -> Result<Option<Form>, AllocError> {
    for form in FORMS {
        if !gives_wanted(alloc, *form, set, text, all, asked)? {
            return Ok(Some(*form));
        }
    }
    Ok(None)
}

// Whether a form gives what it has to.
fn gives_wanted(
    alloc: Global,
    form: Form,
    set: &Set,
    text: &Text,
    all: &[Triple],
    asked: Asked,
) -> Result<bool, AllocError> {
    let given = given(alloc, form, set, text, asked)?;
    let wanted = wanted(alloc, form, all, asked)?;
    Ok(given == wanted)
}

// What a form has to give.
fn wanted(
    alloc: Global,
    form: Form,
    all: &[Triple],
    asked: Asked,
) -> Result<Vec<Triple>, AllocError> {
    match form {
        Form::Tight => tight(alloc, all),
        Form::All => Vec::from_slice(alloc, all),
        Form::After | Form::Resumed => later(alloc, all, asked.after),
        Form::Over => of_chosen(alloc, all, asked.choice),
        Form::OverAfter => {
            let chosen = of_chosen(alloc, all, asked.choice)?;
            later(alloc, &chosen, asked.after)
        }
    }
}

// Those that come after a triple.
fn later(alloc: Global, all: &[Triple], after: Triple) -> Result<Vec<Triple>, AllocError> {
    let mut found = Vec::new(alloc);
    for triple in all {
        if after < *triple {
            found.push(*triple)?;
        }
    }
    Ok(found)
}

// Those of the templates of a choice.
fn of_chosen(alloc: Global, all: &[Triple], choice: u64) -> Result<Vec<Triple>, AllocError> {
    let mut found = Vec::new(alloc);
    for triple in all {
        if is_chosen(choice, triple.template) {
            found.push(*triple)?;
        }
    }
    Ok(found)
}

// Whether a choice has a bit at the index of a number.
fn is_chosen(choice: u64, number: usize) -> bool {
    number < 64 && (choice >> number) & 1 == 1
}
