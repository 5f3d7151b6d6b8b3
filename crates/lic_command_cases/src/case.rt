//! A worked example: what a run is given, and what comes of it.

use crate::bytes::bytes_of;
use crate::outcome::Outcome;
use anyhow::Context;
use lic_command::command;
use lic_stream::Counted;
use serde_json::Value;
use std::alloc::{AllocError, Global};
use std::rt::Files;

/// The file of line rules that a run may be given.
pub const RULES: &str = "rules.txt";

/// Arguments, files and an input, and what comes of them.
#[derive(Debug, Drop)]
pub struct Case<'a> {
    /// What the case is about.
    pub subject: &'a str,
    pub arguments: Vec<&'a str>,
    /// The members of the folder of templates, by their identifiers; without them there is no folder.
    pub templates: Option<&'a Value>,
    /// How many templates of one letter there are besides.
    pub numbered: u64,
    /// Other files, by their names.
    pub files: Option<&'a Value>,
    /// Whether as much comes of a run that is given the profile's line rules as a file.
    pub by_file: bool,
    input: Vec<u8>,
    pub outcome: Outcome,
}

/// The words of a list.
fn words_of<'a>(alloc: Global, value: Option<&'a Value>) -> anyhow::Result<Vec<&'a str>> {
    let mut words = Vec::new(alloc);
    let list = value.and_then(Value::as_array).context("no arguments")?;
    for word in list {
        words.push(word.as_str().context("no argument")?)?;
    }
    Ok(words)
}

/// What comes of a case.
fn outcome_of(alloc: Global, value: &Value) -> anyhow::Result<Outcome> {
    let status = value.get("status").and_then(Value::as_u64);
    Ok(Outcome {
        status: u8::try_from(status.context("no status")?)?,
        output: bytes_of(alloc, value.get("output"))?,
        errors: bytes_of(alloc, value.get("errors"))?,
    })
}

impl<'a> Case<'a> {
    /// Reads a case.
    pub fn read(alloc: Global, value: &'a Value) -> anyhow::Result<Case<'a>> {
        let subject = value.get("subject").and_then(Value::as_str);
        let numbered = value.get("numbered").and_then(Value::as_u64);
        let by_file = value.get("by_file").and_then(Value::as_bool);
        Ok(Case {
            subject: subject.context("no subject")?,
            arguments: words_of(alloc, value.get("arguments"))?,
            templates: value.get("templates"),
            numbered: numbered.unwrap_or(0),
            files: value.get("files"),
            by_file: by_file.unwrap_or(false),
            input: bytes_of(alloc, value.get("input"))?,
            outcome: outcome_of(alloc, value)?,
        })
    }

    /// The arguments of a run, with a file of line rules or without.
    fn arguments(&self, alloc: Global, with_rules: bool) -> Result<Vec<&'a str>, AllocError> {
        let mut arguments = Vec::new(alloc);
        arguments.extend_from_slice(self.arguments.as_slice())?;
        if with_rules {
            arguments.push("--rules")?;
            arguments.push(RULES)?;
        }
        Ok(arguments)
    }

    /// Runs the case in the folder where its files lie.
    pub fn run<Rt: Files + AllocGlobal + Clone + Drop>(
        &self,
        rt: &Rt,
        alloc: Global,
        with_rules: bool,
    ) -> anyhow::Result<Outcome> {
        let arguments = self.arguments(alloc, with_rules)?;
        Ok(run_on(rt, alloc, &arguments, self.input.as_slice()))
    }
}

/// What comes of these arguments and this input.
fn run_on<Rt: Files + AllocGlobal + Clone + Drop>(
    rt: &Rt,
    alloc: Global,
    arguments: &[&str],
    input: &[u8],
) -> Outcome {
    let mut output = Vec::new(alloc);
    let mut errors = Vec::new(alloc);
    let mut input = Counted::new(input);
    let mut out = Counted::new(&mut output);
    let mut err = Counted::new(&mut errors);
    let status = command(rt, alloc, arguments, &mut input, &mut out, &mut err);
    Outcome {
        status,
        output,
        errors,
    }
}
