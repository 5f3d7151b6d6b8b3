//! Runs worked examples on the whole program over streams in memory, and shows which end otherwise than they should.
#![tactic(auto)]

mod bytes;
mod case;
mod folder;
mod outcome;

use crate::case::Case;
use anyhow::Context;
use serde_json::Value;
use std::alloc::Global;
use std::fs;
use std::process::ExitCode;
use std::rt::Files;

/// The file of the cases.
const CASES: &str = "cases.json";

/// How many runs were made, and how many ended otherwise than they should.
#[derive(Clone, Copy, Debug, PartialEq, Eq)]
struct Count {
    runs: u64,
    bad: u64,
}

/// Runs a case, and shows what came of it where that is not what should.
fn try_case<Rt: Files + Print + AllocGlobal + Clone + Drop>(
    rt: &Rt,
    alloc: Global,
    case: &Case<'_>,
    rules: Option<&str>,
) -> anyhow::Result<bool> {
    folder::lay(rt, alloc, case, rules)?;
    let outcome = case.run(rt, alloc, rules.is_some());
    folder::clear(rt, case, rules.is_some())?;
    let outcome = outcome?;
    let is_right = outcome == case.outcome;
    if !is_right {
        println!(rt; "{}: {:?}: {outcome}", case.subject, case.arguments)?;
    }
    Ok(is_right)
}

/// Runs each case, and those that hold by a file of line rules by that file too.
fn try_cases<Rt: Files + Print + AllocGlobal + Clone + Drop>(
    rt: &Rt,
    alloc: Global,
    cases: &[Value],
    rules: &str,
) -> anyhow::Result<Count> {
    let mut count = Count { runs: 0, bad: 0 };
    for value in cases {
        let case = Case::read(alloc, value)?;
        let mut bad = u64::from(!try_case(rt, alloc, &case, None)?);
        let mut runs = 1;
        if case.by_file {
            bad += u64::from(!try_case(rt, alloc, &case, Some(rules))?);
            runs = 2;
        }
        count.runs = count.runs.saturating_add(runs);
        count.bad = count.bad.saturating_add(bad);
    }
    Ok(count)
}

fn main(rt: HostRuntime) -> anyhow::Result<ExitCode> {
    let text = fs::read_to_string(&rt, CASES)?;
    let held = Value::from_str(rt.alloc(), text.as_str())?;
    let rules = held.get("profile").and_then(Value::as_str);
    let rules = rules.context("no rules of the profile")?;
    let cases = held.get("cases").and_then(Value::as_array);
    let cases = cases.context("no cases")?;
    let count = try_cases(&rt, rt.alloc(), cases.as_slice(), rules)?;
    println!(&rt; "{} runs, {} bad", count.runs, count.bad)?;
    Ok(ExitCode::from(u8::from(count.bad > 0)))
}
