//! Calls of the engine of whose reads one fails, or whose writer takes only a beginning of what is written.

use lic_engine::{Memory, RunFault, check, run, run_tokens};
use lic_find::Ask;
use lic_kind::Rules;
use lic_markup::{Template, read_template};
use lic_norm::Words;
use lic_set::Set;
use lic_stream::Sink;
use lic_test_streams::{Awaited, Pieces};
use std::alloc::Global;
use std::process::Abort;
use std::test::Fail;

/// Identifiers and texts of templates.
type Templates = &'static [(&'static str, &'static str)];

const ONE: Templates = &[("A", "foo bar")];

/// A word and three letters.
const LETTERS: Templates = &[("A", r#"foo <<var;name="v";original="";match=".{3}">>"#)];

/// Two templates that describe the same tokens.
const TWO: Templates = &[
    ("A", "foo bar"),
    ("B", r#"foo <<var;name="w";original="bar";match="[a-z]+">>"#),
];

/// A call of the engine.
#[derive(Clone, Copy)]
enum Call {
    Run(Ask),
    Tokens,
    Check,
}

const ALL: Call = Call::Run(Ask {
    all: true,
    after: None,
    limit: None,
});

const OUTER: Call = Call::Run(Ask {
    all: false,
    after: None,
    limit: Some(1),
});

/// A call, its templates and its input, and what it writes.
#[derive(Clone, Copy)]
struct Case {
    call: Call,
    templates: Templates,
    input: &'static [u8],
    report: &'static [u8],
}

const CASES: &[Case] = &[
    Case {
        call: ALL,
        templates: ONE,
        input: b"foo bar foo bar",
        report: b"-\tA\t0\t1\t0\t7\n-\tA\t2\t3\t8\t15\n",
    },
    Case {
        call: OUTER,
        templates: TWO,
        input: b"foo bar",
        report: b"-\tA\t0\t1\t0\t7\n-\tB\t0\t1\t0\t7\n\tw\t4\t7\tbar\n",
    },
    Case {
        call: OUTER,
        templates: LETTERS,
        input: b"foo bar foo bar",
        report: b"-\tA\t0\t1\t0\t7\n\tv\t4\t7\tbar\n-\tA\t2\t3\t8\t15\n\tv\t12\t15\tbar\n",
    },
    Case {
        call: Call::Tokens,
        templates: &[],
        input: b"foo bar",
        report: b"-\t0\t3\tfoo\n-\t4\t7\tbar\n",
    },
    Case {
        call: Call::Check,
        templates: ONE,
        input: b"",
        report: b"A\t7\tyes\n",
    },
];

/// How many reads a call makes: one for each byte of its input, and one that finds its end.
fn count_reads(case: &Case) -> usize {
    match case.call {
        Call::Check => 0,
        _ => case.input.len() + 1,
    }
}

/// A list of equivalent words, and rules.
#[derive(Drop)]
struct Lists {
    words: Words,
    rules: Rules,
}

/// No words, and the rules of the profile.
fn profile(alloc: Global) -> Lists {
    Lists {
        words: Words::none(alloc),
        rules: Rules::profile(alloc),
    }
}

/// A template under its identifier.
fn template_of(
    alloc: Global,
    id: &str,
    text: &str,
    lists: &Lists,
) -> Result<(String, Template), Fail> {
    let template = read_template(alloc, text, &lists.words, &lists.rules)?;
    Ok((id.to_string(alloc)?, template))
}

/// The set of these templates.
fn set_of(alloc: Global, templates: Templates, lists: &Lists) -> Result<Set, Fail> {
    let mut all = Vec::new(alloc);
    for (id, text) in templates {
        all.push(template_of(alloc, id, text, lists)?)?;
    }
    Ok(Set::build(alloc, all)?)
}

/// What a run answers.
fn run_engine(
    alloc: Global,
    ask: &Ask,
    set: &Set,
    lists: &Lists,
    input: &mut Pieces,
    out: &mut Awaited,
) -> Result<bool, RunFault> {
    let mut memory = Memory::new(alloc);
    run(
        &mut memory,
        "-",
        input,
        out,
        set,
        &lists.words,
        &lists.rules,
        ask,
    )
}

/// What a run that writes tokens answers.
fn run_on_tokens(
    alloc: Global,
    lists: &Lists,
    input: &mut Pieces,
    out: &mut Awaited,
) -> Result<bool, RunFault> {
    let mut memory = Memory::new(alloc);
    run_tokens(&mut memory, "-", input, out, &lists.words, &lists.rules)
}

/// What a call answers.
fn answer_of(
    alloc: Global,
    call: &Call,
    set: &Set,
    lists: &Lists,
    input: &mut Pieces,
    out: &mut Awaited,
) -> Result<bool, RunFault> {
    match call {
        Call::Run(ask) => run_engine(alloc, ask, set, lists, input, out),
        Call::Tokens => run_on_tokens(alloc, lists, input, out),
        Call::Check => check(alloc, set, &lists.words, out, &lists.rules),
    }
}

/// What a call answers, whether its writer has all that it takes, and how often it failed.
type Outcome = (Result<bool, RunFault>, bool, u64);

/// Makes a call over these templates. The read of this number fails, and the writer takes this beginning.
fn outcome_over(
    alloc: Global,
    case: &Case,
    set: &Set,
    lists: &Lists,
    fails_at: usize,
    taken: &'static [u8],
) -> Outcome {
    let mut input = Pieces::failing(case.input, fails_at);
    let mut out = Awaited::of(taken);
    let answer = answer_of(alloc, &case.call, set, lists, &mut input, &mut out);
    (answer, out.is_whole(), out.failures())
}

/// Makes a call by the rules of the profile.
fn outcome_of(
    alloc: Global,
    case: &Case,
    fails_at: usize,
    taken: &'static [u8],
) -> Result<Outcome, Fail> {
    let lists = profile(alloc);
    let set = set_of(alloc, case.templates, &lists)?;
    Ok(outcome_over(alloc, case, &set, &lists, fails_at, taken))
}

/// Fails the test where a call comes to something else than what is wanted.
fn assert_outcome(rt: &impl Abort, outcome: Outcome, wanted: Outcome, what: &str, number: usize) {
    assert_eq!(rt; outcome, wanted, "{what} {number}");
}

/// Makes a call with each of its reads failed in turn, and with none.
fn fail_reads(rt: &impl Abort, alloc: Global, case: &Case) -> Result<(), Fail> {
    let reads = count_reads(case);
    for k in 0..reads {
        let outcome = outcome_of(alloc, case, k + 1, b"")?;
        assert_outcome(rt, outcome, (Err(RunFault::Read), true, 0), "read", k);
    }
    let outcome = outcome_of(alloc, case, reads.saturating_add(1), case.report)?;
    assert_outcome(rt, outcome, (Ok(true), true, 0), "no read failed of", reads);
    Ok(())
}

#[test]
fn a_failed_read_writes_nothing(rt: HostRuntime) -> Result<(), Fail> {
    for case in CASES {
        fail_reads(&rt, rt.alloc(), case)?;
    }
    Ok(())
}

/// Makes a call with a writer that takes each beginning of what is written, and all of it.
fn fail_writes(rt: &impl Abort, alloc: Global, case: &Case) -> Result<(), Fail> {
    let all = case.report.len();
    for len in 0..all {
        let outcome = outcome_of(alloc, case, 0, &case.report[..len])?;
        assert_outcome(
            rt,
            outcome,
            (Err(RunFault::Write), true, 1),
            "a writer of",
            len,
        );
    }
    let outcome = outcome_of(alloc, case, 0, case.report)?;
    assert_outcome(rt, outcome, (Ok(true), true, 0), "a writer of all", all);
    Ok(())
}

#[test]
fn a_failed_write_keeps_a_beginning(rt: HostRuntime) -> Result<(), Fail> {
    for case in CASES {
        fail_writes(&rt, rt.alloc(), case)?;
    }
    Ok(())
}
