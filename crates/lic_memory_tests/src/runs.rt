//! Runs of the engine, from a reader to a writer: the report of an input, the lines of its tokens, and the check of templates.

use crate::lent::{CHECKED, Lists, OF, OPTIONAL, TWO, Templates, profile, set_lent, text_of};
use crate::refused::{Refused, retried};
use lic_engine::{Memory, RunFault, check, run, run_tokens};
use lic_find::Ask;
use lic_kind::Rules;
use lic_norm::Words;
use lic_set::{Set, Triple};
use lic_test_streams::{Awaited, Pieces};
use std::alloc::Global;
use std::process::Abort;

/// All matches.
const ALL: Ask = Ask {
    all: true,
    after: None,
    limit: None,
};

/// Those after the match of the first template in the first two tokens.
const LATER: Ask = Ask {
    all: true,
    after: Some(Triple {
        first: 0,
        last: 1,
        template: 0,
    }),
    limit: None,
};

/// Outer matches with their variables.
const OUTER: Ask = Ask {
    all: false,
    after: None,
    limit: None,
};

/// Templates and what `check` says of them, an input, what is asked of it, and the report.
#[derive(Clone, Copy)]
struct Case {
    templates: Templates<'static>,
    said: &'static [u8],
    input: &'static [u8],
    ask: Ask,
    report: &'static [u8],
}

const CASES: &[Case] = &[
    Case {
        templates: OPTIONAL,
        said: b"O\t7\tyes\n",
        input: b"a b d",
        ask: ALL,
        report: b"-\tO\t0\t2\t0\t5\n",
    },
    Case {
        templates: OPTIONAL,
        said: b"O\t7\tyes\n",
        input: b"a c d",
        ask: ALL,
        report: b"",
    },
    Case {
        templates: TWO,
        said: b"A\t7\tyes\nB\t5\tyes\n",
        input: b"foo bar",
        ask: ALL,
        report: b"-\tA\t0\t1\t0\t7\n-\tB\t0\t1\t0\t7\n",
    },
    Case {
        templates: TWO,
        said: b"A\t7\tyes\nB\t5\tyes\n",
        input: b"foo bar",
        ask: LATER,
        report: b"-\tB\t0\t1\t0\t7\n",
    },
    Case {
        templates: TWO,
        said: b"A\t7\tyes\nB\t5\tyes\n",
        input: b"foo bar",
        ask: OUTER,
        report: b"-\tA\t0\t1\t0\t7\n-\tB\t0\t1\t0\t7\n\tw\t4\t7\tbar\n",
    },
    Case {
        templates: OF,
        said: b"V\t6\tyes\n",
        input: b"x of y of z",
        ask: ALL,
        report: b"-\tV\t0\t2\t0\t6\n-\tV\t0\t3\t0\t9\n-\tV\t0\t4\t0\t11\n-\tV\t1\t4\t2\t11\n-\tV\t2\t4\t5\t11\n",
    },
    Case {
        templates: OF,
        said: b"V\t6\tyes\n",
        input: b"x of y of z",
        ask: OUTER,
        report: b"-\tV\t0\t2\t0\t6\n\ta\t0\t1\tx\n\tb\t5\t6\ty\n-\tV\t2\t4\t5\t11\n\ta\t5\t6\ty\n\tb\t10\t11\tz\n",
    },
    // The last one does not describe its original text.
    Case {
        templates: CHECKED,
        said: b"A\t7\tyes\nC\t9\tyes\nZ\t5\tno\n",
        input: b"12 end",
        ask: ALL,
        report: b"-\tC\t0\t1\t0\t6\n-\tC\t1\t1\t3\t6\n",
    },
];

/// Whether `check` says just this of templates.
fn says(alloc: Global, set: &Set, lists: &Lists, said: &'static [u8]) -> Result<bool, Refused> {
    let mut out = Awaited::of(said);
    let all = check(alloc, set, &lists.words, &mut out, &lists.rules).map_err(Refused::Run)?;
    Ok(out.is_whole() && all == !said.ends_with(b"\tno\n"))
}

/// What the engine answers of an input.
fn run_engine(
    alloc: Global,
    set: &Set,
    lists: &Lists,
    input: &mut Pieces,
    out: &mut Awaited,
    ask: &Ask,
) -> Result<bool, RunFault> {
    let mut memory = Memory::new(alloc);
    run(
        &mut memory,
        "-",
        input,
        out,
        set,
        &lists.words,
        &lists.rules,
        ask,
    )
}

/// Whether the report of an input is all of the case's.
fn reports(alloc: Global, set: &Set, lists: &Lists, case: &Case) -> Result<bool, Refused> {
    let mut input = Pieces::of(case.input);
    let mut out = Awaited::of(case.report);
    let answer = run_engine(alloc, set, lists, &mut input, &mut out, &case.ask);
    let some = answer.map_err(Refused::Run)?;
    Ok(out.is_whole() && some == !case.report.is_empty())
}

/// Whether `check` says just this of templates; made again if memory runs out.
fn is_said(rt: &impl Abort, alloc: Global, set: &Set, lists: &Lists, said: &'static [u8]) -> bool {
    retried(rt, || says(alloc, set, lists, said))
}

/// Whether the report of an input is all of the case's; made again if memory runs out.
fn is_reported(rt: &impl Abort, alloc: Global, set: &Set, lists: &Lists, case: &Case) -> bool {
    retried(rt, || reports(alloc, set, lists, case))
}

fn try_case(rt: &impl Abort, alloc: Global, case: &Case, lists: &Lists) {
    let set = set_lent(rt, alloc, case.templates, lists);
    assert!(rt; is_said(rt, alloc, &set, lists, case.said));
    assert!(rt; is_reported(rt, alloc, &set, lists, case));
}

#[test]
fn reports_are_written_when_there_is_memory(rt: HostRuntime) {
    let lists = profile(rt.alloc());
    for case in CASES {
        try_case(&rt, rt.alloc(), case, &lists);
    }
}

/// How many tokens an input has.
fn count_tokens(alloc: Global, input: &[u8], lists: &Lists) -> Result<usize, Refused> {
    Ok(text_of(alloc, input, lists)?.len())
}

/// A list, an input, how many tokens it has, and their lines.
#[derive(Clone, Copy)]
struct Listed {
    list: &'static str,
    input: &'static [u8],
    count: usize,
    lines: &'static [u8],
}

const LISTED: &[Listed] = &[
    Listed {
        list: "sub-license,sublicense\nsub license,sublicense\n",
        input: b"sub-license sublicense Sub License",
        count: 3,
        lines: b"-\t0\t11\tsub-license\n-\t12\t22\tsub-license\n-\t23\t34\tsub-license\n",
    },
    Listed {
        list: "",
        input: b"ab===cd",
        count: 2,
        lines: b"-\t0\t2\tab\n-\t5\t7\tcd\n",
    },
    Listed {
        list: "",
        input: b"",
        count: 0,
        lines: b"",
    },
];

/// Whether the lines that are written of an input's tokens are just the case's.
fn writes_lines(alloc: Global, lists: &Lists, case: &Listed) -> Result<bool, Refused> {
    let mut input = Pieces::of(case.input);
    let mut out = Awaited::of(case.lines);
    let mut memory = Memory::new(alloc);
    let (words, rules) = (&lists.words, &lists.rules);
    let answer = run_tokens(&mut memory, "-", &mut input, &mut out, words, rules);
    let some = answer.map_err(Refused::Run)?;
    Ok(out.is_whole() && some == !case.lines.is_empty())
}

/// Whether an input has as many tokens as the case says, and the lines that are written of them are just the case's.
fn writes_tokens(alloc: Global, lists: &Lists, case: &Listed) -> Result<bool, Refused> {
    Ok(count_tokens(alloc, case.input, lists)? == case.count && writes_lines(alloc, lists, case)?)
}

/// The list of a case, and the rules of the profile; made again if memory runs out.
fn lists_of(rt: &impl Abort, alloc: Global, case: &Listed) -> Lists {
    let words = retried(rt, || Words::read(alloc, case.list).map_err(Refused::Words));
    let rules = Rules::profile(alloc);
    Lists { words, rules }
}

/// Whether the tokens of a case are written; made again if memory runs out.
fn are_written(rt: &impl Abort, alloc: Global, lists: &Lists, case: &Listed) -> bool {
    retried(rt, || writes_tokens(alloc, lists, case))
}

#[test]
fn tokens_are_written_when_there_is_memory(rt: HostRuntime) {
    for case in LISTED {
        let lists = lists_of(&rt, rt.alloc(), case);
        assert!(rt; are_written(&rt, rt.alloc(), &lists, case));
    }
}
