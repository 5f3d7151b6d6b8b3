//! Calls of the program that open no file that is there.

use lic_command::command;
use lic_test_streams::{Awaited, Pieces};
use std::alloc::{AllocError, Global};
use std::process::Abort;
use std::rt::Files;
use std::test::Fail;

/// Arguments and input of a call, and what comes of it.
#[derive(Clone, Copy)]
struct Case {
    arguments: &'static [&'static str],
    input: &'static [u8],
    output: &'static [u8],
    errors: &'static [u8],
    status: u8,
}

const CASES: &[Case] = &[
    Case {
        arguments: &["tokens"],
        input: b"foo bar",
        output: b"-\t0\t3\tfoo\n-\t4\t7\tbar\n",
        errors: b"",
        status: 0,
    },
    Case {
        arguments: &["tokens", "-"],
        input: b"",
        output: b"",
        errors: b"",
        status: 1,
    },
    Case {
        arguments: &["tokens", "no\tfile", "-"],
        input: b"foo",
        output: b"-\t0\t3\tfoo\n",
        errors: b"licscan: no\\tfile: cannot be read\n",
        status: 2,
    },
    Case {
        arguments: &["check", "--templates", "no folder"],
        input: b"",
        output: b"",
        errors: b"licscan: templates: cannot be listed\n",
        status: 2,
    },
];

/// Of several faults the first is reported. The folder is not looked for.
const FAULTS: &[(&[&str], &[u8])] = &[
    (&["--after", "0:1:A"], b"licscan: --after needs --all\n"),
    (&["--limit", "1"], b"licscan: --limit needs --all\n"),
    (
        &["--limit", "1", "--after", "x"],
        b"licscan: --after needs --all\n",
    ),
    (
        &["--all", "--after", "x", "a", "b"],
        b"licscan: --after takes one file\n",
    ),
    (
        &["--all", "--after", "+0:1:A"],
        b"licscan: --after: bad triple\n",
    ),
    (
        &["--all", "--after", "0:1"],
        b"licscan: --after: bad triple\n",
    ),
    (
        &["--all", "--after", "0:1:"],
        b"licscan: templates: cannot be listed\n",
    ),
];

/// Makes a call over streams in memory: its status, and whether all came of the output and of the errors that is awaited. A writer
/// fails at anything else.
fn call<Rt: Files + AllocGlobal + Clone + Drop>(
    rt: &Rt,
    alloc: Global,
    arguments: &[&str],
    mut input: Pieces,
    output: &'static [u8],
    errors: &'static [u8],
) -> (u8, bool, bool) {
    let mut output = Awaited::of(output);
    let mut errors = Awaited::of(errors);
    let status = command(rt, alloc, arguments, &mut input, &mut output, &mut errors);
    (status, output.is_whole(), errors.is_whole())
}

/// Fails the test where a call has not this status, or not all came that is awaited of it.
fn assert_ended(rt: &impl Abort, ended: (u8, bool, bool), status: u8, what: &[&str]) {
    assert_eq!(rt; ended, (status, true, true), "{what:?}");
}

#[test]
fn a_call_ends_with_its_status(rt: HostRuntime) {
    for case in CASES {
        let input = Pieces::of(case.input);
        let (arguments, output, errors) = (case.arguments, case.output, case.errors);
        let ended = call(&rt, rt.alloc(), arguments, input, output, errors);
        assert_ended(&rt, ended, case.status, arguments);
    }
}

/// The arguments of a scan of a folder that is not there, and these.
fn scan_with(alloc: Global, given: &[&'static str]) -> Result<Vec<&'static str>, AllocError> {
    let mut arguments = Vec::new(alloc);
    arguments.extend_from_slice(&["scan", "--templates", "no folder"])?;
    arguments.extend_from_slice(given)?;
    Ok(arguments)
}

#[test]
fn the_first_fault_of_the_arguments_is_reported(rt: HostRuntime) -> Result<(), Fail> {
    for (given, errors) in FAULTS {
        let arguments = scan_with(rt.alloc(), given)?;
        let input = Pieces::of(b"");
        let ended = call(&rt, rt.alloc(), arguments.as_slice(), input, b"", errors);
        assert_ended(&rt, ended, 2, given);
    }
    Ok(())
}

#[test]
fn a_failed_read_is_reported(rt: HostRuntime) {
    let cut = Pieces::failing(b"foo", 2);
    let errors = b"licscan: -: cannot be read\n";
    let ended = call(&rt, rt.alloc(), &["tokens"], cut, b"", errors);
    assert_ended(&rt, ended, 2, &["a read that fails"]);
}

#[test]
fn a_failed_write_is_reported(rt: HostRuntime) {
    let whole = Pieces::of(b"foo");
    let errors = b"licscan: standard output: cannot be written\n";
    let ended = call(&rt, rt.alloc(), &["tokens"], whole, b"-\t0", errors);
    assert_ended(&rt, ended, 2, &["a write that fails"]);
}
