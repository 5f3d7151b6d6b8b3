//! The licence scanner: finds the ranges of a text that a licence template describes.
#![tactic(auto)]

use lic_arguments::ArgumentFault;
use lic_command::{Progress, Stop, command_with, report_stop};
use lic_load::wants_memory;
use lic_stream::Counted;
use std::alloc::AllocError;
use std::env;
use std::env::{Env, FillError};
use std::io::IsTerminal;
use std::process::ExitCode;
use std::str::from_utf8;

/// The bytes for a word that may not be UTF-8, at first: a longer one is given more.
const WORD_BYTES: usize = 4096;

/// The words after the program's name.
fn words_given(rt: &HostRuntime) -> Result<Vec<String>, Stop> {
    match env::args(rt) {
        Ok(words) => Ok(words.skip(1).collect(rt.alloc())?),
        Err(e) if wants_memory(&e) => Err(Stop::Memory),
        Err(_) => {
            let number = first_not_utf8(rt)?;
            Err(Stop::Arguments(ArgumentFault::NotUtf8 { number }))
        }
    }
}

/// The number of the first word that is not UTF-8, the program's name being 0.
fn first_not_utf8(rt: &HostRuntime) -> Result<usize, AllocError> {
    let mut number = 0usize;
    let mut word = vec![in rt.alloc(); 0u8; WORD_BYTES]?;
    for _ in 0..usize::MAX {
        match rt.arg(number, word.as_mut_slice()) {
            Ok(len) if from_utf8(&word[..len]).is_ok() => number = number.saturating_add(1),
            Err(FillError::TooLong) => word.resize(word.len().saturating_mul(2), 0)?,
            _ => break,
        }
    }
    Ok(number)
}

/// Whether someone waits at a terminal to which no lines are written.
fn progress_of(rt: &HostRuntime) -> Progress {
    if rt.stderr().is_terminal() && !rt.stdout().is_terminal() {
        Progress::Shown
    } else {
        Progress::Hidden
    }
}

/// Runs the program over the standard streams.
fn start(rt: &HostRuntime) -> Result<u8, Stop> {
    let words = words_given(rt)?;
    let mut args = Vec::new(rt.alloc());
    for word in &words {
        args.push(word.as_str())?;
    }
    let mut input = Counted::new(rt.stdin());
    let mut out = Counted::new(rt.stdout());
    let mut err = Counted::new(rt.stderr());
    let status = command_with(
        rt,
        rt.alloc(),
        args.as_slice(),
        &mut input,
        &mut out,
        &mut err,
        progress_of(rt),
    );
    Ok(status)
}

fn main(rt: HostRuntime) -> ExitCode {
    match start(&rt) {
        Ok(status) => ExitCode::from(status),
        Err(stop) => {
            report_stop(rt.alloc(), &mut Counted::new(rt.stderr()), &stop);
            ExitCode::from(2)
        }
    }
}
