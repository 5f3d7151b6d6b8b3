//! The whole program.
//!
//! Each command is a function of its own on the stack (`inline(never)`): line rules and a word list have kilobytes, and each call that is
//! inlined would have memory of its own for them.
//!
//! `tokens`, which needs the fewest functions, is named first: the program has them in this order, and so fewer of its pages are read in.

ghost use Rattle.std.specs.Prelude.{◌≡◌, ◌≢◌, ◌≤◌, ℕ, List, Ok, Err, IfOk, map};
ghost use Rattle.clap.specs.Matches.{found_of};
ghost use Rattle.clap.specs.Values.{kind_of};
ghost use Rattle.lic_arguments.specs.CommandLine.{IsNoCall};
ghost use Rattle.lic_load.specs.Reporting.{IsReported};
ghost use Rattle.lic_command.specs.Commands.{HasChecked, HasEnded, HasListed, HasScanned};
ghost use Rattle.lic_command.specs.Lines.{Input, input_of};
ghost use Rattle.lic_command.specs.Outcomes.{CountsStops};
ghost use Rattle.lic_command.specs.Usage.{IsFault, IsShown};

use crate::faults::Stop;
use crate::files::{FileList, Search, Work, write_files};
use crate::progress::Progress;
use crate::status::{DONE, REFUSED, status_at_end, status_of, status_of_check};
use clap::error::ErrorKind;
use clap::{ArgMatches, Error};
use lic_arguments::{ArgumentFault, CheckArguments, ScanArguments, TokensArguments, ask_of, parse};
use lic_engine::check;
use lic_load::{list_templates, load_all, load_rules, load_words, tell};
use lic_stream::{Sink, Source, put_all};
use std::alloc::Global;
use std::rt::Files;

/// The command `scan`: the arguments, the line rules, the word list, the templates by identifier, the files as given.
#[inline(never)]
fn scan<Rt: Files + AllocGlobal + Clone + Drop, R: Source, W: Sink, E: Sink>(
    rt: &Rt,
    alloc: Global,
    found: &ArgMatches<'_>,
    input: &mut R,
    out: &mut W,
    err: &mut E,
    progress: Progress,
) -> Result<u8, Stop>
    ensures done { IfOk result (HasScanned (found_of found.now) progress
        (input_of (R.left input.old) (R.failed input.old)) (input_of (R.left input.new) (R.failed input.new))
        (W.taken out.old) (W.taken out.new)
        (E.taken err.old) (E.taken err.new) (E.failed err.old) (E.failed err.new)) }
    ensures writes { CountsStops result (W.failed out.old) (W.failed out.new) }
    ensures few { IfOk result (λ status. status ≤ 2) }
{
    let arguments = ScanArguments::read(alloc, found)?;
    let rules = load_rules(rt, alloc, arguments.rules)?;
    let words = load_words(rt, alloc, arguments.words)?;
    let listing = list_templates(rt, alloc, arguments.folder)?;
    let loaded = load_all(rt, alloc, arguments.folder, listing, &words, &rules, err)?;
    let ask = ask_of(alloc, &arguments, &loaded.set)?;
    let search = Search {
        set: &loaded.set,
        words: &words,
        rules: &rules,
        ask: &ask,
    };
    let files = FileList {
        names: arguments.files.as_slice(),
        progress,
    };
    let written = write_files(rt, alloc, files, input, out, err, Work::Scan(search))?;
    Ok(status_of(written, loaded.is_refused))
}

/// The command `check`: the arguments, the line rules, the word list, the templates by identifier.
#[inline(never)]
fn check_templates<Rt: Files + AllocGlobal + Clone + Drop, W: Sink, E: Sink>(
    rt: &Rt,
    alloc: Global,
    found: &ArgMatches<'_>,
    out: &mut W,
    err: &mut E,
) -> Result<u8, Stop>
    ensures done { IfOk result (HasChecked (found_of found.now) (W.taken out.old) (W.taken out.new)
        (E.taken err.old) (E.taken err.new) (E.failed err.old) (E.failed err.new)) }
    ensures writes { CountsStops result (W.failed out.old) (W.failed out.new) }
    ensures few { IfOk result (λ status. status ≤ 2) }
{
    let arguments = CheckArguments::read(found);
    let rules = load_rules(rt, alloc, arguments.rules)?;
    let words = load_words(rt, alloc, arguments.words)?;
    let listing = list_templates(rt, alloc, arguments.folder)?;
    let loaded = load_all(rt, alloc, arguments.folder, listing, &words, &rules, err)?;
    let answer = check(alloc, &loaded.set, &words, out, &rules);
    status_of_check(answer, loaded.is_refused)
}

/// The command `tokens`: the arguments, the line rules, the word list, the files as given.
#[inline(never)]
fn tokens<Rt: Files + AllocGlobal, R: Source, W: Sink, E: Sink>(
    rt: &Rt,
    alloc: Global,
    found: &ArgMatches<'_>,
    input: &mut R,
    out: &mut W,
    err: &mut E,
    progress: Progress,
) -> Result<u8, Stop>
    ensures done { IfOk result (HasListed (found_of found.now) progress
        (input_of (R.left input.old) (R.failed input.old)) (input_of (R.left input.new) (R.failed input.new))
        (W.taken out.old) (W.taken out.new)
        (E.taken err.old) (E.taken err.new) (E.failed err.old) (E.failed err.new)) }
    ensures writes { CountsStops result (W.failed out.old) (W.failed out.new) }
    ensures few { IfOk result (λ status. status ≤ 2) }
{
    let arguments = TokensArguments::read(alloc, found)?;
    let rules = load_rules(rt, alloc, arguments.rules)?;
    let words = load_words(rt, alloc, arguments.words)?;
    let files = FileList {
        names: arguments.files.as_slice(),
        progress,
    };
    let work = Work::Tokens {
        words: &words,
        rules: &rules,
    };
    let written = write_files(rt, alloc, files, input, out, err, work)?;
    Ok(status_of(written, false))
}

/// Writes help to standard output, and says that it was asked for.
fn show_help<W: Sink>(text: &str, out: &mut W) -> Result<u8, Stop>
    ensures { IsShown (W.taken out.old) (W.taken out.new) (W.failed out.old) (W.failed out.new) text.now result }
{
    match put_all(out, text.as_bytes()) {
        Ok(()) => Ok(DONE),
        Err(_) => Err(Stop::Write),
    }
}

/// Writes what the parser of the arguments says: help to standard output, a fault to standard error.
fn show_usage<W: Sink, E: Sink>(
    alloc: Global,
    error: &Error,
    out: &mut W,
    err: &mut E,
) -> Result<u8, Stop>
    // Help is one text on standard output alone.
    ensures help { ¬ (IsFault (kind_of error.now)) → result ≢ Err Stop.Memory → (text : List ℕ)
        × IsShown (W.taken out.old) (W.taken out.new) (W.failed out.old) (W.failed out.new) text result
        × (err.new ≡ err.old) }
    // A fault is one text on standard error alone, and the status is 2.
    ensures fault { IsFault (kind_of error.now) → result ≢ Err Stop.Memory → (text : List ℕ)
        × IsReported (E.taken err.old) (E.taken err.new) (E.failed err.old) (E.failed err.new) text
        × (out.new ≡ out.old) × (result ≡ Ok 2) }
    ensures done { IfOk result (λ status. (args : List (List ℕ)) → (progress : Progress) → (input : Input)
        → IsNoCall args (kind_of error.now)
        → HasEnded args progress input input (W.taken out.old) (W.taken out.new)
        (E.taken err.old) (E.taken err.new) (E.failed err.old) (E.failed err.new) status) }
    ensures writes { CountsStops result (W.failed out.old) (W.failed out.new) }
    ensures few { IfOk result (λ status. status ≤ 2) }
    // Where memory ran out nothing is written.
    ensures memory { kind_of error.now ≡ ErrorKind.OutOfMemory → result ≡ Err Stop.Memory }
    ensures nothing { result ≡ Err Stop.Memory → (out.new ≡ out.old) × (err.new ≡ err.old) }
{
    if error.kind() == ErrorKind::OutOfMemory {
        return Err(Stop::Memory);
    }
    let text = format!(in alloc; "{error}")?;
    if error.use_stderr() {
        tell(err, text.as_str());
        return Ok(REFUSED);
    }
    show_help(text.as_str(), out)
}

/// The program, up to where it ends before its work is done.
fn try_command<Rt: Files + AllocGlobal + Clone + Drop, R: Source, W: Sink, E: Sink>(
    rt: &Rt,
    alloc: Global,
    args: &[&str],
    input: &mut R,
    out: &mut W,
    err: &mut E,
    progress: Progress,
) -> Result<u8, Stop>
    ensures done { IfOk result (HasEnded (map (λ a. a.now) args.now) progress
        (input_of (R.left input.old) (R.failed input.old)) (input_of (R.left input.new) (R.failed input.new))
        (W.taken out.old) (W.taken out.new)
        (E.taken err.old) (E.taken err.new) (E.failed err.old) (E.failed err.new)) }
    ensures writes { CountsStops result (W.failed out.old) (W.failed out.new) }
    ensures few { IfOk result (λ status. status ≤ 2) }
{
    match parse(alloc, args) {
        Ok(matches) => {
            if let Some(found) = matches.subcommand_matches("tokens") {
                tokens(rt, alloc, found, input, out, err, progress)
            } else if let Some(found) = matches.subcommand_matches("check") {
                check_templates(rt, alloc, found, out, err)
            } else if let Some(found) = matches.subcommand_matches("scan") {
                scan(rt, alloc, found, input, out, err, progress)
            } else {
                Err(Stop::Arguments(ArgumentFault::NoCommand))
            }
        }
        Err(error) => show_usage(alloc, &error, out, err),
    }
}

/// The whole program, over the words after its name. The answer is its status. `scan` and `tokens`: 0 if a line was
/// written, 1 if none was. `check`: 1 if a line says `no`, else 0. All: 2 if anything was refused or failed.
///
/// It opens the files and the folder itself. What is refused is reported on `err`, a line each.
pub fn command<Rt: Files + AllocGlobal + Clone + Drop, R: Source, W: Sink, E: Sink>(
    rt: &Rt,
    alloc: Global,
    args: &[&str],
    input: &mut R,
    out: &mut W,
    err: &mut E,
) -> u8
    ensures done { HasEnded (map (λ a. a.now) args.now) Progress.Hidden
        (input_of (R.left input.old) (R.failed input.old)) (input_of (R.left input.new) (R.failed input.new))
        (W.taken out.old) (W.taken out.new)
        (E.taken err.old) (E.taken err.new) (E.failed err.old) (E.failed err.new) result }
    // A write to standard output that failed ends it with 2.
    ensures sound { result ≢ 2 → W.failed out.new ≡ W.failed out.old }
    ensures few { result ≤ 2 }
{
    command_with(rt, alloc, args, input, out, err, Progress::Hidden)
}

/// The whole program, as `command` is, which may show how far it is on `err`.
pub fn command_with<Rt: Files + AllocGlobal + Clone + Drop, R: Source, W: Sink, E: Sink>(
    rt: &Rt,
    alloc: Global,
    args: &[&str],
    input: &mut R,
    out: &mut W,
    err: &mut E,
    progress: Progress,
) -> u8
    ensures done { HasEnded (map (λ a. a.now) args.now) progress
        (input_of (R.left input.old) (R.failed input.old)) (input_of (R.left input.new) (R.failed input.new))
        (W.taken out.old) (W.taken out.new)
        (E.taken err.old) (E.taken err.new) (E.failed err.old) (E.failed err.new) result }
    // A write to standard output that failed ends it with 2.
    ensures sound { result ≢ 2 → W.failed out.new ≡ W.failed out.old }
    ensures few { result ≤ 2 }
{
    let outcome = try_command(rt, alloc, args, input, out, err, progress);
    status_at_end(alloc, err, outcome)
}
