//! The files that lines are written about.

ghost use Rattle.std.specs.Prelude.{◌≡◌, ◌≢◌, ◌⊎◌, ℕ, List, codes, length, map, IfOk, IfErr, OnOk, OnErr, IsErrOf, nat_lt, string_bytes};
ghost use Rattle.std.specs.Io.KnownBytes.{Appends};
ghost use Rattle.lic_engine.specs.Failures.{CountsReads, CountsWrites, Keeps};
ghost use Rattle.lic_engine.specs.Inputs.{IsAccepted, IsRefused, IsUnrefused};
ghost use Rattle.lic_engine.specs.Stream.{BeginsWith};
ghost use Rattle.lic_command.specs.Lines.{AreBegun, AreLinesOf, AreWritten, HasRead, HasWritten, input_of};
ghost use Rattle.lic_command.specs.Outcomes.{IsStopAfter, IsWithOneMore, StopsForWrites};
ghost use Rattle.lic_command.specs.Reporting.{AreReported, IsAnswerReported, line_of_file};

use crate::faults::Stop;
use crate::progress::Progress;
use lic_engine::{Memory, RunFault, run, run_tokens};
use lic_fields::Escaped;
use lic_find::Ask;
use lic_kind::Rules;
use lic_load::{tell, wants_memory};
use lic_norm::{TextFault, Words};
use lic_set::Set;
use lic_stream::{Counted, Sink, Source};
use std::alloc::{AllocError, Global};
use std::fs::File;
use std::rt::Files;

/// What is looked for in each file.
#[derive(Clone, Copy)]
pub struct Search<'a> {
    pub set: &'a Set,
    pub words: &'a Words,
    pub rules: &'a Rules,
    pub ask: &'a Ask,
}

/// What is written about each file.
#[derive(Clone, Copy)]
pub enum Work<'a> {
    /// The matches of a search.
    Scan(Search<'a>),
    /// The tokens, by a list of equivalent words and line rules.
    Tokens { words: &'a Words, rules: &'a Rules },
}

/// Files in the order in which they were given, and whether it is shown how many are done.
#[derive(Clone, Copy)]
pub struct FileList<'a> {
    pub names: &'a [&'a str],
    pub progress: Progress,
}

/// What came of the files.
#[derive(Clone, Copy, Debug, PartialEq, Eq)]
pub struct Written {
    pub has_line: bool,
    pub is_refused: bool,
}

/// What came of the files so far, and of one more.
fn with_one_more(written: Written, answer: Result<bool, RunFault>) -> Written
    ensures { IsWithOneMore written answer result }
{
    Written {
        has_line: written.has_line | answer.is_ok_and(|some| some),
        is_refused: written.is_refused | answer.is_err(),
    }
}

/// Writes the lines about one input, and says whether there was one.
fn write_lines<R: Source, W: Sink>(
    memory: &mut Memory,
    name: &str,
    input: &mut R,
    out: &mut W,
    work: Work<'_>,
) -> Result<bool, RunFault>
    // The lines about what was read to the end.
    ensures report { IfOk result (λ some. (bytes lines : List ℕ)
        × IsAccepted (R.left input.old) (R.left input.new) bytes
        × AreLinesOf work.entry name.now bytes lines
        × Appends (W.taken out.old) (W.taken out.new) lines
        × (some ≡ nat_lt 0 (length lines))) }
    // A beginning of the lines about what was read.
    ensures part { (fault : _) → IsErrOf result fault
        → ((fault ≡ RunFault.Write) ⊎ (fault ≡ RunFault.Memory)) → (bytes : List ℕ)
        × IsAccepted (R.left input.old) (R.left input.new) bytes
        × ((lines : List ℕ) → AreLinesOf work.entry name.now bytes lines
        → BeginsWith (W.taken out.old) (W.taken out.new) lines) }
    ensures refused { (fault : _) → IsErrOf result (RunFault.Text fault) → fault ≢ TextFault.Memory
        → IsRefused (R.left input.old) (R.left input.new) fault }
    ensures memory { IsErrOf result (RunFault.Text TextFault.Memory)
        → IsUnrefused (R.left input.old) (R.left input.new) }
    ensures keeps { Keeps result out.old out.new }
    ensures reads { CountsReads result (R.failed input.old) (R.failed input.new) }
    ensures writes { CountsWrites result (W.failed out.old) (W.failed out.new) }
{
    match work {
        Work::Tokens { words, rules } => run_tokens(memory, name, input, out, words, rules),
        Work::Scan(search) => run(
            memory,
            name,
            input,
            out,
            search.set,
            search.words,
            search.rules,
            search.ask,
        ),
    }
}

/// Writes the lines about one file, or about standard input where the name is `-`.
fn write_file<Rt: Files, R: Source, W: Sink>(
    rt: &Rt,
    memory: &mut Memory,
    name: &str,
    input: &mut R,
    out: &mut W,
    work: Work<'_>,
) -> Result<Result<bool, RunFault>, Stop>
    // What was read of standard input; of a file std knows no bytes.
    ensures read { IfOk result (HasRead name.now
        (input_of (R.left input.old) (R.failed input.old)) (input_of (R.left input.new) (R.failed input.new))) }
    ensures written { IfOk result (HasWritten work.entry name.now
        (input_of (R.left input.old) (R.failed input.old)) (input_of (R.left input.new) (R.failed input.new))
        (W.taken out.old) (W.taken out.new)) }
    ensures other { name.now ≢ codes "-" → input.new ≡ input.old }
    ensures writes { IfOk result (λ answer. CountsWrites answer (W.failed out.old) (W.failed out.new)) }
    ensures stopped { OnErr result ((input.new ≡ input.old) × (out.new ≡ out.old)) }
    ensures memory { IfErr result (λ stop. stop ≡ Stop.Memory) }
{
    if name != "-" {
        return match File::open(rt, name) {
            Ok(file) => {
                let mut source = Counted::new(file);
                Ok(write_lines(memory, name, &mut source, out, work))
            }
            Err(e) if wants_memory(&e) => Err(Stop::Memory),
            Err(_) => Ok(Err(RunFault::Read)),
        };
    }
    Ok(write_lines(memory, name, input, out, work))
}

/// The line about a file that is refused.
fn line_about(alloc: Global, name: &str, fault: &RunFault) -> Result<String, AllocError>
    ensures { IfOk result (λ line. (why : List ℕ) × (string_bytes line ≡ line_of_file name.now why)) }
{
    let name = Escaped(name);
    let why = fault.to_string(alloc)?;
    format!(in alloc; "licscan: {name}: {why}\n")
}

/// Reports why a file is refused, if it is. A write that failed ends the run.
fn report_refusal<E: Sink>(
    alloc: Global,
    name: &str,
    files: FileList<'_>,
    err: &mut E,
    answer: Result<bool, RunFault>,
) -> Result<(), Stop>
    ensures ok { OnOk result (¬ (IsErrOf answer RunFault.Write)) }
    ensures stopped { IfErr result (IsStopAfter answer) }
    ensures reported { files.entry.progress ≡ Progress.Hidden → OnOk result
        (IsAnswerReported name.now answer (E.taken err.old) (E.taken err.new) (E.failed err.old) (E.failed err.new)) }
{
    match answer {
        Ok(_) => Ok(()),
        Err(RunFault::Write) => Err(Stop::Write),
        Err(fault) => {
            files.progress.clear(err, files.names.len());
            let line = line_about(alloc, name, &fault)?;
            tell(err, line.as_str());
            Ok(())
        }
    }
}

/// Writes the lines about files in order.
fn write_each<Rt: Files, R: Source, W: Sink, E: Sink>(
    rt: &Rt,
    alloc: Global,
    memory: &mut Memory,
    files: FileList<'_>,
    input: &mut R,
    out: &mut W,
    err: &mut E,
    work: Work<'_>,
) -> Result<Written, Stop>
    // Each file that is refused is reported.
    ensures written { IfOk result (λ written. (refused : List (List ℕ))
        × AreWritten work.entry (input_of (R.left input.old) (R.failed input.old)) (W.taken out.old)
        (map (λ name. name.now) files.entry.names.now) refused
        (input_of (R.left input.new) (R.failed input.new)) (W.taken out.new) written
        × (files.entry.progress ≡ Progress.Hidden
        → AreReported (E.taken err.old) (E.failed err.old) refused (E.taken err.new) (E.failed err.new))) }
    // It stops with what was written about some of the files, from the first.
    ensures part { OnErr result
        (AreBegun work.entry (input_of (R.left input.old) (R.failed input.old)) (W.taken out.old)
        (map (λ name. name.now) files.entry.names.now)
        (input_of (R.left input.new) (R.failed input.new)) (W.taken out.new)) }
    // It stops where a write failed, once, or where memory ran out.
    ensures writes { StopsForWrites result (W.failed out.old) (W.failed out.new) }
{
    let mut written = Written {
        has_line: false,
        is_refused: false,
    };
    let all = files.names.len();
    for done in 0..all {
        let name = files.names[done];
        files.progress.show(alloc, err, done, all);
        let answer = write_file(rt, memory, name, input, out, work)?;
        written = with_one_more(written, answer);
        report_refusal(alloc, name, files, err, answer)?;
    }
    Ok(written)
}

/// Writes the lines about files in order. One that is refused or cannot be read is reported, and the others are read.
pub fn write_files<Rt: Files, R: Source, W: Sink, E: Sink>(
    rt: &Rt,
    alloc: Global,
    files: FileList<'_>,
    input: &mut R,
    out: &mut W,
    err: &mut E,
    work: Work<'_>,
) -> Result<Written, Stop>
    // Each file that is refused is reported.
    ensures written { IfOk result (λ written. (refused : List (List ℕ))
        × AreWritten work.entry (input_of (R.left input.old) (R.failed input.old)) (W.taken out.old)
        (map (λ name. name.now) files.entry.names.now) refused
        (input_of (R.left input.new) (R.failed input.new)) (W.taken out.new) written
        × (files.entry.progress ≡ Progress.Hidden
        → AreReported (E.taken err.old) (E.failed err.old) refused (E.taken err.new) (E.failed err.new))) }
    // It stops with what was written about some of the files, from the first.
    ensures part { OnErr result
        (AreBegun work.entry (input_of (R.left input.old) (R.failed input.old)) (W.taken out.old)
        (map (λ name. name.now) files.entry.names.now)
        (input_of (R.left input.new) (R.failed input.new)) (W.taken out.new)) }
    // It stops where a write failed, once, or where memory ran out.
    ensures writes { StopsForWrites result (W.failed out.old) (W.failed out.new) }
{
    let mut memory = Memory::new(alloc);
    let written = write_each(rt, alloc, &mut memory, files, input, out, err, work);
    files.progress.clear(err, files.names.len());
    written
}
