//! From the bytes of an input to the bytes of its report.

ghost use Rattle.std.specs.Prelude.{◌≡◌, ◌≢◌, ◌⊎◌, ◌++◌, ℕ, List, length, IfOk, OnErr, OnOk, IsErrOf, nat_lt};
ghost use Rattle.std.specs.Io.KnownBytes.{Appends};
ghost use Rattle.lic_kind.specs.LineRules.{rules_of};
ghost use Rattle.lic_norm.specs.Tokens.{tokens_of};
ghost use Rattle.lic_stream.specs.Stream.{BeginsWith, ReadsUpTo, one_more};
ghost use Rattle.lic_report.specs.Report.{AreAllLines, IsReport, IsReportOf, token_lines};
ghost use Rattle.lic_engine.specs.Failures.{CountsReads, CountsWrites, IsOfWriting, Keeps};
ghost use Rattle.lic_engine.specs.Inputs.{IsAccepted, IsRefused, IsUnrefused};

use crate::fault::RunFault;
use crate::input::read_text;
use crate::memory::Memory;
use crate::outer::report_outer;
use lic_fields::LineBuffer;
use lic_find::Ask;
use lic_kind::Rules;
use lic_norm::{Text, TextFault, Words};
use lic_report::{MatchLines, TokenLines, Wanted};
use lic_set::Set;
use lic_stream::{Sink, Source, WriteFailed, put_all, put_gathered};
use std::alloc::Global;

/// How many bytes of lines of tokens are gathered before they are written.
const ENOUGH: usize = 16_384;

/// Memory for them, and for the line after which they are enough: mostly the list never grows.
const GATHERED: usize = 25_600;

/// Writes the lines of all matches that are asked for, and says whether there was one.
fn report_all<W: Sink>(
    alloc: Global,
    name: &str,
    text: &Text,
    out: &mut W,
    set: &Set,
    ask: &Ask,
) -> Result<bool, RunFault>
    ensures written { IfOk result (λ some. (lines : List ℕ)
        × AreAllLines name.now set.now ask.now text.now.tokens lines
        × Appends (W.taken out.old) (W.taken out.new) lines
        × (some ≡ nat_lt 0 (length lines))) }
    ensures part { OnErr result
        ((lines : List ℕ) → AreAllLines name.now set.now ask.now text.now.tokens lines
        → BeginsWith (W.taken out.old) (W.taken out.new) lines) }
    ensures writes { CountsWrites result (W.failed out.old) (W.failed out.new) }
    ensures faults { IsOfWriting result }
{
    let mut match_lines = MatchLines::new(alloc, name, set);
    let wanted = Wanted::new(alloc, set, text, ask)?;
    let mut lines = Vec::new(alloc);
    let mut some = false;
    for triple in wanted {
        match_lines.add(alloc, &mut lines, text, triple)?;
        put_gathered(out, &mut lines)?;
        some = true;
    }
    put_all(out, lines.as_slice())?;
    Ok(some)
}

/// Writes the report of a text, and says whether there was a match.
fn report<W: Sink>(
    alloc: Global,
    name: &str,
    text: &Text,
    out: &mut W,
    set: &Set,
    ask: &Ask,
) -> Result<bool, RunFault>
    ensures written { IfOk result (λ some. (lines : List ℕ)
        × IsReportOf name.now set.now ask.now text.now.source text.now.tokens lines
        × Appends (W.taken out.old) (W.taken out.new) lines
        × (some ≡ nat_lt 0 (length lines))) }
    ensures part { OnErr result
        ((lines : List ℕ) → IsReportOf name.now set.now ask.now text.now.source text.now.tokens lines
        → BeginsWith (W.taken out.old) (W.taken out.new) lines) }
    ensures writes { CountsWrites result (W.failed out.old) (W.failed out.new) }
    ensures faults { IsOfWriting result }
{
    if ask.all {
        report_all(alloc, name, text, out, set, ask)
    } else {
        report_outer(alloc, name, text, out, set)
    }
}

/// Reads an input to its end, and writes the report of it: a line for each match that is asked for; or, where not all are
/// asked for, for each outer match and its variables. The answer says whether a match was reported.
///
/// At most 67,108,865 bytes are read, whatever they are. `name` is the first field of each line. An input that is too long, and one
/// that cannot be read, gives no line; after a write that failed, and where memory ran out, what was written is a
/// beginning of the report. A failed call is not tried again.
pub fn run<R: Source, W: Sink>(
    memory: &mut Memory,
    name: &str,
    input: &mut R,
    out: &mut W,
    set: &Set,
    words: &Words,
    rules: &Rules,
    ask: &Ask,
) -> Result<bool, RunFault>
    // The whole report of what was read to the end.
    ensures report { IfOk result (λ some. (bytes lines : List ℕ)
        × IsAccepted (R.left input.old) (R.left input.new) bytes
        × IsReport (rules_of rules.now) name.now set.now words.now ask.now bytes lines
        × Appends (W.taken out.old) (W.taken out.new) lines
        × (some ≡ nat_lt 0 (length lines))) }
    // A beginning of the report of what was read.
    ensures part { (fault : _) → IsErrOf result fault
        → ((fault ≡ RunFault.Write) ⊎ (fault ≡ RunFault.Memory)) → (bytes : List ℕ)
        × IsAccepted (R.left input.old) (R.left input.new) bytes
        × ((lines : List ℕ) → IsReport
        (rules_of rules.now) name.now set.now words.now ask.now bytes lines
        → BeginsWith (W.taken out.old) (W.taken out.new) lines) }
    // An input that is too long: it stays refused, whatever follows.
    ensures refused { (fault : _) → IsErrOf result (RunFault.Text fault) → fault ≢ TextFault.Memory
        → IsRefused (R.left input.old) (R.left input.new) fault }
    // Lack of memory is answered only where what was read is not too long.
    ensures memory { IsErrOf result (RunFault.Text TextFault.Memory)
        → IsUnrefused (R.left input.old) (R.left input.new) }
    // After a refused text and a failed read nothing is written.
    ensures keeps { Keeps result out.old out.new }
    // Each failure comes from the one that failed, and no other call failed.
    ensures reads { CountsReads result (R.failed input.old) (R.failed input.new) }
    ensures writes { CountsWrites result (W.failed out.old) (W.failed out.new) }
    ensures most { ReadsUpTo (R.left input.old) (R.left input.new) 67108865 }
{
    let text = read_text(memory, input, words, rules)?;
    let some = report(memory.alloc(), name, &text, out, set, ask);
    memory.keep(text);
    some
}

/// Writes the lines of tokens that were gathered, if they are enough, and takes them away.
fn put_enough<W: Sink>(out: &mut W, lines: &mut LineBuffer) -> Result<(), WriteFailed>
    ensures ok { OnOk result
        ((put : List ℕ) × Appends (W.taken out.old) (W.taken out.new) put × (lines.old ≡ put ++ lines.new)) }
    ensures part { OnErr result (BeginsWith (W.taken out.old) (W.taken out.new) lines.old) }
    ensures sound { OnOk result (W.failed out.new ≡ W.failed out.old) }
    ensures failed { OnErr result (W.failed out.new ≡ one_more (W.failed out.old)) }
{
    if lines.len() < ENOUGH {
        return Ok(());
    }
    put_all(out, lines.as_slice())?;
    lines.clear();
    Ok(())
}

/// Writes the lines of a text's tokens, and says whether there was one. What the buffer holds has no effect.
fn report_tokens<W: Sink>(
    alloc: Global,
    lines: &mut LineBuffer,
    name: &str,
    text: &Text,
    out: &mut W,
) -> Result<bool, RunFault>
    ensures written { IfOk result (λ some.
        Appends (W.taken out.old) (W.taken out.new) (token_lines name.now text.now.tokens)
        × (some ≡ nat_lt 0 (length (token_lines name.now text.now.tokens)))) }
    ensures part { OnErr result
        (BeginsWith (W.taken out.old) (W.taken out.new) (token_lines name.now text.now.tokens)) }
    ensures writes { CountsWrites result (W.failed out.old) (W.failed out.new) }
    ensures faults { IsOfWriting result }
{
    lines.clear();
    lines.reserve(GATHERED)?;
    let mut token_lines = TokenLines::new(alloc, name, text)?;
    while token_lines.add_some(lines)? {
        put_enough(out, lines)?;
    }
    put_all(out, lines.as_slice())?;
    Ok(text.len() > 0)
}

/// Reads an input to its end, and writes a line for each of its tokens. The answer says whether a line was
/// written.
///
/// At most 67,108,865 bytes are read, whatever they are. `name` is the first field of each line. An input that is too long, and one
/// that cannot be read, gives no line; after a write that failed, and where memory ran out, what was written is a
/// beginning of the lines. A failed call is not tried again.
pub fn run_tokens<R: Source, W: Sink>(
    memory: &mut Memory,
    name: &str,
    input: &mut R,
    out: &mut W,
    words: &Words,
    rules: &Rules,
) -> Result<bool, RunFault>
    // The lines of all tokens of what was read to the end.
    ensures report { IfOk result (λ some. (bytes : List ℕ)
        × IsAccepted (R.left input.old) (R.left input.new) bytes
        × Appends (W.taken out.old) (W.taken out.new)
        (token_lines name.now (tokens_of (rules_of rules.now) words.now bytes))
        × (some ≡ nat_lt 0 (length
        (token_lines name.now (tokens_of (rules_of rules.now) words.now bytes))))) }
    // A beginning of the lines of what was read.
    ensures part { (fault : _) → IsErrOf result fault
        → ((fault ≡ RunFault.Write) ⊎ (fault ≡ RunFault.Memory)) → (bytes : List ℕ)
        × IsAccepted (R.left input.old) (R.left input.new) bytes
        × BeginsWith (W.taken out.old) (W.taken out.new)
        (token_lines name.now (tokens_of (rules_of rules.now) words.now bytes)) }
    // An input that is too long: it stays refused, whatever follows.
    ensures refused { (fault : _) → IsErrOf result (RunFault.Text fault) → fault ≢ TextFault.Memory
        → IsRefused (R.left input.old) (R.left input.new) fault }
    // Lack of memory is answered only where what was read is not too long.
    ensures memory { IsErrOf result (RunFault.Text TextFault.Memory)
        → IsUnrefused (R.left input.old) (R.left input.new) }
    // After a refused text and a failed read nothing is written.
    ensures keeps { Keeps result out.old out.new }
    // Each failure comes from the one that failed, and no other call failed.
    ensures reads { CountsReads result (R.failed input.old) (R.failed input.new) }
    ensures writes { CountsWrites result (W.failed out.old) (W.failed out.new) }
    ensures most { ReadsUpTo (R.left input.old) (R.left input.new) 67108865 }
{
    let text = read_text(memory, input, words, rules)?;
    let some = report_tokens(memory.alloc(), &mut memory.lines, name, &text, out);
    memory.keep(text);
    some
}
