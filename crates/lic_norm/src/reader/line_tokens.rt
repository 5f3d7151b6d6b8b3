//! The first tokens of lines of an input.

ghost use Rattle.std.specs.Prelude.{◌≡◌, ◌+◌, ◌++◌, ◌<◌, ◌≤◌, ◌^◌, List, length, take, IfOk, IfSome, OnOk, IsAscii, IsUtf8};
ghost use Rattle.lic_kind.specs.LineRules.{rules_of};
ghost use Rattle.lic_trim.specs.Lines.{whole_line};
ghost use Rattle.lic_trim.specs.Sources.{placed};
ghost use Rattle.lic_lines.specs.Cells.{cells_of};
ghost use Rattle.lic_lines.specs.Streaks.{streaks_joined};
ghost use Rattle.lic_lines.specs.Tokens.{Token, first_tokens, line_tokens};
ghost use Rattle.lic_norm.specs.Feeding.{AreLines};
ghost use Rattle.lic_rewriting.specs.Taking.{HasTaken, HasTakenSome, phrases_of};
ghost use Rattle.lic_norm.specs.Tokens.{first_tokens_of, line_tokens_of};

use crate::reader::characters::read_characters;
use lic_columns::Lines;
use lic_lines::{Rules, left_of_line};
use lic_rewriting::{Batch, PartBuffers, Rewriting, Section};
use lic_trim::{LinePart, SourceChar, cut_line};
use std::alloc::{AllocError, Global};
use std::fmt;

/// A line of a whole input.
const WHOLE_LINE: LinePart = LinePart {
    has_front: true,
    has_end: true,
    past: None,
};

/// The most characters of a buffer that are kept from one line to the next.
const MAX_KEPT: usize = 65_536;

/// Buffers for the work on lines, kept from one to the next. What they hold has no effect.
pub struct LineBuffers {
    /// The characters of any other line.
    characters: Vec<SourceChar>,
    /// The letters of a token of such a line.
    letters: String,
    part: PartBuffers,
    /// Lines that are read by columns.
    lines: Lines,
    /// Tokens of them that are spelled together: a batch once there was one.
    batches: Vec<Batch>,
}

impl LineBuffers {
    /// Buffers that take no memory yet.
    pub fn new(alloc: Global) -> LineBuffers {
        LineBuffers {
            characters: Vec::new(alloc),
            letters: String::new(alloc),
            part: PartBuffers::new(alloc),
            lines: Lines::new(alloc),
            batches: Vec::new(alloc),
        }
    }
}

// Written out, so that a caller's proof has one call and not the drop of each buffer.
impl Drop for LineBuffers {
    fn drop(self) {
        let LineBuffers {
            characters: _characters,
            letters: _letters,
            part: _part,
            lines: _lines,
            batches: _batches,
        } = self;
    }
}

impl fmt::Debug for LineBuffers {
    fn fmt<W: fmt::Write>(&self, f: &mut fmt::Formatter<W>) -> fmt::Result {
        f.write_str("LineBuffers")
    }
}

/// The batch that is kept, which is made where there is none yet.
fn batch_of(batches: &mut Vec<Batch>) -> Result<&mut Batch, AllocError> {
    if batches.is_empty() {
        batches.push(Batch::new())?;
    }
    Ok(&mut batches[0])
}

/// Takes the first tokens, by these line rules, of a long line of these characters, and lets go of them.
#[inline(never)]
fn take_long_line(
    alloc: Global,
    rules: &Rules,
    characters: &mut Vec<SourceChar>,
    letters: &mut String,
    part: &mut PartBuffers,
    rewriting: &mut Rewriting<'_>,
) -> Result<(), AllocError>
    requires { HasTakenSome rewriting.old }
    ensures taken { OnOk result ((taken : List Token) → HasTaken rewriting.old taken
        → HasTaken rewriting.new (taken ++ line_tokens (rules_of rules.now) whole_line characters.old.items)) }
    ensures phrases { phrases_of rewriting.new ≡ phrases_of rewriting.old }
{
    let cut = cut_line(alloc, rules, WHOLE_LINE, characters)?;
    characters.truncate(characters.len() - cut.tail);
    rewriting.take_long(alloc, rules, characters, cut.lead + cut.item, letters, part)?;
    *characters = Vec::new(alloc);
    Ok(())
}

/// Takes the first tokens, by these line rules, of a line of any bytes that begins at this byte of the input. What the buffers
/// hold has no effect.
pub(crate) fn take_any_line(
    alloc: Global,
    rules: &Rules,
    at: u32,
    line: &[u8],
    buffers: &mut LineBuffers,
    rewriting: &mut Rewriting<'_>,
) -> Result<(), AllocError>
    requires fits { at + length line.now < 2 ^ 32 }
    requires before { HasTakenSome rewriting.old }
    ensures taken { OnOk result ((taken : List Token) → HasTaken rewriting.old taken
        → HasTaken rewriting.new (taken ++ line_tokens_of (rules_of rules.now) at line.now)) }
    ensures phrases { phrases_of rewriting.new ≡ phrases_of rewriting.old }
{
    let LineBuffers {
        characters,
        letters,
        part,
        ..
    } = buffers;
    read_characters(characters, at, line)?;
    if characters.len() > MAX_KEPT {
        take_long_line(alloc, rules, characters, letters, part, rewriting)?;
        return Ok(());
    }
    let left = left_of_line(alloc, rules, WHOLE_LINE, characters)?;
    rewriting.take_characters(alloc, rules, left, letters, part)?;
    Ok(())
}

/// Takes the first tokens, by these line rules, of a line, of which a part is there. What the buffers hold has no effect.
pub fn take_part(
    alloc: Global,
    rules: &Rules,
    part: LinePart,
    line: &[SourceChar],
    buffers: &mut LineBuffers,
    rewriting: &mut Rewriting<'_>,
) -> Result<(), AllocError>
    requires { HasTakenSome rewriting.old }
    ensures taken { OnOk result ((taken : List Token) → HasTaken rewriting.old taken
        → HasTaken rewriting.new (taken ++ line_tokens (rules_of rules.now) part line.now)) }
    ensures phrases { phrases_of rewriting.new ≡ phrases_of rewriting.old }
{
    let left = left_of_line(alloc, rules, part, line)?;
    rewriting.take_characters(alloc, rules, left, &mut buffers.letters, &mut buffers.part)
}

/// Takes the first tokens, by these line rules, of a text of ASCII that begins at this byte of the input: whole lines, or a part of the
/// last. Gives how many there are, a copyright sign in parentheses counted as three. What the buffers hold has no effect.
pub fn take_ascii(
    alloc: Global,
    rules: &Rules,
    at: u32,
    text: &[u8],
    buffers: &mut LineBuffers,
    rewriting: &mut Rewriting<'_>,
) -> Result<usize, AllocError>
    requires ascii { IsAscii text.now }
    requires fits { at + length text.now + 65 ≤ 2 ^ 32 }
    requires before { HasTakenSome rewriting.old }
    ensures taken { OnOk result ((taken : List Token) → HasTaken rewriting.old taken
        → HasTaken rewriting.new (taken ++ first_tokens_of (rules_of rules.now) at text.now)) }
    ensures count { IfOk result (λ count. count ≡ length (first_tokens (streaks_joined (rules_of rules.now)
        (cells_of (rules_of rules.now) (placed at text.now))))) }
    ensures phrases { phrases_of rewriting.new ≡ phrases_of rewriting.old }
{
    let lines = &mut buffers.lines;
    lines.read(alloc, rules, at, text)?;
    let batch = batch_of(&mut buffers.batches)?;
    let section = Section::of(at, lines);
    let count = section.len();
    if text.len() <= MAX_KEPT {
        rewriting.take_section(alloc, &section, batch)?;
        return Ok(count);
    }
    rewriting.take_lines(alloc, at, lines, batch)?;
    *lines = Lines::new(alloc);
    Ok(count)
}

/// Takes the tokens of the lines at the start of these bytes that are read by columns though they are not ASCII. Gives how many bytes
/// these lines have. What the buffers hold has no effect.
pub(crate) fn take_front(
    alloc: Global,
    rules: &Rules,
    at: u32,
    bytes: &[u8],
    buffers: &mut LineBuffers,
    rewriting: &mut Rewriting<'_>,
) -> Result<usize, AllocError>
    requires fits { at + length bytes.now + 65 ≤ 2 ^ 32 }
    requires before { HasTakenSome rewriting.old }
    ensures within { IfOk result (λ n. n ≤ length bytes.now) }
    ensures lines { IfOk result (λ n. AreLines (take n bytes.now)) }
    ensures taken { IfOk result (λ n. (taken : List Token) → HasTaken rewriting.old taken
        → HasTaken rewriting.new (taken ++ first_tokens_of (rules_of rules.now) at (take n bytes.now))) }
    ensures phrases { phrases_of rewriting.new ≡ phrases_of rewriting.old }
    ensures other { IfOk result (λ n. n ≡ 0 → rewriting.new ≡ rewriting.old) }
{
    let lines = &mut buffers.lines;
    let end = lines.read_front(rules, at, bytes)?;
    if end == 0 {
        return Ok(0);
    }
    let section = Section::of(at, lines);
    rewriting.take_section(alloc, &section, batch_of(&mut buffers.batches)?)?;
    Ok(end)
}
