//! From a line to its tokens.
ghost use Rattle.std.specs.Prelude.{◌≡◌, ◌++◌, true, map, IfOk, OnOk};
ghost use Rattle.lic_kind.specs.LineRules.{rules_of};
ghost use Rattle.lic_lines.specs.Cells.{cell_of, blank_for, line_cells};
ghost use Rattle.lic_lines.specs.Streaks.{streaks_joined};
ghost use Rattle.lic_lines.specs.Tokens.{line_tokens, text_tokens_after, tokens_in};

use crate::buffers::Buffers;
use crate::cell::Cell;
use crate::signs::join_single_signs;
use crate::streaks::Streaks;
use crate::text::push_text;
use crate::tokens::FirstToken;
use lic_kind::{Kind, Rules, kind_of};
use lic_trim::{LinePart, SourceChar, cut_line};
use std::alloc::{AllocError, Global};

/// What a character is to the steps after the line rules.
fn cell_of(s: SourceChar) -> Cell
    ensures { result ≡ cell_of s }
{
    match kind_of(s.char) {
        Kind::Word => Cell::Word(s),
        Kind::Mark => Cell::Mark(s),
        Kind::Blank | Kind::Dropped => Cell::Blank,
    }
}

/// Adds the cells of these characters.
pub(crate) fn push_cells(cells: &mut Vec<Cell>, text: &[SourceChar]) -> Result<(), AllocError>
    ensures { OnOk result (cells.new.items ≡ cells.old.items ++ map cell_of text.now) }
{
    for s in text {
        cells.push(cell_of(*s))?;
    }
    Ok(())
}

/// Adds a blank for a part of `length` characters that is taken from a line, if it is not empty.
fn push_blank_for(cells: &mut Vec<Cell>, length: usize) -> Result<(), AllocError>
    ensures { OnOk result (cells.new.items ≡ cells.old.items ++ blank_for length) }
{
    if length > 0 {
        cells.push(Cell::Blank)?;
    }
    Ok(())
}

/// What a line leaves after its streaks of marks are joined: the blanks, marks and word characters that its tokens
/// are made of, with one blank for each of lead, item and tail that is not empty. Dropped characters are taken
/// out of the line already.
///
/// The error is that memory ran out.
pub fn cells_of_line(
    alloc: Global,
    rules: &Rules,
    part: LinePart,
    line: &[SourceChar],
) -> Result<Vec<Cell>, AllocError>
    ensures { IfOk result (λ cells. cells.items
        ≡ streaks_joined (rules_of rules.now) (line_cells (rules_of rules.now) part line.now)) }
{
    let cut = cut_line(alloc, rules, part, line)?;
    let left = &line[cut.lead + cut.item..line.len() - cut.tail];
    let mut cells = Vec::with_capacity(alloc, left.len() + 3)?;
    push_blank_for(&mut cells, cut.lead)?;
    push_blank_for(&mut cells, cut.item)?;
    push_cells(&mut cells, left)?;
    push_blank_for(&mut cells, cut.tail)?;
    let mut streaks = Streaks::new(alloc);
    let joined = streaks.join(rules, &cells)?;
    Vec::from_slice(alloc, joined)
}

/// What is left of a line, or of a part of one, when its lead, item and tail are taken away.
///
/// The error is that memory ran out.
pub fn left_of_line<'a>(
    alloc: Global,
    rules: &Rules,
    part: LinePart,
    line: &'a [SourceChar],
) -> Result<&'a [SourceChar], AllocError>
    ensures { IfOk result (λ left. text_tokens_after (rules_of rules.now) true left.now
        ≡ line_tokens (rules_of rules.now) part line.now) }
{
    let cut = cut_line(alloc, rules, part, line)?;
    Ok(&line[cut.lead + cut.item..line.len() - cut.tail])
}

/// Adds the tokens of one line, by this project's profile of the matching guidelines of SPDX 2.3, Annex B: without
/// its lead, item and tail, its separators taken as blanks, each streak of quotes and of dashes as one, and each
/// copyright sign by itself as the token `copyright`. Dropped characters are taken out of the line already; spans
/// are in bytes. What a line before or after this one holds has no effect, nor what the buffers hold.
///
/// The error is that memory ran out; `out` then holds some of the line's tokens, and is of no use.
pub fn push_tokens_of_line(
    alloc: Global,
    rules: &Rules,
    part: LinePart,
    line: &[SourceChar],
    buffers: &mut Buffers,
    out: &mut Vec<FirstToken>,
) -> Result<(), AllocError>
    ensures { OnOk result (tokens_in out.new.items
        ≡ tokens_in out.old.items ++ line_tokens (rules_of rules.now) part line.now) }
{
    let left = left_of_line(alloc, rules, part, line)?;
    let from = out.len();
    push_text(alloc, rules, left, buffers, out)?;
    join_single_signs(out, from);
    Ok(())
}
