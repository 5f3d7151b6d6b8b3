//! The line rules: what they take from lines of ASCII counts as blanks.
ghost use Rattle.std.specs.Prelude.{◌≡◌, ◌+◌, ◌<◌, ◌≤◌, ◌^◌, length, OnOk, IsAscii};
ghost use Rattle.lic_kind.specs.LineRules.{rules_of};
ghost use Rattle.lic_trim.specs.Lines.{cut_of, whole_line};
ghost use Rattle.lic_columns.specs.Edges.{AreBlank, byte_lines, edges_blanked, lines_blanked};
ghost use Rattle.lic_columns.specs.Known.{known_of};

use crate::columns::Columns;
use lic_lines::Rules;
use lic_trim::{SourceChar, cut_with_spaces};
use std::alloc::{AllocError, Global};

/// Takes lead, item and tail of a line of ASCII away, which is from `at` on. White space at its edges, which is mostly all of them, counts
/// as a blank already. The characters are a buffer for those of the line, whatever they hold.
///
/// # Errors
/// Memory ran out. What of the line is then cleared is not said.
#[inline(always)]
fn clear_line(
    alloc: Global,
    rules: &Rules,
    line: &[u8],
    at: usize,
    columns: &mut Columns,
    characters: &mut Vec<SourceChar>,
) -> Result<(), AllocError>
    requires ascii { IsAscii line.now }
    requires fits { at + length line.now < 2 ^ 32 }
    requires word { at + length line.now ≤ length columns.old.word }
    requires mark { at + length line.now ≤ length columns.old.mark }
    requires blank { AreBlank line.now at columns.old }
    ensures { OnOk result (columns.new
        ≡ edges_blanked (cut_of (rules_of rules.now) whole_line line.now) at (at + length line.now) columns.old) }
{
    let found = cut_with_spaces(alloc, rules, line, characters)?;
    let cut = found.cut;
    let end = at + line.len();
    columns.clear(at + found.front, at + (cut.lead + cut.item));
    columns.clear(end - cut.tail, end - found.end);
    Ok(())
}

/// Takes lead, item and tail of each line of a text of ASCII away. The characters are a buffer for those of a line, whatever they
/// hold.
///
/// # Errors
/// Memory ran out. Which lines are then cleared is not said.
pub fn clear_lines(
    alloc: Global,
    rules: &Rules,
    text: &[u8],
    columns: &mut Columns,
    characters: &mut Vec<SourceChar>,
) -> Result<(), AllocError>
    requires ascii { IsAscii text.now }
    requires fits { length text.now < 2 ^ 32 }
    requires read { columns.old ≡ known_of text.now }
    ensures { OnOk result (columns.new ≡ lines_blanked (rules_of rules.now) 0 (byte_lines text.now) (known_of text.now)) }
{
    let mut at = 0;
    while at < text.len() {
        let end = columns.line_end(at);
        clear_line(alloc, rules, &text[at..end], at, columns, characters)?;
        at = end;
    }
    Ok(())
}
