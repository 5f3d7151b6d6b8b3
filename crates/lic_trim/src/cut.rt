//! What is taken from a line.
ghost use Rattle.std.specs.Prelude.{◌≡◌, ◌+◌, ◌≤◌, length, IfOk};
ghost use Rattle.lic_trim.specs.Sources.{chars_of};
ghost use Rattle.lic_kind.specs.LineRules.{rules_of};
ghost use Rattle.lic_trim.specs.Lines.{cut_of};

use crate::item::item_length;
use crate::line_part::LinePart;
use crate::side::Side;
use crate::source::SourceChar;
use crate::space_sequences::sequence_length;
use lic_kind::Rules;
use std::alloc::{AllocError, Global};

/// How many characters of a line are its lead, its item and its tail.
#[derive(Clone, Copy)]
pub struct LineCut {
    pub lead: usize,
    pub item: usize,
    pub tail: usize,
}

/// What is taken from a line.
pub fn cut_line(
    alloc: Global,
    rules: &Rules,
    part: LinePart,
    line: &[SourceChar],
) -> Result<LineCut, AllocError>
    ensures cut { IfOk result (λ cut. cut ≡ cut_of (rules_of rules.now) part (chars_of line.now)) }
    ensures within { IfOk result (λ cut. cut.lead + cut.item + cut.tail ≤ length line.now) }
{
    let lead = if part.has_front {
        sequence_length(alloc, rules, Side::Front, line)?
    } else {
        0
    };
    let rest = &line[lead..];
    let item = if part.has_front {
        item_length(rules, rest, part.past)
    } else {
        0
    };
    let left = &rest[item..];
    let tail = if part.has_end {
        sequence_length(alloc, rules, Side::End, left)?
    } else {
        0
    };
    Ok(LineCut { lead, item, tail })
}
