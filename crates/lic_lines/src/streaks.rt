//! Streaks of marks: separators become blanks, quotes one quote, dashes one dash.
ghost use Rattle.std.specs.Prelude.{◌≡◌, ◌∷◌, ◌++◌, ◌<◌, ◌≤◌, length, drop, IfOk, OnOk, slice_range};
ghost use Rattle.lic_trim.specs.Texts.{groups};
ghost use Rattle.lic_kind.specs.LineRules.{rules_of};
ghost use Rattle.lic_lines.specs.Streaks.{same_mark, same_family, without_separator, without_separators, with_joined, joined, end_after};
ghost use Rattle.lic_lines.specs.Groupings.{together};

use crate::cell::Cell;
use lic_kind::{Rules, is_dash, is_quote};
use lic_trim::SourceChar;
use std::alloc::{AllocError, Global};

/// Which neighbours belong to one group.
#[derive(Clone, Copy)]
pub enum Grouping {
    /// The same mark.
    SameMark,
    /// Quotes, or dashes.
    SameFamily,
    /// Word characters.
    Words,
}

/// Whether the two are the same mark.
fn same_mark(a: &Cell, b: &Cell) -> bool
    ensures { result ≡ same_mark a.now b.now }
{
    let (Cell::Mark(s), Cell::Mark(t)) = (*a, *b) else {
        return false;
    };
    s.char == t.char
}

/// Whether the two are quotes, or are dashes.
fn same_family(a: &Cell, b: &Cell) -> bool
    ensures { result ≡ same_family a.now b.now }
{
    let (Cell::Mark(s), Cell::Mark(t)) = (*a, *b) else {
        return false;
    };
    (is_quote(s.char) & is_quote(t.char)) | (is_dash(s.char) & is_dash(t.char))
}

/// Whether two neighbours belong to one group.
fn together(grouping: Grouping, a: &Cell, b: &Cell) -> bool
    ensures { result ≡ together grouping a.now b.now }
{
    match grouping {
        Grouping::SameMark => same_mark(a, b),
        Grouping::SameFamily => same_family(a, b),
        Grouping::Words => matches!((*a, *b), (Cell::Word(_), Cell::Word(_))),
    }
}

/// Where the group that begins here ends.
pub fn group_end(grouping: Grouping, cells: &[Cell], from: usize) -> usize
    requires { from < length cells.now }
    ensures after { from < result }
    ensures within { result ≤ length cells.now }
    ensures group { groups (together grouping) (drop from cells.now)
        ≡ slice_range cells.now from result ∷ groups (together grouping) (drop result cells.now) }
{
    let mut end = from + 1;
    while end < cells.len() && together(grouping, &cells[end - 1], &cells[end]) {
        end += 1;
    }
    end
}

/// Where the last of these ends, or this offset where there is none.
pub fn end_after(at: u32, cells: &[Cell]) -> u32
    ensures { result ≡ end_after at cells.now }
{
    let mut end = at;
    for cell in cells {
        match cell {
            Cell::Blank => {}
            Cell::Mark(s) | Cell::Word(s) => end = s.end,
        }
    }
    end
}

/// Adds a streak of one same mark, which is a blank if it is a separator.
fn push_without_separator(out: &mut Vec<Cell>, streak: &[Cell]) -> Result<(), AllocError>
    ensures { OnOk result (out.new.items ≡ out.old.items ++ without_separator streak.now) }
{
    match streak {
        [Cell::Mark(_), _, _, ..] => {
            out.push(Cell::Blank)?;
            Ok(())
        }
        _ => out.extend_from_slice(streak),
    }
}

/// Adds the cells with a blank for each separator.
fn push_without_separators(out: &mut Vec<Cell>, cells: &[Cell]) -> Result<(), AllocError>
    ensures { OnOk result (out.new.items ≡ out.old.items ++ without_separators cells.now) }
{
    let mut at = 0;
    while at < cells.len() {
        let end = group_end(Grouping::SameMark, cells, at);
        push_without_separator(out, &cells[at..end])?;
        at = end;
    }
    Ok(())
}

/// Adds a streak, which is one if it is of quotes or of dashes.
fn push_joined(out: &mut Vec<Cell>, streak: &[Cell]) -> Result<(), AllocError>
    ensures { OnOk result (out.new.items ≡ out.old.items ++ joined streak.now) }
{
    match streak {
        [] => Ok(()),
        [Cell::Mark(s), rest @ ..] => {
            let end = end_after(s.end, rest);
            out.push(Cell::Mark(SourceChar { end, ..*s }))?;
            Ok(())
        }
        _ => out.extend_from_slice(streak),
    }
}

/// Adds the cells with each streak of quotes and of dashes as one.
fn push_with_joined(out: &mut Vec<Cell>, cells: &[Cell]) -> Result<(), AllocError>
    ensures { OnOk result (out.new.items ≡ out.old.items ++ with_joined cells.now) }
{
    let mut at = 0;
    while at < cells.len() {
        let end = group_end(Grouping::SameFamily, cells, at);
        push_joined(out, &cells[at..end])?;
        at = end;
    }
    Ok(())
}

/// Buffers for the cells of a part of text, kept from one part to the next.
#[derive(Drop)]
pub struct Streaks {
    parted: Vec<Cell>,
    joined: Vec<Cell>,
}

impl Streaks {
    ghost use Rattle.lic_lines.specs.Streaks.{streaks_joined};

    /// No cells. Takes no memory.
    pub fn new(alloc: Global) -> Self {
        Streaks {
            parted: Vec::new(alloc),
            joined: Vec::new(alloc),
        }
    }

    /// The cells without separators, where the rules take these, and with quotes and dashes joined.
    pub fn join(&mut self, rules: &Rules, cells: &[Cell]) -> Result<&[Cell], AllocError>
        ensures { IfOk result (λ joined. joined.now ≡ streaks_joined (rules_of rules.now) cells.now) }
    {
        self.joined.clear();
        self.joined.reserve(cells.len())?;
        if rules.separators() {
            self.parted.clear();
            self.parted.reserve(cells.len())?;
            push_without_separators(&mut self.parted, cells)?;
            push_with_joined(&mut self.joined, &self.parted)?;
        } else {
            push_with_joined(&mut self.joined, cells)?;
        }
        Ok(&self.joined)
    }
}
