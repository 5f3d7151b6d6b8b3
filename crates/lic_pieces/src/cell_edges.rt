//! What a list of cells has at its edges.
ghost use Rattle.std.specs.Prelude.{◌≡◌, List, [], ◌++◌};
ghost use Rattle.std.specs.List.{list_all};
ghost use Rattle.lic_lines.specs.declared.cell.Cell.{Cell};
ghost use Rattle.lic_pieces.specs.Edges.{HasEdges, is_empty};
ghost use Rattle.lic_pieces.specs.Pieces.{is_blank, begins_in_blank, ends_in_blank};

use lic_lines::Cell;

/// What a list of cells has at its edges.
#[derive(Clone, Copy)]
pub(crate) struct Edges {
    pub(crate) begins_in_blank: bool,
    pub(crate) ends_in_blank: bool,
    /// Some of them are no blanks.
    pub(crate) has_text: bool,
}

fn is_blank(cell: &Cell) -> bool
    ensures { result ≡ is_blank cell.now }
{
    matches!(cell, Cell::Blank)
}

/// Whether all of these are blanks.
fn are_blank(cells: &[Cell]) -> bool
    ensures { result ≡ list_all is_blank cells.now }
{
    cells.iter().all(|cell| is_blank(cell))
}

/// Whether the first of these is a blank.
fn begins_in_blank(cells: &[Cell]) -> bool
    ensures { result ≡ begins_in_blank cells.now }
{
    matches!(cells, [Cell::Blank, ..])
}

/// Whether the last of these is a blank.
fn ends_in_blank(cells: &[Cell]) -> bool
    ensures { result ≡ ends_in_blank cells.now }
{
    matches!(cells, [.., Cell::Blank])
}

impl Edges {
    /// Those of no cells.
    pub(crate) fn none() -> Edges
        ensures { HasEdges result [] }
    {
        Edges {
            begins_in_blank: false,
            ends_in_blank: false,
            has_text: false,
        }
    }

    /// Those of these cells.
    pub(crate) fn of(cells: &[Cell]) -> Edges
        ensures { HasEdges result cells.now }
    {
        Edges {
            begins_in_blank: begins_in_blank(cells),
            ends_in_blank: ends_in_blank(cells),
            has_text: !are_blank(cells),
        }
    }

    /// There are no cells.
    fn is_none(self) -> bool
        ensures { (cells : List Cell) → HasEdges self cells → result ≡ is_empty cells }
    {
        !self.begins_in_blank & !self.has_text
    }

    /// Adds the edges of cells after the others.
    pub(crate) fn add(&mut self, more: Edges)
        ensures { (before cells : List Cell) → HasEdges self.old before → HasEdges more cells
            → HasEdges self.new (before ++ cells) }
    {
        if self.is_none() {
            self.begins_in_blank = more.begins_in_blank;
        }
        if !more.is_none() {
            self.ends_in_blank = more.ends_in_blank;
        }
        self.has_text |= more.has_text;
    }
}
