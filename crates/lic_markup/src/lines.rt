//! How the pieces of a template lie in its lines.
ghost use Rattle.std.specs.Prelude.{◌≡◌, IfOk, map, reverse};
ghost use Rattle.lic_markup.specs.Lines as lines;
ghost use Rattle.lic_elements.specs.Pieces.{characters};
ghost use Rattle.lic_elements.specs.Views.{element_of};
ghost use Rattle.lic_markup.specs.Views.{placed_of};

use lic_elements::{Element, Piece, Rule};
use lic_kind::is_dropped;
use lic_pieces::Next;
use std::alloc::{AllocError, Global};

/// Whether a character is white space, or a dropped character, which counts as such here.
fn is_space(character: char) -> bool
    ensures { result ≡ lines.is_space character }
{
    character.is_whitespace() || is_dropped(character)
}

/// Whether there is only white space between the start of a line and the end of a piece, where `so_far` says so of
/// what is before the piece.
pub fn at_line_start(so_far: bool, piece: Piece<'_>) -> bool
    ensures { result ≡ lines.at_line_start so_far (characters piece.entry) }
{
    let mut front = piece;
    while let Some((last, before)) = front.split_last() {
        if last.1 == '\n' {
            return true;
        }
        if !is_space(last.1) {
            return false;
        }
        front = before;
    }
    so_far
}

/// Whether there is only white space from the beginning of a piece to the end of the line, where the flag handed in says
/// so of what follows the piece.
fn line_ends(following: bool, piece: Piece<'_>) -> bool
    ensures { result ≡ lines.line_ends following (characters piece.entry) }
{
    let mut rest = piece;
    while let Some((first, after)) = rest.split_first() {
        if first.1 == '\n' {
            return true;
        }
        if !is_space(first.1) {
            return false;
        }
        rest = after;
    }
    following
}

/// Whether there are only white space and optional rules from an element to the end of the line, where the flag handed
/// in says so of what follows the element.
fn line_ends_at(following: bool, element: &Element<'_>) -> bool
    ensures { result ≡ lines.line_ends_at following (element_of element.now) }
{
    match element {
        Element::Text(piece) => line_ends(following, *piece),
        Element::Rule(Rule::Variable { .. }) => false,
        Element::Rule(Rule::Begin(_) | Rule::End(_)) | Element::Refused(_) => following,
    }
}

/// What an element counts as, if the line continues after it.
fn counts_as(element: &Element<'_>) -> Next
    ensures { result ≡ lines.counts_as (element_of element.now) }
{
    match element {
        Element::Rule(Rule::Variable { .. }) => Next::Var,
        _ => Next::Optional,
    }
}

/// Whether a piece ends in a line's end.
pub fn ends_line(piece: Piece<'_>) -> bool
    ensures { result ≡ lines.ends_line (characters piece.entry) }
{
    match piece.split_last() {
        Some((last, _before)) => last.1 == '\n',
        None => false,
    }
}

/// Each element with what follows it in its line, the last element first.
pub fn with_next(
    alloc: Global,
    elements: Vec<Element<'_>>,
) -> Result<Vec<(Element<'_>, Next)>, AllocError>
    ensures { IfOk result (λ placed. map placed_of (reverse placed.items)
        ≡ lines.with_next (map element_of elements.entry.items)) }
{
    let mut elements = elements;
    let mut placed = Vec::new(alloc);
    let mut line_ends = true;
    let mut next = Next::LineEnd;
    while let Some(element) = elements.pop() {
        line_ends = line_ends_at(line_ends, &element);
        let before = if line_ends {
            Next::LineEnd
        } else {
            counts_as(&element)
        };
        placed.push((element, next))?;
        next = before;
    }
    Ok(placed)
}
