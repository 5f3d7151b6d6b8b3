//! Characters of a template in a row: white space at their ends, and the text that they write.
ghost use Rattle.std.specs.Prelude.{◌≡◌, IfOk};
ghost use Rattle.std.specs.String.{string_bytes};
ghost use Rattle.lic_elements.specs.Pieces.{characters};
ghost use Rattle.lic_elements.specs.Texts.{text_of, offset_of, begins_with, begins_with_two, trim_start, trim_end, unescaped};

use crate::piece::Piece;
use std::alloc::{AllocError, Global};

/// The byte at which the first character begins; 0 where there is none.
pub fn offset_of(text: Piece<'_>) -> usize
    ensures { result ≡ offset_of (characters text.entry) }
{
    match text.split_first() {
        Some(((offset, _), _)) => offset,
        None => 0,
    }
}

/// Whether the text begins with a character.
pub fn begins_with(rest: Piece<'_>, character: char) -> bool
    ensures { result ≡ begins_with character (characters rest.entry) }
{
    match rest.split_first() {
        Some(((_, first), _)) => first == character,
        None => false,
    }
}

/// Whether the text begins with a character, twice.
pub fn begins_with_two(rest: Piece<'_>, character: char) -> bool
    ensures { result ≡ begins_with_two character (characters rest.entry) }
{
    match rest.split_first() {
        Some(((_, first), after)) => first == character && begins_with(after, character),
        None => false,
    }
}

/// Without the white space in front.
pub fn trim_start(text: Piece<'_>) -> Piece<'_>
    ensures { characters result ≡ trim_start (characters text.entry) }
{
    let mut rest = text;
    while let Some((first, after)) = rest.split_first() {
        if !first.1.is_whitespace() {
            break;
        }
        rest = after;
    }
    rest
}

/// Without the white space at the end.
pub fn trim_end(text: Piece<'_>) -> Piece<'_>
    ensures { characters result ≡ trim_end (characters text.entry) }
{
    let mut front = text;
    while let Some((last, before)) = front.split_last() {
        if !last.1.is_whitespace() {
            break;
        }
        front = before;
    }
    front
}

/// The text that characters write, where `\;` means `;`.
pub fn unescaped(alloc: Global, escaped: Piece<'_>) -> Result<String, AllocError>
    ensures { IfOk result (λ text. string_bytes text
        ≡ text_of (unescaped (characters escaped.entry))) }
{
    let mut text = String::with_capacity(alloc, escaped.text.len())?;
    let mut rest = escaped;
    while let Some((first, after)) = rest.split_first() {
        if !(first.1 == '\\' && begins_with(after, ';')) {
            text.push(first.1)?;
        }
        rest = after;
    }
    Ok(text)
}
