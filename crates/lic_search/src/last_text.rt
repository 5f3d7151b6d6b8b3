//! Where the last text of a template ends.

ghost use Rattle.std.specs.Prelude.{IfOk, IfSome, map};
ghost use Rattle.lic_keys.specs.Required.{HasLetters};
ghost use Rattle.lic_markup.specs.PartTexts.{HavePieceTexts};
ghost use Rattle.lic_markup.specs.Parts.{part_of, sequence};
ghost use Rattle.lic_places.specs.Places.{spelling_of};
ghost use Rattle.lic_search.specs.Ends.{AreRequiredEnds};

use crate::reach::most_bytes;
use lic_keys::RequiredEnds;
use lic_literals::ends_within;
use lic_markup::Part;
use lic_places::edges_of;
use lic_view::View;
use std::alloc::{AllocError, Global};

/// Where the last text of a template ends, if words may end far after the required one.
pub(crate) fn last_ends(
    alloc: Global,
    view: &View<'_>,
    parts: &[Part],
    required: &RequiredEnds,
) -> Result<Option<RequiredEnds>, AllocError>
    requires { HavePieceTexts (sequence (map part_of parts.now)) }
    ensures { IfOk result (λ found. AreRequiredEnds (spelling_of view.now) parts.now found) }
{
    let Some(text) = last_text(parts) else {
        return Ok(None);
    };
    if text.number <= required.part || !is_far(view, parts, required) {
        return Ok(None);
    }
    let bytes = view.bytes();
    let places = ends_within(alloc, bytes, text.letters, 0, bytes.len())?;
    Ok(Some(RequiredEnds {
        part: text.number,
        places,
    }))
}

// For how many bytes of the text there may be one within reach of a required text before this is far.
const BYTES_A_BYTE: usize = 16;

// Whether many of the text's bytes lie within reach of the required text.
fn is_far(view: &View<'_>, parts: &[Part], required: &RequiredEnds) -> bool {
    if required.part >= parts.len() {
        return false;
    }
    let reach = most_bytes(&parts[required.part + 1..]);
    let bytes = required.places.len().saturating_mul(reach);
    bytes > view.bytes().len() / BYTES_A_BYTE
}

// A text of a template, by the number of its part and its letters, without the blanks at its edges.
#[derive(Clone, Copy, Debug)]
struct LastText<'t> {
    number: usize,
    letters: &'t [u8],
}

// The last text of a template outside optional parts that has letters.
fn last_text(parts: &[Part]) -> Option<LastText<'_>>
    requires { HavePieceTexts (sequence (map part_of parts.now)) }
    ensures { IfSome result (λ text. HasLetters parts.now text.number text.letters.now) }
{
    for number in (0..parts.len()).rev() {
        if let Part::Text(text) = &parts[number] {
            let letters = edges_of(text).letters;
            if !letters.is_empty() {
                return Some(LastText { number, letters });
            }
        }
    }
    None
}
