//! Source characters.
ghost use Rattle.std.specs.Prelude.{◌≡◌, ◌+◌, ◌<◌, ◌^◌, not, length, IfOk, OnOk, IsAscii};
ghost use Rattle.std.specs.Str.{chars};
ghost use Rattle.lic_kind.specs.Kinds.{is_dropped};
ghost use Rattle.lic_trim.specs.Sources.{placed, unplaced, without_dropped};

use lic_kind::is_dropped;
use std::alloc::{AllocError, Global};

/// A character with the bytes that it was read from.
#[derive(Clone, Copy, Debug, PartialEq, Eq)]
pub struct SourceChar {
    pub char: char,
    /// Its first byte.
    pub start: u32,
    /// The byte just past its end.
    pub end: u32,
}

/// Whether a character is not dropped, as none of ASCII is.
fn is_kept(c: char) -> bool
    ensures { result ≡ not (is_dropped c) }
{
    c.is_ascii() || !is_dropped(c)
}

/// The characters of a text that is no source, where only letters count: without the dropped ones, each placed at
/// byte 0. The error is that memory ran out.
pub fn unplaced(alloc: Global, text: &str) -> Result<Vec<SourceChar>, AllocError>
    ensures { IfOk result (λ characters. characters.items
        ≡ without_dropped (unplaced (chars text.now))) }
{
    let mut characters = Vec::new(alloc);
    characters.reserve(text.len())?;
    for char in text.chars() {
        if is_kept(char) {
            characters.push(SourceChar {
                char,
                start: 0,
                end: 0,
            })?;
        }
    }
    Ok(characters)
}

/// Puts the source characters of a text of ASCII that begins at this byte in place of those that are there.
pub(crate) fn put_source(
    characters: &mut Vec<SourceChar>,
    at: u32,
    text: &[u8],
) -> Result<(), AllocError>
    requires ascii { IsAscii text.now }
    requires fits { at + length text.now < 2 ^ 32 }
    ensures { OnOk result (characters.new.items ≡ placed at text.now) }
{
    characters.clear();
    for (i, byte) in text.iter().enumerate() {
        let start = at + i as u32;
        characters.push(SourceChar {
            char: *byte as char,
            start,
            end: start + 1,
        })?;
    }
    Ok(())
}
