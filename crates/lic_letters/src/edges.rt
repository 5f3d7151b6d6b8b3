//! The first two characters of a text, and the last two.
ghost use Rattle.std.specs.Prelude.{◌<◌, ◌≤◌, IfSome};
ghost use Rattle.lic_letters.specs.Edges.{AreEdges};

use crate::wide::chars::{char_at_end, char_at_start};

/// The first two characters of a text, and the last two, which may be the same.
#[derive(Drop)]
pub(crate) struct Edges {
    pub(crate) first: char,
    pub(crate) second: char,
    pub(crate) before: char,
    pub(crate) last: char,
}

/// Those of a text of any characters that have at most three bytes.
#[inline(never)]
fn wide_edges(text: &[u8]) -> Option<Edges>
    ensures { IfSome result (λ edges. AreEdges text.now edges) }
{
    let first = char_at_start(text)?;
    let second = char_at_start(&text[first.len_utf8()..])?;
    let last = char_at_end(text)?;
    let before = char_at_end(&text[..text.len() - last.len_utf8()])?;
    Some(Edges {
        first,
        second,
        before,
        last,
    })
}

/// Those of a text, where they have at most three bytes: mostly they are of ASCII.
#[inline(always)]
pub(crate) fn edges_of(text: &[u8]) -> Option<Edges>
    ensures { IfSome result (λ edges. AreEdges text.now edges) }
{
    let len = text.len();
    if len < 2 {
        return None;
    }
    let (first, second) = (text[0], text[1]);
    let (before, last) = (text[len - 2], text[len - 1]);
    if !(first.is_ascii() & second.is_ascii() & before.is_ascii() & last.is_ascii()) {
        return wide_edges(text);
    }
    Some(Edges {
        first: first as char,
        second: second as char,
        before: before as char,
        last: last as char,
    })
}
