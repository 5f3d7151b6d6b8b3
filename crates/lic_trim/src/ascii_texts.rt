//! Whether a text of the line rules is at an index of a line of ASCII.
ghost use Rattle.std.specs.Prelude.{◌≡◌, ◌<◌, ◌≤◌, length, drop, slice_index};
ghost use Rattle.lic_trim.specs.Walks.{walked, begins_with_text};

use crate::ascii_cut::byte_at;
use crate::side::Side;

/// The character of a text at this index of the way.
#[inline(always)]
fn text_at(text: &[char], side: Side, index: usize) -> char
    requires { index < length text.now }
    ensures { result ≡ slice_index (walked side text.now) index }
{
    match side {
        Side::Front => text[index],
        Side::End => text[text.len() - 1 - index],
    }
}

/// Whether the line has a text from this index on, seen from this side.
#[inline(always)]
pub(crate) fn occurs(side: Side, text: &[char], line: &[u8], index: usize) -> bool
    requires { index ≤ length line.now }
    ensures { result ≡ begins_with_text (drop index (walked side line.now)) (walked side text.now) }
{
    if text.len() > line.len() - index {
        return false;
    }
    for i in 0..text.len() {
        if byte_at(line, side, index + i) as char != text_at(text, side, i) {
            return false;
        }
    }
    true
}
