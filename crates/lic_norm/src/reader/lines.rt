//! Lines of a text.
ghost use Rattle.std.specs.Prelude.{◌≢◌, ◌⊎◌, ◌<◌, ◌≤◌, All, length, take, drop};
ghost use Rattle.std.specs.Str.{IsCharBoundary, chars};
ghost use Rattle.lic_norm.specs.Feeding.{AreLines};
ghost use Rattle.lic_norm.specs.LineEnds.{IsFirstLine};

use memchr::{memchr, memrchr};

/// The most bytes that are read together, unless a line has more.
pub const MAX_TOGETHER: usize = 65_536;

/// The bytes that are tested together for bytes beyond ASCII.
const BLOCK: usize = 64;

/// Where the first line of these bytes ends: after its U+000A, or at their end.
pub fn line_end(bytes: &[u8]) -> usize
    ensures within { result ≤ length bytes.now }
    ensures line { IsFirstLine (take result bytes.now) (drop result bytes.now) }
    ensures some { 0 < length bytes.now → 0 < result }
{
    match memchr(b'\n', bytes) {
        Some(offset) => offset + 1,
        None => bytes.len(),
    }
}

/// The same of a text.
pub fn text_line_end(text: &str) -> usize
    ensures boundary { IsCharBoundary text.now result }
    ensures line { IsFirstLine (chars (take result text.now)) (drop result text.now) }
    ensures some { 0 < length text.now → 0 < result }
{
    line_end(text.as_bytes())
}

/// How long the front of these bytes is up to the first block that is not ASCII.
fn ascii_prefix(bytes: &[u8]) -> usize
    ensures { result ≤ length bytes.now }
{
    let mut front = 0;
    while front < bytes.len() {
        let end = front + BLOCK.min(bytes.len() - front);
        if !bytes[front..end].is_ascii() {
            break;
        }
        front = end;
    }
    front
}

/// Where the lines at the start of these bytes end that are read together: those that end before the first block that is not ASCII,
/// and otherwise the first line.
pub fn lines_end(bytes: &[u8]) -> usize
    ensures within { result ≤ length bytes.now }
    ensures lines { AreLines (take result bytes.now) ⊎ All (λ b. b ≢ 0x0A) bytes.now }
    ensures some { 0 < length bytes.now → 0 < result }
{
    let front = ascii_prefix(&bytes[..MAX_TOGETHER.min(bytes.len())]);
    match memrchr(b'\n', &bytes[..front]) {
        Some(offset) => offset + 1,
        None => line_end(bytes),
    }
}
