//! Sequences of marks at the start of a text, of which each may be joined to the next.
ghost use Rattle.std.specs.Prelude.{◌≡◌, ◌<◌, ◌≤◌, ◌-◌, ℕ, false, length, slice_index_or, IsTrue};
ghost use Rattle.lic_kind.specs.Kinds.{kind_of};
ghost use Rattle.lic_lines.specs.Streaks.{may_join};

use lic_kind::{Kind, is_dash, is_quote, kind_of};
use lic_trim::SourceChar;

/// Whether two marks may be joined, or be of one separator.
#[inline(always)]
fn may_join(a: char, b: char) -> bool
    ensures { result ≡ may_join a b }
{
    (a == b) | ((is_quote(a) & is_quote(b)) | (is_dash(a) & is_dash(b)))
}

/// Whether a character after a mark is a mark that may be joined to it.
#[inline(always)]
pub(crate) fn continues(mark: char, next: char) -> bool
    ensures mark { IsTrue result → kind_of next ≡ Kind.Mark }
    ensures stop { result ≡ false → kind_of next ≡ Kind.Mark → may_join mark next ≡ false }
{
    kind_of(next) == Kind::Mark && may_join(mark, next)
}

/// How many characters at the start of a text are a sequence of marks across whose end nothing is joined.
pub(crate) fn mark_count(text: &[SourceChar]) -> usize
    requires some { 0 < length text.now }
    requires mark { (d : SourceChar) → kind_of (slice_index_or text.now 0 d).char ≡ Kind.Mark }
    ensures some { 0 < result }
    ensures within { result ≤ length text.now }
    ensures all { (i : ℕ) (d : SourceChar) → i < result
        → kind_of (slice_index_or text.now i d).char ≡ Kind.Mark }
    ensures stop { (d : SourceChar) → result < length text.now
        → kind_of (slice_index_or text.now result d).char ≡ Kind.Mark
        → may_join (slice_index_or text.now (result - 1) d).char
        (slice_index_or text.now result d).char ≡ false }
{
    let mut count = 1;
    while count < text.len() && continues(text[count - 1].char, text[count].char) {
        count += 1;
    }
    count
}
