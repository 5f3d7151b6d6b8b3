//! Tokens as slices.
ghost use Rattle.std.specs.Prelude.{◌≡◌, ◌<◌, length, slice_index_or};
ghost use Rattle.lic_tokens.specs.Entries.{IsKept, entries_by, entry_values, text_from};

use crate::entries::SourceBytes;
use crate::token::Span;

/// Tokens whose texts all end where 32 bits say it, as slices: a value that a loop keeps in registers while it writes elsewhere.
#[derive(Clone, Copy, Debug)]
pub struct TokenSlices<'a> {
    /// The canonical spelling, in UTF-8.
    pub(crate) spelling: &'a [u8],
    /// Where the text of each token ends in it.
    pub(crate) ends: &'a [u32],
    pub(crate) sources: &'a [SourceBytes],
    ghost paired: { length ends.now ≡ length sources.now },
    ghost kept: { ∥ IsKept spelling.now (entries_by ends.now sources.now)
        (entry_values spelling.now 0 (entries_by ends.now sources.now)) ∥₁ },
}

/// Where the text begins before which one ends at this place of a spelling: there, or after the blank that is there, since no text
/// begins with a blank.
#[inline(always)]
pub(crate) fn start_after(spelling: &[u8], end: usize) -> usize
    requires { end < length spelling.now }
    ensures { result ≡ text_from spelling.now end }
{
    if spelling[end] == b' ' { end + 1 } else { end }
}

impl<'a> TokenSlices<'a> {
    ghost use Rattle.lic_phrases.specs.Spelling.{spelled};
    ghost use Rattle.lic_tokens.specs.Places.{place_end, place_start, texts_of};
    ghost use Rattle.lic_tokens.specs.Slices.{sliced_tokens};

    /// How many tokens there are.
    #[inline(always)]
    pub fn len(&self) -> usize
        ensures { result ≡ length (sliced_tokens self.now) }
    {
        self.ends.len()
    }

    /// Their canonical spelling.
    #[inline(always)]
    pub fn spelled(&self) -> &'a [u8]
        ensures { result.now ≡ spelled (texts_of (sliced_tokens self.now)) }
    {
        self.spelling
    }

    /// Where the text of the token number `i`, not the first one, is in the canonical spelling (bytes).
    #[inline(always)]
    pub fn place(&self, i: usize) -> Span
        requires later { 0 < i }
        requires within { i < length (sliced_tokens self.now) }
        ensures start { result.start ≡ place_start (sliced_tokens self.now) i }
        ensures end { result.end ≡ place_end (sliced_tokens self.now) i }
    {
        Span {
            start: start_after(self.spelling, self.ends[i - 1] as usize),
            end: self.ends[i] as usize,
        }
    }

    /// The bytes of the source of the token number `i`, from 0.
    #[inline(always)]
    pub fn span(&self, i: usize) -> Span
        requires { i < length (sliced_tokens self.now) }
        ensures { (d : _) → result ≡ (slice_index_or (sliced_tokens self.now) i d).span }
    {
        let source = self.sources[i];
        Span {
            start: source.start as usize,
            end: source.end as usize,
        }
    }
}
