//! The first tokens of lines, by the offsets where they begin and end.
ghost use Rattle.std.specs.Prelude.{◌≡◌, ◌<◌, ◌≤◌, ◌&&◌, not, false, true, length, drop, take, slice_index, slice_index_or, codes, IfSome, IsUtf8};
ghost use Rattle.lic_columns.specs.PlainLines.{HasWords};
ghost use Rattle.lic_columns.specs.SpanTokens.{span_tokens, spans_by, token_text};
ghost use Rattle.lic_lines.specs.Tokens.{is_text};
ghost use Rattle.lic_rewriting.specs.Sections.{AreFrom, AreTokenOffsets, begins_sign, may_begin_sign};

use lic_columns::Lines;
use std::marker::Model;

/// The letters of a token that are copied at once: most texts have fewer.
pub(crate) const COPIED: usize = 16;

/// The first tokens of lines that begin at a byte of the input.
#[derive(Drop)]
pub struct Section<'a> {
    at: u32,
    letters: &'a [u8],
    starts: &'a [u32],
    ends: &'a [u32],
    /// At least `COPIED` letters come from each letter before this number on.
    wide: usize,
}

impl<'a> Model for Section<'a> {
    ghost use Rattle.std.specs.Prelude.{true, List};
    ghost use Rattle.lic_columns.specs.SpanTokens.{span_tokens, spans_by};
    ghost use Rattle.lic_lines.specs.Tokens.{Token};
    ghost use Rattle.lic_rewriting.specs.Sections.{IsSection};

    ghost Value = { List Token };

    ghost view = { λ s. span_tokens true s.at s.at s.letters.now (spans_by s.starts.now s.ends.now) };

    ghost invariant = { λ s. IsSection s.at s.wide (record {
      letters = s.letters.now;
      starts = s.starts.now;
      ends = s.ends.now;
    }) };
}

/// The text of the token that has these letters: quotes side by side are one quote, and dashes one dash.
#[inline(always)]
fn token_text(letters: &[u8]) -> &[u8]
    requires some { 0 < length letters.now }
    requires utf8 { IsUtf8 letters.now }
    requires words { HasWords letters.now }
    ensures text { result.now ≡ token_text letters.now }
    ensures utf8 { IsUtf8 result.now }
    ensures words { HasWords result.now }
{
    match letters[0] {
        b'\'' | b'-' => &letters[..1],
        _ => letters,
    }
}

/// The offset of this number.
#[inline(always)]
fn offset(offsets: &[u32], i: usize) -> u32
    requires { i < length offsets.now }
    ensures { result ≡ slice_index offsets.now i }
{
    offsets[i]
}

/// The offsets from this number on.
#[inline(always)]
fn offsets_from(offsets: &[u32], i: usize) -> &[u32]
    requires { i ≤ length offsets.now }
    ensures { result.now ≡ drop i offsets.now }
{
    &offsets[i..]
}

impl<'a> Section<'a> {
    /// The tokens of lines that were read, which begin at this byte of the input.
    pub fn of(at: u32, lines: &'a Lines) -> Section<'a>
        requires { AreTokenOffsets at lines.now }
        ensures { result
            ≡ span_tokens true at at lines.now.letters (spans_by lines.now.starts lines.now.ends) }
    {
        Section {
            at,
            letters: lines.letters(),
            starts: lines.starts(),
            ends: lines.ends(),
            wide: lines.letters().len().saturating_sub(COPIED - 1),
        }
    }

    /// The tokens from the number `i` on. Whether a blank comes before the first of them is not kept.
    #[inline(always)]
    pub(crate) fn rest(&self, i: usize) -> Section<'a>
        requires { i ≤ length self.now }
        ensures { AreFrom self.now i result }
    {
        Section {
            at: self.at,
            letters: self.letters,
            starts: offsets_from(self.starts, i),
            ends: offsets_from(self.ends, i),
            wide: self.wide,
        }
    }

    /// How many tokens there are.
    #[inline(always)]
    pub fn len(&self) -> usize
        ensures { result ≡ length self.now }
    {
        self.starts.len()
    }

    /// How many bytes the lines have.
    pub(crate) fn bytes(&self) -> usize {
        self.letters.len()
    }

    /// The letters of the token number `i`.
    #[inline(always)]
    pub(crate) fn letters_of(&self, i: usize) -> &'a [u8]
        requires { i < length self.now }
        ensures text { (d : _) → token_text result.now ≡ (slice_index_or self.now i d).text }
        ensures some { 0 < length result.now }
        ensures utf8 { IsUtf8 result.now }
        ensures words { HasWords result.now }
    {
        let start = offset(self.starts, i);
        let end = offset(self.ends, i);
        let from = (start - self.at) as usize;
        let len = (end - start) as usize;
        &self.letters[from..from + len]
    }

    /// The text of the token number `i`.
    #[inline(always)]
    pub(crate) fn text(&self, i: usize) -> &'a [u8]
        requires { i < length self.now }
        ensures text { (d : _) → result.now ≡ (slice_index_or self.now i d).text }
        ensures utf8 { IsUtf8 result.now }
        ensures words { HasWords result.now }
    {
        token_text(self.letters_of(i))
    }

    /// The letters from the token number `i` on.
    #[inline(always)]
    pub(crate) fn letters_from(&self, i: usize) -> &'a [u8]
        requires { i < length self.now }
        ensures front { (d : _) → (slice_index_or self.now i d).text
            ≡ take (length (slice_index_or self.now i d).text) result.now }
    {
        let start = offset(self.starts, i);
        let from = (start - self.at) as usize;
        &self.letters[from..]
    }

    /// The same, if at least `COPIED` come.
    #[inline(always)]
    pub(crate) fn wide_letters(&self, i: usize) -> Option<&'a [u8]>
        requires { i < length self.now }
        ensures front { IfSome result (λ letters. (d : _) → (slice_index_or self.now i d).text
            ≡ take (length (slice_index_or self.now i d).text) letters.now) }
        ensures long { IfSome result (λ letters. COPIED ≤ length letters.now) }
    {
        let start = offset(self.starts, i);
        let from = (start - self.at) as usize;
        if from >= self.wide {
            return None;
        }
        Some(&self.letters[from..])
    }

    /// Where it begins in the input.
    #[inline(always)]
    pub(crate) fn start(&self, i: usize) -> u32
        requires { i < length self.now }
        ensures { (d : _) → result ≡ (slice_index_or self.now i d).start }
    {
        offset(self.starts, i)
    }

    /// Where it ends in the input.
    #[inline(always)]
    pub(crate) fn end(&self, i: usize) -> u32
        requires { i < length self.now }
        ensures { (d : _) → result ≡ (slice_index_or self.now i d).end }
    {
        offset(self.ends, i)
    }

    /// Whether a blank comes before it.
    #[inline(always)]
    pub(crate) fn after_blank(&self, i: usize) -> bool
        requires { i < length self.now }
        ensures { (d : _) → result ≡ (slice_index_or self.now i d).after_blank }
    {
        let starts = self.starts;
        if i == 0 {
            return true;
        }
        let before = offset(self.ends, i - 1);
        before < offset(starts, i)
    }

    /// Whether the token after the number `i` begins with a `c`, as that of a copyright sign does.
    #[inline(always)]
    fn is_before_c(&self, i: usize) -> bool
        requires { i < length self.now }
        ensures { result ≡ false → may_begin_sign (drop i self.now) ≡ false }
    {
        if self.len() - i < 2 {
            return false;
        }
        self.letters_of(i + 1)[0] == b'c'
    }

    /// Whether by its first letter the token number `i`, which has these letters, may be of quotes or dashes or begin a copyright sign.
    #[inline(always)]
    pub(crate) fn may_be_more(&self, i: usize, letters: &[u8]) -> bool
        requires within { i < length self.now }
        requires some { 0 < length letters.now }
        requires text { (d : _) → token_text letters.now ≡ (slice_index_or self.now i d).text }
        ensures whole { result ≡ false → token_text letters.now ≡ letters.now }
        ensures no_sign { result ≡ false → may_begin_sign (drop i self.now) ≡ false }
    {
        if letters[0] == b'(' {
            return self.is_before_c(i);
        }
        letters[0] == b'\'' || letters[0] == b'-'
    }

    /// Whether it has this text, and no blank comes before it.
    fn continues(&self, i: usize, text: &[u8]) -> bool
        requires { i < length self.now }
        ensures { (d : _) → result
            ≡ (is_text text.now (slice_index_or self.now i d)
            && not (slice_index_or self.now i d).after_blank) }
    {
        text == self.text(i) && !self.after_blank(i)
    }

    /// Whether it, which is `(`, the next and the one after that are a copyright sign.
    #[inline(always)]
    fn ends_sign(&self, i: usize) -> bool
        requires within { i < length self.now }
        requires parenthesis { (d : _) → is_text (codes "(") (slice_index_or self.now i d) ≡ true }
        ensures { result ≡ begins_sign (drop i self.now) }
    {
        if self.len() - i < 3 {
            return false;
        }
        self.continues(i + 1, b"c") && self.continues(i + 2, b")")
    }

    /// Whether the token number `i`, which has this text, the next and the one after that are a copyright sign.
    #[inline(always)]
    pub(crate) fn is_sign(&self, i: usize, text: &[u8]) -> bool
        requires within { i < length self.now }
        requires text { (d : _) → text.now ≡ (slice_index_or self.now i d).text }
        ensures { result ≡ begins_sign (drop i self.now) }
    {
        "(".as_bytes() == text && self.ends_sign(i)
    }
}
