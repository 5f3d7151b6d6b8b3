//! Plain tokens of lines that are spelled together.
ghost use Rattle.std.specs.Prelude.{◌≡◌, ◌+◌, ◌++◌, ◌^◌, ◌≤◌, ◌<◌, ◌⊎◌, false, length, drop, slice_index, slice_index_or, take};
ghost use Rattle.std.specs.Prelude.{IfSome, IsTrue, IsUtf8};
ghost use Rattle.lic_columns.specs.Bytes.{is_word};
ghost use Rattle.lic_columns.specs.PlainLines.{HasWords};
ghost use Rattle.lic_columns.specs.SpanTokens.{token_text};
ghost use Rattle.lic_phrases.specs.Settling.{IsLeft, nothing_kept};
ghost use Rattle.lic_phrases.specs.Spelling.{blank_if, spelled};
ghost use Rattle.lic_rewriting.specs.Batches.{AreInBatch};
ghost use Rattle.lic_tokens.specs.Places.{texts_of};
ghost use Rattle.lic_tokens.specs.Tokens.{HaveTexts};
ghost use Rattle.lic_rewriting.specs.Sections.{begins_sign, may_begin_sign};

use crate::rewriting::Rewriting;
use crate::section::{COPIED, Section};
use crate::word_bytes::is_word_byte;
use lic_phrases::{Phrases, Rewriter};
use lic_tokens::SourceBytes;
use std::simd::prelude::*;

/// The letters of a longer text that are copied at once.
const MOST: usize = 32;

/// The most tokens that are spelled together.
const TOKENS: usize = 128;

/// The most bytes that they have: each a blank and the letters that are copied.
const BYTES: usize = 4224;

/// After more bytes of a spelling no tokens are spelled together, since 32 bits might not say where their texts end.
const MAX_BEFORE: usize = 0xFFFF_0000;

/// Tokens that are spelled together, before they are added to a list.
#[derive(Drop)]
pub struct Batch {
    /// Their texts, and the blanks between them.
    pub(crate) bytes: [u8; BYTES],
    /// Where their texts end in the list, and their bytes of the source.
    pub(crate) ends: [u32; TOKENS],
    pub(crate) sources: [SourceBytes; TOKENS],
}

/// How far they are spelled.
#[derive(Clone, Copy)]
pub(crate) struct Spelled {
    /// How many tokens.
    pub(crate) count: usize,
    /// The offset after their bytes.
    pub(crate) offset: usize,
    /// Whether a word ends there.
    pub(crate) after_word: bool,
}

impl Batch {
    /// A batch that holds nothing of use.
    pub fn new() -> Batch {
        let none = SourceBytes { start: 0, end: 0 };
        Batch {
            bytes: [0; BYTES],
            ends: [0; TOKENS],
            sources: [none; TOKENS],
        }
    }
}

/// Copies 16 or 32 letters to an offset, by registers: a copy of any length would ask first whether it reads what it writes.
#[inline(always)]
fn copy_letters(bytes: &mut [u8], offset: usize, letters: &[u8], wide: usize)
    requires lanes { (wide ≡ COPIED) ⊎ (wide ≡ MOST) }
    requires fits { offset + wide ≤ length bytes.old }
    requires long { wide ≤ length letters.now }
    ensures long { length bytes.new ≡ length bytes.old }
    ensures copied { take (offset + wide) bytes.new ≡ take offset bytes.old ++ take wide letters.now }
{
    if wide == COPIED {
        u8x16::from_slice(letters).copy_to_slice(&mut bytes[offset..]);
    } else {
        u8x32::from_slice(letters).copy_to_slice(&mut bytes[offset..]);
    }
}

/// Writes a text of `len` letters, with which these begin, after a blank or not: gives the offset after it. The blank and `wide`
/// letters are written in any case, and what is too much is written over: so nothing depends on the length.
#[inline(always)]
fn put(
    bytes: &mut [u8; BYTES],
    offset: usize,
    blank: bool,
    letters: &[u8],
    len: usize,
    wide: usize,
) -> usize
    requires lanes { (wide ≡ COPIED) ⊎ (wide ≡ MOST) }
    requires fits { offset + (wide + 1) ≤ BYTES }
    requires long { wide ≤ length letters.now }
    requires short { len ≤ wide }
    ensures offset { result ≡ offset + (length (blank_if blank) + len) }
    ensures bytes { take result bytes.new ≡ take offset bytes.old ++ (blank_if blank ++ take len letters.now) }
{
    bytes[offset] = b' ';
    let start = offset + usize::from(blank);
    copy_letters(bytes, start, letters, wide);
    start + len
}

/// Whether this byte of a text is of a word: those beyond ASCII are.
#[inline(always)]
pub(crate) fn is_word_at(text: &[u8], i: usize) -> bool
    requires { i < length text.now }
    ensures { result ≡ is_word (slice_index text.now i) }
{
    is_word_byte(text[i])
}

/// Whether a look or two into tables say that the token number `i`, which has these letters, is plain.
#[inline(always)]
fn is_plain_by_tables(phrases: &Phrases, section: &Section<'_>, i: usize, letters: &[u8]) -> bool
    requires within { i < length section.now }
    requires some { 0 < length letters.now }
    requires text { (d : _) → token_text letters.now ≡ (slice_index_or section.now i d).text }
    ensures whole { IsTrue result → token_text letters.now ≡ letters.now }
    ensures no_sign { IsTrue result → may_begin_sign (drop i section.now) ≡ false }
    ensures left { IsTrue result → IsLeft phrases.now.phrases letters.now }
{
    if Rewriter::leaves_plain(phrases, letters) {
        return true;
    }
    if section.may_be_more(i, letters) {
        return false;
    }
    Rewriter::leaves_by_pair(phrases, letters)
}

/// The text of the token number `i` of lines, if it is plain: no copyright sign begins there, and where the rewriter keeps
/// none back, it leaves the token as it is.
#[inline(always)]
pub(crate) fn plain_text<'a>(phrases: &Phrases, section: &Section<'a>, i: usize) -> Option<&'a [u8]>
    requires { i < length section.now }
    ensures text { IfSome result (λ text. (d : _) → text.now ≡ (slice_index_or section.now i d).text) }
    ensures utf8 { IfSome result (λ text. IsUtf8 text.now) }
    ensures words { IfSome result (λ text. HasWords text.now) }
    ensures no_sign { IfSome result (λ text. begins_sign (drop i section.now) ≡ false) }
    ensures left { IfSome result (λ text. IsLeft phrases.now.phrases text.now) }
{
    let letters = section.letters_of(i);
    if is_plain_by_tables(phrases, section, i, letters) {
        return Some(letters);
    }
    plain_after_look(phrases, section, i)
}

/// The same by the text.
#[inline(always)]
fn plain_after_look<'a>(phrases: &Phrases, section: &Section<'a>, i: usize) -> Option<&'a [u8]>
    requires { i < length section.now }
    ensures text { IfSome result (λ text. (d : _) → text.now ≡ (slice_index_or section.now i d).text) }
    ensures utf8 { IfSome result (λ text. IsUtf8 text.now) }
    ensures words { IfSome result (λ text. HasWords text.now) }
    ensures no_sign { IfSome result (λ text. begins_sign (drop i section.now) ≡ false) }
    ensures left { IfSome result (λ text. IsLeft phrases.now.phrases text.now) }
{
    let text = section.text(i);
    if section.is_sign(i, text) || !Rewriter::leaves(phrases, text) {
        return None;
    }
    Some(text)
}

/// Spells tokens of lines together, from the number `i` on, as long as each is plain and short, and none where 32 bits might not say where
/// their texts end.
#[inline(never)]
pub(crate) fn spell(
    rewriting: &Rewriting<'_>,
    section: &Section<'_>,
    i: usize,
    batch: &mut Batch,
) -> Spelled
    requires within { i ≤ length section.now }
    requires none { rewriting.now.rewriter ≡ nothing_kept }
    requires texts { HaveTexts section.now }
    ensures within { i + result.count ≤ length section.now }
    ensures fits { i + result.count < 2 ^ 64 }
    ensures few { result.count ≤ TOKENS }
    ensures near { 0 < result.count → length (spelled (texts_of rewriting.now.tokens)) < 2 ^ 32 }
    ensures held { AreInBatch section.now i rewriting.now batch.new result }
{
    let before = rewriting.tokens.spelled().len();
    let most = (section.len() - i).min(TOKENS);
    let mut state = Spelled {
        count: 0,
        offset: 0,
        after_word: rewriting.tokens.after_word(),
    };
    if before > MAX_BEFORE {
        return state;
    }
    while state.count < most {
        spell_plain(rewriting, section, i, most, before, &mut state, batch);
        if state.count >= most {
            return state;
        }
        let next = i + state.count;
        let Some(text) = plain_after_look(rewriting.phrases, section, next) else {
            return state;
        };
        let letters = section.letters_from(next);
        if text.len() > MOST || letters.len() < MOST {
            return state;
        }
        let (start, end) = (section.start(next), section.end(next));
        state = put_token(
            rewriting, section, i, before, text, letters, MOST, start, end, state, batch,
        );
    }
    state
}

/// Spells more tokens, as long as there are fewer than `most` and the tables say of each that it is plain. It is a function of its own,
/// since its loop is quicker with few values beside it.
#[inline(never)]
fn spell_plain(
    rewriting: &Rewriting<'_>,
    section: &Section<'_>,
    i: usize,
    most: usize,
    before: usize,
    state: &mut Spelled,
    batch: &mut Batch,
)
    requires order { state.old.count ≤ most }
    requires within { i + most ≤ length section.now }
    requires few { most ≤ TOKENS }
    requires before { before ≡ length (spelled (texts_of rewriting.now.tokens)) }
    requires fits { before ≤ MAX_BEFORE }
    requires none { rewriting.now.rewriter ≡ nothing_kept }
    requires texts { HaveTexts section.now }
    requires held { AreInBatch section.now i rewriting.now batch.old state.old }
    ensures grown { state.old.count ≤ state.new.count }
    ensures within { state.new.count ≤ most }
    ensures held { AreInBatch section.now i rewriting.now batch.new state.new }
{
    let phrases = rewriting.phrases;
    let tokens = section.rest(i);
    let Spelled {
        mut count,
        mut offset,
        mut after_word,
    } = *state;
    while count < most {
        let text = tokens.letters_of(count);
        let Some(letters) = tokens.wide_letters(count) else {
            break;
        };
        if text.len() > COPIED || !is_plain_by_tables(phrases, &tokens, count, text) {
            break;
        }
        let (start, end) = (tokens.start(count), tokens.end(count));
        let so_far = Spelled {
            count,
            offset,
            after_word,
        };
        let next = put_token(
            rewriting, section, i, before, text, letters, COPIED, start, end, so_far, batch,
        );
        count = next.count;
        offset = next.offset;
        after_word = next.after_word;
    }
    *state = Spelled {
        count,
        offset,
        after_word,
    };
}

/// Spells the next token, which has this text, is plain and short.
#[inline(always)]
fn put_token(
    rewriting: &Rewriting<'_>,
    section: &Section<'_>,
    i: usize,
    before: usize,
    text: &[u8],
    letters: &[u8],
    wide: usize,
    start: u32,
    end: u32,
    state: Spelled,
    batch: &mut Batch,
) -> Spelled
    requires within { i + state.count < length section.now }
    requires few { state.count < TOKENS }
    requires before { before ≡ length (spelled (texts_of rewriting.now.tokens)) }
    requires fits { before ≤ MAX_BEFORE }
    requires none { rewriting.now.rewriter ≡ nothing_kept }
    requires texts { HaveTexts section.now }
    requires held { AreInBatch section.now i rewriting.now batch.old state }
    requires text { (d : _) → text.now ≡ (slice_index_or section.now (i + state.count) d).text }
    requires start { (d : _) → start ≡ (slice_index_or section.now (i + state.count) d).start }
    requires end { (d : _) → end ≡ (slice_index_or section.now (i + state.count) d).end }
    requires lanes { (wide ≡ COPIED) ⊎ (wide ≡ MOST) }
    requires most { wide ≤ MOST }
    requires short { length text.now ≤ wide }
    requires front { text.now ≡ take (length text.now) letters.now }
    requires wide { wide ≤ length letters.now }
    requires utf8 { IsUtf8 text.now }
    requires words { HasWords text.now }
    requires no_sign { begins_sign (drop (i + state.count) section.now) ≡ false }
    requires left { IsLeft rewriting.now.phrases.now.phrases text.now }
    ensures count { result.count ≡ state.count + 1 }
    ensures held { AreInBatch section.now i rewriting.now batch.new result }
{
    let count = state.count;
    let blank = state.after_word & is_word_at(text, 0);
    let offset = put(
        &mut batch.bytes,
        state.offset,
        blank,
        letters,
        text.len(),
        wide,
    );
    batch.ends[count] = (before + offset) as u32;
    batch.sources[count] = SourceBytes { start, end };
    Spelled {
        count: count + 1,
        offset,
        after_word: is_word_at(text, text.len() - 1),
    }
}
