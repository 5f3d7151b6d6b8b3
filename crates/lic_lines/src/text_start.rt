//! What a text begins with: mostly a blank, a word, or a mark by itself.
ghost use Rattle.std.specs.Prelude.{◌≡◌, ◌∷◌, [], ◌<◌, false, length, slice_index_or, IfOk, bytes_eq, codes, encode_utf8_all, string_bytes};
ghost use Rattle.lic_kind.specs.Kinds.{kind_of};
ghost use Rattle.lic_lines.specs.Streaks.{may_join};
ghost use Rattle.lic_lines.specs.TextStarts.{IsTextStart};

use crate::mark_sequences::continues;
use crate::tokens::spell_word;
use lic_kind::{Kind, kind_of, mark_letter};
use lic_trim::SourceChar;
use std::alloc::{AllocError, Global};

/// What a text begins with.
#[derive(Clone, Copy)]
pub enum TextStart {
    /// A character that is a blank.
    Blank,
    /// A token of this many characters.
    Token(usize),
    /// Characters of which this look says nothing.
    Other,
}

/// Whether a token with these letters may be a copyright sign or begin one.
#[inline(always)]
fn may_be_sign(letters: &str) -> bool
    ensures parenthesis { result ≡ false → bytes_eq (codes "(") letters.now ≡ false }
    ensures sign { result ≡ false → bytes_eq (encode_utf8_all (0xA9 ∷ [])) letters.now ≡ false }
{
    ("(" == letters) | ("\u{A9}" == letters)
}

/// The word at the start of a text, whose letters are put in place of those that are there.
#[inline(always)]
fn front_word(
    alloc: Global,
    text: &[SourceChar],
    letters: &mut String,
) -> Result<TextStart, AllocError>
    requires some { 0 < length text.now }
    requires word { (d : SourceChar) → kind_of (slice_index_or text.now 0 d).char ≡ Kind.Word }
    ensures { IfOk result (λ front. IsTextStart front (string_bytes letters.new) text.now) }
{
    let length = spell_word(alloc, text, letters)?;
    if may_be_sign(letters.as_str()) {
        return Ok(TextStart::Other);
    }
    Ok(TextStart::Token(length))
}

/// Whether the text begins with a mark that may be joined to another one after it.
#[inline(always)]
fn is_joined(text: &[SourceChar]) -> bool
    requires some { 0 < length text.now }
    ensures alone { result ≡ false → (d : SourceChar) → 1 < length text.now
        → kind_of (slice_index_or text.now 1 d).char ≡ Kind.Mark
        → may_join (slice_index_or text.now 0 d).char (slice_index_or text.now 1 d).char ≡ false }
{
    text.len() > 1 && continues(text[0].char, text[1].char)
}

/// The mark at the start of a text, whose letter is put in place of the letters that are there.
#[inline(always)]
fn front_mark(text: &[SourceChar], letters: &mut String) -> Result<TextStart, AllocError>
    requires some { 0 < length text.now }
    requires mark { (d : SourceChar) → kind_of (slice_index_or text.now 0 d).char ≡ Kind.Mark }
    ensures { IfOk result (λ front. IsTextStart front (string_bytes letters.new) text.now) }
{
    if is_joined(text) {
        return Ok(TextStart::Other);
    }
    letters.clear();
    letters.push(mark_letter(text[0].char))?;
    if may_be_sign(letters.as_str()) {
        return Ok(TextStart::Other);
    }
    Ok(TextStart::Token(1))
}

/// What a text begins with, of which nothing is taken. The letters of a token are put in place of those that are there.
///
/// The error is that memory ran out.
#[inline(always)]
pub fn start_of_text(
    alloc: Global,
    text: &[SourceChar],
    letters: &mut String,
) -> Result<TextStart, AllocError>
    requires { 0 < length text.now }
    ensures { IfOk result (λ front. IsTextStart front (string_bytes letters.new) text.now) }
{
    match kind_of(text[0].char) {
        Kind::Blank | Kind::Dropped => Ok(TextStart::Blank),
        Kind::Word => front_word(alloc, text, letters),
        Kind::Mark => front_mark(text, letters),
    }
}
