//! First tokens.
ghost use Rattle.std.specs.Prelude.{◌≡◌, ◌≢◌, ◌++◌, ◌∷◌, ◌<◌, ◌≤◌, [], ℕ, IfOk, IsTrue, OnOk, false, length, map, take, slice_index_or, string_bytes, encode_utf8_all};
ghost use Rattle.lic_kind.specs.Kinds.{kind_of, is_word_kind, spell};
ghost use Rattle.lic_trim.specs.Texts.{groups};
ghost use Rattle.lic_lines.specs.Cells.{Mark, Word};
ghost use Rattle.lic_lines.specs.Tokens.{both_words, cell_letters, letters_of, token_of, tokens_from, blank_after, token_in, tokens_in};

use crate::cell::Cell;
use crate::small_string::SmallString;
use crate::streaks::{Grouping, end_after, group_end};
use lic_kind::{Kind, kind_of, spell, word_letter};
use lic_trim::SourceChar;
use std::alloc::{AllocError, Global};

/// A token: its text, its span in bytes of the input, and whether a blank precedes it.
#[derive(Drop)]
pub struct FirstToken {
    pub text: SmallString,
    /// The first byte of its first source character.
    pub start: u32,
    /// The byte just past the end of its last source character.
    pub end: u32,
    pub after_blank: bool,
}

/// Adds the letters of a character.
fn push_spelled(alloc: Global, text: &mut String, c: char) -> Result<(), AllocError>
    ensures { OnOk result (string_bytes text.new
        ≡ string_bytes text.old ++ encode_utf8_all (spell c)) }
{
    let letters = spell(alloc, c)?;
    for letter in letters.as_slice() {
        text.push(*letter)?;
    }
    Ok(())
}

/// Adds the letters of a character if it is a word character, and says whether it is one.
#[inline(always)]
fn push_if_word(alloc: Global, text: &mut String, c: char) -> Result<bool, AllocError>
    ensures word { IfOk result (λ is_word. is_word ≡ is_word_kind (kind_of c)) }
    ensures letters { IfOk result (λ is_word. IsTrue is_word
        → string_bytes text.new ≡ string_bytes text.old ++ encode_utf8_all (spell c)) }
    ensures same { IfOk result (λ is_word. is_word ≡ false → text.new ≡ text.old) }
{
    if let Some(letter) = word_letter(c) {
        text.push(letter)?;
        return Ok(true);
    }
    if kind_of(c) != Kind::Word {
        return Ok(false);
    }
    push_spelled(alloc, text, c)?;
    Ok(true)
}

/// Adds the letters of a cell.
fn push_letters(alloc: Global, text: &mut String, cell: &Cell) -> Result<(), AllocError>
    ensures { OnOk result (string_bytes text.new
        ≡ string_bytes text.old ++ encode_utf8_all (cell_letters cell.now)) }
{
    match cell {
        Cell::Blank => Ok(()),
        Cell::Mark(s) | Cell::Word(s) => push_spelled(alloc, text, s.char),
    }
}

/// Puts the letters of these cells, in a row, in place of those that are there.
fn spell_cells(alloc: Global, cells: &[Cell], text: &mut String) -> Result<(), AllocError>
    ensures { OnOk result (string_bytes text.new ≡ encode_utf8_all (letters_of cells.now)) }
{
    text.clear();
    for cell in cells {
        push_letters(alloc, text, cell)?;
    }
    Ok(())
}

/// The token of a group of cells, of which the first was read from this character. The buffer may hold anything.
fn token_of(
    alloc: Global,
    after_blank: bool,
    first: SourceChar,
    group: &[Cell],
    letters: &mut String,
) -> Result<FirstToken, AllocError>
    ensures { IfOk result (λ token. token_in token ≡ token_of after_blank first group.now) }
{
    spell_cells(alloc, group, letters)?;
    Ok(FirstToken {
        text: SmallString::from_str(alloc, letters.as_str())?,
        start: first.start,
        end: end_after(first.start, group),
        after_blank,
    })
}

/// Puts the letters of the word characters at the start of a text in place of those that are there, and says
/// how many characters these are.
pub(crate) fn spell_word(
    alloc: Global,
    text: &[SourceChar],
    letters: &mut String,
) -> Result<usize, AllocError>
    ensures within { IfOk result (λ count. count ≤ length text.now) }
    ensures words { IfOk result (λ count. (i : ℕ) (d : SourceChar) → i < count
        → kind_of (slice_index_or text.now i d).char ≡ Kind.Word) }
    ensures stop { IfOk result (λ count. (d : SourceChar) → count < length text.now
        → kind_of (slice_index_or text.now count d).char ≢ Kind.Word) }
    ensures letters { IfOk result (λ count. string_bytes letters.new
        ≡ encode_utf8_all (letters_of (map Word (take count text.now)))) }
{
    letters.clear();
    let mut count = 0;
    while count < text.len() {
        if !push_if_word(alloc, letters, text[count].char)? {
            return Ok(count);
        }
        count += 1;
    }
    Ok(count)
}

/// The token of a sequence of word characters with these letters.
pub(crate) fn word_token(
    alloc: Global,
    after_blank: bool,
    word: &[SourceChar],
    letters: &str,
) -> Result<FirstToken, AllocError>
    requires some { 0 < length word.now }
    requires letters { letters.now ≡ encode_utf8_all (letters_of (map Word word.now)) }
    ensures { IfOk result (λ token. token_in token ∷ []
        ≡ tokens_from after_blank (map Word word.now ∷ [])) }
{
    Ok(FirstToken {
        text: SmallString::from_str(alloc, letters)?,
        start: word[0].start,
        end: word[word.len() - 1].end,
        after_blank,
    })
}

/// The token of a mark by itself. The buffer may hold anything.
pub(crate) fn mark_token(
    alloc: Global,
    after_blank: bool,
    mark: SourceChar,
    letters: &mut String,
) -> Result<FirstToken, AllocError>
    ensures { IfOk result (λ token. token_in token ≡ token_of after_blank mark (Mark mark ∷ [])) }
{
    letters.clear();
    push_spelled(alloc, letters, mark.char)?;
    Ok(FirstToken {
        text: SmallString::from_str(alloc, letters.as_str())?,
        start: mark.start,
        end: mark.end,
        after_blank,
    })
}

/// Adds the tokens of these cells, which a blank precedes or not, and says whether a blank
/// follows them. The buffers may hold anything.
pub(crate) fn push_first_tokens(
    alloc: Global,
    mut after_blank: bool,
    out: &mut Vec<FirstToken>,
    cells: &[Cell],
    letters: &mut String,
) -> Result<bool, AllocError>
    ensures tokens { OnOk result
        (tokens_in out.new.items
        ≡ tokens_in out.old.items ++ tokens_from after_blank (groups both_words cells.now)) }
    ensures blank { IfOk result (λ blank. blank
        ≡ blank_after after_blank (groups both_words cells.now)) }
{
    let mut at = 0;
    while at < cells.len() {
        let end = group_end(Grouping::Words, cells, at);
        match cells[at] {
            Cell::Blank => after_blank = true,
            Cell::Mark(first) | Cell::Word(first) => {
                let token = token_of(alloc, after_blank, first, &cells[at..end], letters)?;
                out.push(token)?;
                after_blank = false;
            }
        }
        at = end;
    }
    Ok(after_blank)
}
