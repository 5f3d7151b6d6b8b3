//! Phrases of a list of equivalent words.
ghost use Rattle.std.specs.Prelude.{◌≡◌, ◌<◌, ◌||◌, ◌⊎◌, not, None, Some, IfOk, IfErr, OnOk, length, string_bytes};
ghost use Rattle.std.specs.Char.{is_whitespace};
ghost use Rattle.std.specs.Str.{chars};
ghost use Rattle.lic_kind.specs.Kinds.{is_dropped};
ghost use Rattle.lic_phrases.specs.Spelling.{is_parted_at, spelled};
ghost use Rattle.lic_phrases.specs.Keys.{HaveNoBlank, key_of, texts_in};
ghost use Rattle.lic_phrases.specs.TokenTexts.{IsTokenText};
ghost use Rattle.lic_phrases.specs.WordLists.{fault_of_phrase, is_skipped, phrase_texts};

use crate::fault::WordsCause;
use crate::phrases::MAX_TOKENS;
use crate::spelling::{begins_in_word, ends_in_word};
use crate::tokens::phrase_tokens;
use lic_kind::is_dropped;
use std::alloc::{AllocError, Global};

/// The most bytes of a phrase in canonical spelling.
const MAX_BYTES: usize = 256;

/// A phrase as a list has it.
#[derive(Drop)]
pub(crate) struct ListedPhrase {
    /// The texts of its tokens.
    pub(crate) texts: Vec<String>,
    /// Its canonical spelling.
    pub(crate) spelling: String,
}

/// The phrase of this text, or what is wrong with it.
pub(crate) fn listed(alloc: Global, phrase: &str) -> Result<ListedPhrase, WordsCause>
    ensures texts { IfOk result (λ p. texts_in p.texts.items ≡ phrase_texts (chars phrase.now)) }
    ensures spelling { IfOk result (λ p. string_bytes p.spelling
        ≡ spelled (phrase_texts (chars phrase.now))) }
    ensures token_text { IfOk result (λ p. IsTokenText (string_bytes p.spelling)) }
    ensures sound { OnOk result (fault_of_phrase (phrase_texts (chars phrase.now)) ≡ None) }
    ensures fault { IfErr result (λ cause.
        (fault_of_phrase (phrase_texts (chars phrase.now)) ≡ Some cause)
        ⊎ (cause ≡ WordsCause.OutOfMemory)) }
{
    let texts = phrase_tokens(alloc, phrase)?;
    if texts.is_empty() {
        return Err(WordsCause::EmptyPhrase);
    }
    if texts.len() > MAX_TOKENS {
        return Err(WordsCause::PhraseTooLong);
    }
    let spelling = spelling(alloc, &texts)?;
    if spelling.len() > MAX_BYTES {
        return Err(WordsCause::PhraseTooLong);
    }
    Ok(ListedPhrase { texts, spelling })
}

/// Whether a character is neither white space nor dropped.
fn is_read(c: char) -> bool
    ensures { result ≡ not (is_whitespace c || is_dropped c) }
{
    !(c.is_whitespace() || is_dropped(c))
}

/// Whether a line holds no phrases: it has nothing but white space and dropped characters, or its
/// first other character is `#`.
pub(crate) fn is_skipped(line: &str) -> bool
    ensures { result ≡ is_skipped (chars line.now) }
{
    match line.chars().find(|c| is_read(*c)) {
        None => true,
        Some(first) => first == '#',
    }
}

/// Whether a blank precedes the text at this index.
fn is_parted_at(texts: &[String], index: usize) -> bool
    requires { index < length texts.now }
    ensures { result ≡ is_parted_at (texts_in texts.now) index }
{
    if index == 0 {
        return false;
    }
    ends_in_word(texts[index - 1].as_str()) && begins_in_word(texts[index].as_str())
}

/// The texts of tokens in canonical spelling: one blank between two letters of kind Word that
/// belong to different tokens, and none elsewhere.
fn spelling(alloc: Global, texts: &[String]) -> Result<String, AllocError>
    ensures { IfOk result (λ s. string_bytes s ≡ spelled (texts_in texts.now)) }
{
    let mut spelling = String::new(alloc);
    for index in 0..texts.len() {
        if is_parted_at(texts, index) {
            spelling.push(' ')?;
        }
        spelling.push_str(texts[index].as_str())?;
    }
    Ok(spelling)
}

/// A phrase as one text, by which it is looked up: each token's text, and a blank after it.
pub(crate) fn key(alloc: Global, texts: &[String]) -> Result<String, AllocError>
    ensures { IfOk result (λ key. string_bytes key ≡ key_of (texts_in texts.now)) }
{
    let mut key = String::new(alloc);
    for text in texts {
        key.push_str(text.as_str())?;
        key.push(' ')?;
    }
    Ok(key)
}
