//! Equivalent words.
ghost use Rattle.std.specs.Prelude.{◌≡◌, ◌⊎◌, ◌<◌, ◌≤◌, ◌∷◌, ◌++◌, [], None, Some, IfOk, IfErr, OnOk, length, slice_index, slice_index_or, string_bytes};
ghost use Rattle.lic_phrases.specs.Keys.{texts_in};
ghost use Rattle.lic_phrases.specs.Listed.{HaveRepresentatives, phrases_in, spellings_in, with_representatives};
ghost use Rattle.lic_phrases.specs.PhraseLists.{with_added};
ghost use Rattle.lic_phrases.specs.TokenTexts.{HaveTokenTexts, IsTokenText};
ghost use Rattle.lic_phrases.specs.WordLists.{AreWords, first_fault, out_of_memory, phrase_lines};

pub(crate) mod joining;
pub(crate) mod phrase;
pub(crate) mod reader;

use crate::fault::WordsFault;
use crate::phrases::Phrases;
use crate::words::phrase::ListedPhrase;
use crate::words::reader::WordsReader;
use std::alloc::{AllocError, Global};
use std::marker::Model;

/// The phrases of a list of equivalent words, each with the spelling of its class.
#[derive(Drop)]
pub struct Words {
    phrases: Phrases,
}

impl Model for Words {
    ghost use Rattle.std.specs.Prelude.{List};
    ghost use Rattle.lic_phrases.specs.Rewriting.{Phrase};
    ghost use Rattle.lic_phrases.specs.TokenTexts.{HaveTokenTexts};

    ghost Value = { List Phrase };

    ghost view = { λ words. words.phrases.phrases };

    ghost invariant = { λ words. HaveTokenTexts words.phrases.phrases };
}

/// Adds a phrase to the class of its head, and a class with its own spelling.
fn add_listed(
    alloc: Global,
    phrases: &mut Phrases,
    phrase: ListedPhrase,
    heads: &[usize],
) -> Result<(), AllocError>
    requires some { 0 < length phrase.texts.items }
    requires few { length phrase.texts.items ≤ 8 }
    requires within { length phrases.old.spellings < length heads.now }
    requires low { slice_index heads.now (length phrases.old.spellings) ≤ length phrases.old.spellings }
    ensures classes { OnOk result (phrases.new.spellings
        ≡ phrases.old.spellings ++ string_bytes phrase.spelling ∷ []) }
    ensures words { OnOk result (phrases.new.phrases ≡ with_added phrases.old.phrases (record {
      texts = texts_in phrase.texts.items;
      spelling = slice_index_or (phrases.old.spellings ++ string_bytes phrase.spelling ∷ [])
          (slice_index heads.now (length phrases.old.spellings)) [];
    })) }
{
    let ListedPhrase { texts, spelling } = phrase;
    let number = phrases.add_class(spelling)?;
    phrases.add(alloc, &texts, heads[number])?;
    Ok(())
}

/// The phrases, each in the class of its head. Every phrase has a class with its own spelling; one
/// that heads no phrase leaves its class empty.
fn with_representatives(
    alloc: Global,
    listed: Vec<ListedPhrase>,
    heads: &[usize],
) -> Result<Phrases, AllocError>
    requires { HaveRepresentatives (phrases_in listed.items) heads.now }
    ensures { IfOk result (λ p. p.phrases
        ≡ with_representatives (phrases_in listed.items) (spellings_in listed.items) heads.now) }
{
    let mut phrases = Phrases::new(alloc);
    for phrase in listed {
        add_listed(alloc, &mut phrases, phrase, heads)?;
    }
    Ok(phrases)
}

impl Words {
    /// No words.
    pub fn none(alloc: Global) -> Words
        ensures { result ≡ [] }
    {
        Words {
            phrases: Phrases::new(alloc),
        }
    }

    /// Reads a list of equivalent words (SPDX 2.3, Annex B, varietal spelling; this project's
    /// profile). A line ends at U+000A. A line of white space and dropped characters alone, or whose
    /// first other character is `#`, is skipped; another one holds phrases, separated by commas, and
    /// all phrases that a chain of lines joins are written as the first of them in the list.
    ///
    /// Phrases are read in the order of the list, and the first at fault decides: it is number 4,097,
    /// repeats counted; or it has no token; or more than 8 tokens or 256 bytes. Lack of memory is on
    /// line 0.
    pub fn read(alloc: Global, text: &str) -> Result<Words, WordsFault>
        ensures accepted { OnOk result (first_fault text.now ≡ None) }
        ensures words { IfOk result (AreWords (phrase_lines text.now)) }
        ensures refused { IfErr result (λ fault. (first_fault text.now ≡ Some fault)
            ⊎ (fault ≡ out_of_memory)) }
    {
        let mut reader = WordsReader::new(alloc);
        reader.read_lines(alloc, text)?;
        let phrases = with_representatives(alloc, reader.phrases, &reader.heads)?;
        Ok(Words { phrases })
    }

    /// The phrases in classes, as the rewriting of a text takes them.
    pub fn phrases(&self) -> &Phrases
        ensures { result.now.phrases ≡ self.now }
    {
        &self.phrases
    }
}

/// The spelling of each class of equivalent words is the text of a token.
pub fn spellings_are_token_texts(words: &Words)
    ensures { HaveTokenTexts words.now }
{
    let _ = &words.phrases;
}
