//! The reader of a list of equivalent words.
ghost use Rattle.std.specs.Prelude.{◌≡◌, ◌+◌, ◌<◌, ◌≤◌, ◌⊎◌, [], None, Some, IfOk, IfErr, OnOk, map, string_bytes, vec_len};
ghost use Rattle.std.specs.Str.{chars};
ghost use Rattle.lic_phrases.specs.Keys.{HaveNoBlank, texts_in};
ghost use Rattle.lic_phrases.specs.Spelling.{spelled};
ghost use Rattle.lic_phrases.specs.TokenTexts.{IsTokenText};
ghost use Rattle.lic_phrases.specs.WordLists.{fault_of, first_fault, out_of_memory, phrase_lines, phrase_texts, phrases_of_line, split_phrases};
ghost use Rattle.lic_phrases.specs.Listed.{
  AreListed,
  HasFault,
  HasNoFault,
  ReadsLine,
  ReadsPhrase,
  phrases_in,
};
ghost use Rattle.lic_phrases.specs.WordReading.{HasRead};

use crate::fault::{WordsCause, WordsFault};
use crate::words::joining::join_line;
use crate::words::phrase::{ListedPhrase, is_skipped, key, listed};
use indexmap::IndexSet;
use std::alloc::{AllocError, Global};

/// The most phrases of a list, repeats counted.
const MAX_PHRASES: usize = 4096;

/// What is read of a list so far.
#[derive(Drop)]
pub(crate) struct WordsReader {
    /// The keys of the phrases.
    pub(crate) keys: IndexSet<String>,
    /// The phrases, each once, where it occurs first.
    pub(crate) phrases: Vec<ListedPhrase>,
    /// For each phrase the number of the first of its class.
    pub(crate) heads: Vec<usize>,
    /// How many phrases were read, repeats counted.
    count: usize,
}

impl WordsReader {
    pub(crate) fn new(alloc: Global) -> WordsReader
        ensures listed { AreListed result.keys.keys result.phrases.items result.heads.items }
        ensures phrases { result.phrases.items ≡ [] }
        ensures heads { result.heads.items ≡ [] }
        ensures count { result.count ≡ 0 }
    {
        WordsReader {
            keys: IndexSet::new(alloc),
            phrases: Vec::new(alloc),
            heads: Vec::new(alloc),
            count: 0,
        }
    }

    /// The number of a phrase, which is a class of its own where it is new.
    fn number_of(&mut self, alloc: Global, phrase: ListedPhrase) -> Result<usize, AllocError>
        requires listed { AreListed self.old.keys.keys self.old.phrases.items self.old.heads.items }
        requires spelling { string_bytes phrase.spelling ≡ spelled (texts_in phrase.texts.items) }
        requires no_blank { HaveNoBlank (texts_in phrase.texts.items) }
        requires token_text { IsTokenText (string_bytes phrase.spelling) }
        ensures listed { OnOk result (AreListed self.new.keys.keys self.new.phrases.items
            self.new.heads.items) }
        ensures count { self.new.count ≡ self.old.count }
        ensures within { IfOk result (λ number. number < vec_len self.new.heads) }
        ensures grown { vec_len self.old.heads ≤ vec_len self.new.heads }
        ensures read { IfOk result (λ number. ReadsPhrase self.old.phrases.items
            self.old.heads.items self.new.phrases.items self.new.heads.items
            (texts_in phrase.texts.items) number) }
    {
        let key = key(alloc, &phrase.texts)?;
        let (number, is_new) = self.keys.insert_full(key)?;
        if is_new {
            self.heads.push(number)?;
            self.phrases.push(phrase)?;
        }
        Ok(number)
    }

    /// Reads a phrase, and gives its number.
    fn read_phrase(&mut self, alloc: Global, phrase: &str) -> Result<usize, WordsCause>
        requires listed { AreListed self.old.keys.keys self.old.phrases.items self.old.heads.items }
        ensures listed { OnOk result (AreListed self.new.keys.keys self.new.phrases.items
            self.new.heads.items) }
        ensures count { OnOk result (self.new.count ≡ self.old.count + 1) }
        ensures within { IfOk result (λ number. number < vec_len self.new.heads) }
        ensures grown { vec_len self.old.heads ≤ vec_len self.new.heads }
        ensures read { IfOk result (λ number. ReadsPhrase self.old.phrases.items
            self.old.heads.items self.new.phrases.items self.new.heads.items
            (phrase_texts (chars phrase.now)) number) }
        ensures sound { OnOk result (fault_of self.old.count (phrase_texts (chars phrase.now))
            ≡ None) }
        ensures fault { IfErr result (λ cause.
            (fault_of self.old.count (phrase_texts (chars phrase.now)) ≡ Some cause)
            ⊎ (cause ≡ WordsCause.OutOfMemory)) }
    {
        if self.count >= MAX_PHRASES {
            return Err(WordsCause::TooManyPhrases);
        }
        let phrase = listed(alloc, phrase)?;
        self.count += 1;
        let number = self.number_of(alloc, phrase)?;
        Ok(number)
    }

    /// Reads the lines of a list, before which nothing was read.
    pub(crate) fn read_lines(&mut self, alloc: Global, text: &str) -> Result<(), WordsFault>
        requires listed { AreListed self.old.keys.keys self.old.phrases.items self.old.heads.items }
        requires phrases { self.old.phrases.items ≡ [] }
        requires heads { self.old.heads.items ≡ [] }
        requires count { self.old.count ≡ 0 }
        ensures listed { OnOk result (AreListed self.new.keys.keys self.new.phrases.items
            self.new.heads.items) }
        ensures read { OnOk result (HasRead [] (phrase_lines text.now) []
            (phrases_in self.new.phrases.items) self.new.heads.items []) }
        ensures sound { OnOk result (first_fault text.now ≡ None) }
        ensures refused { IfErr result (λ fault. (first_fault text.now ≡ Some fault)
            ⊎ (fault ≡ out_of_memory)) }
    {
        let mut number: usize = 0;
        for line in text.split('\n') {
            number += 1;
            if let Err(cause) = self.read_line(alloc, line) {
                return Err(cause.at(number));
            }
        }
        Ok(())
    }

    /// Reads a line, whose phrases become one class.
    pub(crate) fn read_line(&mut self, alloc: Global, line: &str) -> Result<(), WordsCause>
        requires listed { AreListed self.old.keys.keys self.old.phrases.items self.old.heads.items }
        ensures listed { OnOk result (AreListed self.new.keys.keys self.new.phrases.items
            self.new.heads.items) }
        ensures read { OnOk result (ReadsLine self.old.phrases.items self.old.heads.items
            self.new.phrases.items self.new.heads.items (phrases_of_line line.now)) }
        ensures sound { OnOk result (HasNoFault (phrases_of_line line.now) self.old.count
            self.new.count) }
        ensures fault { IfErr result (λ cause.
            HasFault (phrases_of_line line.now) self.old.count cause
            ⊎ (cause ≡ WordsCause.OutOfMemory)) }
    {
        if is_skipped(line) {
            return Ok(());
        }
        self.read_phrases(alloc, line)
    }

    /// Reads a line of phrases, which become one class.
    fn read_phrases(&mut self, alloc: Global, line: &str) -> Result<(), WordsCause>
        requires listed { AreListed self.old.keys.keys self.old.phrases.items self.old.heads.items }
        ensures listed { OnOk result (AreListed self.new.keys.keys self.new.phrases.items
            self.new.heads.items) }
        ensures read { OnOk result (ReadsLine self.old.phrases.items self.old.heads.items
            self.new.phrases.items self.new.heads.items (split_phrases line.now)) }
        ensures sound { OnOk result (HasNoFault (split_phrases line.now) self.old.count
            self.new.count) }
        ensures fault { IfErr result (λ cause.
            HasFault (split_phrases line.now) self.old.count cause
            ⊎ (cause ≡ WordsCause.OutOfMemory)) }
    {
        let mut numbers = Vec::new(alloc);
        for phrase in line.split(',') {
            let number = self.read_phrase(alloc, phrase)?;
            numbers.push(number)?;
        }
        join_line(&mut self.heads, &numbers);
        Ok(())
    }
}
