//! Lists of phrases in classes of equivalent words.
ghost use Rattle.std.specs.Prelude.{◌≡◌, ◌≤◌, ◌<◌, ◌∷◌, ◌++◌, [], IfOk, IfSome, OnOk, OnErr, length, map};
ghost use Rattle.std.specs.Prelude.{option_map, slice_index_or, string_bytes};
ghost use Rattle.lic_phrases.specs.PhraseLists.{no_phrases, phrase_with, with_added, longest_from};
ghost use Rattle.lic_phrases.specs.PhraseLists.{key_of, key_texts, phrase_of, IsKey};
ghost use Rattle.lic_phrases.specs.PhraseLists.{HaveTokens};
ghost use Rattle.lic_phrases.specs.Waiting.{IsKnownText, spanned_in};

mod firsts;

use crate::final_token::{FinalToken, TokenText};
use crate::phrases::firsts::Firsts;
use indexmap::IndexMap;
use std::alloc::{AllocError, Global};
use std::marker::Model;

/// What follows each text of a key: a byte that UTF-8 never has.
pub(crate) const SEPARATOR: u8 = 0xFF;

/// How many tokens a phrase has at most.
pub const MAX_TOKENS: usize = 8;

/// A list of phrases, each of one to eight tokens, in classes of equivalent ones (SPDX 2.3, Annex
/// B, varietal spelling). A class has a number and a spelling.
#[derive(Drop)]
pub struct Phrases {
    /// The class of each phrase, by its key.
    classes: IndexMap<Vec<u8>, usize>,
    /// For each text that begins a phrase, how many tokens such a phrase has at most.
    most_from: Firsts,
    spellings: Vec<String>,
}

impl Model for Phrases {
    ghost use Rattle.std.specs.Prelude.{map, string_bytes};
    ghost use Rattle.lic_phrases.specs.Firsts.{bound_from};
    ghost use Rattle.lic_phrases.specs.PhraseLists.{PhraseList, phrases_in, IsStored};

    ghost Value = { PhraseList };

    ghost view = { λ a. record {
      phrases = phrases_in (λ k. k.items) (map string_bytes a.spellings.items) a.classes.entries;
      spellings = map string_bytes a.spellings.items;
    } };

    ghost invariant = { λ a. IsStored (λ k. k.items) a.classes.entries
        (map string_bytes a.spellings.items) (bound_from a.most_from) };
}

/// The key of a phrase with these texts.
fn key_of(alloc: Global, texts: &[String]) -> Result<Vec<u8>, AllocError>
    ensures { IfOk result (λ key. key.items ≡ key_of (map string_bytes texts.now)) }
{
    let mut key = Vec::new(alloc);
    for text in texts {
        key.extend_from_slice(text.as_bytes())?;
        key.push(SEPARATOR)?;
    }
    Ok(key)
}

impl Phrases {
    ghost use Rattle.std.specs.Prelude.{IsTrue};
    ghost use Rattle.lic_phrases.specs.FirstTexts.{IsNoSign, IsPlain};

    /// A list without phrases.
    pub fn new(alloc: Global) -> Phrases
        ensures { result ≡ no_phrases }
    {
        Phrases {
            classes: IndexMap::new(alloc),
            most_from: Firsts::new(alloc),
            spellings: Vec::new(alloc),
        }
    }

    /// Adds a class with this spelling, and gives its number: classes are numbered from 0. Lack of
    /// memory changes nothing.
    pub fn add_class(&mut self, spelling: String) -> Result<usize, AllocError>
        ensures number { IfOk result (λ class. class ≡ length self.old.spellings) }
        ensures added { OnOk result (self.new
            ≡ record self.old { spellings = self.old.spellings ++ string_bytes spelling ∷ [] }) }
        ensures err { OnErr result (self.new ≡ self.old) }
    {
        let class = self.spellings.len();
        self.spellings.push(spelling)?;
        Ok(class)
    }

    /// Adds a phrase to a class, with the texts of its tokens. If the phrase is there already, it
    /// leaves its class for this one. Lack of memory changes nothing.
    pub fn add(&mut self, alloc: Global, texts: &[String], class: usize) -> Result<(), AllocError>
        requires some { 0 < length texts.now }
        requires few { length texts.now ≤ MAX_TOKENS }
        requires known { class < length self.old.spellings }
        ensures added { OnOk result (self.new ≡ record self.old {
          phrases = with_added self.old.phrases
              (record {
                texts = map string_bytes texts.now;
                spelling = slice_index_or self.old.spellings class [];
              });
        }) }
        ensures err { OnErr result (self.new ≡ self.old) }
    {
        let key = key_of(alloc, texts)?;
        self.most_from
            .raise(alloc, texts[0].as_bytes(), texts.len())?;
        self.classes.insert(key, class)?;
        Ok(())
    }

    /// The spellings of the classes, by number.
    pub fn spellings(&self) -> &[String]
        ensures { map string_bytes result.now ≡ self.now.spellings }
    {
        self.spellings.as_slice()
    }

    /// The text of a token: its own, or the spelling of its class.
    pub fn text_of<'a>(&'a self, token: &'a FinalToken) -> &'a str
        requires { IsKnownText (length self.now.spellings) token.now.text }
        ensures { result.now ≡ (spanned_in self.now.spellings token.now).text }
    {
        match &token.text {
            TokenText::Own(text) => text.as_str(),
            TokenText::Class(class) => self.spellings[*class].as_str(),
        }
    }

    /// How many tokens a phrase has at most that begins with a token of this text: 0 where there is
    /// no such phrase.
    #[inline(always)]
    pub(crate) fn most_from(&self, text: &[u8]) -> usize
        ensures bound { longest_from self.now.phrases text.now ≤ result }
        ensures short { result ≤ MAX_TOKENS }
        ensures some { HaveTokens self.now.phrases }
    {
        self.most_from.most_from(text)
    }

    /// Whether a look into a table says that this text is plain and begins no phrase. It does so of most texts that are.
    #[inline(always)]
    pub(crate) fn is_plain(&self, text: &[u8]) -> bool
        requires { 0 < length text.now }
        ensures plain { IsTrue result → IsPlain text.now }
        ensures none { IsTrue result → longest_from self.now.phrases text.now ≡ 0 }
        ensures some { HaveTokens self.now.phrases }
    {
        self.most_from.is_plain(text)
    }

    /// Whether a look into another table says that this text is neither `copyright` nor `https` and begins no phrase. It does so of
    /// nearly all texts of which this is true.
    #[inline(always)]
    pub(crate) fn begins_none(&self, text: &[u8]) -> bool
        requires { 0 < length text.now }
        ensures no_sign { IsTrue result → IsNoSign text.now }
        ensures none { IsTrue result → longest_from self.now.phrases text.now ≡ 0 }
        ensures some { HaveTokens self.now.phrases }
    {
        self.most_from.begins_none(text)
    }

    /// The class of the phrase with this key.
    pub(crate) fn class_of(&self, key: &[u8]) -> Option<usize>
        ensures class { IsKey key.now → option_map (phrase_of self.now.spellings key.now) result
            ≡ phrase_with self.now.phrases (key_texts key.now) }
        ensures known { IfSome result (λ class. class < length self.now.spellings) }
    {
        self.classes.get(key).copied()
    }
}
