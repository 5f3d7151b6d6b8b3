//! Tokens as they are kept.
ghost use Rattle.std.specs.Prelude.{◌≡◌, ◌≢◌, ◌^◌, ◌<◌, ◌++◌, ◌∷◌, [], All, IsUtf8, length, map, slice_index_or, IfOk, IfSome, List, None, OnOk};
ghost use Rattle.lic_phrases.specs.Spelling.{begins_in_word, ends_in_word, spelled};
ghost use Rattle.lic_phrases.specs.TokenTexts.{IsTokenText};
ghost use Rattle.lic_phrases.specs.Waiting.{AreKnown, spanned_in};

use crate::entries::{Entries, SourceBytes};
use crate::token::{Span, Token};
use crate::token_slices::{TokenSlices, start_after};
use lic_kind::is_word;
use lic_phrases::{FinalToken, Phrases, begins_in_word, ends_in_word};
use simdutf8::compat::from_utf8;
use std::alloc::{AllocError, Global};
use std::marker::Model;

/// Tokens, with their texts in canonical spelling.
#[derive(Debug, Drop)]
pub struct TokenList {
    /// In UTF-8.
    spelling: Vec<u8>,
    entries: Entries,
    /// Whether the spelling ends in a letter of kind Word.
    after_word: bool,
}

impl Model for TokenList {
    ghost use Rattle.std.specs.Prelude.{◌≡◌, List};
    ghost use Rattle.lic_phrases.specs.Spelling.{ends_in_word};
    ghost use Rattle.lic_tokens.specs.Tokens.{TokenValue};
    ghost use Rattle.lic_tokens.specs.Entries.{entry_values, IsKept};

    ghost Value = { List TokenValue };

    ghost view = { λ t. entry_values (t.spelling.items) 0 t.entries };

    ghost invariant = { λ t. IsKept t.spelling.items t.entries
        (entry_values t.spelling.items 0 t.entries)
        × (t.after_word ≡ ends_in_word t.spelling.items) };
}

/// Bytes in UTF-8 as a text.
#[inline(always)]
pub fn utf8_text(bytes: &[u8]) -> &str
    requires { IsUtf8 bytes.now }
    ensures { result.now ≡ bytes.now }
{
    match from_utf8(bytes) {
        Ok(text) => text,
        Err(_) => unreachable!(),
    }
}

/// Whether a text begins with a letter of kind Word. Mostly it is of ASCII.
#[inline(always)]
fn begins_word(text: &str) -> bool
    ensures { result ≡ begins_in_word text.now }
{
    let [first, ..] = text.as_bytes() else {
        return false;
    };
    if first.is_ascii() {
        is_word(*first as char)
    } else {
        begins_in_word(text)
    }
}

/// Whether a text ends in a letter of kind Word. Mostly it is of ASCII.
#[inline(always)]
fn ends_word(text: &str) -> bool
    ensures { result ≡ ends_in_word text.now }
{
    let [.., last] = text.as_bytes() else {
        return false;
    };
    if last.is_ascii() {
        is_word(*last as char)
    } else {
        ends_in_word(text)
    }
}

impl TokenList {
    ghost use Rattle.lic_tokens.specs.Places.{place_end, place_start, texts_of};
    ghost use Rattle.lic_tokens.specs.Tokens.{AreTokenTexts, TokenValue, reported};
    ghost use Rattle.lic_tokens.specs.Entries.{AreSpelledAfter, HasSpelled, entries_by};
    ghost use Rattle.lic_tokens.specs.Slices.{sliced_tokens};

    /// No tokens.
    pub fn new(alloc: Global) -> TokenList
        ensures { result ≡ [] }
    {
        TokenList {
            spelling: Vec::new(alloc),
            entries: Entries::new(alloc),
            after_word: false,
        }
    }

    /// No tokens yet, with memory for a number of them, and for the bytes of their texts.
    pub fn with_capacity(
        alloc: Global,
        tokens: usize,
        bytes: usize,
    ) -> Result<TokenList, AllocError>
        ensures { IfOk result (λ list. list ≡ []) }
    {
        let spelling = Vec::with_capacity(alloc, bytes)?;
        let entries = Entries::with_capacity(alloc, tokens)?;
        Ok(TokenList {
            spelling,
            entries,
            after_word: false,
        })
    }

    /// Takes all tokens away, and keeps their memory.
    pub fn clear(&mut self)
        ensures { self.new ≡ [] }
    {
        self.spelling.clear();
        self.entries.clear();
        self.after_word = false;
    }

    /// Takes memory for a number of tokens more, and for the bytes of their texts.
    pub fn reserve(&mut self, tokens: usize, bytes: usize) -> Result<(), AllocError>
        ensures { self.new ≡ self.old }
    {
        self.entries.reserve(tokens)?;
        self.spelling.reserve(bytes)?;
        Ok(())
    }

    /// How many tokens there are.
    pub fn len(&self) -> usize
        ensures { result ≡ length self.now }
    {
        self.entries.len()
    }

    /// Adds a token.
    #[inline(always)]
    pub fn push(&mut self, text: &str, start: u32, end: u32) -> Result<(), AllocError>
        requires { IsTokenText text.now }
        ensures { OnOk result (self.new
            ≡ self.old ++ (record {
              text = text.now;
              span = record { start = start; end = end };
            }) ∷ []) }
    {
        self.push_bytes(
            text.as_bytes(),
            begins_word(text),
            ends_word(text),
            start,
            end,
        )
    }

    /// Adds a token whose text, in UTF-8, begins and ends in a letter of kind Word or not.
    #[inline(always)]
    pub fn push_bytes(
        &mut self,
        text: &[u8],
        begins: bool,
        ends: bool,
        start: u32,
        end: u32,
    ) -> Result<(), AllocError>
        requires text { IsTokenText text.now }
        requires utf8 { IsUtf8 text.now }
        requires begins { begins ≡ begins_in_word text.now }
        requires ends { ends ≡ ends_in_word text.now }
        ensures { OnOk result (self.new
            ≡ self.old ++ (record {
              text = text.now;
              span = record { start = start; end = end };
            }) ∷ []) }
    {
        let parted = self.after_word & begins;
        // Memory for the text comes first: once an entry is added, nothing fails.
        self.spelling.reserve(text.len() + 1)?;
        let text_end = self.spelling.len() + usize::from(parted) + text.len();
        self.entries.push(text_end, SourceBytes { start, end })?;
        if parted {
            self.spelling.push(b' ')?;
        }
        self.spelling.extend_from_slice(text)?;
        self.after_word = ends;
        Ok(())
    }

    /// Adds tokens that were spelled together after these, of which the last ends in a letter of kind Word or not. 32 bits say where they
    /// end.
    #[inline(never)]
    pub fn add(
        &mut self,
        bytes: &[u8],
        ends: &[u32],
        sources: &[SourceBytes],
        after_word: bool,
    ) -> Result<(), AllocError>
        requires near { 0 < length ends.now → length (spelled (texts_of self.old)) < 2 ^ 32 }
        requires paired { length ends.now ≡ length sources.now }
        requires spelled { HasSpelled self.old bytes.now (entries_by ends.now sources.now) }
        requires word { after_word ≡ ends_in_word (spelled (texts_of self.old) ++ bytes.now) }
        ensures { OnOk result ((tokens : List TokenValue)
            → AreSpelledAfter self.old tokens bytes.now (entries_by ends.now sources.now)
            → self.new ≡ self.old ++ tokens) }
    {
        self.spelling.reserve(bytes.len())?;
        self.entries.extend(ends, sources)?;
        self.spelling.extend_from_slice(bytes)?;
        self.after_word = after_word;
        Ok(())
    }

    /// Whether the spelling ends in a letter of kind Word.
    pub fn after_word(&self) -> bool
        ensures word { result ≡ ends_in_word (spelled (texts_of self.now)) }
        ensures utf8 { IsUtf8 (spelled (texts_of self.now)) }
    {
        self.after_word
    }

    /// Adds tokens as the rewriting gives them.
    #[inline(always)]
    pub fn extend(&mut self, phrases: &Phrases, settled: &[FinalToken]) -> Result<(), AllocError>
        requires known { AreKnown (length phrases.now.spellings) settled.now }
        requires texts { AreTokenTexts (map reported (map (spanned_in phrases.now.spellings) settled.now)) }
        ensures { OnOk result (self.new
            ≡ self.old ++ map reported (map (spanned_in phrases.now.spellings) settled.now)) }
    {
        for token in settled {
            self.push(phrases.text_of(token), token.start, token.end)?;
        }
        Ok(())
    }

    /// The texts in canonical spelling: one blank between two letters of kind Word that belong to different tokens, and none
    /// elsewhere.
    pub fn spelled(&self) -> &[u8]
        ensures { result.now ≡ spelled (texts_of self.now) }
    {
        self.spelling.as_slice()
    }

    /// The same as a text.
    pub fn spelled_text(&self) -> &str
        ensures { result.now ≡ spelled (texts_of self.now) }
    {
        utf8_text(&self.spelling)
    }

    /// Where the text of the token number `i` is in the canonical spelling (bytes).
    #[inline(always)]
    pub fn place(&self, i: usize) -> Span
        requires { i < length self.now }
        ensures start { result.start ≡ place_start self.now i }
        ensures end { result.end ≡ place_end self.now i }
    {
        if let Some((before, end)) = self.entries.near_ends(i) {
            return Span {
                start: start_after(&self.spelling, before),
                end,
            };
        }
        self.place_apart(i)
    }

    /// The same of the first token, or where 32 bits do not say it.
    #[cold]
    #[inline(never)]
    fn place_apart(&self, i: usize) -> Span
        requires { i < length self.now }
        ensures start { result.start ≡ place_start self.now i }
        ensures end { result.end ≡ place_end self.now i }
    {
        let end = self.entries.text_end(i);
        if i == 0 {
            return Span { start: 0, end };
        }
        Span {
            start: start_after(&self.spelling, self.entries.text_end(i - 1)),
            end,
        }
    }

    /// The bytes of the source of the token number `i`, from 0.
    #[inline(always)]
    pub fn span(&self, i: usize) -> Span
        requires { i < length self.now }
        ensures { (d : _) → result ≡ (slice_index_or self.now i d).span }
    {
        let source = self.entries.source(i);
        Span {
            start: source.start as usize,
            end: source.end as usize,
        }
    }

    /// The token number `i`, from 0.
    pub fn get(&self, i: usize) -> Token<'_>
        requires { i < length self.now }
        ensures text { (d : _) → result.text.now ≡ (slice_index_or self.now i d).text }
        ensures span { (d : _) → result.span ≡ (slice_index_or self.now i d).span }
    {
        let Span { start, end } = self.place(i);
        Token {
            text: utf8_text(&self.spelling[start..end]),
            span: self.span(i),
        }
    }

    /// The tokens as slices, if 32 bits say where each text ends.
    #[inline(always)]
    pub fn slices(&self) -> Option<TokenSlices<'_>>
        ensures tokens { IfSome result (λ t. sliced_tokens t ≡ self.now) }
        ensures near { length (spelled (texts_of self.now)) < 2 ^ 32 → result ≢ None }
    {
        let (ends, sources) = self.entries.near()?;
        Some(TokenSlices {
            spelling: &self.spelling,
            ends,
            sources,
        })
    }

    /// The texts of the tokens are in UTF-8.
    pub fn texts_are_utf8(&self)
        ensures { All (λ t. IsUtf8 t.text) self.now }
    {
        let _ = &self.entries;
    }

    /// The text of each token has a letter, and each blank in it is between two letters of kind Word.
    pub fn texts_are_token_texts(&self)
        ensures { AreTokenTexts self.now }
    {
        let _ = &self.entries;
    }
}
