//! A source and its tokens.

ghost use Rattle.std.specs.Prelude.{◌≡◌, ◌<◌, ◌≤◌, ◌≢◌, ◌^◌, [], All, IsUtf8, length, slice_range, slice_index_or, IfOk, IfErr, IfSome, OnOk, Some, None};
ghost use Rattle.lic_norm.specs.Spans.{AreSpans};
ghost use Rattle.lic_tokens.specs.Tokens.{AreTokenTexts};

use crate::fault::TextFault;
use crate::reader::Reader;
use crate::reader::line_tokens::LineBuffers;
use crate::refusal::check_length;
use crate::words::Words;
use lic_lines::Rules;
use lic_phrases::laws::spellings_are_token_texts;
use lic_tokens::{Span, Token, TokenList, TokenSlices};
use std::alloc::{AllocError, Global};
use std::marker::Model;

/// A source and its tokens.
#[derive(Debug, Drop)]
pub struct Text {
    source: Vec<u8>,
    tokens: TokenList,
    /// What a text that is read in this one's memory is read with.
    buffers: LineBuffers,
}

impl Model for Text {
    ghost use Rattle.lic_norm.specs.Views.{TextValue};
    ghost use Rattle.lic_norm.specs.Spans.{AreSpans};
    ghost use Rattle.lic_tokens.specs.Tokens.{AreTokenTexts};

    ghost Value = { TextValue };

    ghost view = { λ t. record { source = t.source.items; tokens = t.tokens } };

    ghost invariant = { λ t. AreSpans t.source.items t.tokens × AreTokenTexts t.tokens };
}

impl Text {
    ghost use Rattle.lic_kind.specs.LineRules.{rules_of};
    ghost use Rattle.lic_rewriting.specs.Taking.{listed_by, phrases_of};
    ghost use Rattle.lic_tokens.specs.Places.{place_end, place_start, texts_of};
    ghost use Rattle.lic_tokens.specs.Slices.{sliced_tokens};
    ghost use Rattle.lic_norm.specs.Reading.{HasRead, HasReadLines};
    ghost use Rattle.lic_norm.specs.Refusal.{refusal_of};
    ghost use Rattle.lic_norm.specs.Tokens.{tokens_of};
    ghost use Rattle.lic_norm.specs.Spans.{AreSpans, IsTokenText};
    ghost use Rattle.lic_tokens.specs.Tokens.{AreTokenTexts};
    ghost use Rattle.lic_phrases.specs.Spelling.{spelled};

    /// Reads a source of at most 67,108,864 bytes, whatever they are.
    ///
    /// A byte that lies in no UTF-8 character begun before it, and at which none begins, is read as U+FFFD.
    /// From each line its lead, list item and tail are taken away by the line rules; then a token is a
    /// longest sequence of word characters with their letters, or a mark; and signs of copyright, web addresses
    /// and equivalent words are written as one (this project's profile of SPDX 2.3 Annex B).
    ///
    /// # Errors
    ///
    /// `TooLong` where there are more bytes; `Memory` if memory ran out.
    pub fn read(
        alloc: Global,
        source: Vec<u8>,
        words: &Words,
        rules: &Rules,
    ) -> Result<Text, TextFault>
        ensures source { IfOk result (λ t. t.source ≡ source.items) }
        ensures tokens { IfOk result (λ t. t.tokens
            ≡ tokens_of (rules_of rules.now) words.now source.items) }
        ensures spans { IfOk result (λ t. AreSpans t.source t.tokens) }
        ensures words { IfOk result (λ t. AreTokenTexts t.tokens) }
        ensures accepted { OnOk result (refusal_of source.items ≡ None) }
        ensures refused { IfErr result (λ fault. fault ≢ TextFault.Memory
            → refusal_of source.items ≡ Some fault) }
        ensures long { (fault : _) → refusal_of source.items ≡ Some fault → result ≡ Err fault }
    {
        check_length(source.as_slice())?;
        let (tokens, buffers) = (TokenList::new(alloc), LineBuffers::new(alloc));
        let mut reader = Reader::new(alloc, source, tokens, buffers, words, rules);
        reader.take_lines(0)?;
        Ok(Text::of(reader, words)?)
    }

    /// The text that was read.
    pub(crate) fn of(reader: Reader<'_>, words: &Words) -> Result<Text, AllocError>
        requires read { HasReadLines reader }
        requires fits { length reader.source.items < 2 ^ 32 }
        requires words { (phrases_of reader.rewriting).phrases ≡ words.now }
        ensures source { IfOk result (λ t. t.source ≡ reader.entry.source.items) }
        ensures tokens { IfOk result (λ t. t.tokens
            ≡ tokens_of (rules_of reader.entry.rules.now) words.now reader.entry.source.items) }
        ensures spans { IfOk result (λ t. AreSpans t.source t.tokens) }
        ensures words { IfOk result (λ t. AreTokenTexts t.tokens) }
    {
        let (source, tokens, buffers) = reader.finish()?;
        spellings_are_token_texts(words);
        Ok(Text {
            source,
            tokens,
            buffers,
        })
    }

    /// A reader of which nothing is read yet, in the memory of this text.
    pub(crate) fn into_reader<'w>(
        self,
        alloc: Global,
        words: &'w Words,
        rules: &'w Rules,
    ) -> Reader<'w>
        ensures read { HasRead result }
        ensures source { result.source.items ≡ [] }
        ensures start { result.line_start ≡ 0 }
        ensures tokens { listed_by result.rewriting ≡ [] }
        ensures words { (phrases_of result.rewriting).phrases ≡ words.now }
        ensures rules { result.rules.now ≡ rules.now }
    {
        let Text {
            mut source,
            mut tokens,
            buffers,
        } = self;
        source.clear();
        tokens.clear();
        Reader::new(alloc, source, tokens, buffers, words, rules)
    }

    /// The tokens.
    pub fn tokens(&self) -> &TokenList
        ensures { result.now ≡ self.now.tokens }
    {
        &self.tokens
    }

    /// How many tokens there are.
    pub fn len(&self) -> usize
        ensures { result ≡ length self.now.tokens }
    {
        self.tokens.len()
    }

    /// The token number `i`, from 0: its text, and its bytes of the source.
    pub fn token(&self, i: usize) -> Token<'_>
        requires { i < length self.now.tokens }
        ensures text { (d : _) → result.text.now ≡ (slice_index_or self.now.tokens i d).text }
        ensures span { (d : _) → result.span ≡ (slice_index_or self.now.tokens i d).span }
        ensures word { IsTokenText result.text.now }
        ensures order { result.span.start < result.span.end }
        ensures within { result.span.end ≤ length self.now.source }
    {
        self.tokens.get(i)
    }

    /// The texts of the tokens as one text in canonical spelling: one blank between two letters of kind Word that belong to
    /// different tokens, and none elsewhere (SPDX 2.3 Annex B; this project's profile).
    pub fn spelled(&self) -> &[u8]
        ensures { result.now ≡ spelled (texts_of self.now.tokens) }
    {
        self.tokens.spelled()
    }

    /// The bytes of the source that the token number `i` was made from.
    #[inline(always)]
    pub fn span(&self, i: usize) -> Span
        requires { i < length self.now.tokens }
        ensures { (d : _) → result ≡ (slice_index_or self.now.tokens i d).span }
    {
        self.tokens.span(i)
    }

    /// Where the text of the token number `i` is in the canonical spelling (bytes).
    #[inline(always)]
    pub fn place(&self, i: usize) -> Span
        requires { i < length self.now.tokens }
        ensures start { result.start ≡ place_start self.now.tokens i }
        ensures end { result.end ≡ place_end self.now.tokens i }
    {
        self.tokens.place(i)
    }

    /// The tokens as slices, for a loop that writes while it reads them. None of a text in whose canonical spelling 32 bits do not say
    /// where each token's text ends.
    #[inline(always)]
    pub fn slices(&self) -> Option<TokenSlices<'_>>
        ensures tokens { IfSome result (λ t. sliced_tokens t ≡ self.now.tokens) }
        ensures near { length (spelled (texts_of self.now.tokens)) < 2 ^ 32 → result ≢ None }
    {
        self.tokens.slices()
    }

    /// The bytes that were read.
    pub fn source(&self) -> &[u8]
        ensures { result.now ≡ self.now.source }
    {
        self.source.as_slice()
    }

    /// The bytes of the source from a span's start up to its end.
    pub fn slice(&self, span: Span) -> &[u8]
        requires order { span.start ≤ span.end }
        requires within { span.end ≤ length self.now.source }
        ensures { result.now ≡ slice_range self.now.source span.start span.end }
    {
        &self.source[span.start..span.end]
    }
}

/// The spans of a text's tokens follow one another within its source, and cut no source character.
pub fn tokens_have_spans(text: &Text)
    ensures { AreSpans text.now.source text.now.tokens }
{
    let _ = &text.tokens;
}

/// The texts of a text's tokens are in UTF-8.
pub fn tokens_are_utf8(text: &Text)
    ensures { All (λ t. IsUtf8 t.text) text.now.tokens }
{
    text.tokens.texts_are_utf8();
}

/// The text of each token has a letter, and each blank in it is between two letters of kind Word.
pub fn tokens_are_token_texts(text: &Text)
    ensures { AreTokenTexts text.now.tokens }
{
    let _ = &text.tokens;
}
