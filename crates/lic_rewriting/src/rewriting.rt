//! From first tokens to the tokens of the rewriting, as they are kept.
ghost use Rattle.std.specs.Prelude.{◌≡◌, ◌++◌, ◌∷◌, ◌<◌, ◌≤◌, ◌+◌, [], true, List, length, drop, map, min};
ghost use Rattle.std.specs.Prelude.{IfOk, OnOk};
ghost use Rattle.lic_kind.specs.LineRules.{rules_of};
ghost use Rattle.lic_lines.specs.Tokens.{Token, single_signs, text_tokens_after, token_in, tokens_in};
ghost use Rattle.lic_phrases.specs.Rewriting.{rewritten};
ghost use Rattle.lic_phrases.specs.Settling.{nothing_kept};
ghost use Rattle.lic_phrases.specs.TokenTexts.{HaveTokenTexts, IsTokenText};
ghost use Rattle.lic_rewriting.specs.Sections.{AreTokenOffsets, tokens_at};
ghost use Rattle.lic_rewriting.specs.Taking.{HasTaken, HasTakenSome, HasTakenUpTo, listed_by, phrases_of};
ghost use Rattle.lic_tokens.specs.Tokens.{HaveTexts, reported};

pub(crate) mod batch;
mod long;

use crate::rewriting::batch::{Batch, Spelled, is_word_at, plain_text, spell};
use crate::section::Section;
use lic_columns::Lines;
use lic_lines::{
    Buffers, FirstToken, FrontPart, Rules, SmallString, TextStart, front_part, start_of_text,
};
use lic_phrases::{FinalToken, Phrases, Rewriter};
use lic_tokens::{TokenList, utf8_text};
use lic_trim::SourceChar;
use std::alloc::{AllocError, Global};

/// The fewest tokens of a part, of tokens that are taken in parts.
const PART: usize = 65_536;

/// Buffers for the work on a part of a line, kept from one part to the next. What they hold has no effect.
#[derive(Drop)]
pub struct PartBuffers {
    buffers: Buffers,
    /// The first tokens of the part.
    tokens: Vec<FirstToken>,
}

impl PartBuffers {
    /// Buffers that take no memory yet.
    pub fn new(alloc: Global) -> PartBuffers {
        PartBuffers {
            buffers: Buffers::new(alloc),
            tokens: Vec::new(alloc),
        }
    }
}

/// Takes the first tokens of a text, and lists the tokens of its rewriting.
#[derive(Drop)]
pub struct Rewriting<'w> {
    phrases: &'w Phrases,
    rewriter: Rewriter,
    tokens: TokenList,
    /// Buffers for the tokens that are settled together.
    settled: Vec<FinalToken>,
}

impl<'w> Rewriting<'w> {
    /// Nothing is taken yet. This list has no token.
    pub fn new(alloc: Global, phrases: &'w Phrases, tokens: TokenList) -> Rewriting<'w>
        requires texts { HaveTokenTexts phrases.now.phrases }
        requires empty { tokens ≡ [] }
        ensures taken { HasTaken result [] }
        ensures tokens { listed_by result ≡ [] }
        ensures phrases { phrases_of result ≡ phrases.now }
    {
        Rewriting {
            phrases,
            rewriter: Rewriter::new(alloc),
            tokens,
            settled: Vec::new(alloc),
        }
    }

    /// Nothing is taken yet; there is memory for a number of tokens, and for the bytes of their texts.
    pub fn with_capacity(
        alloc: Global,
        phrases: &'w Phrases,
        tokens: usize,
        bytes: usize,
    ) -> Result<Rewriting<'w>, AllocError>
        requires { HaveTokenTexts phrases.now.phrases }
        ensures taken { IfOk result (λ r. HasTaken r []) }
        ensures phrases { IfOk result (λ r. phrases_of r ≡ phrases.now) }
    {
        Ok(Rewriting {
            phrases,
            rewriter: Rewriter::new(alloc),
            tokens: TokenList::with_capacity(alloc, tokens, bytes)?,
            settled: Vec::new(alloc),
        })
    }

    /// Takes memory for the tokens of a number of bytes of the input.
    pub fn reserve(&mut self, bytes: usize) -> Result<(), AllocError>
        ensures { self.new ≡ self.old }
    {
        self.tokens.reserve(bytes / 4, bytes)
    }

    /// Takes the next token, which need not pass, and lists those that are settled then.
    #[inline(never)]
    fn push(&mut self, token: FirstToken) -> Result<(), AllocError>
        requires emptied { self.old.settled.items ≡ [] }
        requires before { HasTakenSome self.old }
        requires text { IsTokenText (token_in token).text }
        ensures taken { OnOk result
            ((taken : List Token) → HasTaken self.old taken
            → HasTaken self.new (taken ++ token_in token ∷ [])) }
        ensures phrases { self.new.phrases.now ≡ self.old.phrases.now }
        ensures emptied { OnOk result (self.new.settled.items ≡ []) }
    {
        self.rewriter.push(self.phrases, token, &mut self.settled)?;
        self.tokens.extend(self.phrases, &self.settled)?;
        self.settled.clear();
        Ok(())
    }

    /// Takes the next token, of this text, which need not pass, and lists those that are settled then.
    fn push_text(
        &mut self,
        alloc: Global,
        text: &str,
        start: u32,
        end: u32,
        after_blank: bool,
    ) -> Result<(), AllocError>
        requires emptied { self.old.settled.items ≡ [] }
        requires before { HasTakenSome self.old }
        requires text { IsTokenText text.now }
        ensures taken { OnOk result ((taken : List Token) → HasTaken self.old taken
            → HasTaken self.new (taken
            ++ (record {
              text = text.now;
              start = start;
              end = end;
              after_blank = after_blank;
            }) ∷ [])) }
        ensures phrases { self.new.phrases.now ≡ self.old.phrases.now }
        ensures emptied { OnOk result (self.new.settled.items ≡ []) }
    {
        self.push(FirstToken {
            text: SmallString::from_str(alloc, text)?,
            start,
            end,
            after_blank,
        })
    }

    /// Takes the next token, of this text, and lists those that are settled then: mostly itself, as it is.
    #[inline(always)]
    fn take_text(
        &mut self,
        alloc: Global,
        text: &str,
        start: u32,
        end: u32,
        after_blank: bool,
    ) -> Result<(), AllocError>
        requires emptied { self.old.settled.items ≡ [] }
        requires before { HasTakenSome self.old }
        requires text { IsTokenText text.now }
        ensures taken { OnOk result ((taken : List Token) → HasTaken self.old taken
            → HasTaken self.new (taken
            ++ (record {
              text = text.now;
              start = start;
              end = end;
              after_blank = after_blank;
            }) ∷ [])) }
        ensures phrases { self.new.phrases.now ≡ self.old.phrases.now }
        ensures emptied { OnOk result (self.new.settled.items ≡ []) }
    {
        if self.rewriter.lets_pass(self.phrases, text.as_bytes()) {
            return self.tokens.push(text, start, end);
        }
        self.push_text(alloc, text, start, end, after_blank)
    }

    /// Takes these tokens, and lists those that are settled then.
    #[inline(always)]
    fn take_all(&mut self, alloc: Global, tokens: &[FirstToken]) -> Result<(), AllocError>
        requires emptied { self.old.settled.items ≡ [] }
        requires before { HasTakenSome self.old }
        requires texts { HaveTexts (tokens_in tokens.now) }
        ensures taken { OnOk result ((taken : List Token) → HasTaken self.old taken
            → HasTaken self.new (taken ++ tokens_in tokens.now)) }
        ensures phrases { self.new.phrases.now ≡ self.old.phrases.now }
        ensures emptied { OnOk result (self.new.settled.items ≡ []) }
    {
        for token in tokens {
            let text = token.text.as_str();
            self.take_text(alloc, text, token.start, token.end, token.after_blank)?;
        }
        Ok(())
    }

    /// Takes tokens of lines, from the number `i` on and up to some number or a little further, as long as each is settled at once and
    /// as it is. Gives the number of the next.
    #[inline(never)]
    fn take_plain(
        &mut self,
        section: &Section<'_>,
        i: usize,
        until: usize,
        batch: &mut Batch,
    ) -> Result<usize, AllocError>
        requires within { i ≤ length section.now }
        requires texts { HaveTexts section.now }
        ensures from { IfOk result (λ next. i ≤ next) }
        ensures within { IfOk result (λ next. next ≤ length section.now) }
        ensures taken { IfOk result (λ next. HasTakenUpTo section.now i next self.old self.new) }
        ensures phrases { self.new.phrases.now ≡ self.old.phrases.now }
        ensures settled { self.new.settled.items ≡ self.old.settled.items }
    {
        if !self.rewriter.keeps_none() {
            return Ok(i);
        }
        let mut next = i;
        while next < until {
            let after = self.take_batch(section, next, batch)?;
            next = self.take_one(section, after)?;
            if next == after {
                return Ok(next);
            }
        }
        Ok(next)
    }

    /// Takes the token number `i` of lines, if there is one and it is plain. Gives the number of the next.
    #[inline(never)]
    fn take_one(&mut self, section: &Section<'_>, i: usize) -> Result<usize, AllocError>
        requires within { i ≤ length section.now }
        requires none { self.old.rewriter ≡ nothing_kept }
        requires texts { HaveTexts section.now }
        ensures from { IfOk result (λ next. i ≤ next) }
        ensures within { IfOk result (λ next. next ≤ length section.now) }
        ensures taken { IfOk result (λ next. HasTakenUpTo section.now i next self.old self.new) }
        ensures none { self.new.rewriter ≡ self.old.rewriter }
        ensures phrases { self.new.phrases.now ≡ self.old.phrases.now }
        ensures settled { self.new.settled.items ≡ self.old.settled.items }
    {
        if i >= section.len() {
            return Ok(i);
        }
        let Some(text) = plain_text(self.phrases, section, i) else {
            return Ok(i);
        };
        let (begins, ends) = (is_word_at(text, 0), is_word_at(text, text.len() - 1));
        self.tokens
            .push_bytes(text, begins, ends, section.start(i), section.end(i))?;
        Ok(i + 1)
    }

    /// Takes tokens of lines together, from the number `i` on, as long as each is plain and short. Gives the number of the next.
    fn take_batch(
        &mut self,
        section: &Section<'_>,
        i: usize,
        batch: &mut Batch,
    ) -> Result<usize, AllocError>
        requires within { i ≤ length section.now }
        requires none { self.old.rewriter ≡ nothing_kept }
        requires texts { HaveTexts section.now }
        ensures from { IfOk result (λ next. i ≤ next) }
        ensures within { IfOk result (λ next. next ≤ length section.now) }
        ensures taken { IfOk result (λ next. HasTakenUpTo section.now i next self.old self.new) }
        ensures none { self.new.rewriter ≡ self.old.rewriter }
        ensures phrases { self.new.phrases.now ≡ self.old.phrases.now }
        ensures settled { self.new.settled.items ≡ self.old.settled.items }
    {
        let Spelled {
            count,
            offset,
            after_word,
        } = spell(self, section, i, batch);
        self.tokens.add(
            &batch.bytes[..offset],
            &batch.ends[..count],
            &batch.sources[..count],
            after_word,
        )?;
        Ok(i + count)
    }

    /// Takes the token number `i` of lines, if there is one, or the copyright sign that begins there, through the rewriter, and
    /// lists the tokens that are settled then. Gives the number of the next.
    #[inline(never)]
    fn take_next(
        &mut self,
        alloc: Global,
        section: &Section<'_>,
        i: usize,
    ) -> Result<usize, AllocError>
        requires within { i ≤ length section.now }
        requires emptied { self.old.settled.items ≡ [] }
        requires before { HasTakenSome self.old }
        requires texts { HaveTexts section.now }
        ensures from { IfOk result (λ next. min (i + 1) (length section.now) ≤ next) }
        ensures within { IfOk result (λ next. next ≤ length section.now) }
        ensures taken { IfOk result (λ next. HasTakenUpTo section.now i next self.old self.new) }
        ensures phrases { self.new.phrases.now ≡ self.old.phrases.now }
        ensures emptied { OnOk result (self.new.settled.items ≡ []) }
    {
        if i >= section.len() {
            return Ok(i);
        }
        let text = section.text(i);
        let (start, blank) = (section.start(i), section.after_blank(i));
        if section.is_sign(i, text) {
            self.push_text(alloc, "copyright", start, section.end(i + 2), blank)?;
            return Ok(i + 3);
        }
        self.push_text(alloc, utf8_text(text), start, section.end(i), blank)?;
        Ok(i + 1)
    }

    /// Takes tokens of lines, each copyright sign as one, from the number `from` on and up to some number or a little further, and lists the
    /// tokens that are settled then. Gives the number of the next.
    fn take_until(
        &mut self,
        alloc: Global,
        section: &Section<'_>,
        from: usize,
        until: usize,
        batch: &mut Batch,
    ) -> Result<usize, AllocError>
        requires within { from ≤ length section.now }
        requires emptied { self.old.settled.items ≡ [] }
        requires before { HasTakenSome self.old }
        requires texts { HaveTexts section.now }
        ensures from { IfOk result (λ next. min until (length section.now) ≤ next) }
        ensures within { IfOk result (λ next. next ≤ length section.now) }
        ensures taken { IfOk result (λ next. HasTakenUpTo section.now from next self.old self.new) }
        ensures phrases { self.new.phrases.now ≡ self.old.phrases.now }
        ensures emptied { OnOk result (self.new.settled.items ≡ []) }
    {
        let until = until.min(section.len());
        let mut next = from;
        while next < until {
            next = self.take_plain(section, next, until, batch)?;
            next = self.take_next(alloc, section, next)?;
        }
        Ok(next)
    }

    /// Takes the tokens of lines, each copyright sign as one, and lists the tokens that are settled then.
    pub fn take_section(
        &mut self,
        alloc: Global,
        section: &Section<'_>,
        batch: &mut Batch,
    ) -> Result<(), AllocError>
        requires before { HasTakenSome self.old }
        requires texts { HaveTexts section.now }
        ensures taken { OnOk result ((taken : List Token) → HasTaken self.old taken
            → HasTaken self.new (taken ++ single_signs section.now)) }
        ensures phrases { phrases_of self.new ≡ phrases_of self.old }
    {
        self.settled.clear();
        self.tokens.reserve(section.len(), section.bytes())?;
        self.take_until(alloc, section, 0, section.len(), batch)?;
        Ok(())
    }

    /// Takes the tokens of many lines or of a long one in the same way, part after part, and lets go of where those begin and end that are
    /// taken: so the memory for that is given back while the memory for their list grows. Of the tokens that are let go of the last stays,
    /// since whether a blank comes before the next one shows by its end.
    pub fn take_lines(
        &mut self,
        alloc: Global,
        at: u32,
        lines: &mut Lines,
        batch: &mut Batch,
    ) -> Result<(), AllocError>
        requires before { HasTakenSome self.old }
        requires offsets { AreTokenOffsets at lines.old }
        requires texts { HaveTexts (tokens_at at lines.old) }
        ensures taken { OnOk result ((taken : List Token) → HasTaken self.old taken
            → HasTaken self.new (taken ++ single_signs (tokens_at at lines.old))) }
        ensures phrases { phrases_of self.new ≡ phrases_of self.old }
    {
        self.settled.clear();
        self.tokens
            .reserve(lines.starts().len(), lines.letters().len())?;
        let mut from = 0;
        while from < lines.starts().len() {
            let part = (lines.starts().len() / 2).max(PART);
            let section = Section::of(at, lines);
            let next = self.take_until(alloc, &section, from, from + part, batch)?;
            lines.let_go(next - 1);
            from = 1;
        }
        Ok(())
    }

    /// Takes a part at the start of a text, of which nothing is taken, and lists the tokens that are settled then.
    #[inline(never)]
    fn take_front(
        &mut self,
        alloc: Global,
        rules: &Rules,
        after_blank: bool,
        text: &[SourceChar],
        buffers: &mut PartBuffers,
    ) -> Result<FrontPart, AllocError>
        requires emptied { self.old.settled.items ≡ [] }
        requires before { HasTakenSome self.old }
        requires some { 0 < length text.now }
        ensures some { IfOk result (λ part. 0 < part.length) }
        ensures within { IfOk result (λ part. part.length ≤ length text.now) }
        ensures taken { IfOk result (λ part. (taken : List Token) → HasTaken self.old taken
            → (front : List Token) × HasTaken self.new (taken ++ front)
            × (front ++ text_tokens_after (rules_of rules.now) part.blank_after
            (drop part.length text.now)
            ≡ text_tokens_after (rules_of rules.now) after_blank text.now)) }
        ensures phrases { self.new.phrases.now ≡ self.old.phrases.now }
        ensures emptied { OnOk result (self.new.settled.items ≡ []) }
    {
        let PartBuffers { buffers, tokens } = buffers;
        let part = front_part(alloc, rules, after_blank, text, buffers, tokens)?;
        self.take_all(alloc, tokens)?;
        Ok(part)
    }

    /// Takes a text, of which nothing is taken and which a blank precedes, and lists the tokens that are settled then.
    /// The buffers may hold anything.
    pub fn take_characters(
        &mut self,
        alloc: Global,
        rules: &Rules,
        text: &[SourceChar],
        letters: &mut String,
        buffers: &mut PartBuffers,
    ) -> Result<(), AllocError>
        requires before { HasTakenSome self.old }
        ensures taken { OnOk result ((taken : List Token) → HasTaken self.old taken
            → HasTaken self.new (taken ++ text_tokens_after (rules_of rules.now) true text.now)) }
        ensures phrases { phrases_of self.new ≡ phrases_of self.old }
    {
        self.settled.clear();
        let mut after_blank = true;
        let mut offset = 0;
        while offset < text.len() {
            let rest = &text[offset..];
            match start_of_text(alloc, rest, letters)? {
                TextStart::Blank => {
                    after_blank = true;
                    offset += 1;
                }
                TextStart::Token(length) => {
                    let start = rest[0].start;
                    let end = rest[length - 1].end;
                    self.take_text(alloc, letters.as_str(), start, end, after_blank)?;
                    after_blank = false;
                    offset += length;
                }
                TextStart::Other => {
                    let part = self.take_front(alloc, rules, after_blank, rest, buffers)?;
                    after_blank = part.blank_after;
                    offset += part.length;
                }
            }
        }
        Ok(())
    }

    /// The tokens that are settled.
    pub fn settled(&self) -> &TokenList
        ensures { result.now ≡ listed_by self.now }
    {
        &self.tokens
    }

    /// The tokens of the whole text.
    pub fn finish(self) -> Result<TokenList, AllocError>
        requires { HasTakenSome self }
        ensures { IfOk result (λ tokens. (taken : List Token) → HasTaken self.entry taken
            → tokens ≡ map reported (rewritten (phrases_of self.entry).phrases taken)) }
    {
        let Rewriting {
            phrases,
            rewriter,
            mut tokens,
            mut settled,
        } = self;
        settled.clear();
        rewriter.finish(phrases, &mut settled)?;
        tokens.extend(phrases, &settled)?;
        Ok(tokens)
    }
}
