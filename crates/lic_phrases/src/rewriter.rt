//! The three steps of the rewriting in a row, token by token.
ghost use Rattle.std.specs.Prelude.{◌≡◌, ◌<◌, ◌∷◌, ◌++◌, [], List, IsTrue, OnOk, length, map};
ghost use Rattle.lic_lines.specs.Tokens.{Token, token_in, tokens_in};
ghost use Rattle.lic_phrases.specs.Rewriting.{SpannedText, rewritten, spanned};
ghost use Rattle.lic_phrases.specs.Settling.{Settles, GivesSequences, IsLeft, IsShort, nothing_kept};
ghost use Rattle.lic_phrases.specs.FirstTexts.{IsPlain};
ghost use Rattle.lic_phrases.specs.Waiting.{spanned_in, AreKnown};

pub(crate) mod address;
pub(crate) mod merging;
pub(crate) mod sign_sequences;

use crate::final_token::FinalToken;
use crate::phrases::Phrases;
use crate::rewriter::address::{is_https, pop_settled};
use crate::rewriter::merging::{give_known, take_token};
use crate::rewriter::sign_sequences::{is_sign, join_sign};
use lic_lines::FirstToken;
use std::alloc::{AllocError, Global};
use std::collections::VecDeque;
use std::marker::Model;

/// Rewrites the tokens of a text as they come (SPDX 2.3, Annex B; this project's profile). Each
/// longest sequence of copyright signs becomes one sign, `https` before `:`, `/` and `/` becomes `http`,
/// and then, from the left, the longest phrase becomes one token. A token is kept back only where it
/// is a sign, an `https` or what follows one, or may begin a phrase; these are 11 at most. After an error
/// it is of no use.
#[derive(Drop)]
pub struct Rewriter {
    /// A copyright sign, to which others may come.
    sign: Option<FirstToken>,
    /// Tokens of which the first is `https`, up to the three that decide it.
    address: VecDeque<FirstToken>,
    /// Tokens of which the first may begin a longer phrase.
    waiting: VecDeque<FirstToken>,
    /// A buffer for keys of phrases.
    key: Vec<u8>,
}

impl Model for Rewriter {
    ghost use Rattle.lic_lines.specs.Tokens.{tokens_in};
    ghost use Rattle.lic_phrases.specs.Held.{held};
    ghost use Rattle.lic_phrases.specs.Settling.{Kept};

    ghost Value = { Kept };

    ghost view = { λ a. record {
      sign = held a.sign;
      address = tokens_in a.address.items;
      phrase = tokens_in a.waiting.items;
    } };
}

impl Rewriter {
    /// A rewriter that has taken no token.
    pub fn new(alloc: Global) -> Rewriter
        ensures { result ≡ nothing_kept }
    {
        Rewriter {
            sign: None,
            address: VecDeque::new(alloc),
            waiting: VecDeque::new(alloc),
            key: Vec::new(alloc),
        }
    }

    /// Takes the next token, and puts those that are now settled at the end of the output. All
    /// tokens of a text are taken with the same phrases. The caller may take tokens out of the output
    /// between calls: those that were given `before` come before it.
    #[inline(always)]
    pub fn push(
        &mut self,
        phrases: &Phrases,
        token: FirstToken,
        output: &mut Vec<FinalToken>,
    ) -> Result<(), AllocError>
        ensures settles { OnOk result ((before : List SpannedText) (taken : List Token)
            → Settles phrases.now.phrases taken
            (before ++ map (spanned_in phrases.now.spellings) output.old.items) self.old
            → Settles phrases.now.phrases (taken ++ token_in token ∷ [])
            (before ++ map (spanned_in phrases.now.spellings) output.new.items) self.new) }
        ensures known { AreKnown (length phrases.now.spellings) output.old.items
            → OnOk result (AreKnown (length phrases.now.spellings) output.new.items) }
    {
        if join_sign(&mut self.sign, &token) {
            return Ok(());
        }
        self.take_sign(phrases, output)?;
        if is_sign(&token) {
            self.sign = Some(token);
            return Ok(());
        }
        self.take_sequence(phrases, token, output)
    }

    /// Whether none is kept back.
    #[inline(always)]
    pub fn keeps_none(&self) -> bool
        ensures { IsTrue result → self.now ≡ nothing_kept }
    {
        if self.sign.is_some() || !self.address.is_empty() {
            return false;
        }
        self.waiting.is_empty()
    }

    /// Whether a token of this text is settled at once and as it is where none is kept back: it is no sign, no `https` and begins
    /// no phrase.
    #[inline(always)]
    pub fn leaves(phrases: &Phrases, text: &[u8]) -> bool
        ensures { IsTrue result → IsLeft phrases.now.phrases text.now }
    {
        if "copyright".as_bytes() == text || "https".as_bytes() == text {
            return false;
        }
        phrases.most_from(text) == 0
    }

    /// The same by a look into a table alone, which says yes to most texts that are left: plain ones, of which the first letter
    /// and the length are of no other text.
    #[inline(always)]
    pub fn leaves_plain(phrases: &Phrases, text: &[u8]) -> bool
        requires { 0 < length text.now }
        ensures plain { IsTrue result → IsPlain text.now }
        ensures left { IsTrue result → IsLeft phrases.now.phrases text.now }
    {
        phrases.is_plain(text)
    }

    /// Whether a token of this text is settled at once and as it is where none is kept back, by a look into another table, which says
    /// yes to nearly all texts of which this is true.
    #[inline(always)]
    pub fn leaves_by_pair(phrases: &Phrases, text: &[u8]) -> bool
        requires { 0 < length text.now }
        ensures { IsTrue result → IsLeft phrases.now.phrases text.now }
    {
        phrases.begins_none(text)
    }

    /// Whether a token of this text that is taken next is settled at once and as it is: none is kept back, and it is left as it
    /// is. It need not be pushed then.
    #[inline(always)]
    pub fn lets_pass(&self, phrases: &Phrases, text: &[u8]) -> bool
        ensures { IsTrue result → (settled : List SpannedText) (taken : List Token) (token : Token)
            → token.text ≡ text.now
            → Settles phrases.now.phrases taken settled self.now
            → Settles phrases.now.phrases (taken ++ token ∷ [])
            (settled ++ spanned token ∷ []) self.now }
    {
        self.keeps_none() && Rewriter::leaves(phrases, text)
    }

    /// Ends the text: puts the tokens that were kept back at the end of the output. It is then
    /// complete, after the tokens that were given `before`.
    pub fn finish(self, phrases: &Phrases, output: &mut Vec<FinalToken>) -> Result<(), AllocError>
        ensures whole { OnOk result ((before : List SpannedText) (taken : List Token)
            → Settles phrases.now.phrases taken
            (before ++ map (spanned_in phrases.now.spellings) output.old.items) self
            → before ++ map (spanned_in phrases.now.spellings) output.new.items
            ≡ rewritten phrases.now.phrases taken) }
        ensures known { AreKnown (length phrases.now.spellings) output.old.items
            → OnOk result (AreKnown (length phrases.now.spellings) output.new.items) }
    {
        let mut rewriter = self;
        rewriter.take_sign(phrases, output)?;
        rewriter.waiting.append(&mut rewriter.address)?;
        give_known(
            phrases,
            true,
            &mut rewriter.waiting,
            &mut rewriter.key,
            output,
        )
    }

    /// Hands the sign that is kept, if there is one, to the next step.
    #[inline(always)]
    fn take_sign(
        &mut self,
        phrases: &Phrases,
        output: &mut Vec<FinalToken>,
    ) -> Result<(), AllocError>
        ensures given { OnOk result (GivesSequences phrases.now.phrases
            (map (spanned_in phrases.now.spellings) output.old.items) self.old self.old.sign
            (map (spanned_in phrases.now.spellings) output.new.items) self.new) }
        ensures sign { self.new.sign ≡ [] }
        ensures short { IsShort self.old → OnOk result (IsShort self.new) }
        ensures known { AreKnown (length phrases.now.spellings) output.old.items
            → OnOk result (AreKnown (length phrases.now.spellings) output.new.items) }
    {
        // Mostly there is none, and a look costs less than taking it out.
        if self.sign.is_none() {
            return Ok(());
        }
        match self.sign.take() {
            None => Ok(()),
            Some(sequence) => self.take_sequence(phrases, sequence, output),
        }
    }

    /// Takes a sequence of signs or another token, and gives the tokens that are now settled. Where none
    /// waits for an address, the token need not wait for one either unless it is `https`.
    #[inline(always)]
    fn take_sequence(
        &mut self,
        phrases: &Phrases,
        sequence: FirstToken,
        output: &mut Vec<FinalToken>,
    ) -> Result<(), AllocError>
        ensures given { OnOk result (GivesSequences phrases.now.phrases
            (map (spanned_in phrases.now.spellings) output.old.items) self.old (token_in sequence ∷ [])
            (map (spanned_in phrases.now.spellings) output.new.items) self.new) }
        ensures sign { self.new.sign ≡ self.old.sign }
        ensures short { IsShort self.old → OnOk result (IsShort self.new) }
        ensures known { AreKnown (length phrases.now.spellings) output.old.items
            → OnOk result (AreKnown (length phrases.now.spellings) output.new.items) }
    {
        if self.address.is_empty() && !is_https(&sequence) {
            return take_token(phrases, sequence, &mut self.waiting, &mut self.key, output);
        }
        self.address.push_back(sequence)?;
        while let Some(settled) = pop_settled(&mut self.address) {
            take_token(phrases, settled, &mut self.waiting, &mut self.key, output)?;
        }
        Ok(())
    }
}
