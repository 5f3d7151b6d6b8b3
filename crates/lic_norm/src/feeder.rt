//! An input that comes in pieces.

ghost use Rattle.std.specs.Prelude.{◌≡◌, ◌≢◌, ◌<◌, ◌≤◌, ◌+◌, ◌++◌, ℕ, [], List, length, slice_index_or, IfOk, IfErr, IsErrOf, OnOk, Some, None};
ghost use Rattle.std.specs.Io.KnownBytes.{Consumes, IsAtEnd};
ghost use Rattle.std.specs.List.{flat_map};
ghost use Rattle.lic_kind.specs.LineRules.{rules_of};
ghost use Rattle.lic_norm.specs.Refusal.{IsRefusal, max_bytes, refusal_of};
ghost use Rattle.lic_norm.specs.Spans.{AreSpans};
ghost use Rattle.lic_tokens.specs.Tokens.{AreTokenTexts};
ghost use Rattle.lic_norm.specs.Tokens.{tokens_of};
ghost use Rattle.lic_stream.specs.Stream.{one_more};

use crate::fault::{FeedFault, TextFault};
use crate::reader::line_tokens::LineBuffers;
use crate::reader::{MAX_KEPT, Reader};
use crate::refusal::MAX_BYTES;
use crate::text::Text;
use crate::words::Words;
use lic_lines::Rules;
use lic_stream::Source;
use lic_tokens::{Token, TokenList};
use std::alloc::Global;
use std::marker::Model;

/// Reads an input that comes in pieces. Tokens are settled while lines come; a piece may end anywhere, inside a character too.
#[derive(Drop)]
pub struct Feeder<'w> {
    words: &'w Words,
    reader: Reader<'w>,
    refused: Option<TextFault>,
}

impl<'w> Model for Feeder<'w> {
    ghost use Rattle.std.specs.Prelude.{ℕ, ◌≡◌, ◌≤◌, List, length, None};
    ghost use Rattle.lic_kind.specs.LineRules.{rules_of};
    ghost use Rattle.lic_norm.specs.Feeding.{FeederValue, settled_in};
    ghost use Rattle.lic_rewriting.specs.Taking.{listed_by, phrases_of};
    ghost use Rattle.lic_norm.specs.Reading.{HasReadLines};
    ghost use Rattle.lic_norm.specs.Refusal.{max_bytes};

    ghost Value = { FeederValue };

    ghost view = { λ f. record {
      bytes = f.reader.source.items;
      words = f.words.now;
      rules = rules_of f.reader.rules.now;
      tokens = settled_in f.refused (listed_by f.reader.rewriting);
      refused = f.refused;
    } };

    ghost invariant = { λ f. ((phrases_of f.reader.rewriting).phrases ≡ f.words.now)
        × (f.refused ≡ None → HasReadLines f.reader × (length f.reader.source.items ≤ max_bytes)) };
}

impl<'w> Feeder<'w> {
    ghost use Rattle.lic_kind.specs.LineRules.{rules_of};
    ghost use Rattle.lic_norm.specs.Feeding.{AreFirst, lines_read};
    ghost use Rattle.lic_norm.specs.Refusal.{refusal_of};
    ghost use Rattle.lic_norm.specs.Spans.{AreSpans};
    ghost use Rattle.lic_tokens.specs.Tokens.{AreTokenTexts};
    ghost use Rattle.lic_norm.specs.Tokens.{tokens_of};

    /// Nothing is fed yet.
    pub fn new(alloc: Global, words: &'w Words, rules: &'w Rules) -> Feeder<'w>
        ensures { result ≡ record {
          bytes = [];
          words = words.now;
          rules = rules_of rules.now;
          tokens = [];
          refused = None;
        } }
    {
        let (tokens, buffers) = (TokenList::new(alloc), LineBuffers::new(alloc));
        Feeder {
            words,
            reader: Reader::new(alloc, Vec::new(alloc), tokens, buffers, words, rules),
            refused: None,
        }
    }

    /// Nothing is fed yet. The memory of this text is used again, unless it is a long one.
    pub fn reuse(alloc: Global, text: Text, words: &'w Words, rules: &'w Rules) -> Feeder<'w>
        ensures { result ≡ record {
          bytes = [];
          words = words.now;
          rules = rules_of rules.now;
          tokens = [];
          refused = None;
        } }
    {
        if text.source().len() > MAX_KEPT {
            return Feeder::new(alloc, words, rules);
        }
        Feeder {
            words,
            reader: text.into_reader(alloc, words, rules),
            refused: None,
        }
    }

    /// Takes the next piece of the input.
    ///
    /// # Errors
    ///
    /// `TooLong` as soon as there are more than 67,108,864 bytes; `Memory` if memory ran out. From then on each
    /// call answers that same refusal.
    pub fn feed(&mut self, bytes: &[u8]) -> Result<(), TextFault>
        ensures fed { OnOk result (self.new.bytes ≡ self.old.bytes ++ bytes.now) }
        ensures accepted { OnOk result (refusal_of self.new.bytes ≡ None) }
        ensures open { OnOk result (self.new.refused ≡ None) }
        ensures refused { IfErr result (λ fault. self.old.refused ≡ None → fault ≢ TextFault.Memory
            → refusal_of (self.old.bytes ++ bytes.now) ≡ Some fault) }
        ensures long { (fault : _) → self.old.refused ≡ None
            → refusal_of (self.old.bytes ++ bytes.now) ≡ Some fault → result ≡ Err fault }
        ensures stays { IfErr result (λ fault. self.new.refused ≡ Some fault) }
        ensures again { (fault : _) → self.old.refused ≡ Some fault → result ≡ Err fault }
        ensures unchanged { (fault : _) → self.old.refused ≡ Some fault → self.new ≡ self.old }
        ensures words { self.new.words ≡ self.old.words }
        ensures rules { self.new.rules ≡ self.old.rules }
    {
        if let Some(fault) = self.refused {
            return Err(fault);
        }
        let fed = self.reader.feed(bytes);
        if let Err(fault) = fed {
            self.refused = Some(fault);
        }
        fed
    }

    /// Takes what one call of an input reads. Gives how many bytes these are: 0 only at the end.
    fn feed_from<R: Source>(&mut self, input: &mut R) -> Result<usize, FeedFault>
        requires { self.old.refused ≡ None }
        ensures fed { IfOk result (λ n. (bytes : List ℕ) × Consumes (R.left input.old) (R.left input.new) bytes
            × (n ≡ length bytes) × (self.new.bytes ≡ self.old.bytes ++ bytes)) }
        ensures accepted { OnOk result (refusal_of self.new.bytes ≡ None) }
        ensures end { IfOk result (λ n. n ≡ 0 → IsAtEnd (R.left input.new)) }
        ensures open { OnOk result (self.new.refused ≡ None) }
        ensures stays { (fault : _) → IsErrOf result (FeedFault.Text fault) → self.new.refused ≡ Some fault }
        ensures refused { (fault : _) → IsErrOf result (FeedFault.Text fault)
            → (bytes : List ℕ) × Consumes (R.left input.old) (R.left input.new) bytes
            × (length (self.old.bytes ++ bytes) ≤ max_bytes + 1) × IsRefusal fault (self.old.bytes ++ bytes) }
        ensures read { IsErrOf result FeedFault.Read → (self.new.refused ≡ None) × (self.new.bytes ≡ self.old.bytes) }
        ensures none { IsErrOf result FeedFault.Read → Consumes (R.left input.old) (R.left input.new) [] }
        ensures sound { OnOk result (R.failed input.new ≡ R.failed input.old) }
        ensures failed { IsErrOf result FeedFault.Read → R.failed input.new ≡ one_more (R.failed input.old) }
        ensures text { (fault : _) → IsErrOf result (FeedFault.Text fault) → R.failed input.new ≡ R.failed input.old }
        ensures words { self.new.words ≡ self.old.words }
        ensures rules { self.new.rules ≡ self.old.rules }
    {
        let fed = self.reader.feed_from(input);
        if let Err(FeedFault::Text(refusal)) = fed {
            self.refused = Some(refusal);
        }
        fed
    }

    /// Takes all that is left of an input: its bytes are read straight into the source, and its lines taken as they end. Of an input
    /// that is too long one byte too many is read, and no more. A failed call is not tried again.
    ///
    /// # Errors
    ///
    /// `Text` with the refusal of all that was fed, and at once after a refusal; `Read` if a call failed: what came before it is fed.
    pub fn read_to_end<R: Source>(&mut self, input: &mut R) -> Result<(), FeedFault>
        ensures fed { OnOk result ((bytes : List ℕ) × Consumes (R.left input.old) (R.left input.new) bytes
            × IsAtEnd (R.left input.new) × (self.new.bytes ≡ self.old.bytes ++ bytes)) }
        ensures accepted { OnOk result (refusal_of self.new.bytes ≡ None) }
        ensures open { OnOk result (self.new.refused ≡ None) }
        ensures stays { (fault : _) → IsErrOf result (FeedFault.Text fault) → self.new.refused ≡ Some fault }
        ensures refused { (fault : _) → IsErrOf result (FeedFault.Text fault) → self.old.refused ≡ None
            → (bytes : List ℕ) × Consumes (R.left input.old) (R.left input.new) bytes
            × IsRefusal fault (self.old.bytes ++ bytes) }
        ensures again { (fault : _) → self.old.refused ≡ Some fault
            → (result ≡ Err (FeedFault.Text fault)) × (self.new ≡ self.old) × (input.new ≡ input.old) }
        ensures read { IsErrOf result FeedFault.Read → (self.new.refused ≡ None)
            × ((bytes : List ℕ) × Consumes (R.left input.old) (R.left input.new) bytes × (self.new.bytes ≡ self.old.bytes ++ bytes)) }
        ensures most { self.old.refused ≡ None → (bytes : List ℕ) × Consumes (R.left input.old) (R.left input.new) bytes
            × (length (self.old.bytes ++ bytes) ≤ max_bytes + 1) }
        ensures sound { OnOk result (R.failed input.new ≡ R.failed input.old) }
        ensures failed { IsErrOf result FeedFault.Read → R.failed input.new ≡ one_more (R.failed input.old) }
        ensures text { (fault : _) → IsErrOf result (FeedFault.Text fault) → R.failed input.new ≡ R.failed input.old }
        ensures words { self.new.words ≡ self.old.words }
        ensures rules { self.new.rules ≡ self.old.rules }
    {
        if let Some(fault) = self.refused {
            return Err(FeedFault::Text(fault));
        }
        while self.feed_from(input)? > 0 {}
        Ok(())
    }

    /// How many of the first tokens are settled, whatever comes: all but the last 12 or so of the lines that have ended. 0 after
    /// a refusal.
    pub fn ready(&self) -> usize
        ensures count { result ≡ length self.now.tokens }
        ensures settled { self.now.refused ≡ None → (more : List ℕ)
            → AreFirst self.now.tokens
            (tokens_of self.now.rules self.now.words (self.now.bytes ++ more)) }
        ensures nearly { self.now.refused ≡ None
            → length (tokens_of self.now.rules self.now.words (lines_read self.now.bytes))
            ≤ result + 12 }
        ensures refused { (fault : _) → self.now.refused ≡ Some fault → result ≡ 0 }
    {
        match self.refused {
            None => self.reader.settled().len(),
            Some(_) => 0,
        }
    }

    /// The settled token number `i`, from 0: its text, and its bytes of the input.
    pub fn token(&self, i: usize) -> Token<'_>
        requires { i < length self.now.tokens }
        ensures text { (d : _) → result.text.now ≡ (slice_index_or self.now.tokens i d).text }
        ensures span { (d : _) → result.span ≡ (slice_index_or self.now.tokens i d).span }
    {
        self.reader.settled().get(i)
    }

    /// Ends the input: its text, as `Text::read` gives it of all pieces joined.
    ///
    /// # Errors
    ///
    /// The refusal, if there was one; `Memory` if memory ran out.
    pub fn finish(self) -> Result<Text, TextFault>
        ensures source { IfOk result (λ t. t.source ≡ self.entry.bytes) }
        ensures tokens { IfOk result (λ t. t.tokens
            ≡ tokens_of self.entry.rules self.entry.words self.entry.bytes) }
        ensures spans { IfOk result (λ t. AreSpans t.source t.tokens) }
        ensures words { IfOk result (λ t. AreTokenTexts t.tokens) }
        ensures accepted { OnOk result (refusal_of self.entry.bytes ≡ None) }
        ensures open { OnOk result (self.entry.refused ≡ None) }
        ensures refused { IfErr result (λ fault. self.entry.refused ≡ None
            → fault ≡ TextFault.Memory) }
        ensures again { (fault : _) → self.entry.refused ≡ Some fault → result ≡ Err fault }
    {
        let Feeder {
            words,
            reader,
            refused,
        } = self;
        match refused {
            Some(fault) => Err(fault),
            None => Ok(Text::of(reader, words)?),
        }
    }
}

/// The text of an input that comes in these pieces, fed one after another: that of all of them joined.
///
/// # Errors
///
/// `TooLong` where they have more than 67,108,864 bytes together; `Memory` if memory ran out.
pub fn read_pieces(
    alloc: Global,
    pieces: &[&[u8]],
    words: &Words,
    rules: &Rules,
) -> Result<Text, TextFault>
    ensures source { IfOk result (λ t. t.source ≡ flat_map (λ p. p.now) pieces.now) }
    ensures tokens { IfOk result (λ t. t.tokens
        ≡ tokens_of (rules_of rules.now) words.now (flat_map (λ p. p.now) pieces.now)) }
    ensures spans { IfOk result (λ t. AreSpans t.source t.tokens) }
    ensures words { IfOk result (λ t. AreTokenTexts t.tokens) }
    ensures accepted { OnOk result (refusal_of (flat_map (λ p. p.now) pieces.now) ≡ None) }
    ensures refused { IfErr result (λ fault. fault ≢ TextFault.Memory
        → refusal_of (flat_map (λ p. p.now) pieces.now) ≡ Some fault) }
{
    let mut feeder = Feeder::new(alloc, words, rules);
    for piece in pieces {
        feeder.feed(piece)?;
    }
    feeder.finish()
}
