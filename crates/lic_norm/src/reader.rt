//! Reads an input by lines, as its bytes come.
ghost use Rattle.std.specs.Prelude.{◌≡◌, ◌≢◌, ◌+◌, ◌++◌, ◌<◌, ◌≤◌, ◌^◌, ℕ, List, [], false, All, IfOk, IfErr, IsErrOf, IsTrue, OnOk, Some, length, take, drop, slice_range};
ghost use Rattle.std.specs.Io.KnownBytes.{Consumes, IsAtEnd};
ghost use Rattle.lic_kind.specs.LineRules.{rules_of};
ghost use Rattle.lic_norm.specs.LineEnds.{IsFirstLine};
ghost use Rattle.lic_rewriting.specs.Taking.{HasTaken, listed_by, phrases_of};
ghost use Rattle.lic_norm.specs.Reading.{HasRead, HasReadLines};
ghost use Rattle.lic_norm.specs.Refusal.{IsRefusal, max_bytes, refusal_of};
ghost use Rattle.lic_stream.specs.Stream.{one_more};
ghost use Rattle.lic_norm.specs.Tokens.{first_tokens_of, tokens_of};

pub(crate) mod characters;
pub(crate) mod line_tokens;
pub(crate) mod lines;

use crate::fault::{FeedFault, TextFault};
use crate::reader::line_tokens::{LineBuffers, take_any_line, take_ascii, take_front};
use crate::reader::lines::{MAX_TOGETHER, line_end, lines_end};
use crate::refusal::MAX_BYTES;
use crate::words::Words;
use lic_lines::Rules;
use lic_phrases::laws::spellings_are_token_texts;
use lic_rewriting::Rewriting;
use lic_stream::{Source, pull_into};
use lic_tokens::TokenList;
use memchr::memrchr;
use std::alloc::{AllocError, Global};

/// Fewer bytes than these are read in less time by their characters than 64 at once.
const FEW: usize = 8;

/// The memory of an input that has more bytes is not used for the next one.
pub(crate) const MAX_KEPT: usize = 1_048_576;

/// The bytes that were read, and the tokens of their lines up to the last U+000A. Of the line that has not ended
/// only the bytes are kept.
#[derive(Drop)]
pub(crate) struct Reader<'w> {
    alloc: Global,
    source: Vec<u8>,
    /// Where the line begins that has not ended.
    line_start: usize,
    rewriting: Rewriting<'w>,
    rules: &'w Rules,
    buffers: LineBuffers,
}

impl<'w> Reader<'w> {
    /// Nothing is read yet of this source. The list has no token.
    pub(crate) fn new(
        alloc: Global,
        source: Vec<u8>,
        tokens: TokenList,
        buffers: LineBuffers,
        words: &'w Words,
        rules: &'w Rules,
    ) -> Reader<'w>
        requires { tokens ≡ [] }
        ensures read { HasRead result }
        ensures source { result.source.items ≡ source.items }
        ensures start { result.line_start ≡ 0 }
        ensures tokens { listed_by result.rewriting ≡ [] }
        ensures words { (phrases_of result.rewriting).phrases ≡ words.now }
        ensures rules { result.rules.now ≡ rules.now }
    {
        spellings_are_token_texts(words);
        Reader {
            alloc,
            source,
            line_start: 0,
            rewriting: Rewriting::new(alloc, words.phrases(), tokens),
            rules,
            buffers,
        }
    }

    /// Takes the tokens of the bytes up to `end`, which may be several lines, if they are ASCII and not few. Otherwise takes nothing.
    fn take_ascii(&mut self, end: usize) -> Result<bool, AllocError>
        requires read { HasRead self.old }
        requires order { self.old.line_start ≤ end }
        requires within { end ≤ length self.old.source.items }
        ensures taken { IfOk result (λ all. IsTrue all → HasTaken self.new.rewriting
            (first_tokens_of (rules_of self.old.rules.now) 0 (take end self.old.source.items))) }
        ensures start { IfOk result (λ all. IsTrue all → self.new.line_start ≡ end) }
        ensures other { IfOk result (λ all. all ≡ false → self.new ≡ self.old) }
        ensures source { self.new.source.items ≡ self.old.source.items }
        ensures words { phrases_of self.new.rewriting ≡ phrases_of self.old.rewriting }
        ensures rules { self.new.rules.now ≡ self.old.rules.now }
    {
        if end > MAX_BYTES {
            return Ok(false);
        }
        if end - self.line_start < FEW {
            return Ok(false);
        }
        let at = self.line_start as u32;
        let text = &self.source[self.line_start..end];
        if !text.is_ascii() {
            return Ok(false);
        }
        take_ascii(
            self.alloc,
            self.rules,
            at,
            text,
            &mut self.buffers,
            &mut self.rewriting,
        )?;
        self.line_start = end;
        Ok(true)
    }

    /// Takes the tokens of the lines that come next and are read by columns though they are not ASCII, if there are any.
    fn take_front(&mut self) -> Result<bool, AllocError>
        requires read { HasRead self.old }
        ensures read { OnOk result (HasRead self.new) }
        ensures some { IfOk result (λ some. IsTrue some → self.old.line_start < self.new.line_start) }
        ensures start { IfOk result (λ some. some ≡ false → self.new.line_start ≡ self.old.line_start) }
        ensures source { self.new.source.items ≡ self.old.source.items }
        ensures words { phrases_of self.new.rewriting ≡ phrases_of self.old.rewriting }
        ensures rules { self.new.rules.now ≡ self.old.rules.now }
    {
        let start = self.line_start;
        if self.source.len() > MAX_BYTES {
            return Ok(false);
        }
        let end = start + MAX_TOGETHER.min(self.source.len() - start);
        let count = take_front(
            self.alloc,
            self.rules,
            start as u32,
            &self.source[start..end],
            &mut self.buffers,
            &mut self.rewriting,
        )?;
        self.line_start = start + count;
        Ok(count > 0)
    }

    /// Takes the tokens of the line that ends here, whatever its bytes are.
    fn take_any_line(&mut self, end: usize) -> Result<(), AllocError>
        requires read { HasRead self.old }
        requires order { self.old.line_start ≤ end }
        requires within { end ≤ length self.old.source.items }
        requires fits { length self.old.source.items < 2 ^ 32 }
        requires line { IsFirstLine (slice_range self.old.source.items self.old.line_start end)
            (drop end self.old.source.items) }
        ensures taken { OnOk result
            (HasTaken self.new.rewriting
            (first_tokens_of (rules_of self.old.rules.now) 0
            (take end self.old.source.items))) }
        ensures start { OnOk result (self.new.line_start ≡ end) }
        ensures source { self.new.source.items ≡ self.old.source.items }
        ensures words { phrases_of self.new.rewriting ≡ phrases_of self.old.rewriting }
        ensures rules { self.new.rules.now ≡ self.old.rules.now }
    {
        let line = &self.source[self.line_start..end];
        take_any_line(
            self.alloc,
            self.rules,
            self.line_start as u32,
            line,
            &mut self.buffers,
            &mut self.rewriting,
        )?;
        self.line_start = end;
        Ok(())
    }

    /// Takes the tokens of the line that ends here.
    fn take_line(&mut self, end: usize) -> Result<(), AllocError>
        requires read { HasRead self.old }
        requires order { self.old.line_start ≤ end }
        requires within { end ≤ length self.old.source.items }
        requires fits { length self.old.source.items < 2 ^ 32 }
        requires line { IsFirstLine (slice_range self.old.source.items self.old.line_start end)
            (drop end self.old.source.items) }
        ensures taken { OnOk result
            (HasTaken self.new.rewriting
            (first_tokens_of (rules_of self.old.rules.now) 0
            (take end self.old.source.items))) }
        ensures start { OnOk result (self.new.line_start ≡ end) }
        ensures source { self.new.source.items ≡ self.old.source.items }
        ensures words { phrases_of self.new.rewriting ≡ phrases_of self.old.rewriting }
        ensures rules { self.new.rules.now ≡ self.old.rules.now }
    {
        if !self.take_ascii(end)? {
            self.take_any_line(end)?;
        }
        Ok(())
    }

    /// Takes the next line, which has ended, and with it those that follow it and are read by columns together with it.
    fn take_next(&mut self) -> Result<(), AllocError>
        requires read { HasRead self.old }
        requires fits { length self.old.source.items < 2 ^ 32 }
        requires ended { ¬ All (λ b. b ≢ 0x0A) (drop self.old.line_start self.old.source.items) }
        ensures read { OnOk result (HasRead self.new) }
        ensures some { OnOk result (self.old.line_start < self.new.line_start) }
        ensures source { self.new.source.items ≡ self.old.source.items }
        ensures words { phrases_of self.new.rewriting ≡ phrases_of self.old.rewriting }
        ensures rules { self.new.rules.now ≡ self.old.rules.now }
    {
        let start = self.line_start;
        let lines = start + lines_end(&self.source[start..]);
        if self.take_ascii(lines)? {
            return Ok(());
        }
        if self.take_front()? {
            return Ok(());
        }
        let line = start + line_end(&self.source[start..]);
        self.take_any_line(line)?;
        Ok(())
    }

    /// Takes the lines that have ended. Up to the byte `from` no U+000A is left.
    pub(crate) fn take_lines(&mut self, from: usize) -> Result<(), AllocError>
        requires read { HasRead self.old }
        requires order { self.old.line_start ≤ from }
        requires within { from ≤ length self.old.source.items }
        requires fits { length self.old.source.items < 2 ^ 32 }
        requires searched { All (λ b. b ≢ 0x0A)
            (slice_range self.old.source.items self.old.line_start from) }
        ensures read { OnOk result (HasReadLines self.new) }
        ensures source { self.new.source.items ≡ self.old.source.items }
        ensures words { phrases_of self.new.rewriting ≡ phrases_of self.old.rewriting }
        ensures rules { self.new.rules.now ≡ self.old.rules.now }
    {
        let Some(offset) = memrchr(b'\n', &self.source[from..]) else {
            return Ok(());
        };
        let last = from + offset;
        while self.line_start <= last {
            self.take_next()?;
        }
        Ok(())
    }

    /// Takes the lines that have ended, where the bytes from `from` on are new.
    fn take_new(&mut self, from: usize) -> Result<(), AllocError>
        requires read { HasRead self.old }
        requires order { self.old.line_start ≤ from }
        requires within { from ≤ length self.old.source.items }
        requires fits { length self.old.source.items < 2 ^ 32 }
        requires searched { All (λ b. b ≢ 0x0A)
            (slice_range self.old.source.items self.old.line_start from) }
        ensures read { OnOk result (HasReadLines self.new) }
        ensures source { self.new.source.items ≡ self.old.source.items }
        ensures words { phrases_of self.new.rewriting ≡ phrases_of self.old.rewriting }
        ensures rules { self.new.rules.now ≡ self.old.rules.now }
    {
        self.rewriting.reserve(self.source.len() - from)?;
        self.take_lines(from)
    }

    /// Takes the next bytes, and the lines that have ended then.
    pub(crate) fn feed(&mut self, bytes: &[u8]) -> Result<(), TextFault>
        requires read { HasReadLines self.old }
        requires short { length self.old.source.items ≤ max_bytes }
        ensures read { OnOk result (HasReadLines self.new) }
        ensures source { OnOk result (self.new.source.items ≡ self.old.source.items ++ bytes.now) }
        ensures short { OnOk result (length self.new.source.items ≤ max_bytes) }
        ensures refused { IfErr result (λ fault. fault ≢ TextFault.Memory
            → refusal_of (self.old.source.items ++ bytes.now) ≡ Some fault) }
        ensures long { max_bytes < length (self.old.source.items ++ bytes.now)
            → result ≡ Err TextFault.TooLong }
        ensures words { phrases_of self.new.rewriting ≡ phrases_of self.old.rewriting }
        ensures rules { self.new.rules.now ≡ self.old.rules.now }
    {
        let searched = self.source.len();
        if bytes.len() > MAX_BYTES - searched {
            return Err(TextFault::TooLong);
        }
        self.source.extend_from_slice(bytes)?;
        self.take_new(searched)?;
        Ok(())
    }

    /// Takes what one call of an input reads, and the lines that have ended then. Gives how many bytes these are: 0 only at the end.
    pub(crate) fn feed_from<R: Source>(&mut self, input: &mut R) -> Result<usize, FeedFault>
        requires read { HasReadLines self.old }
        requires short { length self.old.source.items ≤ max_bytes }
        ensures read { OnOk result (HasReadLines self.new) }
        ensures source { IfOk result (λ n. (bytes : List ℕ) × Consumes (R.left input.old) (R.left input.new) bytes
            × (n ≡ length bytes) × (self.new.source.items ≡ self.old.source.items ++ bytes)) }
        ensures short { OnOk result (length self.new.source.items ≤ max_bytes) }
        ensures end { IfOk result (λ n. n ≡ 0 → IsAtEnd (R.left input.new)) }
        ensures open { IsErrOf result FeedFault.Read
            → HasReadLines self.new × (self.new.source.items ≡ self.old.source.items) }
        ensures refused { (fault : _) → IsErrOf result (FeedFault.Text fault)
            → (bytes : List ℕ) × Consumes (R.left input.old) (R.left input.new) bytes
            × (length (self.old.source.items ++ bytes) ≤ max_bytes + 1)
            × IsRefusal fault (self.old.source.items ++ bytes) }
        ensures none { IsErrOf result FeedFault.Read → Consumes (R.left input.old) (R.left input.new) [] }
        ensures sound { OnOk result (R.failed input.new ≡ R.failed input.old) }
        ensures failed { IsErrOf result FeedFault.Read → R.failed input.new ≡ one_more (R.failed input.old) }
        ensures text { (fault : _) → IsErrOf result (FeedFault.Text fault) → R.failed input.new ≡ R.failed input.old }
        ensures words { phrases_of self.new.rewriting ≡ phrases_of self.old.rewriting }
        ensures rules { self.new.rules.now ≡ self.old.rules.now }
    {
        let searched = self.source.len();
        let count = pull_into(input, &mut self.source, MAX_BYTES + 1 - searched)?;
        if self.source.len() > MAX_BYTES {
            return Err(FeedFault::Text(TextFault::TooLong));
        }
        self.take_new(searched)?;
        Ok(count)
    }

    /// The tokens that are settled.
    pub(crate) fn settled(&self) -> &TokenList
        ensures { result.now ≡ listed_by self.now.rewriting }
    {
        self.rewriting.settled()
    }

    /// The source and its tokens, and the buffers. What has not ended is its last line.
    pub(crate) fn finish(self) -> Result<(Vec<u8>, TokenList, LineBuffers), AllocError>
        requires read { HasReadLines self }
        requires fits { length self.source.items < 2 ^ 32 }
        ensures source { IfOk result (λ text. text.0.items ≡ self.entry.source.items) }
        ensures tokens { IfOk result (λ text. text.1
            ≡ tokens_of (rules_of self.entry.rules.now) (phrases_of self.entry.rewriting).phrases self.entry.source.items) }
    {
        let mut reader = self;
        let end = reader.source.len();
        reader.take_line(end)?;
        let Reader {
            alloc,
            source,
            rewriting,
            buffers,
            ..
        } = reader;
        let tokens = rewriting.finish()?;
        if end > MAX_KEPT {
            return Ok((source, tokens, LineBuffers::new(alloc)));
        }
        Ok((source, tokens, buffers))
    }
}
