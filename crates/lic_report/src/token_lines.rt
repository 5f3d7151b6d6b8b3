//! The lines of a text's tokens.

ghost use Rattle.std.specs.Prelude.{◌≡◌, ◌<◌, ◌≤◌, ◌++◌, ◌+◌, ◌-◌, ◌*◌, ℕ, false, true, length, slice_range, take, IfOk, OnOk};
ghost use Rattle.lic_fields.specs.Fields.{ArePlain, escaped, field};
ghost use Rattle.lic_tokens.specs.Slices.{sliced_tokens};
ghost use Rattle.lic_report.specs.TokenLines.{ArePlainAfter, lines_between};

use crate::lines::add_file;
use lic_fields::{LINE_ROOM, LineBuffer, LineFront, LinePattern, TEXT_ROOM, next_escaped};
use lic_norm::{Span, Text, TokenSlices};
use std::alloc::{AllocError, Global};
use std::marker::Model;

/// Up to which of `count` tokens, from the number `from` on, there is room for lines after the first `at` of these bytes.
#[inline(always)]
fn room_to(bytes: &[u8], at: usize, count: usize, from: usize) -> usize
    requires within { at ≤ length bytes.now }
    requires order { from ≤ count }
    ensures order { (from ≤ result) × (result ≤ count) }
    ensures room { at + LINE_ROOM * (result - from) ≤ length bytes.now }
{
    let lines = (bytes.len() - at) / LINE_ROOM;
    from + lines.min(count - from)
}

/// Writes lines of tokens, from the number `from` on, after the first `at` of these bytes, up to the first whose line is not written
/// over them. Answers where the lines end, and the number of that token.
#[inline(always)]
fn write_lines(
    bytes: &mut [u8],
    at: usize,
    pattern: &LinePattern<'_>,
    tokens: &TokenSlices<'_>,
    from: usize,
    plain_to: usize,
) -> (usize, usize)
    requires within { at ≤ length bytes.old }
    requires after { (0 < from) × (from ≤ length (sliced_tokens tokens.now)) }
    requires plain { ArePlainAfter (sliced_tokens tokens.now) from plain_to }
    ensures len { length bytes.new ≡ length bytes.old }
    ensures end { result.0 ≤ length bytes.new }
    ensures order { (from ≤ result.1) × (result.1 ≤ length (sliced_tokens tokens.now)) }
    ensures lines { take result.0 bytes.new
        ≡ take at bytes.old ++ lines_between pattern.now (sliced_tokens tokens.now) from result.1 }
{
    let mut end = at;
    let mut i = from;
    let spelled = tokens.spelled();
    if spelled.len() < TEXT_ROOM {
        return (end, i);
    }
    let last = plain_to.min(spelled.len() - TEXT_ROOM);
    let stop = room_to(bytes, at, tokens.len(), from);
    while i < stop {
        let place = tokens.place(i);
        if place.end > last {
            break;
        }
        let span = tokens.span(i);
        let letters = &spelled[place.start..];
        let len = place.end - place.start;
        let Some(line_end) = pattern.write_line(
            bytes,
            end,
            span.start as u64,
            span.end as u64,
            letters,
            len,
        ) else {
            break;
        };
        end = line_end;
        i += 1;
    }
    (end, i)
}

/// Up to which place no byte is escaped after the text that ends at `end`, if none is before up to `plain_to`.
fn plain_after(spelled: &[u8], plain_to: usize, end: usize) -> usize
    requires { end ≤ length spelled.now }
    ensures { (a : ℕ) → a ≤ end → ArePlain (slice_range spelled.now a plain_to)
        → ArePlain (slice_range spelled.now end result) }
{
    if end <= plain_to {
        return plain_to;
    }
    next_escaped(spelled, end)
}

/// The lines of a text's tokens, which are added to a buffer some at a time.
#[derive(Debug, Drop)]
pub struct TokenLines<'t> {
    text: &'t Text,
    front: LineFront,
    // the lines of how many tokens are added
    added: usize,
    // up to this place of the canonical spelling no byte of a text that comes is escaped
    plain_to: usize,
}

impl<'t> Model for TokenLines<'t> {
    ghost use Rattle.std.specs.Prelude.{◌≤◌, length};
    ghost use Rattle.lic_report.specs.TokenLines.{ArePlainAfter, TokenLinesValue};

    ghost Value = { TokenLinesValue };

    ghost view = { λ t. record { front = t.front; tokens = t.text.now.tokens; added = t.added } };

    ghost invariant = { λ t. (t.added ≤ length t.text.now.tokens)
        × ArePlainAfter t.text.now.tokens t.added t.plain_to };
}

impl<'t> TokenLines<'t> {
    /// The lines of a text's tokens, which begin with the name of this file.
    pub fn new(alloc: Global, name: &str, text: &'t Text) -> Result<TokenLines<'t>, AllocError>
        ensures front { IfOk result (λ lines. lines.front ≡ field (escaped name.now) 0x09) }
        ensures tokens { IfOk result (λ lines. lines.tokens ≡ text.now.tokens) }
        ensures added { IfOk result (λ lines. lines.added ≡ 0) }
    {
        let mut file = Vec::new(alloc);
        add_file(&mut file, name)?;
        Ok(TokenLines {
            text,
            front: LineFront::new(file)?,
            added: 0,
            plain_to: 0,
        })
    }

    /// Adds the lines of the next tokens, one or more. False where all are added.
    pub fn add_some(&mut self, lines: &mut LineBuffer) -> Result<bool, AllocError>
        ensures front { OnOk result (self.new.front ≡ self.old.front) }
        ensures tokens { OnOk result (self.new.tokens ≡ self.old.tokens) }
        ensures more { IfOk result (λ some. some ≡ true → self.old.added < self.new.added) }
        ensures all { IfOk result (λ some. some ≡ false → self.old.added ≡ length self.old.tokens) }
        ensures within { OnOk result ((self.old.added ≤ self.new.added) × (self.new.added ≤ length self.old.tokens)) }
        ensures lines { OnOk result (lines.new ≡ lines.old
            ++ lines_between self.old.front self.old.tokens self.old.added self.new.added) }
    {
        let before = self.added;
        self.add_short(lines);
        if self.added > before {
            return Ok(true);
        }
        self.add_next(lines)
    }

    /// Adds the lines of the next tokens that are written over the bytes after those of the buffer.
    fn add_short(&mut self, lines: &mut LineBuffer)
        ensures front { self.new.front ≡ self.old.front }
        ensures tokens { self.new.tokens ≡ self.old.tokens }
        ensures within { (self.old.added ≤ self.new.added) × (self.new.added ≤ length self.old.tokens) }
        ensures lines { lines.new ≡ lines.old
            ++ lines_between self.old.front self.old.tokens self.old.added self.new.added }
    {
        let i = self.added;
        if i == 0 || i >= self.text.len() {
            return;
        }
        let Some(tokens) = self.text.slices() else {
            return;
        };
        let span = self.text.span(i);
        self.front.keep(span.start as u64, span.end as u64);
        let pattern = self.front.pattern();
        let (end, added) = write_lines(
            &mut lines.bytes,
            lines.len,
            &pattern,
            &tokens,
            i,
            self.plain_to,
        );
        lines.len = end;
        self.added = added;
    }

    /// Adds the line of the next token field by field. False where none is left.
    fn add_next(&mut self, lines: &mut LineBuffer) -> Result<bool, AllocError>
        ensures front { OnOk result (self.new.front ≡ self.old.front) }
        ensures tokens { OnOk result (self.new.tokens ≡ self.old.tokens) }
        ensures more { IfOk result (λ some. some ≡ true → self.old.added < self.new.added) }
        ensures all { IfOk result (λ some. some ≡ false → self.old.added ≡ length self.old.tokens) }
        ensures within { OnOk result ((self.old.added ≤ self.new.added)
            × (self.new.added ≤ length self.old.tokens)) }
        ensures lines { OnOk result (lines.new ≡ lines.old
            ++ lines_between self.old.front self.old.tokens self.old.added self.new.added) }
    {
        let i = self.added;
        if i >= self.text.len() {
            return Ok(false);
        }
        let span = self.text.span(i);
        let Span { start, end } = self.text.place(i);
        let spelled = self.text.spelled();
        let plain_to = plain_after(spelled, self.plain_to, end);
        self.front.add_line(
            lines,
            span.start as u64,
            span.end as u64,
            &spelled[start..end],
            end <= self.plain_to,
        )?;
        self.plain_to = plain_to;
        self.added = i + 1;
        Ok(true)
    }
}
