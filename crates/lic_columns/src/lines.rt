//! The tokens of lines.
ghost use Rattle.std.specs.Prelude.{◌≡◌, ℕ, ◌+◌, ◌^◌, ◌<◌, ◌≤◌, [], true, length, drop, map, take, slice_index, IfOk, OnOk, IsAscii};
ghost use Rattle.lic_kind.specs.LineRules.{rules_of};
ghost use Rattle.lic_lines.specs.Cells.{cells_of};
ghost use Rattle.lic_lines.specs.Streaks.{streaks_joined};
ghost use Rattle.lic_trim.specs.Sources.{placed};
ghost use Rattle.lic_lines.specs.Tokens.{first_tokens};
ghost use Rattle.lic_letters.specs.Bytes.{letter};
ghost use Rattle.lic_columns.specs.Cells.{starts_of, ends_of};
ghost use Rattle.lic_columns.specs.Known.{IsText};
ghost use Rattle.lic_columns.specs.PlainLines.{ArePlainLines, HaveFirstTokens};
ghost use Rattle.lic_columns.specs.SpanTokens.{span_tokens, spans_by};
ghost use Rattle.lic_columns.specs.Tokens.{text_spans};

use crate::columns::Columns;
use crate::edges::clear_lines;
use crate::offsets::Offsets;
use crate::tokens::list_tokens;
use lic_letters::spell_lines;
use lic_lines::Rules;
use lic_trim::SourceChar;
use std::alloc::{AllocError, Global};
use std::marker::Model;

/// The most characters of a line that are kept.
const MAX_KEPT: usize = 65_536;

/// The tokens of lines of ASCII or of simple characters, read 64 bytes at a time. What it holds from one text to the next is buffers alone.
#[derive(Drop)]
pub struct Lines {
    alloc: Global,
    columns: Columns,
    /// The characters of a line.
    characters: Vec<SourceChar>,
    /// What the simple characters of lines are spelled by, in place of their bytes.
    spelled: Vec<u8>,
    starts: Offsets,
    ends: Offsets,
}

impl Model for Lines {
    ghost use Rattle.lic_columns.specs.TokenOffsets.{TokenOffsets};

    ghost Value = { TokenOffsets };

    ghost view = { λ l. record { letters = l.columns.letters; starts = l.starts; ends = l.ends } };
}

/// Lets go of the characters of a long line.
fn give_back(alloc: Global, characters: &mut Vec<SourceChar>)
    ensures { length characters.new.items ≤ length characters.old.items }
{
    if characters.len() > MAX_KEPT {
        *characters = Vec::new(alloc);
    }
}

impl Lines {
    /// Buffers that take no memory yet.
    pub fn new(alloc: Global) -> Lines
        ensures { result ≡ record { letters = []; starts = []; ends = [] } }
    {
        Lines {
            alloc,
            columns: Columns::new(alloc),
            characters: Vec::new(alloc),
            spelled: Vec::new(alloc),
            starts: Offsets::new(alloc),
            ends: Offsets::new(alloc),
        }
    }

    /// The letter of each byte of the text.
    #[inline(always)]
    pub fn letters(&self) -> &[u8]
        ensures { result.now ≡ self.now.letters }
    {
        self.columns.letters()
    }

    /// Where each token begins.
    #[inline(always)]
    pub fn starts(&self) -> &[u32]
        ensures { result.now ≡ self.now.starts }
    {
        self.starts.as_slice()
    }

    /// The offset after each token.
    #[inline(always)]
    pub fn ends(&self) -> &[u32]
        ensures { result.now ≡ self.now.ends }
    {
        self.ends.as_slice()
    }

    /// Lets go of where the first `n` tokens begin and end, and gives back the memory that is then of no use.
    pub fn let_go(&mut self, n: usize)
        requires starts { n ≤ length self.old.starts }
        requires ends { n ≤ length self.old.ends }
        ensures { self.new ≡ record self.old { starts = drop n self.old.starts; ends = drop n self.old.ends } }
    {
        self.starts.let_go(n);
        self.ends.let_go(n);
    }

    /// Reads a text of ASCII that begins at this offset, whole lines, by these line rules: its first tokens.
    ///
    /// # Errors
    /// Memory ran out. What it then holds is not said.
    pub fn read(
        &mut self,
        alloc: Global,
        rules: &Rules,
        at: u32,
        bytes: &[u8],
    ) -> Result<(), AllocError>
        requires ascii { IsAscii bytes.now }
        requires fits { at + length bytes.now + 65 ≤ 2 ^ 32 }
        ensures letters { OnOk result (self.new.letters ≡ map letter bytes.now) }
        ensures ascii { OnOk result (IsAscii self.new.letters) }
        ensures long { OnOk result (length self.new.letters ≡ length bytes.now) }
        ensures paired { OnOk result (length self.new.ends ≡ length self.new.starts) }
        ensures from { OnOk result ((i : ℕ) → i < length self.new.starts → at ≤ slice_index self.new.starts i) }
        ensures some { OnOk result ((i : ℕ) → i < length self.new.starts
            → slice_index self.new.starts i < slice_index self.new.ends i) }
        ensures to { OnOk result ((i : ℕ) → i < length self.new.starts
            → slice_index self.new.ends i ≤ at + length self.new.letters) }
        ensures tokens { OnOk result (span_tokens true at at self.new.letters (spans_by self.new.starts self.new.ends)
            ≡ first_tokens (streaks_joined (rules_of rules.now) (cells_of (rules_of rules.now) (placed at bytes.now)))) }
    {
        self.columns.read(bytes)?;
        clear_lines(alloc, rules, bytes, &mut self.columns, &mut self.characters)?;
        give_back(alloc, &mut self.characters);
        list_tokens(
            rules.separators(),
            at,
            bytes,
            &self.columns,
            &mut self.starts,
            &mut self.ends,
        )?;
        Ok(())
    }

    /// Reads the lines at the start of these bytes, which begin at this offset, that are of simple characters and of which nothing but
    /// white space is taken, as far as their edges show: their first tokens. The answer is how many bytes these lines have.
    ///
    /// # Errors
    /// Memory ran out. What it then holds is not said.
    pub fn read_front(&mut self, rules: &Rules, at: u32, bytes: &[u8]) -> Result<usize, AllocError>
        requires fits { at + length bytes.now + 65 ≤ 2 ^ 32 }
        ensures within { IfOk result (λ n. n ≤ length bytes.now) }
        ensures lines { IfOk result (λ n. ArePlainLines (rules_of rules.now) (take n bytes.now)) }
        ensures tokens { IfOk result (λ n. 0 < n → HaveFirstTokens (rules_of rules.now) at (take n bytes.now) self.new) }
    {
        let end = spell_lines(self.alloc, rules, bytes, &mut self.spelled)?;
        if end == 0 {
            return Ok(0);
        }
        let lines = &bytes[..end];
        self.columns.read(&self.spelled)?;
        list_tokens(
            rules.separators(),
            at,
            lines,
            &self.columns,
            &mut self.starts,
            &mut self.ends,
        )?;
        Ok(end)
    }
}
