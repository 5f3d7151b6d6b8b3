//! Reads a piece of a template's text: whole lines of ASCII together, and any other line by its characters.
ghost use Rattle.std.specs.Prelude.{◌≡◌, ◌+◌, ◌++◌, ◌∷◌, ◌<◌, ◌≤◌, ◌^◌, [], true, ℕ, List, map, drop, take, length, chars, IfOk, IfSome, IsAscii, IsUtf8, OnOk};
ghost use Rattle.std.specs.Str.{IsCharBoundary};
ghost use Rattle.lic_kind.specs.LineRules.{rules_of};
ghost use Rattle.lic_trim.specs.Lines.{whole_line};
ghost use Rattle.lic_trim.specs.Sources.{unplaced};
ghost use Rattle.lic_lines.specs.declared.cell.Cell.{Cell};
ghost use Rattle.lic_lines.specs.Cells.{cells_of, line_cells};
ghost use Rattle.lic_lines.specs.Streaks.{streaks_joined};
ghost use Rattle.lic_lines.specs.Tokens.{Token, line_tokens};
ghost use Rattle.lic_pieces.specs.Edges.{BeginAs, HasEdges};
ghost use Rattle.lic_pieces.specs.Pieces.{bare_token, begins_in_blank, ends_in_feed, part_of, piece_cells, piece_tokens};
ghost use Rattle.lic_norm.specs.Taking.{HasTaken, HasTakenSome, phrases_of};
ghost use Rattle.lic_norm.specs.Tokens.{first_tokens_of};

use crate::cell_edges::Edges;
use crate::pieces::Next;
use lic_kind::{Kind, kind_of};
use lic_lines::{Rules, cells_of_line};
use lic_norm::{
    LineBuffers, MAX_BYTES, Rewriting, Words, line_end, lines_end, take_ascii, take_part,
    text_line_end,
};
use lic_phrases::laws::spellings_are_token_texts;
use lic_trim::{LinePart, SourceChar, cut_of_ascii, unplaced};
use std::alloc::{AllocError, Global};

/// Buffers for the reading of pieces, kept from one piece to the next. What they hold has no effect.
#[derive(Drop)]
pub struct PieceBuffers {
    lines: LineBuffers,
    /// The characters of a line of ASCII.
    characters: Vec<SourceChar>,
}

impl PieceBuffers {
    /// Buffers that take no memory yet.
    pub fn new(alloc: Global) -> PieceBuffers {
        PieceBuffers {
            lines: LineBuffers::new(alloc),
            characters: Vec::new(alloc),
        }
    }
}

/// Whether a line ends in U+000A.
fn ends_in_feed(line: &[SourceChar]) -> bool
    ensures { result ≡ ends_in_feed line.now }
{
    match line {
        [] => false,
        [.., last] => last.char == '\n',
    }
}

/// What is there of a line: only a line without U+000A at its end can be cut off by a rule.
fn part_of(has_front: bool, before: Next, line: &[SourceChar]) -> LinePart
    ensures { result ≡ part_of has_front before line.now }
{
    let (has_end, past) = if ends_in_feed(line) {
        (true, None)
    } else {
        match before {
            Next::LineEnd => (true, None),
            Next::Var => (false, Some('0')),
            Next::Optional => (false, Some('a')),
        }
    };
    LinePart {
        has_front,
        has_end,
        past,
    }
}

/// The lines at the start of a text that are read together, where it begins a line: whole lines of ASCII that all end in U+000A.
fn ended_lines(has_front: bool, text: &str) -> Option<&[u8]>
    ensures front { IfSome result (λ lines. has_front ≡ true) }
    ensures start { IfSome result (λ lines. lines.now ≡ take (length lines.now) text.now) }
    ensures utf8 { IfSome result (λ lines. IsUtf8 lines.now) }
    ensures ascii { IfSome result (λ lines. IsAscii lines.now) }
    ensures ended { IfSome result (λ lines. (front : List ℕ) × (lines.now ≡ front ++ 0x0A ∷ [])) }
    ensures fits { IfSome result (λ lines. length lines.now + 65 ≤ 2 ^ 32) }
{
    if !has_front {
        return None;
    }
    let bytes = text.as_bytes();
    let lines = &bytes[..lines_end(bytes)];
    let (last, _front) = lines.split_last()?;
    if *last != b'\n' || lines.len() > MAX_BYTES {
        return None;
    }
    if lines.is_ascii() { Some(lines) } else { None }
}

/// Whether the cells of a whole line of ASCII begin in a blank. None if they begin in a mark, which may be one of a separator.
fn line_begins_in_blank(
    alloc: Global,
    rules: &Rules,
    line: &[u8],
    characters: &mut Vec<SourceChar>,
) -> Result<Option<bool>, AllocError>
    requires ascii { IsAscii line.now }
    requires fits { length line.now < 2 ^ 32 }
    requires some { 0 < length line.now }
    ensures { IfOk result (λ begins. IfSome begins
        (λ blank. BeginAs blank (line_cells (rules_of rules.now) whole_line (unplaced line.now)))) }
{
    let cut = cut_of_ascii(alloc, rules, line, characters)?;
    if cut.lead + cut.item > 0 {
        return Ok(Some(true));
    }
    if cut.tail == line.len() {
        return Ok(Some(true));
    }
    match kind_of(line[0] as char) {
        Kind::Word => Ok(Some(false)),
        Kind::Mark => Ok(None),
        Kind::Blank | Kind::Dropped => Ok(Some(true)),
    }
}

/// Whether the list that whole lines of ASCII leave after their streaks begins in a blank. None if the first line begins in a mark.
fn begins_in_blank(
    alloc: Global,
    rules: &Rules,
    lines: &[u8],
    characters: &mut Vec<SourceChar>,
) -> Result<Option<bool>, AllocError>
    requires ascii { IsAscii lines.now }
    requires fits { length lines.now < 2 ^ 32 }
    requires some { 0 < length lines.now }
    ensures { IfOk result (λ begins. IfSome begins (λ blank. begins_in_blank
        (streaks_joined (rules_of rules.now) (cells_of (rules_of rules.now) (unplaced lines.now))) ≡ blank)) }
{
    line_begins_in_blank(alloc, rules, &lines[..line_end(lines)], characters)
}

/// Adds the edges of what is left of a line.
fn add_line(
    alloc: Global,
    rules: &Rules,
    part: LinePart,
    line: &[SourceChar],
    edges: &mut Edges,
) -> Result<(), AllocError>
    requires { ends_in_feed line.now ≡ true → part.has_end ≡ true }
    ensures { OnOk result ((before : List Cell) → HasEdges edges.old before
        → HasEdges edges.new (before ++ streaks_joined (rules_of rules.now)
        (line_cells (rules_of rules.now) part line.now))) }
{
    // A line mostly has text before it, and ends in U+000A, which is a blank.
    if edges.has_text && ends_in_feed(line) {
        edges.ends_in_blank = true;
        return Ok(());
    }
    let cells = cells_of_line(alloc, rules, part, line)?;
    edges.add(Edges::of(&cells));
    Ok(())
}

/// A piece as far as it is read: the edges of the list that its lines leave after their streaks, and their tokens, which are taken.
#[derive(Drop)]
pub(crate) struct PieceReader<'w> {
    pub(crate) edges: Edges,
    pub(crate) rewriting: Rewriting<'w>,
}

impl<'w> PieceReader<'w> {
    /// Takes whole lines of ASCII that end in U+000A, and begin in a blank or not.
    fn take_ended(
        &mut self,
        alloc: Global,
        rules: &Rules,
        text: &[u8],
        blank: bool,
        buffers: &mut LineBuffers,
    ) -> Result<(), AllocError>
        requires ascii { IsAscii text.now }
        requires fits { length text.now + 65 ≤ 2 ^ 32 }
        requires ended { (front : List ℕ) × (text.now ≡ front ++ 0x0A ∷ []) }
        requires begins { begins_in_blank (streaks_joined (rules_of rules.now)
            (cells_of (rules_of rules.now) (unplaced text.now))) ≡ blank }
        requires before { HasTakenSome self.old.rewriting }
        ensures edges { OnOk result ((before : List Cell) → HasEdges self.old.edges before
            → HasEdges self.new.edges (before ++ streaks_joined (rules_of rules.now)
            (cells_of (rules_of rules.now) (unplaced (chars text.now))))) }
        ensures taken { OnOk result ((taken : List Token) → HasTaken self.old.rewriting taken
            → HasTaken self.new.rewriting (taken ++ first_tokens_of (rules_of rules.now) 0 text.now)) }
        ensures phrases { phrases_of self.new.rewriting ≡ phrases_of self.old.rewriting }
    {
        let count = take_ascii(alloc, rules, 0, text, buffers, &mut self.rewriting)?;
        self.edges.add(Edges {
            begins_in_blank: blank,
            ends_in_blank: true,
            has_text: count > 0,
        });
        Ok(())
    }

    /// Takes what is left of a line, which is there from its front on or not, and before what follows it.
    fn take_left(
        &mut self,
        alloc: Global,
        rules: &Rules,
        has_front: bool,
        before: Next,
        line: &[SourceChar],
        buffers: &mut LineBuffers,
    ) -> Result<(), AllocError>
        requires { HasTakenSome self.old.rewriting }
        ensures edges { OnOk result ((cells : List Cell) → HasEdges self.old.edges cells
            → HasEdges self.new.edges (cells ++ streaks_joined (rules_of rules.now)
            (line_cells (rules_of rules.now) (part_of has_front before line.now) line.now))) }
        ensures taken { OnOk result ((taken : List Token) → HasTaken self.old.rewriting taken
            → HasTaken self.new.rewriting (taken
            ++ line_tokens (rules_of rules.now) (part_of has_front before line.now) line.now)) }
        ensures phrases { phrases_of self.new.rewriting ≡ phrases_of self.old.rewriting }
    {
        let part = part_of(has_front, before, line);
        add_line(alloc, rules, part, line, &mut self.edges)?;
        take_part(alloc, rules, part, line, buffers, &mut self.rewriting)?;
        Ok(())
    }

    /// Takes the next line, and says how many bytes it has.
    fn take_one(
        &mut self,
        alloc: Global,
        rules: &Rules,
        has_front: bool,
        before: Next,
        text: &str,
        buffers: &mut LineBuffers,
    ) -> Result<usize, AllocError>
        requires some { 0 < length text.now }
        requires before { HasTakenSome self.old.rewriting }
        ensures some { IfOk result (λ n. 0 < n) }
        ensures boundary { IfOk result (λ n. IsCharBoundary text.now n) }
        ensures edges { IfOk result (λ n. (cells : List Cell) → HasEdges self.old.edges cells
            → (more : List Cell) × HasEdges self.new.edges (cells ++ more)
            × (more ++ piece_cells (rules_of rules.now) true before (drop n text.now)
            ≡ piece_cells (rules_of rules.now) has_front before text.now)) }
        ensures taken { IfOk result (λ n. (taken : List Token) → HasTaken self.old.rewriting taken
            → (more : List Token) × HasTaken self.new.rewriting (taken ++ more)
            × (map bare_token more ++ piece_tokens (rules_of rules.now) true before (drop n text.now)
            ≡ piece_tokens (rules_of rules.now) has_front before text.now)) }
        ensures phrases { phrases_of self.new.rewriting ≡ phrases_of self.old.rewriting }
    {
        let end = text_line_end(text);
        let line = unplaced(alloc, &text[..end])?;
        self.take_left(alloc, rules, has_front, before, &line, buffers)?;
        Ok(end)
    }

    /// Takes the next lines: whole lines of ASCII together, or one of another kind. The answer is how many bytes they have.
    fn take_next(
        &mut self,
        alloc: Global,
        rules: &Rules,
        has_front: bool,
        before: Next,
        text: &str,
        buffers: &mut PieceBuffers,
    ) -> Result<usize, AllocError>
        requires some { 0 < length text.now }
        requires before { HasTakenSome self.old.rewriting }
        ensures some { IfOk result (λ n. 0 < n) }
        ensures boundary { IfOk result (λ n. IsCharBoundary text.now n) }
        ensures edges { IfOk result (λ n. (cells : List Cell) → HasEdges self.old.edges cells
            → (more : List Cell) × HasEdges self.new.edges (cells ++ more)
            × (more ++ piece_cells (rules_of rules.now) true before (drop n text.now)
            ≡ piece_cells (rules_of rules.now) has_front before text.now)) }
        ensures taken { IfOk result (λ n. (taken : List Token) → HasTaken self.old.rewriting taken
            → (more : List Token) × HasTaken self.new.rewriting (taken ++ more)
            × (map bare_token more ++ piece_tokens (rules_of rules.now) true before (drop n text.now)
            ≡ piece_tokens (rules_of rules.now) has_front before text.now)) }
        ensures phrases { phrases_of self.new.rewriting ≡ phrases_of self.old.rewriting }
    {
        let Some(lines) = ended_lines(has_front, text) else {
            return self.take_one(alloc, rules, has_front, before, text, &mut buffers.lines);
        };
        let begins = begins_in_blank(alloc, rules, lines, &mut buffers.characters)?;
        let Some(blank) = begins else {
            return self.take_one(alloc, rules, has_front, before, text, &mut buffers.lines);
        };
        self.take_ended(alloc, rules, lines, blank, &mut buffers.lines)?;
        Ok(lines.len())
    }
}

/// A token mostly takes at least this many bytes of a text.
const BYTES_A_TOKEN: usize = 5;

/// Reads a piece, one line after another, or some together. What the buffers hold has no effect.
pub(crate) fn read_piece<'w>(
    alloc: Global,
    rules: &Rules,
    words: &'w Words,
    text: &str,
    at_line_start: bool,
    before: Next,
    buffers: &mut PieceBuffers,
) -> Result<PieceReader<'w>, AllocError>
    ensures edges { IfOk result (λ reader. HasEdges reader.edges
        (piece_cells (rules_of rules.now) at_line_start before text.now)) }
    ensures taken { IfOk result (λ reader. (taken : List Token) × HasTaken reader.rewriting taken
        × (map bare_token taken ≡ piece_tokens (rules_of rules.now) at_line_start before text.now)) }
    ensures phrases { IfOk result (λ reader. (phrases_of reader.rewriting).phrases ≡ words.now) }
{
    spellings_are_token_texts(words);
    let tokens = text.len() / BYTES_A_TOKEN;
    let mut reader = PieceReader {
        edges: Edges::none(),
        rewriting: Rewriting::with_capacity(alloc, words.phrases(), tokens, text.len())?,
    };
    let mut has_front = at_line_start;
    let mut at = 0;
    while at < text.len() {
        let count = reader.take_next(alloc, rules, has_front, before, &text[at..], buffers)?;
        at += count;
        has_front = true;
    }
    Ok(reader)
}
