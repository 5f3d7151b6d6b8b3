//! Pieces of a template's text.
ghost use Rattle.std.specs.Prelude.{◌≡◌, List, map, All, IfOk, OnOk, IsUtf8, string_bytes};
ghost use Rattle.lic_lines.specs.declared.cell.Cell.{Cell};
ghost use Rattle.lic_kind.specs.LineRules.{rules_of};
ghost use Rattle.lic_phrases.specs.Rewriting.{rewritten};
ghost use Rattle.lic_phrases.specs.TokenTexts.{IsTokenText};
ghost use Rattle.lic_pieces.specs.Edges.{HasEdges};
ghost use Rattle.lic_pieces.specs.Pieces.{piece_tokens, with_edges, piece_of};

use crate::cell_edges::Edges;
use crate::piece_reader::{PieceBuffers, PieceReader, read_piece};
use lic_lines::Rules;
use lic_norm::Words;
use lic_phrases::laws::spellings_are_token_texts;
use std::alloc::{AllocError, Global};

/// What follows a piece of a template's text in its line.
#[derive(Clone, Copy, Debug, PartialEq, Eq)]
pub enum Next {
    /// White space and optional rules at most.
    LineEnd,
    /// A variable.
    Var,
    /// The begin or the end of an optional part, and something after it.
    Optional,
}

/// The letters with one blank at each edge where the list has one; a list of blanks alone is one
/// blank.
fn with_edges(alloc: Global, edges: Edges, letters: &str) -> Result<String, AllocError>
    ensures { (cells : List Cell) → HasEdges edges cells
        → IfOk result (λ edged. string_bytes edged ≡ with_edges cells letters.now) }
{
    let mut edged = String::with_capacity(alloc, letters.len() + 2)?;
    if edges.begins_in_blank {
        edged.push(' ')?;
    }
    if !edges.has_text {
        return Ok(edged);
    }
    edged.push_str(letters)?;
    if edges.ends_in_blank {
        edged.push(' ')?;
    }
    Ok(edged)
}

/// The letters of a piece of a template's text: the texts of its tokens, with one blank between two
/// whose meeting letters are both of kind Word, and one at each edge where the text has a blank after
/// the line rules and streaks (SPDX 2.3 Annex B; this project's profile).
///
/// `at_line_start` says whether the piece begins at a line's start, where a lead and an item are
/// taken away, and `before` what follows it in its line. What the buffers hold has no effect. The error
/// is that memory ran out.
pub fn piece(
    alloc: Global,
    text: &str,
    at_line_start: bool,
    before: Next,
    words: &Words,
    rules: &Rules,
    buffers: &mut PieceBuffers,
) -> Result<String, AllocError>
    ensures letters { IfOk result (λ letters. string_bytes letters
        ≡ piece_of (rules_of rules.now) words.now at_line_start before text.now) }
    // The texts that the letters spell are texts of tokens, in UTF-8.
    ensures token_texts { OnOk result (All IsTokenText (map (λ t. t.text)
        (rewritten words.now (piece_tokens (rules_of rules.now) at_line_start before text.now)))) }
    ensures utf8 { OnOk result (All IsUtf8 (map (λ t. t.text)
        (rewritten words.now (piece_tokens (rules_of rules.now) at_line_start before text.now)))) }
{
    spellings_are_token_texts(words);
    let PieceReader { edges, rewriting } = read_piece(
        alloc,
        rules,
        words,
        text,
        at_line_start,
        before,
        buffers,
    )?;
    let tokens = rewriting.finish()?;
    tokens.texts_are_utf8();
    with_edges(alloc, edges, tokens.spelled_text())
}
