//! From characters of which nothing is taken to their first tokens.
ghost use Rattle.std.specs.Prelude.{◌≡◌, ◌≢◌, ◌++◌, ◌≤◌, ◌<◌, ℕ, length, map, drop, slice_index_or, All, IfOk, OnOk};
ghost use Rattle.lic_kind.specs.Kinds.{kind_of};
ghost use Rattle.lic_trim.specs.Texts.{groups};
ghost use Rattle.lic_kind.specs.LineRules.{rules_of};
ghost use Rattle.lic_lines.specs.Cells.{cell_of};
ghost use Rattle.lic_lines.specs.Streaks.{streaks_joined};
ghost use Rattle.lic_lines.specs.Tokens.{both_words, tokens_from, blank_after, single_signs, text_tokens_after, tokens_after, part_tokens, tokens_in};

use crate::buffers::Buffers;
use crate::cell::Cell;
use crate::line::push_cells;
use crate::mark_sequences::mark_count;
use crate::signs::{join_single_signs, signs_end};
use crate::tokens::{FirstToken, mark_token, push_first_tokens, spell_word, word_token};
use lic_kind::{Kind, Rules, kind_of};
use lic_trim::SourceChar;
use std::alloc::{AllocError, Global};

/// A part at the start of a text across whose end nothing is joined.
#[derive(Clone, Copy)]
pub struct FrontPart {
    /// How many characters it has.
    pub length: usize,
    /// Whether a blank is between its last token and what follows.
    pub blank_after: bool,
}

/// Adds the tokens of a sequence of marks, which a blank precedes or not, and says whether a blank
/// follows its last token. The buffers may hold anything.
fn push_marks(
    alloc: Global,
    rules: &Rules,
    after_blank: bool,
    marks: &[SourceChar],
    buffers: &mut Buffers,
    out: &mut Vec<FirstToken>,
) -> Result<bool, AllocError>
    requires { All (λ s. kind_of s.char ≡ Kind.Mark) marks.now }
    ensures tokens { OnOk result
        (tokens_in out.new.items
        ≡ tokens_in out.old.items
        ++ tokens_from after_blank
        (groups both_words (streaks_joined (rules_of rules.now) (map cell_of marks.now)))) }
    ensures blank { IfOk result (λ blank. blank
        ≡ blank_after after_blank
        (groups both_words (streaks_joined (rules_of rules.now) (map cell_of marks.now)))) }
{
    if let [mark] = marks {
        out.push(mark_token(alloc, after_blank, *mark, &mut buffers.letters)?)?;
        return Ok(false);
    }
    buffers.cells.clear();
    push_cells(&mut buffers.cells, marks)?;
    let joined = buffers.streaks.join(rules, &buffers.cells)?;
    push_first_tokens(alloc, after_blank, out, joined, &mut buffers.letters)
}

/// Adds the tokens of the longest sequence of characters of one kind at the start of a text.
fn push_front(
    alloc: Global,
    rules: &Rules,
    after_blank: bool,
    text: &[SourceChar],
    buffers: &mut Buffers,
    out: &mut Vec<FirstToken>,
) -> Result<FrontPart, AllocError>
    requires { 0 < length text.now }
    ensures some { IfOk result (λ sequence. 0 < sequence.length) }
    ensures within { IfOk result (λ sequence. sequence.length ≤ length text.now) }
    ensures tokens { IfOk result (λ sequence. tokens_in out.new.items
        ++ tokens_after (rules_of rules.now) sequence.blank_after (drop sequence.length text.now)
        ≡ tokens_in out.old.items ++ tokens_after (rules_of rules.now) after_blank text.now) }
{
    match kind_of(text[0].char) {
        Kind::Blank | Kind::Dropped => Ok(FrontPart {
            length: 1,
            blank_after: true,
        }),
        Kind::Word => {
            let length = spell_word(alloc, text, &mut buffers.letters)?;
            let letters = buffers.letters.as_str();
            out.push(word_token(alloc, after_blank, &text[..length], letters)?)?;
            Ok(FrontPart {
                length,
                blank_after: false,
            })
        }
        Kind::Mark => {
            let length = mark_count(text);
            let blank_after = push_marks(alloc, rules, after_blank, &text[..length], buffers, out)?;
            Ok(FrontPart {
                length,
                blank_after,
            })
        }
    }
}

/// Adds the first tokens of a text of which nothing is taken, one sequence of characters of one kind after the
/// other.
pub(crate) fn push_text(
    alloc: Global,
    rules: &Rules,
    text: &[SourceChar],
    buffers: &mut Buffers,
    out: &mut Vec<FirstToken>,
) -> Result<(), AllocError>
    ensures { OnOk result (tokens_in out.new.items
        ≡ tokens_in out.old.items ++ part_tokens (rules_of rules.now) text.now) }
{
    let mut after_blank = true;
    let mut at = 0;
    while at < text.len() {
        let sequence = push_front(alloc, rules, after_blank, &text[at..], buffers, out)?;
        after_blank = sequence.blank_after;
        at += sequence.length;
    }
    Ok(())
}

/// Adds the first tokens at the start of a text of which nothing is taken, up to an offset that no copyright sign reaches over.
fn push_sequences(
    alloc: Global,
    rules: &Rules,
    after_blank: bool,
    text: &[SourceChar],
    buffers: &mut Buffers,
    out: &mut Vec<FirstToken>,
) -> Result<FrontPart, AllocError>
    requires some { 0 < length text.now }
    ensures some { IfOk result (λ part. 0 < part.length) }
    ensures within { IfOk result (λ part. part.length ≤ length text.now) }
    ensures tokens { IfOk result (λ part. tokens_in out.new.items
        ++ tokens_after (rules_of rules.now) part.blank_after (drop part.length text.now)
        ≡ tokens_in out.old.items ++ tokens_after (rules_of rules.now) after_blank text.now) }
    ensures apart { IfOk result (λ part. single_signs (tokens_in out.new.items
        ++ tokens_after (rules_of rules.now) part.blank_after (drop part.length text.now))
        ≡ single_signs (tokens_in out.new.items)
        ++ single_signs (tokens_after (rules_of rules.now) part.blank_after
        (drop part.length text.now))) }
{
    let mut blank_after = after_blank;
    let mut length = 0;
    while length < text.len() {
        let sequence = push_front(alloc, rules, blank_after, &text[length..], buffers, out)?;
        blank_after = sequence.blank_after;
        length += sequence.length;
        if signs_end(out, blank_after) {
            break;
        }
    }
    Ok(FrontPart {
        length,
        blank_after,
    })
}

/// Lists the tokens of a part at the beginning of a text, in place of those in `out`. The text is after a blank or not;
/// nothing is taken from it. The buffers may hold anything.
///
/// The error is that memory ran out; what `out` then holds is of no use.
pub fn front_part(
    alloc: Global,
    rules: &Rules,
    after_blank: bool,
    text: &[SourceChar],
    buffers: &mut Buffers,
    out: &mut Vec<FirstToken>,
) -> Result<FrontPart, AllocError>
    requires some { 0 < length text.now }
    ensures some { IfOk result (λ part. 0 < part.length) }
    ensures within { IfOk result (λ part. part.length ≤ length text.now) }
    ensures tokens { IfOk result (λ part. tokens_in out.new.items
        ++ text_tokens_after (rules_of rules.now) part.blank_after (drop part.length text.now)
        ≡ text_tokens_after (rules_of rules.now) after_blank text.now) }
{
    out.clear();
    let part = push_sequences(alloc, rules, after_blank, text, buffers, out)?;
    join_single_signs(out, 0);
    Ok(part)
}
