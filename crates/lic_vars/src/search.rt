//! The values of the least record: each choice from the first instruction on is the least from which the instructions that are left can finish.

ghost use Rattle.std.specs.Prelude.{◌≡◌, ◌+◌, ◌-◌, ◌<◌, ◌≤◌, ◌∷◌, ◌++◌, All, IfOk, List, OnOk, length, map, suc, ℕ};
ghost use Rattle.lic_tokens.specs.declared.token.Span.{Span};
ghost use Rattle.lic_places.specs.Places.{spelling_of};
ghost use Rattle.lic_vars.specs.Making.{CanMake};
ghost use Rattle.lic_vars.specs.Moves.{Move};
ghost use Rattle.lic_vars.specs.Cuts.{IsPiece, ReadsOn, last_moves, move_of, moves_of, start};
ghost use Rattle.lic_vars.specs.Recorded.{AreOfLeast, IsWalk, recorded};
ghost use Rattle.lic_vars.specs.Sets.{AreSuffixSets};
ghost use Rattle.lic_vars.specs.Shortest.{begins_letter, letters_between};
ghost use Rattle.lic_vars.specs.Views.{value_of};

use crate::cut::{Cut, after_text, have_cut};
use crate::instructions::Instruction;
use crate::keep::suffix_sets;
use crate::letters::{after, covered, front, letter_count};
use crate::sets::{fill, set_of};
use crate::values::Value;
use crate::variable::after_shortest;
use lic_norm::Span;
use lic_spans::PlaceSpan;
use lic_view::{View, tokens_have_texts};
use std::alloc::{AllocError, Global};

// The values so far, the cut after what was read, the spans of the letters after it, and how many instructions are left.
#[derive(Drop)]
struct Walk<'s, 'l> {
    values: Vec<Value<'s>>,
    cut: Cut,
    letters: &'l [Span],
    left: usize,
}

/// The values that the least record gives with which the instructions make a word that spells the tokens, whose letters have these spans.
pub fn least_values<'s>(
    alloc: Global,
    view: &View<'_>,
    instructions: &[Instruction<'s>],
    letters: &[Span],
) -> Result<Vec<Value<'s>>, AllocError>
    requires some { 0 < length view.now }
    requires pieces { All IsPiece instructions.now }
    requires can { CanMake (moves_of instructions.now) (ReadsOn view.now start) }
    ensures { IfOk result (λ values. AreOfLeast view.now (moves_of instructions.now) letters.now (map value_of values.items)) }
{
    let mut sets = suffix_sets(alloc, view, instructions)?;
    let mut walk = Walk {
        values: Vec::new(alloc),
        cut: Cut {
            place: 0,
            is_apart: false,
        },
        letters,
        left: instructions.len(),
    };
    while walk.left > 0 {
        sets.truncate(walk.left);
        take_step(alloc, view, instructions, &mut sets, &mut walk)?;
    }
    let Walk { values, .. } = walk;
    Ok(values)
}

// Takes one instruction more, with the least choice from which the others can finish.
fn take_step<'s>(
    alloc: Global,
    view: &View<'_>,
    instructions: &[Instruction<'s>],
    sets: &mut Vec<Option<Vec<PlaceSpan>>>,
    walk: &mut Walk<'s, '_>,
) -> Result<(), AllocError>
    requires pieces { All IsPiece instructions.now }
    requires sets { AreSuffixSets view.now instructions.now sets.old.items }
    requires enough { walk.old.left ≤ length sets.old.items }
    requires more { 0 < walk.old.left }
    requires within { walk.old.left ≤ length instructions.now }
    requires can { CanMake (last_moves instructions.now walk.old.left) (ReadsOn view.now walk.old.cut) }
    ensures sets { OnOk result (AreSuffixSets view.now instructions.now sets.new.items) }
    ensures count { OnOk result (length sets.new.items ≡ length sets.old.items) }
    ensures fewer { OnOk result (walk.new.left < walk.old.left) }
    ensures walk { OnOk result ((all : List Move) (letters : List Span)
        → IsWalk view.now all (last_moves instructions.now walk.old.left) letters (map value_of walk.old.values.items) walk.old.cut walk.old.letters.now
        → IsWalk view.now all (last_moves instructions.now walk.new.left) letters (map value_of walk.new.values.items) walk.new.cut walk.new.letters.now) }
{
    tokens_have_texts(view);
    let instruction = &instructions[instructions.len() - walk.left];
    walk.left -= 1;
    match instruction {
        Instruction::Text(text) => {
            walk.cut = after_text(view, text, walk.cut);
            walk.letters = after(walk.letters, letter_count(text));
            Ok(())
        }
        Instruction::Variable {
            name,
            ere,
            is_empty,
        } => {
            fill(alloc, view, instructions, sets, walk.left)?;
            let rest = set_of(sets, walk.left);
            let next = after_shortest(alloc, view, ere, *is_empty, rest, walk.cut)?;
            let count = letters_up_to(view, walk.cut, next);
            let span = covered(front(walk.letters, count));
            walk.values.push(Value { name, span })?;
            walk.letters = after(walk.letters, count);
            walk.cut = next;
            Ok(())
        }
        Instruction::Optional(size) => {
            fill(alloc, view, instructions, sets, walk.left)?;
            let can_be_present = have_cut(view, set_of(sets, walk.left), walk.cut);
            if can_be_present {
                return Ok(());
            }
            leave_out(instructions, *size, walk)?;
            Ok(())
        }
    }
}

// Leaves out the next instructions: their variables match nothing.
fn leave_out<'s>(
    instructions: &[Instruction<'s>],
    size: usize,
    walk: &mut Walk<'s, '_>,
) -> Result<(), AllocError>
    requires within { walk.old.left ≤ length instructions.now }
    ensures left { OnOk result (walk.new.left ≡ walk.old.left - size) }
    ensures cut { OnOk result (walk.new.cut ≡ walk.old.cut) }
    ensures letters { OnOk result (walk.new.letters.now ≡ walk.old.letters.now) }
    ensures values { OnOk result ((r : List ℕ) (letters : List Span)
        → map value_of walk.new.values.items ++ recorded 0 (last_moves instructions.now walk.new.left) r letters
        ≡ map value_of walk.old.values.items ++ recorded size (last_moves instructions.now walk.old.left) r letters) }
{
    let end = walk.left.saturating_sub(size);
    while walk.left > end {
        leave_out_one(
            &instructions[instructions.len() - walk.left],
            &mut walk.values,
        )?;
        walk.left -= 1;
    }
    Ok(())
}

// Leaves out an instruction.
fn leave_out_one<'s>(
    instruction: &Instruction<'s>,
    values: &mut Vec<Value<'s>>,
) -> Result<(), AllocError>
    ensures { OnOk result ((n : ℕ) (ms : List Move) (r : List ℕ) (letters : List Span)
        → map value_of values.new.items ++ recorded n ms r letters
        ≡ map value_of values.old.items ++ recorded (suc n) (move_of instruction.now ∷ ms) r letters) }
{
    match instruction {
        Instruction::Variable { name, .. } => {
            values.push(Value { name, span: None })?;
            Ok(())
        }
        Instruction::Text(_) | Instruction::Optional(_) => Ok(()),
    }
}

// How many letters are between two cuts.
fn letters_up_to(view: &View<'_>, cut: Cut, next: Cut) -> usize
    requires order { cut.place ≤ next.place }
    requires within { next.place ≤ length (spelling_of view.now) }
    ensures { result ≡ letters_between (spelling_of view.now) cut.place next.place }
{
    let mut count = 0;
    for byte in &view.bytes()[cut.place..next.place] {
        if begins_letter(*byte) {
            count += 1;
        }
    }
    count
}

// Whether a letter that is no blank begins with a byte.
fn begins_letter(byte: u8) -> bool
    ensures { result ≡ begins_letter byte }
{
    byte != b' ' && (byte < 0x80 || byte >= 0xC0)
}
