//! The places from which the last instructions of a template can finish.

ghost use Rattle.std.specs.Prelude.{◌≡◌, ◌↔◌, ◌+◌, ◌-◌, ◌<◌, ◌≤◌, All, IfOk, IsTrue, OnOk, Vec, length, ℕ};
ghost use Rattle.std.specs.Global.{Global};
ghost use Rattle.lic_spans.specs.declared.span.PlaceSpan.{PlaceSpan};
ghost use Rattle.lic_vars.specs.Cuts.{AreFinishing, IsPiece, last_moves};
ghost use Rattle.lic_vars.specs.Sets.{AreSuffixSets, HasOther, IsOther, IsSet, IsStart, IsThere};

use crate::instructions::Instruction;
use crate::variable::over_pattern;
use lic_reverse::{either, over_text};
use lic_spans::{PlaceSpan, SpanKind};
use lic_view::{View, tokens_have_texts};
use std::alloc::{AllocError, Global};

/// The set of no instruction: the end of the last token.
pub fn end_alone(
    alloc: Global,
    view: &View<'_>,
    instructions: &[Instruction],
) -> Result<Vec<Option<Vec<PlaceSpan>>>, AllocError>
    requires { 0 < length view.now }
    ensures sets { IfOk result (λ sets. AreSuffixSets view.now instructions.now sets.items) }
    ensures count { IfOk result (λ sets. length sets.items ≡ 1) }
{
    tokens_have_texts(view);
    let last = view.len() - 1;
    let end = view.end(last);
    let mut spans = Vec::new(alloc);
    spans.push(PlaceSpan {
        low: end,
        high: end,
        last,
        kind: SpanKind::End,
    })?;
    let mut sets = Vec::new(alloc);
    sets.push(Some(spans))?;
    Ok(sets)
}

/// A set that is there.
pub fn set_of(sets: &[Option<Vec<PlaceSpan>>], number: usize) -> &[PlaceSpan]
    requires { IsThere sets.now number }
    ensures { (set : Vec PlaceSpan Global) → IsSet sets.now number set → result.now ≡ set.items }
{
    match &sets[number] {
        Some(set) => set,
        None => unreachable!(),
    }
}

// Whether a set is there.
fn is_there(sets: &[Option<Vec<PlaceSpan>>], number: usize) -> bool
    requires { number < length sets.now }
    ensures { IsTrue result ↔ IsThere sets.now number }
{
    match &sets[number] {
        Some(_) => true,
        None => false,
    }
}

/// Makes the set of a number of last instructions, and those between it and the last one that is there, unless it is there.
pub fn fill(
    alloc: Global,
    view: &View<'_>,
    instructions: &[Instruction],
    sets: &mut Vec<Option<Vec<PlaceSpan>>>,
    number: usize,
) -> Result<(), AllocError>
    requires pieces { All IsPiece instructions.now }
    requires sets { AreSuffixSets view.now instructions.now sets.old.items }
    requires within { number ≤ length instructions.now }
    requires enough { number < length sets.old.items }
    ensures sets { OnOk result (AreSuffixSets view.now instructions.now sets.new.items) }
    ensures there { OnOk result (IsThere sets.new.items number) }
    ensures count { OnOk result (length sets.new.items ≡ length sets.old.items) }
{
    let start = start_of(view, instructions, sets, number);
    for before in start..number {
        let mut set = set_before(alloc, view, instructions, sets, before + 1)?;
        // the memory of spans that came together is not kept
        set.shrink_to_fit();
        sets[before + 1] = Some(set);
    }
    Ok(())
}

// From which set all up to one can be made.
fn start_of(
    view: &View<'_>,
    instructions: &[Instruction],
    sets: &[Option<Vec<PlaceSpan>>],
    number: usize,
) -> usize
    requires sets { AreSuffixSets view.now instructions.now sets.now }
    requires within { number ≤ length instructions.now }
    requires enough { number < length sets.now }
    ensures { IsStart instructions.now sets.now number result }
{
    let mut low = number;
    let mut needed = number;
    while needed < low || !is_there(sets, low) {
        needed = needed.min(missing_for(instructions, sets, low));
        low -= 1;
    }
    low
}

// The set that an instruction leads to when it is left out, where it is not there, else the instruction's own number.
fn missing_for(
    instructions: &[Instruction],
    sets: &[Option<Vec<PlaceSpan>>],
    number: usize,
) -> usize
    requires some { 0 < number }
    requires within { number ≤ length instructions.now }
    requires enough { number < length sets.now }
    ensures { (other : ℕ) → IsOther instructions.now number other → HasOther sets.now result other }
{
    match &instructions[instructions.len() - number] {
        Instruction::Optional(size) => {
            let other = (number - 1).saturating_sub(*size);
            if is_there(sets, other) { number } else { other }
        }
        _ => number,
    }
}

// The places from which a number of last instructions lead to the end.
fn set_before(
    alloc: Global,
    view: &View<'_>,
    instructions: &[Instruction],
    sets: &[Option<Vec<PlaceSpan>>],
    number: usize,
) -> Result<Vec<PlaceSpan>, AllocError>
    requires pieces { All IsPiece instructions.now }
    requires sets { AreSuffixSets view.now instructions.now sets.now }
    requires some { 0 < number }
    requires within { number ≤ length instructions.now }
    requires rest { IsThere sets.now (number - 1) }
    requires others { (other : ℕ) → IsOther instructions.now number other → IsThere sets.now other }
    ensures { IfOk result (λ spans. AreFinishing view.now (last_moves instructions.now number) spans.items) }
{
    tokens_have_texts(view);
    let rest = set_of(sets, number - 1);
    match &instructions[instructions.len() - number] {
        Instruction::Text(text) => over_text(alloc, view, text, Vec::from_slice(alloc, rest)?),
        Instruction::Variable { ere, is_empty, .. } => {
            let ends = Vec::from_slice(alloc, rest)?;
            over_pattern(alloc, view, ere, *is_empty, ends)
        }
        Instruction::Optional(size) => {
            let others = set_of(sets, (number - 1).saturating_sub(*size));
            either(alloc, view, rest, others)
        }
    }
}
