//! Which sets are kept until the walk is done, and which are made again.

ghost use Rattle.std.specs.Prelude.{◌≡◌, ◌<◌, ◌≤◌, ◌+◌, All, IfOk, List, length};
ghost use Rattle.lic_norm.specs.Tokens.{TokenValue};
ghost use Rattle.lic_vars.specs.Cuts.{IsPiece};
ghost use Rattle.lic_vars.specs.Sets.{AreSuffixSets};
ghost use Rattle.lic_vars.specs.declared.instructions.Instruction.{Instruction};

use crate::instructions::Instruction;
use crate::sets::{end_alone, fill, set_of};
use lic_spans::PlaceSpan;
use lic_view::View;
use std::alloc::{AllocError, Global};

// A set of no more spans is kept.
const FEW: usize = 16;

// Of the others those are kept that are made first, up to this number of spans together.
const MANY: usize = 1 << 20;

/// For each number of instructions but all, the places from which that many of the last instructions lead to the end of the last token: of the sets
/// of many spans as many as may be kept, and as are needed to make the others again in blocks.
pub fn suffix_sets(
    alloc: Global,
    view: &View<'_>,
    instructions: &[Instruction],
) -> Result<Vec<Option<Vec<PlaceSpan>>>, AllocError>
    requires some { 0 < length view.now }
    requires pieces { All IsPiece instructions.now }
    ensures sets { IfOk result (λ sets. AreSuffixSets view.now instructions.now sets.items) }
    ensures count { IfOk result (λ sets. length instructions.now ≤ length sets.items) }
{
    // there are about as many blocks as sets in a block
    let block = instructions.len().isqrt().max(1);
    let mut stays = needed_sets(alloc, instructions, block)?;
    let mut spare = MANY;
    let mut sets = end_alone(alloc, view, instructions)?;
    for number in 1..instructions.len() {
        sets.push(None)?;
        fill(alloc, view, instructions, &mut sets, number)?;
        let count = set_of(&sets, number).len();
        stays[number] |= fits(
            &instructions[instructions.len() - number - 1],
            count,
            &mut spare,
        );
        let_go(&mut sets, &stays, number.saturating_sub(block));
    }
    Ok(sets)
}

// Whether a set to which an instruction leads can stay: one of few spans, or one that the walk needs, while spans are to spare. What a text leads to
// it does not need.
fn fits(instruction: &Instruction, count: usize, spare: &mut usize) -> bool {
    if count <= FEW {
        return true;
    }
    if let Instruction::Text(_) = instruction {
        return false;
    }
    let fits = count <= *spare;
    *spare = spare.saturating_sub(count);
    fits
}

// Lets a set go that does not stay.
fn let_go(sets: &mut Vec<Option<Vec<PlaceSpan>>>, stays: &[bool], number: usize)
    requires stays { number < length stays.now }
    requires within { number < length sets.old.items }
    ensures sets { (tokens : List TokenValue) (instructions : List Instruction)
        → AreSuffixSets tokens instructions sets.old.items → AreSuffixSets tokens instructions sets.new.items }
    ensures count { length sets.new.items ≡ length sets.old.items }
{
    if number == 0 || stays[number] {
        return;
    }
    sets[number] = None;
}

// For each set, whether it is the first of a block, or an optional part as long as a block leads to it when it is left out.
fn needed_sets(
    alloc: Global,
    instructions: &[Instruction],
    block: usize,
) -> Result<Vec<bool>, AllocError>
    requires { 0 < block }
    ensures { IfOk result (λ needed. length needed.items ≡ length instructions.now + 1) }
{
    let mut needed = Vec::new(alloc);
    needed.resize(instructions.len() + 1, false)?;
    for number in 1..instructions.len() {
        needed[number] |= number % block == 0;
        if let Instruction::Optional(size) = &instructions[instructions.len() - number] {
            needed[(number - 1).saturating_sub(*size)] |= *size >= block;
        }
    }
    Ok(needed)
}
