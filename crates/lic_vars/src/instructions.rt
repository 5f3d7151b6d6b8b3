//! A template's parts as instructions in a row.

ghost use Rattle.std.specs.Prelude.{◌≡◌, map, IfOk};
ghost use Rattle.std.specs.List.{All};
ghost use Rattle.lic_markup.specs.Parts.{sequence, part_of};
ghost use Rattle.lic_markup.specs.PartTexts.{HavePieceTexts};
ghost use Rattle.lic_vars.specs.Moves.{moves};
ghost use Rattle.lic_vars.specs.Cuts.{moves_of, IsPiece};

use lic_ere::Ere;
use lic_markup::Part;
use lic_reverse::has_empty_word_alone;
use std::alloc::{AllocError, Global};

/// An instruction over the letters.
#[derive(Drop, Debug)]
pub enum Instruction<'s> {
    /// These letters.
    Text(&'s str),
    /// A tidy word of the pattern, and whether the pattern is known to have the empty word and no other.
    Variable {
        name: &'s str,
        ere: &'s Ere,
        is_empty: bool,
    },
    /// This many next instructions, or none of them.
    Optional(usize),
}

/// The instructions of the parts.
pub fn instructions_of<'s>(
    alloc: Global,
    parts: &'s [Part],
) -> Result<Vec<Instruction<'s>>, AllocError>
    requires { HavePieceTexts (sequence (map part_of parts.now)) }
    ensures moves { IfOk result (λ instructions. moves_of instructions.items
        ≡ moves (sequence (map part_of parts.now))) }
    ensures pieces { IfOk result (λ instructions. All IsPiece instructions.items) }
{
    let mut instructions = Vec::new(alloc);
    for i in 0..parts.len() {
        match &parts[i] {
            Part::Text(text) => {
                instructions.push(Instruction::Text(text.as_str()))?;
            }
            Part::Var { name, ere, .. } => {
                instructions.push(Instruction::Variable {
                    name: name.as_str(),
                    ere,
                    is_empty: has_empty_word_alone(ere),
                })?;
            }
            Part::Optional(body) => {
                let mut inner = instructions_of(alloc, body)?;
                instructions.push(Instruction::Optional(inner.len()))?;
                instructions.append(&mut inner)?;
            }
        }
    }
    Ok(instructions)
}
