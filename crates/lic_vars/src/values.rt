//! What the variables of a template match in a match.

ghost use Rattle.std.specs.Prelude.{◌≡◌, ◌<◌, All, IfOk, false, length, map};
ghost use Rattle.lic_set.specs.Matches.{IsMatch};
ghost use Rattle.lic_vars.specs.Values.{AreValues};
ghost use Rattle.lic_vars.specs.Cuts.{HasNoValue};
ghost use Rattle.lic_vars.specs.Views.{value_of};

use crate::instructions::{Instruction, instructions_of};
use crate::letters::letter_spans;
use crate::search::least_values;
use lic_markup::laws::texts_are_those_of_pieces;
use lic_norm::{Span, Text};
use lic_set::{Set, Triple};
use lic_view::{View, tokens_have_texts};
use std::alloc::{AllocError, Global};
use std::marker::Model;

/// The value of a variable.
#[derive(Clone, Copy, Debug)]
pub struct Value<'s> {
    /// The variable's name, as the template has it.
    pub name: &'s str,
    /// The bytes of the source from the start of the first token of which it has a letter to the end of the last such token.
    /// `None` if it has no letter, or is in an optional part that was left out.
    pub span: Option<Span>,
}

/// A template of a set, compiled for the values of its matches: its texts and patterns become instructions in a row, once for all matches.
#[derive(Debug, Drop)]
pub struct Assigner<'s> {
    // whose instructions they are
    set: &'s Set,
    template: usize,
    instructions: Vec<Instruction<'s>>,
}

impl<'s> Model for Assigner<'s> {
    ghost use Rattle.std.specs.Coded.{codes};
    ghost use Rattle.lic_markup.specs.contracts.part.Part as e;
    ghost use Rattle.lic_vars.specs.Assigners.{AssignerValue, AreInstructionsOf};

    ghost Value = { AssignerValue };

    ghost coded = { Prim.hlevel (codes, e.the_row.coded) };

    ghost view = { λ a. record { set = a.set.now; template = a.template } };

    ghost invariant = { λ a. AreInstructionsOf a.set.now a.template a.instructions.items };
}

impl<'s> Assigner<'s> {
    /// Compiles the template of this number. Fails if memory runs out.
    pub fn new(alloc: Global, set: &'s Set, template: usize) -> Result<Assigner<'s>, AllocError>
        requires { template < length set.now }
        ensures { IfOk result (λ assigner. assigner
            ≡ record { set = set.now; template = template }) }
    {
        let parsed = set.template(template);
        texts_are_those_of_pieces(parsed);
        let instructions = instructions_of(alloc, parsed.parts())?;
        Ok(Assigner {
            set,
            template,
            instructions,
        })
    }

    /// The values of the template's variables in a match, one for each variable, in the template's order (this project's
    /// profile of SPDX 2.3 Annex B). Spans are bytes of the text's source. The values are those of the derivation with the
    /// least record: optional parts are present where that is possible, and earlier variables as short as possible.
    ///
    /// # Errors
    ///
    /// Fails if memory runs out.
    pub fn assign(
        &self,
        alloc: Global,
        text: &Text,
        triple: Triple,
    ) -> Result<Vec<Value<'s>>, AllocError>
        requires template { triple.template ≡ self.now.template }
        requires is_match { IsMatch self.now.set text.now.tokens triple }
        ensures { IfOk result (λ values.
            AreValues self.now.set text.now.tokens triple (map value_of values.items)) }
    {
        if !has_variable(&self.instructions) {
            return Ok(Vec::new(alloc));
        }
        let letters = letter_spans(alloc, text, triple.first, triple.last)?;
        let _length = text.len();
        let view = View::of(text.tokens(), triple.first, triple.last - triple.first + 1);
        tokens_have_texts(&view);
        least_values(alloc, &view, &self.instructions, &letters)
    }
}

/// The values of the variables in one match, whose template is compiled for it alone (see `Assigner`).
///
/// # Errors
///
/// Fails if memory runs out.
pub fn assign<'s>(
    alloc: Global,
    set: &'s Set,
    text: &Text,
    triple: Triple,
) -> Result<Vec<Value<'s>>, AllocError>
    requires { IsMatch set.now text.now.tokens triple }
    ensures { IfOk result (λ values.
        AreValues set.now text.now.tokens triple (map value_of values.items)) }
{
    let assigner = Assigner::new(alloc, set, triple.template)?;
    assigner.assign(alloc, text, triple)
}

// Whether some instruction is a variable.
fn has_variable(instructions: &[Instruction<'_>]) -> bool
    ensures { result ≡ false → All HasNoValue instructions.now }
{
    for instruction in instructions {
        if let Instruction::Variable { .. } = instruction {
            return true;
        }
    }
    false
}
