//! A template and its open optional parts while they are read.
ghost use Rattle.std.specs.Prelude.{◌≡◌, ◌≤◌, IfOk, OnOk, map};
ghost use Rattle.std.specs.String.{string_bytes};
ghost use Rattle.lic_ere.specs.Reading as patterns;
ghost use Rattle.lic_kind.specs.LineRules.{rules_of};
ghost use Rattle.lic_elements.specs.Faults.{Gives, reported};
ghost use Rattle.lic_markup.specs.Parts.{GiveToken, part_of, sequence, template_of, weight_of};
ghost use Rattle.lic_markup.specs.PartTexts.{HavePieceTexts};
ghost use Rattle.lic_elements.specs.Pieces.{characters};
ghost use Rattle.lic_markup.specs.ReadTexts.{HasReadTexts};
ghost use Rattle.lic_markup.specs.Reading as reading;
ghost use Rattle.lic_elements.specs.Views.{element_of};
ghost use Rattle.lic_markup.specs.Views.{level_of, levels_of, state_of};

use crate::lines::{at_line_start, ends_line};
use crate::part::{Part, Template};
use crate::weights::{have_token, parts_weight};
use lic_elements::{Element, MarkupCause, MarkupFault, Piece, Rule};
use lic_ere::{EreCause, EreFault, read};
use lic_kind::Rules;
use lic_norm::Words;
use lic_pieces::{Next, PieceBuffers, piece};
use std::alloc::{AllocError, Global};
use std::mem;

/// How deep optional parts may be in one another.
const MAX_DEPTH: usize = 64;

/// The greatest weight of a template.
const MAX_WEIGHT: u64 = 131_072;

/// The template, or an open optional part.
#[derive(Drop)]
pub struct PartLevel {
    /// The byte at which it begins.
    pub offset: usize,
    pub parts: Vec<Part>,
}

impl PartLevel {
    /// A level with nothing read.
    fn new(alloc: Global, offset: usize) -> PartLevel
        ensures { level_of result ≡ reading.new_level offset }
    {
        PartLevel {
            offset,
            parts: Vec::new(alloc),
        }
    }

    /// Adds the letters of a piece of text as a part; none are no part.
    fn push_letters(&mut self, letters: String) -> Result<(), AllocError>
        ensures { OnOk result (level_of self.new
            ≡ reading.with_letters (string_bytes letters) (level_of self.old)) }
    {
        if !letters.is_empty() {
            self.parts.push(Part::Text(letters))?;
        }
        Ok(())
    }
}

/// The innermost level, and those round it.
#[derive(Drop)]
pub struct TemplateReader {
    pub level: PartLevel,
    /// The innermost one is last.
    pub outer: Vec<PartLevel>,
    /// The original text so far.
    pub original: String,
    /// Whether there are only white space and optional rules between the start of the line and here.
    pub at_start: bool,
    buffers: PieceBuffers,
}

/// How the fault of a pattern is reported, which begins at an offset.
fn reported(offset: usize, fault: EreFault) -> MarkupFault
    ensures { result ≡ reading.reported offset fault }
{
    match fault.cause {
        EreCause::OutOfMemory => MarkupFault::out_of_memory(),
        _ => MarkupFault {
            offset,
            cause: MarkupCause::Pattern(fault),
        },
    }
}

/// A fault as it is reported: lack of memory has no offset.
fn reported_again(fault: MarkupFault) -> MarkupFault
    ensures { result ≡ reported fault }
{
    match fault.cause {
        MarkupCause::OutOfMemory => MarkupFault { offset: 0, ..fault },
        _ => fault,
    }
}

impl TemplateReader {
    /// Before the first element.
    pub fn new(alloc: Global) -> TemplateReader
        ensures state { state_of result ≡ reading.start }
        ensures texts { HasReadTexts (state_of result) }
    {
        TemplateReader {
            level: PartLevel::new(alloc, 0),
            outer: Vec::new(alloc),
            original: String::new(alloc),
            at_start: true,
            buffers: PieceBuffers::new(alloc),
        }
    }

    /// A piece of text, with what follows it in its line.
    fn text(
        &mut self,
        alloc: Global,
        rules: &Rules,
        words: &Words,
        text: Piece<'_>,
        follows: Next,
    ) -> Result<(), AllocError>
        requires { HasReadTexts (state_of self.old) }
        ensures state { OnOk result (state_of self.new
            ≡ reading.meet_text (rules_of rules.now) words.now (characters text.entry) follows
            (state_of self.old)) }
        ensures texts { OnOk result (HasReadTexts (state_of self.new)) }
    {
        let next = if ends_line(text) {
            Next::LineEnd
        } else {
            follows
        };
        let letters = piece(
            alloc,
            text.as_str(),
            self.at_start,
            next,
            words,
            rules,
            &mut self.buffers,
        )?;
        self.level.push_letters(letters)?;
        self.original.push_str(text.as_str())?;
        self.at_start = at_line_start(self.at_start, text);
        Ok(())
    }

    /// A variable, whose pattern begins at an offset.
    fn variable(
        &mut self,
        alloc: Global,
        name: String,
        original: String,
        offset: usize,
        pattern: String,
    ) -> Result<(), MarkupFault>
        ensures { Gives (λ _. state_of self.new) result
            (reading.meet_variable (string_bytes name) (string_bytes original) offset
            (patterns.reading (string_bytes pattern)) (state_of self.old)) }
    {
        let ere = match read(alloc, &pattern) {
            Ok(ere) => ere,
            Err(fault) => return Err(reported(offset, fault)),
        };
        self.original.push_str(&original)?;
        self.level.parts.push(Part::Var {
            name,
            original,
            ere,
        })?;
        self.at_start = false;
        Ok(())
    }

    /// The begin of an optional part at an offset.
    fn begin(&mut self, alloc: Global, offset: usize) -> Result<(), MarkupFault>
        ensures { Gives (λ _. state_of self.new) result
            (reading.meet_begin offset (state_of self.old)) }
    {
        if self.outer.len() >= MAX_DEPTH {
            return Err(MarkupFault {
                offset,
                cause: MarkupCause::TooDeep,
            });
        }
        let outer = mem::replace(&mut self.level, PartLevel::new(alloc, offset));
        self.outer.push(outer)?;
        Ok(())
    }

    /// The end of an optional part at an offset.
    fn end(&mut self, offset: usize) -> Result<(), MarkupFault>
        ensures { Gives (λ _. state_of self.new) result
            (reading.meet_end offset (state_of self.old).level (state_of self.old).outer
            (state_of self.old)) }
    {
        let Some(outer) = self.outer.pop() else {
            return Err(MarkupFault {
                offset,
                cause: MarkupCause::EndWithoutBegin,
            });
        };
        let inner = mem::replace(&mut self.level, outer);
        self.level.parts.push(Part::Optional(inner.parts))?;
        Ok(())
    }

    /// One more element, with what follows it in its line.
    #[tactic(auto, unfolding(crate::specs::Reading::meet))]
    pub fn meet(
        &mut self,
        alloc: Global,
        rules: &Rules,
        words: &Words,
        element: Element<'_>,
        follows: Next,
    ) -> Result<(), MarkupFault>
        requires { HasReadTexts (state_of self.old) }
        ensures state { Gives (λ _. state_of self.new) result
            (reading.meet (rules_of rules.now) words.now (element_of element.entry) follows
            (state_of self.old)) }
        ensures texts { OnOk result (HasReadTexts (state_of self.new)) }
    {
        match element {
            Element::Text(text) => Ok(self.text(alloc, rules, words, text, follows)?),
            Element::Rule(
                Rule::Variable {
                    name,
                    original,
                    offset,
                    pattern,
                },
            ) => self.variable(alloc, name, original, offset, pattern),
            Element::Rule(Rule::Begin(offset)) => self.begin(alloc, offset),
            Element::Rule(Rule::End(offset)) => self.end(offset),
            Element::Refused(fault) => Err(reported_again(fault)),
        }
    }

    /// After the last element.
    pub fn finish(self) -> Result<Template, MarkupFault>
        requires { HasReadTexts (state_of self) }
        ensures exact { Gives template_of result
            (reading.finish (state_of self).level (state_of self).outer (state_of self).original) }
        ensures weighed { IfOk result (λ t. t.weight ≡ weight_of t.parts) }
        ensures light { IfOk result (λ t. t.weight ≤ 131072) }
        ensures some_token { IfOk result (λ t. GiveToken t.parts) }
    {
        let TemplateReader {
            level,
            outer,
            original,
            ..
        } = self;
        ended(level, outer, original)
    }
}

/// The template of these levels, unless an optional part is open.
fn ended(level: PartLevel, outer: Vec<PartLevel>, original: String) -> Result<Template, MarkupFault>
    requires { HavePieceTexts (sequence (map part_of level.parts.items)) }
    ensures exact { Gives template_of result
        (reading.finish (level_of level) (levels_of outer.items) (string_bytes original)) }
    ensures weighed { IfOk result (λ t. t.weight ≡ weight_of t.parts) }
    ensures light { IfOk result (λ t. t.weight ≤ 131072) }
    ensures some_token { IfOk result (λ t. GiveToken t.parts) }
{
    if !outer.is_empty() {
        return Err(MarkupFault {
            offset: level.offset,
            cause: MarkupCause::NotEnded,
        });
    }
    whole(level.parts, original)
}

/// The template of these parts, unless it has no token or is too heavy.
fn whole(parts: Vec<Part>, original: String) -> Result<Template, MarkupFault>
    requires { HavePieceTexts (sequence (map part_of parts.items)) }
    ensures exact { Gives template_of result
        (reading.whole (map part_of parts.items) (string_bytes original)) }
    ensures weighed { IfOk result (λ t. t.weight ≡ weight_of t.parts) }
    ensures light { IfOk result (λ t. t.weight ≤ 131072) }
    ensures some_token { IfOk result (λ t. GiveToken t.parts) }
{
    if !have_token(&parts) {
        return Err(MarkupFault {
            offset: 0,
            cause: MarkupCause::NoLetter,
        });
    }
    let weight = parts_weight(&parts);
    if weight > MAX_WEIGHT {
        return Err(MarkupFault {
            offset: 0,
            cause: MarkupCause::TooHeavy,
        });
    }
    Ok(Template::new(parts, weight, original))
}
