//! Parts of a template.
ghost use Rattle.std.specs.Prelude.{◌≡◌, ◌≤◌, map};
ghost use Rattle.std.specs.String.{string_bytes};
ghost use Rattle.lic_markup.specs.Parts.{GiveToken, part_of, sequence, weight_of};
ghost use Rattle.lic_markup.specs.PartTexts.{HavePieceTexts};

use lic_ere::Ere;
use std::marker::Model;

/// A part of a template.
#[derive(Debug, Drop)]
pub enum Part {
    /// The letters of a piece of text: there is one at least.
    Text(String),
    /// Text that may be replaced.
    Var {
        name: String,
        /// What the original text has here.
        original: String,
        /// What a text may have instead.
        ere: Ere,
    },
    /// Parts that may be left out together.
    Optional(Vec<Part>),
}

/// A template that was read.
#[derive(Debug, Drop)]
pub struct Template {
    parts: Vec<Part>,
    weight: u64,
    original: String,
}

impl Model for Template {
    ghost use Rattle.std.specs.String.{string_bytes};
    ghost use Rattle.std.specs.Coded.{codes};
    ghost use Rattle.lic_markup.specs.contracts.part.Part as e;
    ghost use Rattle.lic_markup.specs.Parts.{TemplateValue};
    ghost use Rattle.lic_markup.specs.PartTexts.{IsKept};

    ghost Value = { TemplateValue };

    ghost coded = { Prim.hlevel (codes, e.the_row.coded) };

    ghost view = { λ t. record {
      parts = t.parts.items;
      weight = t.weight;
      original = string_bytes t.original;
    } };

    ghost invariant = { λ t. IsKept t.parts.items t.weight };
}

impl Template {
    /// A template of these parts.
    pub(crate) fn new(parts: Vec<Part>, weight: u64, mut original: String) -> Template
        requires texts { HavePieceTexts (sequence (map part_of parts.items)) }
        requires weighed { weight ≡ weight_of parts.items }
        requires light { weight ≤ 131072 }
        requires some_token { GiveToken parts.items }
        ensures parts { result.parts ≡ parts.items }
        ensures weight { result.weight ≡ weight }
        ensures original { result.original ≡ string_bytes original }
    {
        original.shrink_to_fit();
        Template {
            parts,
            weight,
            original,
        }
    }

    /// The parts in their order.
    pub fn parts(&self) -> &[Part]
        ensures { result.now ≡ self.now.parts }
    {
        &self.parts
    }

    /// What the template weighs (this project's profile): the letters of its texts, blanks included, and the weights
    /// of its patterns, where each letter, `.` and bracket weighs 1, sequences and alternatives the sum, and a repetition
    /// its body as often as it may occur.
    pub fn weight(&self) -> u64
        ensures { result ≡ self.now.weight }
    {
        self.weight
    }

    /// The template's text with the optional rules taken out and each variable replaced by its original value.
    pub fn original(&self) -> &str
        ensures { result.now ≡ self.now.original }
    {
        &self.original
    }
}

/// The texts of a template's parts have letters, and blanks within them are between letters of words.
pub fn texts_are_those_of_pieces(template: &Template)
    ensures { HavePieceTexts (sequence (map part_of template.now.parts)) }
{
    let _ = &template.parts;
}

/// A template weighs what its parts do, and at most the greatest weight.
pub fn templates_weigh_little(template: &Template)
    ensures light { template.now.weight ≤ 131072 }
    ensures weighed { template.now.weight ≡ weight_of template.now.parts }
{
    let _ = &template.parts;
}

/// Some text of a template's parts has a letter that is no blank.
pub fn templates_give_a_token(template: &Template)
    ensures { GiveToken template.now.parts }
{
    let _ = &template.parts;
}
