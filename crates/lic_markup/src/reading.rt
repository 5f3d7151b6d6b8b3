//! Reading a template.
ghost use Rattle.std.specs.Prelude.{◌≡◌, ◌<◌, ◌≤◌, IfErr, IfOk, Ok, Err, length, map, reverse};
ghost use Rattle.lic_kind.specs.LineRules.{rules_of};
ghost use Rattle.lic_elements.specs.Faults.{Gives, IsLasting, fault_at};
ghost use Rattle.lic_markup.specs.FirstFaults.{IsFaultOf};
ghost use Rattle.lic_markup.specs.Parts.{GiveToken, Reading, template_of, weight_of};
ghost use Rattle.lic_markup.specs.Reading.{start, read_on, reading};
ghost use Rattle.lic_markup.specs.Templates.{IsTemplate};
ghost use Rattle.lic_markup.specs.Views.{placed_of};

use crate::lines::with_next;
use crate::part::Template;
use crate::reader::TemplateReader;
use lic_elements::{Element, MarkupCause, MarkupFault, pieces_and_rules};
use lic_kind::Rules;
use lic_norm::Words;
use lic_pieces::Next;
use std::alloc::Global;

/// How many bytes a template may have.
const MAX_LENGTH: usize = 1_048_576;

/// Reads elements with what follows each in its line, the last one first.
fn read_elements(
    alloc: Global,
    rules: &Rules,
    words: &Words,
    elements: Vec<(Element<'_>, Next)>,
) -> Result<Template, MarkupFault>
    ensures exact { Gives template_of result
        (read_on (rules_of rules.now) words.now start (map placed_of (reverse elements.entry.items))) }
    ensures weighed { IfOk result (λ t. t.weight ≡ weight_of t.parts) }
    ensures light { IfOk result (λ t. t.weight ≤ 131072) }
    ensures some_token { IfOk result (λ t. GiveToken t.parts) }
{
    let mut reader = TemplateReader::new(alloc);
    let mut elements = elements;
    while let Some((element, follows)) = elements.pop() {
        reader.meet(alloc, rules, words, element, follows)?;
    }
    reader.finish()
}

/// Reads a template (SPDX 2.3, Annex B, in this project's profile) into its parts. The letters of its texts are those
/// that the normaliser gives with these words and line rules.
pub fn read_template(
    alloc: Global,
    text: &str,
    words: &Words,
    rules: &Rules,
) -> Result<Template, MarkupFault>
    // What is read is a template in this markup, and says what was read of it.
    ensures found { IfOk result (λ t.
        IsTemplate (rules_of rules.now) words.now text.now (template_of t)) }
    // What a template in this markup says is read, unless memory runs out.
    ensures only { (says : Reading) → IsTemplate (rules_of rules.now) words.now text.now says
        → Gives template_of result (Ok says) }
    // The parts, the weight and the original text, or the fault that decides, unless memory runs out.
    ensures exact { Gives template_of result (reading (rules_of rules.now) words.now text.now) }
    // What refuses a template is the fault that decides, unless memory runs out.
    ensures refused { IfErr result (λ e. IsLasting e
        → IsFaultOf (rules_of rules.now) words.now text.now e) }
    // A template is refused by the fault that decides, where one does, unless memory runs out.
    ensures faulty { (e : MarkupFault) → IsFaultOf (rules_of rules.now) words.now text.now e
        → Gives template_of result (Err e) }
    // A template that is too long is refused as such, whatever memory there is.
    ensures long { 1048576 < length text.now → result ≡ Err (fault_at 0 MarkupCause.TooLong) }
    // What a template weighs and holds, whatever was read.
    ensures weighed { IfOk result (λ t. t.weight ≡ weight_of t.parts) }
    ensures light { IfOk result (λ t. t.weight ≤ 131072) }
    ensures some_token { IfOk result (λ t. GiveToken t.parts) }
{
    if text.len() > MAX_LENGTH {
        return Err(MarkupFault {
            offset: 0,
            cause: MarkupCause::TooLong,
        });
    }
    let elements = with_next(alloc, pieces_and_rules(alloc, text)?)?;
    read_elements(alloc, rules, words, elements)
}
