//! A template cut into pieces of plain text and rules.
ghost use Rattle.std.specs.Prelude.{◌≡◌, ◌++◌, ◌∷◌, IfOk, IfSome, IfNone, List, OnOk, [], false, map};
ghost use Rattle.std.specs.Option.{option_map};
ghost use Rattle.lic_ere.specs.Located.{located};
ghost use Rattle.lic_elements.specs.CutFaults.{AreCut};
ghost use Rattle.lic_elements.specs.Elements as values;
ghost use Rattle.lic_elements.specs.Elements.{elements, element_read, after_rule};
ghost use Rattle.lic_elements.specs.Faults.{IsLasting};
ghost use Rattle.lic_elements.specs.Pieces.{IsNextSign, characters, has_sign};
ghost use Rattle.lic_elements.specs.Rules.{rule_at};
ghost use Rattle.lic_elements.specs.Views.{element_of};

use crate::fault::{MarkupCause, MarkupFault};
use crate::piece::Piece;
use crate::rule::tag::{Tag, read_tag};
use crate::rule::{Rule, read_rule};
use memchr::memchr;
use std::alloc::{AllocError, Global};

/// A part of a template's text.
#[derive(Drop)]
pub enum Element<'t> {
    /// The text between two rules, before the first or after the last; it may be empty.
    Text(Piece<'t>),
    Rule(Rule),
    /// A rule that cannot be read: the last element.
    Refused(MarkupFault),
}

/// Passes on a fault that is not lack of memory.
fn lasting(fault: MarkupFault) -> Result<MarkupFault, AllocError>
    ensures { IfOk result (λ f. IsLasting f × (f ≡ fault)) }
{
    match fault.cause {
        MarkupCause::OutOfMemory => Err(AllocError),
        _ => Ok(fault),
    }
}

/// Pushes the rule at an offset whose tag was read, or its fault, and gives what follows the rule.
fn push_rule<'t>(
    alloc: Global,
    found: &mut Vec<Element<'t>>,
    offset: usize,
    tag: Tag,
    rest: Piece<'t>,
) -> Result<Option<Piece<'t>>, AllocError>
    ensures found { OnOk result
        (map element_of found.new.items
        ≡ map element_of found.old.items ++ element_read (rule_at offset tag (characters rest.entry)) ∷ []) }
    ensures following { IfOk result (λ following. option_map characters following
        ≡ after_rule (characters rest.entry) (rule_at offset tag (characters rest.entry))) }
{
    match read_rule(alloc, offset, tag, rest) {
        Ok((rule, following)) => {
            found.push(Element::Rule(rule))?;
            Ok(Some(following))
        }
        Err(fault) => {
            found.push(Element::Refused(lasting(fault)?))?;
            Ok(None)
        }
    }
}

/// From the first `<` on, and what follows this.
fn next_sign(rest: Piece<'_>) -> Option<(Piece<'_>, Piece<'_>)>
    ensures some { IfSome result (λ x. IsNextSign rest.entry x.0 x.1) }
    ensures none { IfNone result (has_sign (characters rest.entry) ≡ false) }
{
    let count = memchr(b'<', rest.text.as_bytes())?;
    let here = Piece {
        offset: rest.offset + count,
        text: &rest.text[count..],
    };
    let after = Piece {
        offset: here.offset + 1,
        text: &here.text[1..],
    };
    Some((here, after))
}

/// The pieces and rules of a template in turn, up to the first rule that cannot be read.
pub fn pieces_and_rules(alloc: Global, text: &str) -> Result<Vec<Element<'_>>, AllocError>
    // What is found are the pieces and rules that the text is cut into in this markup, as far as rules can be read.
    ensures cut { IfOk result (λ found. AreCut (located text.now) (map element_of found.items)) }
    // Whatever the text is cut into is found.
    ensures only { (es : List values.Element) → AreCut (located text.now) es
        → IfOk result (λ found. map element_of found.items ≡ es) }
    ensures exact { IfOk result (λ found. map element_of found.items ≡ elements [] 0 (located text.now)) }
{
    let mut found = Vec::new(alloc);
    let mut piece = Piece::new(text);
    let mut rest = piece;
    while let Some((sign, after)) = next_sign(rest) {
        let Some((tag, following)) = read_tag(after) else {
            rest = after;
            continue;
        };
        found.push(Element::Text(piece.up_to(sign)))?;
        let Some(following) = push_rule(alloc, &mut found, sign.offset, tag, following)? else {
            return Ok(found);
        };
        piece = following;
        rest = following;
    }
    found.push(Element::Text(piece))?;
    Ok(found)
}
