//! Rules.
ghost use Rattle.lic_ere.specs.Located.{with_remaining};
ghost use Rattle.lic_elements.specs.Faults.{Gives, map_ok};
ghost use Rattle.lic_elements.specs.Pieces.{characters};
ghost use Rattle.lic_elements.specs.Rules as rules;
ghost use Rattle.lic_elements.specs.Views.{values_of, rule_of};

mod fields;
pub(crate) mod tag;

use crate::fault::{MarkupCause, MarkupFault};
use crate::piece::Piece;
use crate::rule::fields::{Values, fields};
use crate::rule::tag::Tag;
use crate::texts::trim_start;
use std::alloc::Global;

/// A rule.
#[derive(Drop)]
pub enum Rule {
    /// Text that may be replaced.
    Variable {
        name: String,
        original: String,
        /// The byte at which the pattern begins.
        offset: usize,
        pattern: String,
    },
    /// The begin of an optional part, at a byte.
    Begin(usize),
    /// The end of an optional part, at a byte.
    End(usize),
}

/// The rule at an offset that a tag and its values are.
fn complete(rule: usize, tag: Tag, values: Values) -> Result<Rule, MarkupFault>
    ensures { Gives rule_of result (rules.rule_of rule tag (values_of values)) }
{
    match tag {
        Tag::BeginOptional => Ok(Rule::Begin(rule)),
        Tag::EndOptional => Ok(Rule::End(rule)),
        Tag::Var => {
            if let (Some(name), Some(original), Some((offset, pattern))) = (
                values.name,
                values.original,
                values.pattern,
            ) {
                return Ok(Rule::Variable {
                    name,
                    original,
                    offset,
                    pattern,
                });
            }
            Err(MarkupFault {
                offset: rule,
                cause: MarkupCause::FieldMissing,
            })
        }
    }
}

/// The rule at an offset whose tag was read, from after the tag on, and what follows the rule.
#[tactic(auto, unfolding(crate::specs::Rules::rule_at))]
pub fn read_rule(
    alloc: Global,
    offset: usize,
    tag: Tag,
    rest: Piece<'_>,
) -> Result<(Rule, Piece<'_>), MarkupFault>
    ensures { Gives (λ x. (rule_of x.0, characters x.1)) result
        (map_ok (with_remaining (characters rest.entry))
        (rules.rule_at offset tag (characters rest.entry))) }
{
    let (values, following) = fields(alloc, offset, tag, trim_start(rest))?;
    Ok((complete(offset, tag, values)?, following))
}
