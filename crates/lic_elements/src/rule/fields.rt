//! The fields of a rule.
ghost use Rattle.std.specs.Prelude.{◌≡◌, false};
ghost use Rattle.lic_ere.specs.Located.{with_remaining};
ghost use Rattle.lic_elements.specs.Faults.{Gives, map_ok};
ghost use Rattle.lic_elements.specs.Pieces.{characters};
ghost use Rattle.lic_elements.specs.Rules.{no_values, field_of, at_end, ends_quoted, ends_plain, name_at, quoted_at, plain_at, value_at, field_at, field_or_none, fields_at};
ghost use Rattle.lic_elements.specs.Views.{values_of};

use crate::fault::{MarkupCause, MarkupFault};
use crate::piece::Piece;
use crate::rule::tag::Tag;
use crate::texts::{begins_with, begins_with_two, offset_of, trim_end, trim_start, unescaped};
use std::alloc::{AllocError, Global};

/// What a field means.
#[derive(Clone, Copy, Debug)]
pub enum Field {
    Name,
    Original,
    Match,
    /// A field that means nothing.
    Other,
}

/// The values of the fields of a variable, as far as they were read.
#[derive(Drop)]
pub struct Values {
    pub name: Option<String>,
    pub original: Option<String>,
    /// The byte at which the pattern begins, and the pattern.
    pub pattern: Option<(usize, String)>,
}

impl Values {
    ghost use Rattle.std.specs.Prelude.{◌≡◌, OnOk};
    ghost use Rattle.lic_elements.specs.Pieces.{characters};
    ghost use Rattle.lic_elements.specs.Rules.{no_values, has_value, with_value};
    ghost use Rattle.lic_elements.specs.Views.{values_of};

    /// No value yet.
    fn none() -> Values
        ensures { values_of result ≡ no_values }
    {
        Values {
            name: None,
            original: None,
            pattern: None,
        }
    }

    /// Whether a field has a value already.
    fn has(&self, field: Field) -> bool
        ensures { result ≡ has_value field (values_of self.now) }
    {
        match field {
            Field::Name => self.name.is_some(),
            Field::Original => self.original.is_some(),
            Field::Match => self.pattern.is_some(),
            Field::Other => false,
        }
    }

    /// Gives a field its value.
    fn set(&mut self, alloc: Global, field: Field, value: Piece<'_>) -> Result<(), AllocError>
        ensures { OnOk result (values_of self.new
            ≡ with_value field (characters value.entry) (values_of self.old)) }
    {
        match field {
            Field::Name => self.name = Some(unescaped(alloc, value)?),
            Field::Original => self.original = Some(unescaped(alloc, value)?),
            Field::Match => self.pattern = Some((
                offset_of(value),
                String::from_str(alloc, value.as_str())?,
            )),
            Field::Other => {}
        }
        Ok(())
    }
}

/// The field that a name means: the fields of an optional rule mean nothing.
fn field_of(tag: Tag, name: &str) -> Field
    ensures { result ≡ field_of tag name.now }
{
    match tag {
        Tag::Var => match name {
            "name" => Field::Name,
            "original" => Field::Original,
            "match" => Field::Match,
            _ => Field::Other,
        },
        Tag::BeginOptional | Tag::EndOptional => Field::Other,
    }
}

/// Whether the text begins with `;` or `>>`.
fn at_end(rest: Piece<'_>) -> bool
    ensures { result ≡ at_end (characters rest.entry) }
{
    begins_with(rest, ';') || begins_with_two(rest, '>')
}

/// The name of a field that begins here, with the white space after it, and what follows its `=`.
/// `rule` and `start` are the offsets of the rule and of the field.
fn name(rule: usize, start: usize, all: Piece<'_>) -> Result<(Piece<'_>, Piece<'_>), MarkupFault>
    ensures { Gives (λ x. (characters x.0, characters x.1)) result
        (map_ok (with_remaining (characters all.entry)) (name_at rule start (characters all.entry))) }
{
    let mut rest = all;
    while let Some((_, after)) = rest.split_first() {
        if begins_with(rest, '=') {
            return Ok((all.up_to(rest), after));
        }
        if at_end(rest) {
            return Err(MarkupFault {
                offset: start,
                cause: MarkupCause::NoEquals,
            });
        }
        rest = after;
    }
    Err(MarkupFault {
        offset: rule,
        cause: MarkupCause::NotClosed,
    })
}

/// Whether the text begins with a `"` directly before `;` or `>>`.
fn ends_quoted(rest: Piece<'_>) -> bool
    ensures { result ≡ ends_quoted (characters rest.entry) }
{
    match rest.split_first() {
        Some(((_, first), after)) => first == '"' && at_end(after),
        None => false,
    }
}

/// A value from after its `"`, and what follows the `"` that ends it.
fn quoted(rule: usize, all: Piece<'_>) -> Result<(Piece<'_>, Piece<'_>), MarkupFault>
    ensures { Gives (λ x. (characters x.0, characters x.1)) result
        (map_ok (with_remaining (characters all.entry)) (quoted_at rule (characters all.entry))) }
{
    let mut rest = all;
    while let Some((_, after)) = rest.split_first() {
        if ends_quoted(rest) {
            return Ok((all.up_to(rest), after));
        }
        rest = after;
    }
    Err(MarkupFault {
        offset: rule,
        cause: MarkupCause::NotClosed,
    })
}

/// Whether the text begins with `>>`, or with a `;` that is not directly after a backslash.
fn ends_plain(rest: Piece<'_>, escaped: bool) -> bool
    ensures { result ≡ ends_plain escaped (characters rest.entry) }
{
    begins_with_two(rest, '>') || (begins_with(rest, ';') && !escaped)
}

/// A value without quotes, with the white space after it, and the `;` or `>>` that ends it with what follows.
fn plain(rule: usize, all: Piece<'_>) -> Result<(Piece<'_>, Piece<'_>), MarkupFault>
    ensures { Gives (λ x. (characters x.0, characters x.1)) result
        (map_ok (with_remaining (characters all.entry)) (plain_at rule false (characters all.entry))) }
{
    let mut escaped = false;
    let mut rest = all;
    while let Some((first, after)) = rest.split_first() {
        if ends_plain(rest, escaped) {
            return Ok((all.up_to(rest), rest));
        }
        escaped = first.1 == '\\';
        rest = after;
    }
    Err(MarkupFault {
        offset: rule,
        cause: MarkupCause::NotClosed,
    })
}

/// The value that begins here, and what follows it.
#[tactic(auto, unfolding(crate::specs::Rules::value_at))]
fn value(rule: usize, rest: Piece<'_>) -> Result<(Piece<'_>, Piece<'_>), MarkupFault>
    ensures { Gives (λ x. (characters x.0, characters x.1)) result
        (map_ok (with_remaining (characters rest.entry)) (value_at rule (characters rest.entry))) }
{
    if begins_with(rest, '"') {
        return quoted(rule, rest.without_first());
    }
    let (value, after) = plain(rule, rest)?;
    Ok((trim_end(value), after))
}

/// Reads the field that begins here into the values, and gives what follows it. `rule` and `start` are the
/// offsets of the rule and of the field.
#[tactic(auto, unfolding(crate::specs::Rules::field_at))]
fn read_field<'a>(
    alloc: Global,
    rule: usize,
    start: usize,
    tag: Tag,
    values: &mut Values,
    rest: Piece<'a>,
) -> Result<Piece<'a>, MarkupFault>
    ensures { Gives (λ x. (values_of values.new, characters x)) result
        (map_ok (with_remaining (characters rest.entry)) (field_at rule start tag (values_of values.old) (characters rest.entry))) }
{
    let (name, following) = name(rule, start, rest)?;
    let field = field_of(tag, trim_end(name).as_str());
    if values.has(field) {
        return Err(MarkupFault {
            offset: start,
            cause: MarkupCause::FieldTwice,
        });
    }
    let (value, following) = value(rule, trim_start(following))?;
    values.set(alloc, field, value)?;
    Ok(following)
}

/// After a `;` and white space: reads a field, unless it is empty, and gives what follows it.
fn field_or_none<'a>(
    alloc: Global,
    rule: usize,
    tag: Tag,
    values: &mut Values,
    rest: Piece<'a>,
) -> Result<Piece<'a>, MarkupFault>
    ensures { Gives (λ x. (values_of values.new, characters x)) result
        (map_ok (with_remaining (characters rest.entry)) (field_or_none rule tag (values_of values.old) (characters rest.entry))) }
{
    let Some(((start, _), _)) = rest.split_first() else {
        return Ok(rest);
    };
    if at_end(rest) {
        return Ok(rest);
    }
    read_field(alloc, rule, start, tag, values, rest)
}

/// The values of a rule's fields from an offset where `;` or `>>` must be, and what follows its `>>`.
pub fn fields(
    alloc: Global,
    rule: usize,
    tag: Tag,
    all: Piece<'_>,
) -> Result<(Values, Piece<'_>), MarkupFault>
    ensures { Gives (λ x. (values_of x.0, characters x.1)) result
        (map_ok (with_remaining (characters all.entry)) (fields_at rule tag no_values 0 (characters all.entry))) }
{
    let mut values = Values::none();
    let mut rest = all;
    while let Some((_, after)) = rest.split_first() {
        if begins_with_two(rest, '>') {
            return Ok((values, after.without_first()));
        }
        if !begins_with(rest, ';') {
            return Err(MarkupFault {
                offset: rule,
                cause: MarkupCause::NotClosed,
            });
        }
        rest = field_or_none(alloc, rule, tag, &mut values, trim_start(after))?;
    }
    Err(MarkupFault {
        offset: rule,
        cause: MarkupCause::NotClosed,
    })
}
