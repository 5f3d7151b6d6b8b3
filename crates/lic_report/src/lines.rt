//! Lines of a report about files, tokens, values of variables and templates.

ghost use Rattle.std.specs.Prelude.{◌≡◌, ◌<◌, ◌≤◌, ◌++◌, ℕ, List, length, OnOk, Some};
ghost use Rattle.std.specs.List.{slice_index_or};
ghost use Rattle.lic_fields.specs.Fields.{escaped, field};
ghost use Rattle.lic_tokens.specs.declared.token.Span.{Span};
ghost use Rattle.lic_vars.specs.Views.{value_of};
ghost use Rattle.lic_report.specs.Checking.{check_line};
ghost use Rattle.lic_report.specs.Report.{span_fields, value_line, no_known};

use lic_fields::{add_number, add_text, add_two_numbers};
use lic_norm::{Span, Text};
use lic_set::Set;
use lic_vars::Value;
use std::alloc::AllocError;

/// Adds the file's name, the first field of each line.
pub(crate) fn add_file(lines: &mut Vec<u8>, name: &str) -> Result<(), AllocError>
    ensures { OnOk result (lines.new.items ≡ lines.old.items ++ field (escaped name.now) 0x09) }
{
    add_text(lines, name.as_bytes(), b'\t')
}

/// Adds the start, the end and the bytes of a span of the text, or a dash where there is no span.
fn add_span(lines: &mut Vec<u8>, text: &Text, span: Option<Span>) -> Result<(), AllocError>
    requires { (s : Span) → span ≡ Some s → (s.start ≤ s.end) × (s.end ≤ length text.now.source) }
    ensures { OnOk result (lines.new.items ≡ lines.old.items ++ span_fields text.now.source span) }
{
    let Some(span) = span else {
        return add_text(lines, "-".as_bytes(), b'\n');
    };
    add_two_numbers(lines, span.start as u64, span.end as u64)?;
    add_text(lines, text.slice(span), b'\n')
}

/// Adds the line of a variable: an empty field, its name, and the bytes of its value.
pub fn add_value(lines: &mut Vec<u8>, text: &Text, value: &Value<'_>) -> Result<(), AllocError>
    requires { (s : Span) → value.now.span ≡ Some s
        → (s.start ≤ s.end) × (s.end ≤ length text.now.source) }
    ensures { OnOk result (lines.new.items
        ≡ lines.old.items ++ value_line text.now.source (value_of value.now)) }
{
    add_text(lines, "".as_bytes(), b'\t')?;
    add_text(lines, value.name.as_bytes(), b'\t')?;
    add_span(lines, text, value.span)
}

/// Adds the line of a template: its identifier, its weight, and the verdict.
pub fn add_checked(lines: &mut Vec<u8>, set: &Set, k: usize, yes: bool) -> Result<(), AllocError>
    requires { k < length set.now }
    ensures { OnOk result (lines.new.items
        ≡ lines.old.items ++ check_line
        (record { known = slice_index_or set.now k no_known; yes = yes })) }
{
    add_text(lines, set.id(k).as_bytes(), b'\t')?;
    add_number(lines, set.template(k).weight(), b'\t')?;
    let verdict = if yes { "yes" } else { "no" };
    add_text(lines, verdict.as_bytes(), b'\n')
}
