//! The lines of matches with those of their variables.

ghost use Rattle.std.specs.Prelude.{◌≡◌, ◌≤◌, ◌++◌, ℕ, List, All, length, map, OnOk, Some};
ghost use Rattle.std.specs.List.{flat_map};
ghost use Rattle.lic_set.specs.Matches.{IsMatch};
ghost use Rattle.lic_tokens.specs.declared.token.Span.{Span};
ghost use Rattle.lic_vars.specs.Values.{Assigned, AreValues};
ghost use Rattle.lic_vars.specs.Views.{value_of};
ghost use Rattle.lic_report.specs.Report.{value_line, valued_lines};

use crate::assigners::Assigners;
use crate::lines::add_value;
use crate::match_lines::MatchLines;
use lic_norm::Text;
use lic_norm::laws::tokens_have_spans;
use lic_set::{Set, Triple};
use lic_vars::Value;
use lic_vars::laws::values_run_over_tokens;
use std::alloc::{AllocError, Global};
use std::marker::Model;

/// Writes the lines of matches in one file, each before those of its variables. With the first match of a template what its lines begin
/// with is made, and the template is compiled.
#[derive(Debug, Drop)]
pub struct ValuedLines<'a> {
    matches: MatchLines<'a>,
    assigners: Assigners<'a>,
}

impl<'a> Model for ValuedLines<'a> {
    ghost use Rattle.std.specs.Prelude.{◌≡◌};
    ghost use Rattle.std.specs.Coded.{codes};
    ghost use Rattle.lic_markup.specs.contracts.part.Part as e;
    ghost use Rattle.lic_report.specs.Prefixes.{Named};

    ghost Value = { Named };

    ghost coded = { Prim.hlevel (codes, e.the_row.coded) };

    ghost view = { λ lines. lines.matches };

    ghost invariant = { λ lines. lines.matches.set ≡ lines.assigners };
}

impl<'a> ValuedLines<'a> {
    /// The lines of this set's templates in the file of this name.
    pub fn new(alloc: Global, name: &'a str, set: &'a Set) -> ValuedLines<'a>
        ensures { result ≡ record { name = name.now; set = set.now } }
    {
        ValuedLines {
            matches: MatchLines::new(alloc, name, set),
            assigners: Assigners::new(alloc, set),
        }
    }

    /// Adds the line of a match, and those of its variables.
    pub fn add(
        &mut self,
        alloc: Global,
        lines: &mut Vec<u8>,
        text: &Text,
        triple: Triple,
    ) -> Result<(), AllocError>
        requires { IsMatch self.old.set text.now.tokens triple }
        ensures of { self.new ≡ self.old }
        ensures lines { OnOk result ((values : List Assigned)
            × AreValues self.old.set text.now.tokens triple values
            × (lines.new.items ≡ lines.old.items
            ++ valued_lines self.old.name self.old.set text.now.source text.now.tokens
            (record { triple = triple; values = values }))) }
    {
        self.matches.add(alloc, lines, text, triple)?;
        let values = self.assigners.assign(alloc, text, triple)?;
        values_run_over_tokens();
        tokens_have_spans(text);
        add_values(lines, text, &values)
    }
}

/// Adds the lines of variables.
fn add_values(lines: &mut Vec<u8>, text: &Text, values: &[Value<'_>]) -> Result<(), AllocError>
    requires { All (λ value. (s : Span) → value.span ≡ Some s
        → (s.start ≤ s.end) × (s.end ≤ length text.now.source)) values.now }
    ensures { OnOk result (lines.new.items
        ≡ lines.old.items ++ flat_map (value_line text.now.source) (map value_of values.now)) }
{
    for value in values {
        add_value(lines, text, value)?;
    }
    Ok(())
}
