//! The lines of matches in one file.

ghost use Rattle.std.specs.Prelude.{◌≡◌, ◌++◌, IfOk, OnOk};
ghost use Rattle.std.specs.List.{slice_index_or};
ghost use Rattle.lic_report.specs.Report.{match_prefix, match_line, no_known, no_token};

use crate::lines::add_file;
use lic_fields::{add_last_numbers, add_text};
use lic_norm::{Span, Text};
use lic_set::{Set, Triple};
use std::alloc::{AllocError, Global};
use std::collections::HashMap;
use std::marker::Model;

/// Writes the lines of matches in one file. What the lines of a template begin with is made with its first line, and kept
/// for the others.
#[derive(Debug, Drop)]
pub struct MatchLines<'a> {
    name: &'a str,
    set: &'a Set,
    // by the numbers of their templates
    prefixes: HashMap<usize, Vec<u8>>,
}

impl<'a> Model for MatchLines<'a> {
    ghost use Rattle.std.specs.Prelude.{List, ℕ};
    ghost use Rattle.std.specs.Coded.{codes};
    ghost use Rattle.lic_markup.specs.contracts.part.Part as e;
    ghost use Rattle.lic_report.specs.Prefixes.{ArePrefixes, Named};

    ghost Value = { Named };

    ghost coded = { Prim.hlevel (codes, e.the_row.coded) };

    ghost view = { λ lines. record { name = lines.name.now; set = lines.set.now } };

    ghost invariant = { λ lines. ArePrefixes (λ front. front.items) lines.name.now lines.set.now lines.prefixes };
}

impl<'a> MatchLines<'a> {
    /// The lines of this set's templates in the file of this name.
    pub fn new(alloc: Global, name: &'a str, set: &'a Set) -> MatchLines<'a>
        ensures { result ≡ record { name = name.now; set = set.now } }
    {
        MatchLines {
            name,
            set,
            prefixes: HashMap::new(alloc),
        }
    }

    /// Adds the line of a match: the file's name, the identifier, the numbers of the first and last token, the first byte of the
    /// one and the end of the other.
    pub fn add(
        &mut self,
        alloc: Global,
        lines: &mut Vec<u8>,
        text: &Text,
        triple: Triple,
    ) -> Result<(), AllocError>
        ensures of { self.new ≡ self.old }
        ensures line { OnOk result (lines.new.items
            ≡ lines.old.items ++ match_line self.old.name self.old.set text.now.tokens triple) }
    {
        self.add_prefix(alloc, lines, triple.template)?;
        let start = span_at(text, triple.first).start as u64;
        let end = span_at(text, triple.last).end as u64;
        add_last_numbers(lines, triple.first as u64, triple.last as u64, start, end)
    }

    /// Adds what the lines of a template begin with.
    fn add_prefix(&mut self, alloc: Global, lines: &mut Vec<u8>, k: usize) -> Result<(), AllocError>
        ensures of { self.new ≡ self.old }
        ensures prefix { OnOk result (lines.new.items
            ≡ lines.old.items ++ match_prefix self.old.name self.old.set k) }
    {
        if let Some(front) = self.prefixes.get(&k) {
            return lines.extend_from_slice(front);
        }
        let front = prefix_of(alloc, self.name, self.set, k)?;
        lines.extend_from_slice(&front)?;
        self.prefixes.insert(k, front)?;
        Ok(())
    }
}

/// What the lines of a template begin with: the fields of the file's name and of its identifier.
#[inline(never)]
fn prefix_of(alloc: Global, name: &str, set: &Set, k: usize) -> Result<Vec<u8>, AllocError>
    ensures { IfOk result (λ front. front.items ≡ match_prefix name.now set.now k) }
{
    let mut front = Vec::new(alloc);
    add_file(&mut front, name)?;
    add_text(&mut front, id_at(set, k).as_bytes(), b'\t')?;
    Ok(front)
}

/// The identifier of a template, or nothing.
fn id_at(set: &Set, k: usize) -> &str
    ensures { result.now ≡ (slice_index_or set.now k no_known).id }
{
    if k < set.len() { set.id(k) } else { "" }
}

/// The span of a token, or an empty one.
fn span_at(text: &Text, i: usize) -> Span
    ensures { result ≡ (slice_index_or text.now.tokens i no_token).span }
{
    if i < text.len() {
        text.span(i)
    } else {
        Span { start: 0, end: 0 }
    }
}
