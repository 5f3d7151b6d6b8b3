//! The report of the outer matches and of what their variables matched.

ghost use Rattle.std.specs.Prelude.{◌≡◌, ℕ, List, All, length, map, nat_lt, IfOk, OnOk, OnErr};
ghost use Rattle.std.specs.Io.KnownBytes.{Appends};
ghost use Rattle.std.specs.List.{flat_map};
ghost use Rattle.lic_set.specs.Matches.{IsMatch};
ghost use Rattle.lic_report.specs.Report.{AreOuterLines, HasItsValues, Valued, triple_of, valued_lines};
ghost use Rattle.lic_stream.specs.Stream.{BeginsWith};
ghost use Rattle.lic_engine.specs.Failures.{CountsWrites, IsOfWriting};

use crate::fault::RunFault;
use lic_norm::Text;
use lic_report::{ValuedLines, outer_matches};
use lic_set::{Set, Triple};
use lic_stream::{Sink, put_all, put_gathered};
use lic_vars::laws::values_are_one_list;
use std::alloc::Global;

/// Writes the lines of matches, and those of their variables.
fn put_valued<W: Sink>(
    alloc: Global,
    name: &str,
    text: &Text,
    out: &mut W,
    set: &Set,
    triples: &[Triple],
) -> Result<(), RunFault>
    requires { All (IsMatch set.now text.now.tokens) triples.now }
    ensures written { OnOk result ((outer : List Valued) × (map triple_of outer ≡ triples.now)
        × All (HasItsValues set.now text.now.tokens) outer
        × Appends (W.taken out.old) (W.taken out.new)
        (flat_map (valued_lines name.now set.now text.now.source text.now.tokens) outer)) }
    ensures part { OnErr result ((outer : List Valued) → map triple_of outer ≡ triples.now
        → All (HasItsValues set.now text.now.tokens) outer
        → BeginsWith (W.taken out.old) (W.taken out.new)
        (flat_map (valued_lines name.now set.now text.now.source text.now.tokens) outer)) }
    ensures writes { CountsWrites result (W.failed out.old) (W.failed out.new) }
    ensures faults { IsOfWriting result }
{
    values_are_one_list();
    let mut valued = ValuedLines::new(alloc, name, set);
    let mut lines = Vec::new(alloc);
    for triple in triples {
        valued.add(alloc, &mut lines, text, *triple)?;
        put_gathered(out, &mut lines)?;
    }
    put_all(out, lines.as_slice())?;
    Ok(())
}

/// Writes the lines of the outer matches, each before those of its variables, and says whether there was one.
pub fn report_outer<W: Sink>(
    alloc: Global,
    name: &str,
    text: &Text,
    out: &mut W,
    set: &Set,
) -> Result<bool, RunFault>
    ensures written { IfOk result (λ some. (lines : List ℕ)
        × AreOuterLines name.now set.now text.now.source text.now.tokens lines
        × Appends (W.taken out.old) (W.taken out.new) lines
        × (some ≡ nat_lt 0 (length lines))) }
    ensures part { OnErr result
        ((lines : List ℕ) → AreOuterLines name.now set.now text.now.source text.now.tokens lines
        → BeginsWith (W.taken out.old) (W.taken out.new) lines) }
    ensures writes { CountsWrites result (W.failed out.old) (W.failed out.new) }
    ensures faults { IsOfWriting result }
{
    let triples = outer_matches(alloc, set, text)?;
    put_valued(alloc, name, text, out, set, triples.as_slice())?;
    Ok(!triples.is_empty())
}
