//! Whether templates describe their original texts.

ghost use Rattle.std.specs.Prelude.{◌≡◌, ◌<◌, ◌↔◌, ℕ, List, Contains, length, IfOk, OnErr, IsErrOf, IsTrue, Some, slice_index_or};
ghost use Rattle.std.specs.Io.KnownBytes.{Appends};
ghost use Rattle.std.specs.List.{list_all};
ghost use Rattle.lic_set.specs.Matches.{all_letters};
ghost use Rattle.lic_set.specs.Sets.{Known, words_of};
ghost use Rattle.lic_kind.specs.LineRules.{rules_of};
ghost use Rattle.lic_norm.specs.Refusal.{refusal_of};
ghost use Rattle.lic_norm.specs.Tokens.{tokens_of};
ghost use Rattle.lic_words.specs.Describing.{IsDescribed};
ghost use Rattle.lic_stream.specs.Stream.{BeginsWith};
ghost use Rattle.lic_report.specs.Checking.{Checked, DescribesItsOriginal, IsCheckReport, says_yes};
ghost use Rattle.lic_engine.specs.Failures.{CountsWrites, IsOfText, Keeps};

use crate::fault::RunFault;
use lic_find::is_match;
use lic_kind::Rules;
use lic_norm::{Text, TextFault, Words};
use lic_report::add_checked;
use lic_set::{Set, Triple};
use lic_stream::{Sink, put_all};
use std::alloc::{AllocError, Global};

/// The tokens of a template's original text.
fn original_text(
    alloc: Global,
    set: &Set,
    words: &Words,
    rules: &Rules,
    k: usize,
) -> Result<Text, RunFault>
    requires { k < length set.now }
    ensures tokens { (d : Known)
        → IfOk result (λ text. text.tokens
        ≡ tokens_of (rules_of rules.now) words.now
        (slice_index_or set.now k d).template.original) }
    ensures text { (fault : _) → IsErrOf result (RunFault.Text fault)
        → (d : Known) → refusal_of (slice_index_or set.now k d).template.original ≡ Some fault }
    ensures faults { IsOfText result }
{
    let original = set.template(k).original().as_bytes().to_vec(alloc)?;
    match Text::read(alloc, original, words, rules) {
        Ok(text) => Ok(text),
        Err(TextFault::Memory) => Err(RunFault::Memory),
        Err(fault) => Err(RunFault::Text(fault)),
    }
}

/// Whether a template describes all tokens of a text, and there is one.
fn describes(alloc: Global, set: &Set, text: &Text, k: usize) -> Result<bool, AllocError>
    requires { k < length set.now }
    ensures { (d : Known) → IfOk result (λ yes. IsTrue yes
        ↔ IsDescribed (words_of (slice_index_or set.now k d)) (all_letters text.now.tokens)) }
{
    let Some(last) = text.len().checked_sub(1) else {
        return Ok(false);
    };
    let whole = Triple {
        first: 0,
        last,
        template: k,
    };
    is_match(alloc, set, text, whole)
}

/// Whether a template describes its original text.
fn describes_original(
    alloc: Global,
    set: &Set,
    words: &Words,
    rules: &Rules,
    k: usize,
) -> Result<bool, RunFault>
    requires { k < length set.now }
    ensures yes { (d : Known)
        → IfOk result (λ yes. IsTrue yes
        ↔ DescribesItsOriginal (rules_of rules.now) words.now (slice_index_or set.now k d)) }
    ensures text { (fault : _) → IsErrOf result (RunFault.Text fault)
        → (d : Known) → refusal_of (slice_index_or set.now k d).template.original ≡ Some fault }
    ensures faults { IsOfText result }
{
    let text = original_text(alloc, set, words, rules, k)?;
    Ok(describes(alloc, set, &text, k)?)
}

/// Writes a line for each template: its identifier, its weight, and whether it describes its original text (`yes` or `no`).
/// The answer says whether no line says `no`.
///
/// An original text is made into tokens by `words` and `rules`. Where one is refused, nothing is written: the lines are written
/// once all are known. After a write that failed, and where memory ran out, what was written is a beginning of the lines. A
/// failed call is not tried again.
pub fn check<W: Sink>(
    alloc: Global,
    set: &Set,
    words: &Words,
    out: &mut W,
    rules: &Rules,
) -> Result<bool, RunFault>
    // The lines of all templates.
    ensures report { IfOk result (λ all. (checked : List Checked) × (lines : List ℕ)
        × IsCheckReport (rules_of rules.now) set.now words.now checked lines
        × Appends (W.taken out.old) (W.taken out.new) lines
        × (all ≡ list_all says_yes checked)) }
    // A beginning of the lines.
    ensures part { OnErr result
        ((checked : List Checked) (lines : List ℕ)
        → IsCheckReport (rules_of rules.now) set.now words.now checked lines
        → BeginsWith (W.taken out.old) (W.taken out.new) lines) }
    // An original text that is refused: nothing is written.
    ensures text { (fault : _) → IsErrOf result (RunFault.Text fault)
        → (known : Known) × Contains set.now known
        × (refusal_of known.template.original ≡ Some fault) }
    ensures keeps { Keeps result out.old out.new }
    // A failure to write comes from the writer, and no other call failed; nothing is read.
    ensures writes { CountsWrites result (W.failed out.old) (W.failed out.new) }
    ensures no_read { ¬ (IsErrOf result RunFault.Read) }
{
    let mut lines = Vec::new(alloc);
    let mut all = true;
    for k in 0..set.len() {
        let yes = describes_original(alloc, set, words, rules, k)?;
        add_checked(&mut lines, set, k, yes)?;
        all &= yes;
    }
    put_all(out, lines.as_slice())?;
    Ok(all)
}
