//! One triple by itself.

ghost use Rattle.std.specs.Prelude.{◌↔◌, IfOk, IsTrue};
ghost use Rattle.lic_set.specs.Matches.{IsMatch};

use lic_auto::{Run, Set, Triple};
use lic_norm::Text;
use std::alloc::{AllocError, Global};

/// Whether a triple is a match: it has a range of the text's tokens, and its template describes it (SPDX 2.3 Annex B,
/// this project's profile).
///
/// # Errors
///
/// Fails if memory runs out.
pub fn is_match(alloc: Global, set: &Set, text: &Text, triple: Triple) -> Result<bool, AllocError>
    ensures { IfOk result (λ yes. IsTrue yes ↔ IsMatch set.now text.now.tokens triple) }
{
    if triple.first > triple.last || triple.last >= text.len() || triple.template >= set.len() {
        return Ok(false);
    }
    let only = Vec::from_slice(alloc, &[triple.template])?;
    let mut run = Run::over(alloc, set, only)?;
    for number in triple.first..triple.last + 1 {
        run.push(text.token(number).text);
    }
    Ok(run.accepted(triple.template) == Some(triple.template))
}
