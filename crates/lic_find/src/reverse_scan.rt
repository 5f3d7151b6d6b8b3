//! The reverse scan of a text that notes the first tokens of matches.

ghost use Rattle.std.specs.Prelude.{◌<◌, ◌≤◌, ◌-◌, ◌*◌, ◌^◌, IfOk, length, drop};
ghost use Rattle.lic_set.specs.Rising.{IsRising};
ghost use Rattle.lic_find.specs.Bounds.{letters_of};
ghost use Rattle.lic_find.specs.Firsts.{AreFirstsFrom};
ghost use Rattle.lic_find.specs.Starts.{HasAtMost, starts_in};

use crate::starts::Starts;
use lic_auto::{Back, Set};
use lic_norm::Text;
use std::alloc::{AllocError, Global};

/// The first tokens, from this one on, of matches of the templates of these numbers, and the steps of the reverse scan of these tokens
/// that noted them. Fails if memory runs out.
pub fn first_tokens(
    alloc: Global,
    set: &Set,
    text: &Text,
    numbers: Vec<usize>,
    from: usize,
) -> Result<(Starts, u64), AllocError>
    requires rising { IsRising numbers.items (length set.now) }
    requires within { from ≤ length text.now.tokens }
    ensures firsts { IfOk result (λ found.
        AreFirstsFrom set.now text.now.tokens numbers.items from (starts_in found.0)) }
    ensures memory { IfOk result (λ found. HasAtMost found.0 (length text.now.tokens)) }
    ensures most { IfOk result (λ found. found.1 ≤ 2 * letters_of text.now.tokens) }
    ensures least { IfOk result (λ found. found.1 < 2 ^ 64 - 1
        → letters_of (drop from text.now.tokens) ≤ found.1) }
{
    let mut back = Back::over(alloc, set, numbers)?;
    let mut starts = Starts::none(alloc);
    for first in (from..text.len()).rev() {
        back.push_front(text.token(first).text);
        let live = back.live_numbers();
        if !live.is_empty() {
            starts.add(first, live)?;
        }
    }
    Ok((starts, back.steps()))
}
