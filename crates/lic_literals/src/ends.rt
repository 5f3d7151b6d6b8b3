//! The offsets at which a literal ends in bytes.

ghost use Rattle.std.specs.Prelude.{◌≤◌, ◌<◌, ◌↔◌, ℕ, IfOk, Contains, length};
ghost use Rattle.std.specs.List.Sorted.{IsStrictlyIncreasing};
ghost use Rattle.lic_literals.specs.Ends.{EndsAt};

use memchr::memmem::Finder;
use std::alloc::{AllocError, Global};

/// The offsets in `from..=to` (bytes) at which the literal ends, in rising order. Occurrences may overlap.
pub fn ends_within(
    alloc: Global,
    bytes: &[u8],
    literal: &[u8],
    from: usize,
    to: usize,
) -> Result<Vec<usize>, AllocError>
    requires some { 0 < length literal.now }
    requires within { to ≤ length bytes.now }
    ensures exact { IfOk result (λ ends. (e : ℕ)
        → Contains ends.items e ↔ ((from ≤ e) × (e ≤ to) × EndsAt bytes.now literal.now e)) }
    ensures rising { IfOk result (λ ends. IsStrictlyIncreasing ends.items) }
{
    let finder = Finder::new(literal);
    let mut ends = Vec::new(alloc);
    let mut start = from.saturating_sub(literal.len());
    while start < to {
        let Some(offset) = finder.find(&bytes[start..to]) else {
            break;
        };
        ends.push(start + offset + literal.len())?;
        start += offset + 1;
    }
    Ok(ends)
}
