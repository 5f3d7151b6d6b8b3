//! Filters of matches: those that hold no smaller one, and those of these that no greater one holds.

ghost use Rattle.std.specs.Prelude.{◌≡◌, ◌↔◌, IfOk, IsTrue, IsSorted, Bool, Contains, filter};
ghost use Rattle.lic_set.specs.declared.triple.Triple.{Triple};
ghost use Rattle.lic_filters.specs.Filters.{tight_of, outermost_of, outer_of, triple_cmp, SameMembers};

use lic_set::Triple;
use std::alloc::{AllocError, Global};
use std::cmp::Reverse;

/// The tight triples of a list, in its order: those in whose range no other range of a triple of the same template lies
/// (this project's profile).
///
/// The list may be in any order, with repeats, and its ranges may be any two numbers.
pub fn tight(alloc: Global, triples: &[Triple]) -> Result<Vec<Triple>, AllocError>
    ensures { IfOk result (λ found. found.items ≡ tight_of triples.now) }
{
    let mut found = Vec::from_slice(alloc, triples)?;
    keep_members(&mut found, tight_members(alloc, triples)?);
    Ok(found)
}

/// The outer triples of a list, in its order: the tight ones whose range no other range of a tight triple of another
/// template contains (this project's profile).
///
/// The list may be in any order, with repeats, and its ranges may be any two numbers.
pub fn outer(alloc: Global, triples: &[Triple]) -> Result<Vec<Triple>, AllocError>
    ensures { IfOk result (λ found. found.items ≡ outer_of triples.now) }
{
    let found = tight(alloc, triples)?;
    outermost(alloc, found)
}

/// The outer ones of triples that are tight, in their order: what `outer` answers of them, without looking for tight ones once more.
pub fn outermost(alloc: Global, mut tight: Vec<Triple>) -> Result<Vec<Triple>, AllocError>
    requires { tight_of tight.items ≡ tight.items }
    ensures { IfOk result (λ found. found.items ≡ outermost_of tight.items) }
{
    let members = outermost_members(alloc, &tight)?;
    keep_members(&mut tight, members);
    Ok(tight)
}

// The tight members of a list, each once. In this order what lies inside a range of its template precedes it, and
// the last one kept has the least last token of its template so far.
fn tight_members(alloc: Global, triples: &[Triple]) -> Result<Vec<Triple>, AllocError>
    ensures { IfOk result (λ members. SameMembers members.items (tight_of triples.now)) }
{
    let mut members = Vec::from_slice(alloc, triples)?;
    members.sort_unstable_by_key(|t| (t.template, Reverse(t.first), t.last));
    members.dedup_by(|t, kept| t.template == kept.template && t.last >= kept.last);
    Ok(members)
}

// The outermost members of a list of tight ones. In this order what contains a range precedes it, and the last one
// kept has the greatest last token so far. Tight ranges of one template do not contain each other, so no template is
// asked for.
fn outermost_members(alloc: Global, tight: &[Triple]) -> Result<Vec<Triple>, AllocError>
    requires { tight_of tight.now ≡ tight.now }
    ensures { IfOk result (λ members. SameMembers members.items (outermost_of tight.now)) }
{
    let mut members = Vec::from_slice(alloc, tight)?;
    members.sort_unstable_by_key(|t| (t.first, Reverse(t.last)));
    members.dedup_by(|t, kept| {
        t.last <= kept.last && (t.first, t.last) != (kept.first, kept.last)
    });
    Ok(members)
}

// Keeps the triples that are among the members, in their order.
fn keep_members(triples: &mut Vec<Triple>, mut members: Vec<Triple>)
    ensures { (p : Triple → Bool) → SameMembers members.items (filter p triples.old.items)
        → triples.new.items ≡ filter p triples.old.items }
{
    members.sort_unstable();
    triples.retain(|triple| is_member(&members, triple));
}

// Whether a triple is among others, which are in order.
fn is_member(sorted: &[Triple], triple: &Triple) -> bool
    requires { IsSorted triple_cmp sorted.now }
    ensures { IsTrue result ↔ Contains sorted.now triple.now }
{
    sorted.binary_search(triple).is_ok()
}
