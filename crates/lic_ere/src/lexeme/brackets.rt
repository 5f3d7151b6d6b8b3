//! Brackets.
ghost use Rattle.std.specs.Prelude.{◌≡◌, ◌<◌, length, List, true, IfOk, Ok};
ghost use Rattle.lic_ere.specs.Located.{Located, with_remaining};
ghost use Rattle.lic_ere.specs.Sets.{Brackets};
ghost use Rattle.lic_ere.specs.Spelling.{IsBracket};
ghost use Rattle.lic_ere.specs.Faults.{Gives, map_ok};
ghost use Rattle.lic_ere.specs.Brackets.{begins_extension, single_at, range_at, member_at, closes, members_at, complement_at, bracket_at};
ghost use Rattle.lic_ere.specs.Views.{left, seen};

use crate::class::{Class, Member};
use crate::fault::{EreCause, EreFault};
use crate::remaining::Remaining;
use std::alloc::Global;

/// Whether a character is a `[` directly before `:`, `.` or `=`, which is no part of a set here.
fn begins_extension(character: char, rest: Remaining<'_>) -> bool
    ensures { result ≡ begins_extension character (left rest.entry) }
{
    let Some(((_, next), _)) = rest.split_first() else {
        return false;
    };
    character == '[' && matches!(next, ':' | '.' | '=')
}

/// A member of one character.
fn single(offset: usize, character: char, rest: Remaining<'_>) -> Result<Member, EreFault>
    ensures { Gives (λ x. x) result (single_at (offset, character) (left rest.entry)) }
{
    if begins_extension(character, rest) {
        return Err(EreFault {
            offset,
            cause: EreCause::BracketExtension,
        });
    }
    Ok(Member {
        first: character,
        last: character,
    })
}

/// A member from one character to another, each with its offset.
fn range(first: (usize, char), last: (usize, char), rest: Remaining<'_>) -> Result<Member, EreFault>
    ensures { Gives (λ x. x) result (range_at first last (left rest.entry)) }
{
    if last.1 < first.1 {
        return Err(EreFault {
            offset: first.0,
            cause: EreCause::RangeOutOfOrder,
        });
    }
    if begins_extension(last.1, rest) {
        return Err(EreFault {
            offset: last.0,
            cause: EreCause::BracketExtension,
        });
    }
    Ok(Member {
        first: first.1,
        last: last.1,
    })
}

/// The member that begins with a character, and what follows it.
#[tactic(auto, unfolding(crate::specs::Brackets::member_at))]
fn member(first: (usize, char), rest: Remaining<'_>) -> Result<(Member, Remaining<'_>), EreFault>
    ensures { Gives seen result
        (map_ok (with_remaining (left rest.entry)) (member_at first (left rest.entry))) }
{
    if let Some(((_, '-'), following)) = rest.split_first()
        && let Some((last, after)) = following.split_first()
        && last.1 != ']'
    {
        return Ok((range(first, last, after)?, after));
    }
    Ok((single(first.0, first.1, rest)?, rest))
}

/// Whether a character closes the bracket, as a `]` does that is not its first member.
fn closes(first: bool, character: char) -> bool
    ensures { result ≡ closes first character }
{
    !first && character == ']'
}

/// The members of the bracket that opens at an offset, and what follows its `]`.
fn members(
    alloc: Global,
    offset: usize,
    all: Remaining<'_>,
) -> Result<(Vec<Member>, Remaining<'_>), EreFault>
    ensures { Gives (λ x. (x.0.items, left x.1)) result
        (map_ok (with_remaining (left all.entry)) (members_at offset true 0 (left all.entry))) }
{
    let mut members = Vec::new(alloc);
    let mut rest = all;
    while let Some((first, after)) = rest.split_first() {
        if closes(members.is_empty(), first.1) {
            return Ok((members, after));
        }
        let (member, following) = member(first, after)?;
        members.push(member)?;
        rest = following;
    }
    Err(EreFault {
        offset,
        cause: EreCause::BracketNotClosed,
    })
}

/// Whether a `^` comes first, and what follows it.
fn complement(rest: Remaining<'_>) -> (bool, Remaining<'_>)
    ensures { (result.0, left result.1)
        ≡ with_remaining (left rest.entry) (complement_at (left rest.entry)) }
{
    match rest.split_first() {
        Some((first, after)) if first.1 == '^' => (true, after),
        _ => (false, rest),
    }
}

/// The set of the bracket that opens at an offset, and what follows the bracket.
pub fn bracket(
    alloc: Global,
    offset: usize,
    rest: Remaining<'_>,
) -> Result<(Class, Remaining<'_>), EreFault>
    // What is read is spelled so.
    ensures found { IfOk result (λ x. IsBracket (left rest.entry) (left x.1) x.0) }
    // What is spelled so is read, unless memory runs out.
    ensures only { (b : Brackets) (end : List Located) → IsBracket (left rest.entry) end b
        → Gives seen result (Ok (b, end)) }
    ensures exact { Gives seen result
        (map_ok (with_remaining (left rest.entry)) (bracket_at offset (left rest.entry))) }
{
    bracket_after(alloc, offset, rest)
}

#[tactic(auto, unfolding(crate::specs::Brackets::bracket_at))]
fn bracket_after(
    alloc: Global,
    offset: usize,
    rest: Remaining<'_>,
) -> Result<(Class, Remaining<'_>), EreFault>
    ensures { Gives seen result
        (map_ok (with_remaining (left rest.entry)) (bracket_at offset (left rest.entry))) }
{
    let (complement, rest) = complement(rest);
    let (mut members, rest) = members(alloc, offset, rest)?;
    members.shrink_to_fit();
    Ok((Class::new(alloc, members, complement)?, rest))
}
