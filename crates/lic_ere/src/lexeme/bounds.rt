//! The bounds of a repetition.
ghost use Rattle.std.specs.Prelude.{◌≡◌, ◌==◌, List, Some, IfSome, not, min, length, drop};
ghost use Rattle.std.specs.Str.Parse.{digits_value};
ghost use Rattle.std.specs.Option.{option_map};
ghost use Rattle.lic_ere.specs.Bounds.{digits, number_at, upper_bound, bounds_at};
ghost use Rattle.lic_ere.specs.Located.{Located, with_remaining};
ghost use Rattle.lic_ere.specs.Spelling.{IsBounds};
ghost use Rattle.lic_ere.specs.Views.{left, seen};
ghost use Rattle.lic_ere.specs.declared.lexeme.bounds.Bounds.{Bounds};

use crate::remaining::Remaining;

/// How often: from `min` times to `max` times, or without end.
#[derive(Clone, Copy, Debug)]
pub struct Bounds {
    pub min: u32,
    pub max: Option<u32>,
}

/// The greatest bound.
const MAX_BOUND: u32 = 65_535;

/// The bounds after a `{`, and what follows their `}`.
pub fn read_bounds(rest: Remaining<'_>) -> Option<(Bounds, Remaining<'_>)>
    // What is read is spelled so.
    ensures found { IfSome result (λ x. IsBounds (left rest.entry) (left x.1) x.0) }
    // What is spelled so is read.
    ensures only { (b : Bounds) (end : List Located) → IsBounds (left rest.entry) end b
        → option_map seen result ≡ Some (b, end) }
    ensures exact { option_map seen result
        ≡ option_map (with_remaining (left rest.entry)) (bounds_at (left rest.entry)) }
{
    bounds_after(rest)
}

#[tactic(auto, unfolding(crate::specs::Bounds::bounds_at))]
fn bounds_after(rest: Remaining<'_>) -> Option<(Bounds, Remaining<'_>)>
    ensures { option_map seen result
        ≡ option_map (with_remaining (left rest.entry)) (bounds_at (left rest.entry)) }
{
    let (min, rest) = number(rest)?;
    let ((_, character), rest) = rest.split_first()?;
    match character {
        '}' => Some((
            Bounds {
                min,
                max: Some(min),
            },
            rest,
        )),
        ',' => upper_bound(min, rest),
        _ => None,
    }
}

/// Both bounds, from what follows the lower one and its comma.
#[tactic(auto, unfolding(crate::specs::Bounds::upper_bound))]
fn upper_bound(min: u32, rest: Remaining<'_>) -> Option<(Bounds, Remaining<'_>)>
    ensures { option_map seen result
        ≡ option_map (with_remaining (left rest.entry)) (upper_bound min (left rest.entry)) }
{
    let ((_, character), after) = rest.split_first()?;
    if character == '}' {
        return Some((Bounds { min, max: None }, after));
    }
    let (max, rest) = number(rest)?;
    let ((_, character), rest) = rest.split_first()?;
    if character == '}' && min <= max {
        Some((
            Bounds {
                min,
                max: Some(max),
            },
            rest,
        ))
    } else {
        None
    }
}

/// The number that the leading digits write, if it is a bound, and what follows them.
#[tactic(auto, unfolding(crate::specs::Bounds::number_at))]
fn number(rest: Remaining<'_>) -> Option<(u32, Remaining<'_>)>
    ensures { option_map seen result
        ≡ option_map (with_remaining (left rest.entry)) (number_at (left rest.entry)) }
{
    let (value, is_some, rest) = digits(rest);
    if !is_some || value > MAX_BOUND {
        return None;
    }
    Some((value, rest))
}

/// The number that the leading digits write, or 65,536 for a greater one; whether there are digits; and what follows
/// them.
fn digits(all: Remaining<'_>) -> (u32, bool, Remaining<'_>)
    ensures value { result.0 ≡ min (digits_value 10 (digits (left all.entry))) 65536 }
    ensures some { result.1 ≡ not (length (digits (left all.entry)) == 0) }
    ensures rest { left result.2 ≡ drop (length (digits (left all.entry))) (left all.entry) }
{
    let mut value: u32 = 0;
    let mut is_some = false;
    let mut rest = all;
    while let Some(((_, character), after)) = rest.split_first() {
        let Some(digit) = character.to_digit(10) else {
            return (value, is_some, rest);
        };
        value = (value * 10 + digit).min(MAX_BOUND + 1);
        is_some = true;
        rest = after;
    }
    (value, is_some, rest)
}
