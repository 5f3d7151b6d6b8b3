//! Lexemes: what a pattern is made of.
ghost use Rattle.std.specs.Prelude.{◌≡◌, Some};
ghost use Rattle.lic_ere.specs.Bounds.{bounds_at};
ghost use Rattle.lic_ere.specs.Located.{with_remaining};
ghost use Rattle.lic_ere.specs.Faults.{Gives, map_ok};
ghost use Rattle.lic_ere.specs.Lexemes.{means_nothing, anchor_at, escaped_at, counted_sign, sign, bounds, lexeme_at};
ghost use Rattle.lic_ere.specs.Views.{left, lexeme_of};

pub(crate) mod bounds;
mod brackets;

use crate::ere::Ere;
use crate::fault::{EreCause, EreFault};
use crate::letters::letters;
use crate::lexeme::bounds::{Bounds, read_bounds};
use crate::lexeme::brackets::bracket;
use crate::remaining::Remaining;
use std::alloc::Global;

/// What is at one offset of a pattern.
#[derive(Drop)]
pub enum Lexeme {
    /// A unit that is no group: `.`, a bracket, or a character.
    Unit(Ere),
    /// A repetition sign, with its bounds where they can be read.
    Sign(Option<Bounds>),
    /// `(`
    Opening,
    /// `)`
    Closing,
    /// `|`
    Bar,
    /// The first `^` or the last `$`, which mean nothing.
    Anchor,
}

/// Whether a character is a `^` at the beginning or a `$` at the end.
fn means_nothing(offset: usize, character: char, rest: Remaining<'_>) -> bool
    ensures { result ≡ means_nothing (offset, character) (left rest.entry) }
{
    (character == '^' && offset == 0) || (character == '$' && rest.is_empty())
}

/// A `^` or a `$`.
fn anchor(offset: usize, character: char, rest: Remaining<'_>) -> Result<Lexeme, EreFault>
    ensures { Gives (λ x. (lexeme_of x, 0)) result
        (anchor_at (offset, character) (left rest.entry)) }
{
    if means_nothing(offset, character, rest) {
        Ok(Lexeme::Anchor)
    } else {
        Err(EreFault {
            offset,
            cause: EreCause::AnchorInside,
        })
    }
}

/// What a `\` at an offset begins, and what follows it.
fn escaped(
    alloc: Global,
    offset: usize,
    rest: Remaining<'_>,
) -> Result<(Lexeme, Remaining<'_>), EreFault>
    ensures { Gives (λ x. (lexeme_of x.0, left x.1)) result
        (map_ok (with_remaining (left rest.entry)) (escaped_at offset (left rest.entry))) }
{
    let Some((next, after)) = rest.split_first() else {
        return Err(EreFault {
            offset,
            cause: EreCause::EndsInBackslash,
        });
    };
    if !next.1.is_ascii_punctuation() {
        return Err(EreFault {
            offset,
            cause: EreCause::UnknownEscape,
        });
    }
    Ok((Lexeme::Unit(letters(alloc, next.1)?), after))
}

/// What a `{` begins, and what follows it.
fn counted(rest: Remaining<'_>) -> (Lexeme, Remaining<'_>)
    ensures { (lexeme_of result.0, left result.1)
        ≡ with_remaining (left rest.entry) (counted_sign (bounds_at (left rest.entry))) }
{
    match read_bounds(rest) {
        Some((bounds, after)) => (Lexeme::Sign(Some(bounds)), after),
        None => (Lexeme::Sign(None), rest),
    }
}

/// The sign that repeats from `min` times to `max` times.
fn sign(min: u32, max: Option<u32>) -> Lexeme
    ensures { lexeme_of result ≡ sign (Some (bounds min max)) }
{
    Lexeme::Sign(Some(Bounds { min, max }))
}

/// The lexeme that begins with a character, and what follows it.
#[tactic(auto, unfolding(crate::specs::Lexemes::lexeme_at))]
pub fn next_lexeme(
    alloc: Global,
    offset: usize,
    character: char,
    rest: Remaining<'_>,
) -> Result<(Lexeme, Remaining<'_>), EreFault>
    ensures { Gives (λ x. (lexeme_of x.0, left x.1)) result
        (map_ok (with_remaining (left rest.entry)) (lexeme_at (offset, character) (left rest.entry))) }
{
    match character {
        '.' => Ok((Lexeme::Unit(Ere::Any), rest)),
        '*' => Ok((sign(0, None), rest)),
        '+' => Ok((sign(1, None), rest)),
        '?' => Ok((sign(0, Some(1)), rest)),
        '{' => Ok(counted(rest)),
        '(' => Ok((Lexeme::Opening, rest)),
        ')' => Ok((Lexeme::Closing, rest)),
        '|' => Ok((Lexeme::Bar, rest)),
        '[' => {
            let (class, rest) = bracket(alloc, offset, rest)?;
            Ok((Lexeme::Unit(Ere::Set(class)), rest))
        }
        '\\' => escaped(alloc, offset, rest),
        '^' | '$' => Ok((anchor(offset, character, rest)?, rest)),
        _ => Ok((Lexeme::Unit(letters(alloc, character)?), rest)),
    }
}
