//! What patterns and parts weigh, and whether parts give a token.
ghost use Rattle.std.specs.Prelude.{◌≡◌, min, map, length, chars};
ghost use Rattle.lic_ere.specs.Trees as trees;
ghost use Rattle.lic_markup.specs.Weights as weights;
ghost use Rattle.lic_markup.specs.Parts as nodes;

use crate::part::Part;
use lic_ere::Ere;

/// One more than the greatest weight: weights are counted up to it.
pub const ENOUGH: u64 = 131_073;

/// How often the weight of its body a repetition weighs.
fn times(min: u32, max: Option<u32>) -> u64
    ensures { result ≡ weights.times min max }
{
    match max {
        Some(max) => u64::from(max),
        None => u64::from(min.max(1)),
    }
}

/// What a pattern weighs, or `ENOUGH` where that is more.
#[cycle(pattern_weight)]
pub fn pattern_weight(ere: &Ere) -> u64
    ensures { result ≡ min (weights.weight (trees.tree_of ere.now)) 131073 }
{
    match ere {
        Ere::Empty => 0,
        Ere::Char(_) => 1,
        Ere::Any => 1,
        Ere::Set(_) => 1,
        Ere::Cat(subs) => pattern_weights(subs),
        Ere::Alt(subs) => pattern_weights(subs),
        Ere::Repeat { body, min, max } => pattern_weight(body)
            .saturating_mul(times(*min, *max))
            .min(ENOUGH),
    }
}

/// What patterns weigh together, or `ENOUGH` where that is more.
#[cycle(pattern_weight)]
fn pattern_weights(subs: &[Ere]) -> u64
    ensures { result ≡ min (weights.weights (trees.sequence (map trees.tree_of subs.now))) 131073 }
{
    let mut sum: u64 = 0;
    for i in 0..subs.len() {
        sum = sum.saturating_add(pattern_weight(&subs[i])).min(ENOUGH);
    }
    sum
}

/// How many letters a text has.
fn letter_count(text: &str) -> usize
    ensures { result ≡ length (chars text.now) }
{
    text.chars().count()
}

/// How many letters a text has, or `ENOUGH` where that is more.
fn text_weight(text: &str) -> u64
    ensures { result ≡ min (length (chars text.now)) 131073 }
{
    (letter_count(text) as u64).min(ENOUGH)
}

/// What a part weighs, or `ENOUGH` where that is more.
#[cycle(part_weight)]
fn part_weight(part: &Part) -> u64
    ensures { result ≡ min (nodes.node_weight (nodes.part_of part.now)) 131073 }
{
    match part {
        Part::Text(text) => text_weight(text),
        Part::Var { ere, .. } => pattern_weight(ere),
        Part::Optional(parts) => parts_weight(parts),
    }
}

/// What parts weigh together, or `ENOUGH` where that is more.
#[cycle(part_weight)]
pub fn parts_weight(parts: &[Part]) -> u64
    ensures { result ≡ min (nodes.sequence_weight (nodes.sequence (map nodes.part_of parts.now))) 131073 }
{
    let mut sum: u64 = 0;
    for i in 0..parts.len() {
        sum = sum.saturating_add(part_weight(&parts[i])).min(ENOUGH);
    }
    sum
}

/// Whether some letter is no blank.
fn gives_token(text: &str) -> bool
    ensures { result ≡ nodes.gives_token text.now }
{
    text.chars().any(|c| c != ' ')
}

/// Whether some text of a part has a letter that is no blank.
#[cycle(has_token)]
fn has_token(part: &Part) -> bool
    ensures { result ≡ nodes.has_token (nodes.part_of part.now) }
{
    match part {
        Part::Text(text) => gives_token(text),
        Part::Var { .. } => false,
        Part::Optional(parts) => have_token(parts),
    }
}

/// Whether some text of these parts has a letter that is no blank.
#[cycle(has_token)]
pub fn have_token(parts: &[Part]) -> bool
    ensures { result ≡ nodes.sequence_has_token (nodes.sequence (map nodes.part_of parts.now)) }
{
    let mut any = false;
    for i in 0..parts.len() {
        any = any | has_token(&parts[i]);
    }
    any
}
