//! Optional parts that are copies of one text: in a row, or each within the one before it.

ghost use Rattle.std.specs.Prelude.{◌≡◌, ◌+◌, ◌<◌, ◌≤◌, ◌↔◌, length, map, slice_get, Some, IsTrue, IfSome, MatchOption};
ghost use Rattle.std.specs.Str.{chars};
ghost use Rattle.lic_words.specs.Words.{Word};
ghost use Rattle.lic_words.specs.Expressions.{Language, letters};
ghost use Rattle.lic_markup.specs.Meaning.{part_words};
ghost use Rattle.lic_markup.specs.Parts as nodes;
ghost use Rattle.lic_markup.specs.Parts.{part_of, sequence};
ghost use Rattle.lic_markup.specs.PartTexts.{HasPieceTexts, HavePieceTexts};
ghost use Rattle.lic_phrases.specs.PieceTexts.{IsPieceText};
ghost use Rattle.lic_search.specs.Copies.{AreCopies};
ghost use Rattle.lic_reverse.specs.Tidily.{UpTo};

use lic_markup::Part;

/// Optional copies of one text.
#[derive(Clone, Copy, Debug)]
pub(crate) struct Copies<'t> {
    pub(crate) text: &'t str,
    /// How many there may be.
    pub(crate) count: usize,
    /// The number of the first part of them.
    pub(crate) first: usize,
}

/// The optional copies of one text, if any, with which the parts before one of them end.
pub(crate) fn last_copies(parts: &[Part], end: usize) -> Option<Copies<'_>>
    requires some { 0 < end }
    requires within { end ≤ length parts.now }
    requires texts { HavePieceTexts (sequence (map part_of parts.now)) }
    ensures copies { IfSome result (λ copies. AreCopies parts.now end copies.text.now copies.first copies.count) }
    ensures some { IfSome result (λ copies. copies.first < end) }
    ensures piece { IfSome result (λ copies. IsPieceText copies.text.now) }
{
    let text = copied_text(&parts[end - 1])?;
    let copies = copies_before(parts, end, text);
    if copies.first == end || copies.count < 2 {
        return None;
    }
    Some(copies)
}

// The text of which an optional part may be copies.
fn copied_text(part: &Part) -> Option<&str>
    requires { HasPieceTexts (part_of part.now) }
    ensures { IfSome result (λ text. IsPieceText text.now) }
{
    let Part::Optional(body) = part else {
        return None;
    };
    if body.is_empty() {
        return None;
    }
    match &body[0] {
        Part::Text(text) => Some(text),
        Part::Var { .. } | Part::Optional(_) => None,
    }
}

// The optional copies of a text with which the parts before one of them end.
#[cycle(copies)]
fn copies_before<'t>(parts: &[Part], end: usize, text: &'t str) -> Copies<'t>
    requires { end ≤ length parts.now }
    ensures text { result.text.now ≡ text.now }
    ensures copies { AreCopies parts.now end text.now result.first result.count }
{
    let mut count: usize = 0;
    for number in (0..end).rev() {
        let Some(sum) = sum_of(count, copies_of(&parts[number], text)) else {
            let first = number + 1;
            return Copies { text, count, first };
        };
        count = sum;
    }
    let first = 0;
    Copies { text, count, first }
}

// How many copies of a text a part may be.
#[cycle(copies)]
fn copies_of(part: &Part, text: &str) -> Option<usize>
    ensures { IfSome result (λ count. (w : Word) → Language (part_words part.now) w ↔ UpTo (Language (letters (chars text.now))) count w) }
{
    let Part::Optional(body) = part else {
        return None;
    };
    if !begin_with(body, text) {
        return None;
    }
    let others = copies_before(body, body.len(), text);
    if others.first != 1 {
        return None;
    }
    others.count.checked_add(1)
}

// Whether the first of some parts is a text.
fn begin_with(parts: &[Part], text: &str) -> bool
    ensures { IsTrue result → slice_get (map part_of parts.now) 0 ≡ Some (nodes.letters text.now) }
{
    if parts.is_empty() {
        return false;
    }
    match &parts[0] {
        Part::Text(first) => first.as_str() == text,
        Part::Var { .. } | Part::Optional(_) => false,
    }
}

// The sum of two numbers, where there are both and it is one.
fn sum_of(count: usize, more: Option<usize>) -> Option<usize>
    ensures { IfSome result (λ sum. MatchOption more ⊥ (λ more. sum ≡ more + count)) }
{
    more?.checked_add(count)
}
