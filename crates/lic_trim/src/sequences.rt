//! The longest sequence of pieces at a side of a line: its lead, or its tail.
ghost use Rattle.std.specs.Prelude.{◌≡◌, ◌+◌, ◌-◌, ◌<◌, ◌≤◌, ◌&&◌, IfOk, false, length, map, nat_le, reverse, replicate, slice_index, bytes_eq};
ghost use Rattle.std.specs.List.{list_any, All};
ghost use Rattle.lic_kind.specs.Kinds.{kind_of, is_mark_kind};
ghost use Rattle.lic_trim.specs.Sources.{chars_of};
ghost use Rattle.lic_kind.specs.LineRules.{texts_of, rules_of};
ghost use Rattle.lic_trim.specs.Texts.{is_sequence, longest_front};
ghost use Rattle.lic_trim.specs.Lines.{is_space, is_separator};
ghost use Rattle.lic_trim.specs.Walks.{walked, is_walked_piece, side_texts, side_spaced, side_repeated, ends_piece, IsStreakFront, spaced_text_ends, repeat_ends};

use crate::side::{Side, char_at, is_text, part};
use crate::source::SourceChar;
use lic_kind::{Kind, RuleKind, Rules, Texts, kind_of};
use std::alloc::{AllocError, Global};

pub(crate) fn is_mark(c: char) -> bool
    ensures { result ≡ is_mark_kind (kind_of c) }
{
    kind_of(c) == Kind::Mark
}

/// Whether this text ends here, after a sequence.
fn text_ends(text: &[char], flags: &[bool], line: &[SourceChar], side: Side, end: usize) -> bool
    requires flagged { end ≤ length flags.now }
    requires within { end ≤ length line.now }
    ensures { result ≡ ends_piece (bytes_eq (walked side text.now)) flags.now
        (walked side (chars_of line.now)) end }
{
    let len = text.len();
    if len == 0 || len > end {
        return false;
    }
    flags[end - len] && is_text(text, part(line, side, end - len, end))
}

/// Whether one of these texts ends here, after a sequence.
fn any_text_ends(texts: &Texts, flags: &[bool], line: &[SourceChar], side: Side, end: usize) -> bool
    requires flagged { end ≤ length flags.now }
    requires within { end ≤ length line.now }
    ensures { result ≡ list_any (λ t.
        ends_piece (bytes_eq (walked side t)) flags.now (walked side (chars_of line.now)) end)
        (texts_of texts.now) }
{
    for i in 0..texts.len() {
        if text_ends(texts.characters(i), flags, line, side, end) {
            return true;
        }
    }
    false
}

/// Whether this text and a white space character end here, after a sequence.
fn spaced_text_ends(
    text: &[char],
    flags: &[bool],
    line: &[SourceChar],
    side: Side,
    end: usize,
) -> bool
    requires flagged { end ≤ length flags.now }
    requires within { end ≤ length line.now }
    requires some { 0 < end }
    ensures { result ≡ spaced_text_ends flags.now (walked side (chars_of line.now)) end
        (walked side text.now) }
{
    let before = end - 1;
    let len = text.len();
    if !char_at(line, side, before).is_whitespace() {
        return false;
    }
    if len > before {
        return false;
    }
    if !flags[before - len] {
        return false;
    }
    is_text(text, part(line, side, before - len, before))
}

/// Whether one of these texts and a white space character end here, after a sequence.
fn any_spaced_text_ends(
    texts: &Texts,
    flags: &[bool],
    line: &[SourceChar],
    side: Side,
    end: usize,
) -> bool
    requires flagged { end ≤ length flags.now }
    requires within { end ≤ length line.now }
    requires some { 0 < end }
    ensures { result ≡ list_any (λ t.
        spaced_text_ends flags.now (walked side (chars_of line.now)) end (walked side t))
        (texts_of texts.now) }
{
    for i in 0..texts.len() {
        if spaced_text_ends(texts.characters(i), flags, line, side, end) {
            return true;
        }
    }
    false
}

/// Whether a white space character ends here, after a sequence.
fn space_ends(flags: &[bool], line: &[SourceChar], side: Side, end: usize) -> bool
    requires flagged { end ≤ length flags.now }
    requires within { end ≤ length line.now }
    requires some { 0 < end }
    ensures { result ≡ ends_piece is_space flags.now (walked side (chars_of line.now)) end }
{
    flags[end - 1] && char_at(line, side, end - 1).is_whitespace()
}

/// Whether three or more of one same mark end here, after a sequence.
fn separator_ends(flags: &[bool], line: &[SourceChar], side: Side, end: usize, first: usize) -> bool
    requires flagged { end ≤ length flags.now }
    requires within { end ≤ length line.now }
    requires some { 0 < end }
    requires front { IsStreakFront flags.now (walked side (chars_of line.now)) end first }
    ensures { result ≡ ends_piece is_separator flags.now (walked side (chars_of line.now)) end }
{
    end - first >= 3 && is_mark(char_at(line, side, end - 1))
}

/// Where the longest streak that reaches the index after k, of the character there, begins at a sequence.
fn streak_front(flags: &[bool], line: &[SourceChar], side: Side, k: usize, first: usize) -> usize
    requires flagged { k + 1 ≤ length flags.now }
    requires within { k < length line.now }
    requires front { IsStreakFront flags.now (walked side (chars_of line.now)) k first }
    ensures { IsStreakFront flags.now (walked side (chars_of line.now)) (k + 1) result }
{
    let continues = k > first && char_at(line, side, k) == char_at(line, side, k - 1);
    if continues {
        first
    } else if flags[k] {
        k
    } else {
        k + 1
    }
}

/// The texts that are pieces at this side.
pub(crate) fn side_texts(rules: &Rules, side: Side) -> &Texts
    ensures { texts_of result.now ≡ side_texts (rules_of rules.now) side }
{
    match side {
        Side::Front => rules.texts(RuleKind::Lead),
        Side::End => rules.texts(RuleKind::Tail),
    }
}

/// The texts that are pieces at this side together with one white space character.
pub(crate) fn side_spaced(rules: &Rules, side: Side) -> &Texts
    ensures { texts_of result.now ≡ side_spaced (rules_of rules.now) side }
{
    match side {
        Side::Front => rules.texts(RuleKind::LeadSpace),
        Side::End => rules.texts(RuleKind::TailSpace),
    }
}

/// Whether this text, its first character once or more, ends after index k, seen from a line's end; given whether it did
/// before that index.
fn repeat_ends(text: &[char], before: bool, flags: &[bool], line: &[SourceChar], k: usize) -> bool
    requires flagged { k < length flags.now }
    requires within { k < length line.now }
    requires noted { before ≡ repeat_ends flags.now (reverse (chars_of line.now)) k text.now }
    ensures { result ≡ repeat_ends flags.now (reverse (chars_of line.now)) (k + 1) text.now }
{
    if text.is_empty() || char_at(line, Side::End, k) != text[0] {
        return false;
    }
    if before {
        return true;
    }
    let rest = &text[1..];
    let len = rest.len();
    len <= k && flags[k - len] && is_text(rest, part(line, Side::End, k - len, k))
}

/// Moves on by one index what is known of the texts that repeat their first character.
fn step_texts(texts: &Texts, repeating: &mut [bool], flags: &[bool], line: &[SourceChar], k: usize)
    requires flagged { k < length flags.now }
    requires within { k < length line.now }
    requires noted { repeating.old
        ≡ map (repeat_ends flags.now (reverse (chars_of line.now)) k) (texts_of texts.now) }
    ensures { repeating.new ≡ map (repeat_ends flags.now (reverse (chars_of line.now)) (k + 1))
        (texts_of texts.now) }
{
    for i in 0..texts.len() {
        let before = repeating[i];
        repeating[i] = repeat_ends(texts.characters(i), before, flags, line, k);
    }
}

/// The same for the texts of this side, of which those of the front do not repeat.
fn step_repeats(
    rules: &Rules,
    side: Side,
    repeating: &mut [bool],
    flags: &[bool],
    line: &[SourceChar],
    k: usize,
)
    requires flagged { k < length flags.now }
    requires within { k < length line.now }
    requires noted { repeating.old
        ≡ map (repeat_ends flags.now (walked side (chars_of line.now)) k)
        (side_repeated (rules_of rules.now) side) }
    ensures { repeating.new ≡ map (repeat_ends flags.now (walked side (chars_of line.now)) (k + 1))
        (side_repeated (rules_of rules.now) side) }
{
    match side {
        Side::Front => {}
        Side::End => step_texts(rules.texts(RuleKind::TailRepeat), repeating, flags, line, k),
    }
}

fn any_set(flags: &[bool]) -> bool
    ensures { result ≡ list_any (λ flag. flag) flags.now }
{
    flags.iter().any(|flag| *flag)
}

/// What is known before the first index: none of the texts that repeat ends there.
fn no_repeats(alloc: Global, rules: &Rules, side: Side) -> Result<Vec<bool>, AllocError>
    ensures { IfOk result (λ v. v.items
        ≡ replicate (length (side_repeated (rules_of rules.now) side)) false) }
{
    match side {
        Side::Front => Ok(Vec::new(alloc)),
        Side::End => vec![in alloc; false; rules.count(RuleKind::TailRepeat)],
    }
}

/// How many characters the longest of these texts has.
fn longest(texts: &Texts) -> usize
    ensures { All (λ text. length text ≤ result) (texts_of texts.now) }
{
    let mut longest = 0;
    for i in 0..texts.len() {
        longest = longest.max(texts.characters(i).len());
    }
    longest
}

/// How many characters the longest text of this side has.
pub(crate) fn reach(rules: &Rules, side: Side) -> usize
    ensures texts { All (λ t. length t ≤ result) (side_texts (rules_of rules.now) side) }
    ensures spaced { All (λ t. length t ≤ result) (side_spaced (rules_of rules.now) side) }
    ensures repeated { All (λ t. length t ≤ result) (side_repeated (rules_of rules.now) side) }
{
    let reach = longest(side_texts(rules, side)).max(longest(side_spaced(rules, side)));
    match side {
        Side::Front => reach,
        Side::End => reach.max(longest(rules.texts(RuleKind::TailRepeat))),
    }
}

/// Whether a piece ends here, after a sequence; given whether a text that repeats does.
fn piece_ends(
    rules: &Rules,
    side: Side,
    repeated: bool,
    flags: &[bool],
    line: &[SourceChar],
    end: usize,
    first: usize,
) -> bool
    requires flagged { end ≤ length flags.now }
    requires within { end ≤ length line.now }
    requires some { 0 < end }
    requires front { IsStreakFront flags.now (walked side (chars_of line.now)) end first }
    requires noted { repeated
        ≡ list_any (repeat_ends flags.now (walked side (chars_of line.now)) end)
        (side_repeated (rules_of rules.now) side) }
    ensures { result ≡ ends_piece (is_walked_piece (rules_of rules.now) side) flags.now
        (walked side (chars_of line.now)) end }
{
    let space = space_ends(flags, line, side, end);
    let separator = rules.separators() && separator_ends(flags, line, side, end, first);
    if space | separator {
        return true;
    }
    let text = any_text_ends(side_texts(rules, side), flags, line, side, end);
    let spaced = any_spaced_text_ends(side_spaced(rules, side), flags, line, side, end);
    space | separator | text | (spaced | repeated)
}

/// Whether the longest streak that reaches the index after k, of the character there, begins at a sequence and is of a mark: a
/// separator may go on there.
fn separator_goes_on(line: &[SourceChar], side: Side, k: usize, first: usize) -> bool
    requires within { k < length line.now }
    ensures { result ≡ (nat_le first k && is_mark_kind (kind_of (slice_index (walked side (chars_of line.now)) k))) }
{
    first <= k && is_mark(char_at(line, side, k))
}

/// How long the longest sequence of pieces is at this side of a line.
pub fn longest_sequence(
    alloc: Global,
    rules: &Rules,
    side: Side,
    line: &[SourceChar],
) -> Result<usize, AllocError>
    ensures sequence { IfOk result (λ n. n
        ≡ longest_front (is_sequence (is_walked_piece (rules_of rules.now) side))
        (walked side (chars_of line.now))) }
    ensures within { IfOk result (λ n. n ≤ length line.now) }
{
    let reach = reach(rules, side);
    let mut flags = Vec::new(alloc);
    flags.push(true)?;
    let mut repeating = no_repeats(alloc, rules, side)?;
    let mut longest = 0;
    let mut first = 0;
    for k in 0..line.len() {
        first = streak_front(&flags, line, side, k, first);
        if k - longest > reach && !separator_goes_on(line, side, k, first) {
            return Ok(longest);
        }
        step_repeats(rules, side, &mut repeating, &flags, line, k);
        let repeated = any_set(&repeating);
        let is_sequence = piece_ends(rules, side, repeated, &flags, line, k + 1, first);
        flags.push(is_sequence)?;
        if is_sequence {
            longest = k + 1;
        }
    }
    Ok(longest)
}
