//! Lines of which nothing but white space is taken, as two characters at each of their edges show.
ghost use Rattle.std.specs.Prelude.{◌≡◌, ℕ, ◌∷◌, List, IsTrue, false};
ghost use Rattle.lic_kind.specs.LineRules.{LineRules, rules_of};
ghost use Rattle.lic_trim.specs.Lines.{item_length};
ghost use Rattle.lic_trim.specs.PlainEdges.{AreApart, KeepsAll};
ghost use Rattle.lic_trim.specs.Walks.{may_begin_with_any};

use crate::item::{is_roman_digit, may_begin_item};
use crate::sequences::is_mark;
use crate::side::Side;
use crate::space_sequences::begun_texts;
use lic_kind::Rules;

/// Whether nothing but white space can be taken at a side of which these are the first character that is none and the one after it.
#[inline(always)]
fn is_plain(rules: &Rules, side: Side, first: char, second: char) -> bool
    ensures { IsTrue result → (past : List ℕ)
        → may_begin_with_any (rules_of rules.now) side (first ∷ second ∷ past) ≡ false }
{
    let Some(begun) = begun_texts(rules, side, first, second) else {
        return false;
    };
    begun == 0
}

/// Whether a line with these first two characters begins with no item. A sign that is one has white space after it.
#[inline(always)]
fn begins_no_item(first: char, second: char) -> bool
    ensures { IsTrue result → (rules : LineRules) (past : List ℕ)
        → item_length rules (first ∷ second ∷ past) ≡ 0 }
{
    if first.is_ascii_alphabetic() {
        let ends = (second == '.') | (second == ')');
        let roman = is_roman_digit(first) & is_roman_digit(second);
        return !(ends | roman);
    }
    if !may_begin_item(first) {
        return true;
    }
    !(first.is_ascii_digit() | (first == '(') | second.is_whitespace())
}

/// Whether these two are not one same mark, of which three are a separator.
#[inline(always)]
fn are_apart(first: char, second: char) -> bool
    ensures { IsTrue result → AreApart first second }
{
    first != second || !is_mark(first)
}

/// Whether nothing but white space is taken from a line, as far as the first two characters and the last two of what it has between its
/// white space show.
#[inline(always)]
pub fn keeps_all(rules: &Rules, first: char, second: char, before: char, last: char) -> bool
    ensures { IsTrue result → KeepsAll (rules_of rules.now) first second before last }
{
    if !are_apart(first, second) {
        return false;
    }
    if !are_apart(last, before) {
        return false;
    }
    if !begins_no_item(first, second) {
        return false;
    }
    if !is_plain(rules, Side::Front, first, second) {
        return false;
    }
    is_plain(rules, Side::End, last, before)
}
