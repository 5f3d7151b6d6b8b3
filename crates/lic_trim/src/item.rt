//! List items at the start of a line.
ghost use Rattle.std.specs.Prelude.{◌≡◌, ◌≤◌, ◌++◌, ◌==◌, ◌&&◌, ◌||◌, ℕ, List, IsTrue, not, false, find, length, option_to_list};
ghost use Rattle.std.specs.List.{list_all, position_or_len, slice_split};
ghost use Rattle.std.specs.Option.{option_map_or};
ghost use Rattle.std.specs.Char.{is_whitespace, is_ascii, is_ascii_digit, is_ascii_alphabetic};
ghost use Rattle.lic_kind.specs.Kinds.{is_dash, is_bullet};
ghost use Rattle.lic_trim.specs.Texts.{ends_in};
ghost use Rattle.lic_trim.specs.Sources.{chars_of};
ghost use Rattle.lic_kind.specs.LineRules.{LineRules, rules_of};
ghost use Rattle.lic_trim.specs.Lines.{is_bullet_sign, is_roman_digit, is_number, is_letter, is_roman, is_bullet_item, is_number_item, is_letter_item, is_item_in_parentheses, is_item_form, is_copyright_sign, item_length};

use crate::side::is_text;
use crate::source::SourceChar;
use lic_kind::{Rules, is_bullet, is_dash};

pub(crate) fn is_roman_digit(c: char) -> bool
    ensures { result ≡ is_roman_digit c }
{
    matches!(c, 'i' | 'v' | 'x' | 'I' | 'V' | 'X')
}

fn are_digits(text: &[SourceChar]) -> bool
    ensures { result ≡ list_all (λ s. is_ascii_digit s.char) text.now }
{
    text.iter().all(|s| s.char.is_ascii_digit())
}

fn are_letters(text: &[SourceChar]) -> bool
    ensures { result ≡ list_all (λ s. is_ascii_alphabetic s.char) text.now }
{
    text.iter().all(|s| s.char.is_ascii_alphabetic())
}

fn are_roman_digits(text: &[SourceChar]) -> bool
    ensures { result ≡ list_all (λ s. is_roman_digit s.char) text.now }
{
    text.iter().all(|s| is_roman_digit(s.char))
}

/// Whether these are one to three ASCII digits.
fn is_number(text: &[SourceChar]) -> bool
    ensures { result ≡ is_number (chars_of text.now) }
{
    1 <= text.len() && text.len() <= 3 && are_digits(text)
}

/// Whether this is one ASCII letter.
fn is_letter(text: &[SourceChar]) -> bool
    ensures { result ≡ is_letter (chars_of text.now) }
{
    text.len() == 1 && are_letters(text)
}

/// Whether these are one to five letters of a small Roman numeral.
fn is_roman(text: &[SourceChar]) -> bool
    ensures { result ≡ is_roman (chars_of text.now) }
{
    1 <= text.len() && text.len() <= 5 && are_roman_digits(text)
}

pub(crate) fn is_bullet_sign(c: char) -> bool
    ensures { result ≡ is_bullet_sign c }
{
    is_dash(c) || is_bullet(c) || c == '+'
}

/// Whether this is one dash, bullet or plus sign.
fn is_bullet_item(text: &[SourceChar]) -> bool
    ensures { result ≡ is_bullet_item (chars_of text.now) }
{
    text.len() == 1 && is_bullet_sign(text[0].char)
}

/// Whether these are numbers with full stops between them.
fn are_numbers(text: &[SourceChar]) -> bool
    ensures { result ≡ list_all is_number (slice_split (λ c. c == 0x2E) (chars_of text.now)) }
{
    let mut digits: usize = 0;
    for s in text {
        if s.char == '.' {
            if digits < 1 || 3 < digits {
                return false;
            }
            digits = 0;
        } else if s.char.is_ascii_digit() {
            digits += 1;
        } else {
            return false;
        }
    }
    1 <= digits && digits <= 3
}

/// Whether these are numbers with full stops between them, and then `.`, `)` or `:`.
fn is_number_item(text: &[SourceChar]) -> bool
    ensures { result ≡ is_number_item (chars_of text.now) }
{
    if text.is_empty() {
        return false;
    }
    let last = text.len() - 1;
    matches!(text[last].char, '.' | ')' | ':') && are_numbers(&text[..last])
}

/// Whether this is a letter or a Roman numeral, and then `.` or `)`.
fn is_letter_item(text: &[SourceChar]) -> bool
    ensures { result ≡ is_letter_item (chars_of text.now) }
{
    if text.is_empty() {
        return false;
    }
    let last = text.len() - 1;
    let front = &text[..last];
    matches!(text[last].char, '.' | ')') && (is_letter(front) || is_roman(front))
}

/// Whether this is a number, a letter or a Roman numeral, and then `)`.
fn is_closed(text: &[SourceChar]) -> bool
    ensures { result ≡ ends_in (λ d. d == 0x29) (λ front. is_number front || is_letter front
        || is_roman front) (chars_of text.now) }
{
    if text.is_empty() {
        return false;
    }
    let last = text.len() - 1;
    let front = &text[..last];
    text[last].char == ')' && (is_number(front) || is_letter(front) || is_roman(front))
}

/// Whether this is a number, a letter or a Roman numeral in parentheses.
fn is_item_in_parentheses(text: &[SourceChar]) -> bool
    ensures { result ≡ is_item_in_parentheses (chars_of text.now) }
{
    if text.is_empty() {
        return false;
    }
    text[0].char == '(' && is_closed(&text[1..])
}

fn is_item_form(text: &[SourceChar]) -> bool
    ensures { result ≡ is_item_form (chars_of text.now) }
{
    is_bullet_item(text)
        || is_number_item(text)
        || is_letter_item(text)
        || is_item_in_parentheses(text)
}

/// Whether this could be the copyright sign in ASCII.
fn is_copyright_sign(text: &[SourceChar]) -> bool
    ensures { result ≡ is_copyright_sign (chars_of text.now) }
{
    is_text(&['(', 'c', ')'], text) || is_text(&['(', 'C', ')'], text)
}

/// The index of the first white space character, or how many characters there are.
fn first_space(text: &[SourceChar]) -> usize
    ensures within { result ≤ length text.now }
    ensures index { result ≡ position_or_len is_whitespace (chars_of text.now) }
{
    for (index, s) in text.iter().enumerate() {
        if s.char.is_whitespace() {
            return index;
        }
    }
    text.len()
}

/// The first character that is not white space, of these and what counts as following them.
fn next_dark(text: &[SourceChar], past: Option<char>) -> Option<char>
    ensures { result ≡ find (λ c. not (is_whitespace c))
        (chars_of text.now ++ option_to_list past) }
{
    for s in text {
        if !s.char.is_whitespace() {
            return Some(s.char);
        }
    }
    match past {
        Some(c) if !c.is_whitespace() => Some(c),
        _ => None,
    }
}

/// Whether what follows an item form and a white space character lets it be an item.
fn lets_item(form: &[SourceChar], text: &[SourceChar], past: Option<char>) -> bool
    ensures { result ≡ option_map_or (λ d.
        not (is_copyright_sign (chars_of form.now) && is_ascii_digit d))
        (find (λ c. not (is_whitespace c)) (chars_of text.now ++ option_to_list past)) false }
{
    match next_dark(text, past) {
        None => false,
        Some(c) => !(c.is_ascii_digit() && is_copyright_sign(form)),
    }
}

/// Whether a list item may begin with this character.
pub(crate) fn may_begin_item(c: char) -> bool
    ensures { result ≡ (is_ascii c || is_dash c || is_bullet c) }
{
    c.is_ascii() || is_dash(c) || is_bullet(c)
}

/// Whether a line begins with no list item, as far as its first character shows.
fn begins_as_no_item(line: &[SourceChar]) -> bool
    ensures { IsTrue result → (rules : LineRules) (past : List ℕ)
        → item_length rules (chars_of line.now ++ past) ≡ 0 }
{
    !line.is_empty() && !may_begin_item(line[0].char)
}

/// How long the item at the start of a line is, whose lead is taken already, or 0.
pub fn item_length(rules: &Rules, line: &[SourceChar], past: Option<char>) -> usize
    ensures item { result ≡ item_length (rules_of rules.now)
        (chars_of line.now ++ option_to_list past) }
    ensures within { result ≤ length line.now }
{
    if !rules.items() {
        return 0;
    }
    if begins_as_no_item(line) {
        return 0;
    }
    let end = first_space(line);
    if end >= line.len() {
        return 0;
    }
    let form = &line[..end];
    if is_item_form(form) && lets_item(form, &line[end + 1..], past) {
        end
    } else {
        0
    }
}
