//! Characters beyond ASCII, spelled byte for byte.
ghost use Rattle.std.specs.Prelude.{◌≡◌, ◌⊎◌, ◌+◌, ◌<◌, ◌≤◌, ◌∷◌, [], drop, length, take, IfOk, IfSome, IsTrue, false};
ghost use Rattle.std.specs.Char.{encode_utf8, len_utf8, to_ascii_lowercase};
ghost use Rattle.lic_kind.specs.Kinds.{kind_of, spell};
ghost use Rattle.lic_letters.specs.Simple.{AreDone, ArePut, AreOwn, IsNoFront, IsSimple, in_place};

pub(crate) mod chars;
mod own;

use crate::wide::chars::first_char;
use crate::wide::own::own_front;
use lic_kind::{Kind, is_dash, is_quote, kind_of, spell, word_letter};
use std::alloc::{AllocError, Global};

/// Whether the character is of words, and its own letter.
#[inline(always)]
fn is_own(c: char) -> bool
    ensures word { IsTrue result → kind_of c ≡ Kind.Word }
    ensures letter { IsTrue result → spell c ≡ c ∷ [] }
{
    match word_letter(c) {
        Some(letter) => letter == c,
        None => false,
    }
}

/// How many bytes a character beyond ASCII at the start of these has, if it is of words and its own letter, or else 0.
#[inline(always)]
fn own_letter(bytes: &[u8]) -> usize
    ensures own { 0 < result → AreOwn bytes.now result }
    ensures few { result ≤ 64 }
{
    let Some(c) = first_char(bytes) else {
        return 0;
    };
    if is_own(c) { c.len_utf8() } else { 0 }
}

/// How many bytes stay as they are at the start of these: some by lanes, or one letter; or else 0.
#[inline(always)]
fn own_some(bytes: &[u8]) -> usize
    requires { 0 < length bytes.now }
    ensures own { 0 < result → AreOwn bytes.now result }
    ensures few { result ≤ 64 }
{
    let count = own_front(bytes);
    if count > 0 { count } else { own_letter(bytes) }
}

/// Whether a character begins these bytes.
fn is_front(c: char, bytes: &[u8]) -> bool
    ensures { result ≡ false → IsNoFront (encode_utf8 c) bytes.now }
{
    let mut buffer = [0; 4];
    bytes.starts_with(c.encode_utf8(&mut buffer).as_bytes())
}

/// The letter of a word character, if it has one.
#[inline(always)]
fn one_letter(alloc: Global, c: char) -> Result<Option<char>, AllocError>
    requires { kind_of c ≡ Kind.Word }
    ensures { IfOk result (λ letter. IfSome letter (λ d. spell c ≡ d ∷ [])) }
{
    if let Some(letter) = word_letter(c) {
        return Ok(Some(letter));
    }
    match spell(alloc, c)?.as_slice() {
        [letter] => Ok(Some(*letter)),
        _ => Ok(None),
    }
}

/// Whether a letter is of ASCII, and its own.
fn is_small(letter: char) -> bool
    ensures ascii { IsTrue result → letter < 128 }
    ensures own { IsTrue result → to_ascii_lowercase letter ≡ letter }
{
    letter.is_ascii() && letter.to_ascii_lowercase() == letter
}

/// Puts the letters of a word character beyond ASCII in its place, if it has two bytes, and two letters of ASCII.
#[tactic(auto, using(crate::proofs::WideBytes::pair_added, crate::proofs::WideBytes::pair_simple))]
fn put_pair(alloc: Global, c: char, slot: &mut [u8]) -> Result<bool, AllocError>
    requires beyond { 128 ≤ c }
    requires word { kind_of c ≡ Kind.Word }
    requires width { length slot.old ≡ len_utf8 c }
    ensures simple { IfOk result (λ known. IsTrue known → IsSimple c) }
    ensures put { IfOk result (λ known. IsTrue known → slot.new ≡ in_place c) }
    ensures same { IfOk result (λ known. known ≡ false → slot.new ≡ slot.old) }
{
    let letters = spell(alloc, c)?;
    let [one, two] = letters.as_slice() else {
        return Ok(false);
    };
    if slot.len() != 2 || !is_small(*one) || !is_small(*two) {
        return Ok(false);
    }
    slot.copy_from_slice(&[*one as u8, *two as u8]);
    Ok(true)
}

/// Puts the letters of a word character beyond ASCII in its place, if it has one of as many bytes, or two of one byte.
#[inline(always)]
#[tactic(auto, using(crate::proofs::WideBytes::letter_added, crate::proofs::WideBytes::letter_simple))]
fn put_letter(alloc: Global, c: char, slot: &mut [u8]) -> Result<bool, AllocError>
    requires beyond { 128 ≤ c }
    requires word { kind_of c ≡ Kind.Word }
    requires width { length slot.old ≡ len_utf8 c }
    ensures simple { IfOk result (λ known. IsTrue known → IsSimple c) }
    ensures put { IfOk result (λ known. IsTrue known → slot.new ≡ in_place c) }
    ensures same { IfOk result (λ known. known ≡ false → slot.new ≡ slot.old) }
{
    let Some(letter) = one_letter(alloc, c)? else {
        return put_pair(alloc, c, slot);
    };
    if letter.len_utf8() != slot.len() {
        return Ok(false);
    }
    let mut buffer = [0; 4];
    slot.copy_from_slice(letter.encode_utf8(&mut buffer).as_bytes());
    Ok(true)
}

/// Puts what a character beyond ASCII is spelled by in its place, if it is simple. These bytes come after it; a quote or a dash that
/// they begin with again is not.
#[tactic(auto, using(crate::proofs::WideBytes::blank_added, crate::proofs::WideBytes::quote_added, crate::proofs::WideBytes::dash_added, crate::proofs::WideBytes::blank_simple, crate::proofs::WideBytes::quote_simple, crate::proofs::WideBytes::dash_simple))]
fn put_simple(alloc: Global, c: char, slot: &mut [u8], after: &[u8]) -> Result<bool, AllocError>
    requires beyond { 128 ≤ c }
    requires width { length slot.old ≡ len_utf8 c }
    requires few { len_utf8 c ≤ 3 }
    ensures simple { IfOk result (λ known. IsTrue known → IsSimple c) }
    ensures alone { IfOk result (λ known. IsTrue known → kind_of c ≡ Kind.Mark → IsNoFront (encode_utf8 c) after.now) }
    ensures put { IfOk result (λ known. IsTrue known → slot.new ≡ in_place c) }
    ensures same { IfOk result (λ known. known ≡ false → slot.new ≡ slot.old) }
{
    match kind_of(c) {
        Kind::Word => return put_letter(alloc, c, slot),
        Kind::Blank => slot.fill(b' '),
        Kind::Mark if is_front(c, after) => return Ok(false),
        Kind::Mark if is_quote(c) => slot.fill(b'\''),
        Kind::Mark if is_dash(c) => slot.fill(b'-'),
        _ => return Ok(false),
    }
    Ok(true)
}

/// Puts what the character beyond ASCII at the start of these bytes is spelled by at the start of others, if there is one, it is simple,
/// and they are as many. The answer is how many bytes it has, or 0.
#[inline(never)]
fn put_first(alloc: Global, bytes: &[u8], spelled: &mut [u8]) -> Result<usize, AllocError>
    ensures within { IfOk result (λ n. n ≤ length spelled.old) }
    ensures put { IfOk result (λ n. 0 < n → ArePut bytes.now n [] (take n spelled.new)) }
    ensures rest { IfOk result (λ n. 0 < n → drop n spelled.new ≡ drop n spelled.old) }
    ensures same { IfOk result (λ n. n ≡ 0 → spelled.new ≡ spelled.old) }
{
    let Some(c) = first_char(bytes) else {
        return Ok(0);
    };
    let width = c.len_utf8();
    if width > spelled.len() {
        return Ok(0);
    }
    if put_simple(alloc, c, &mut spelled[..width], &bytes[width..])? {
        Ok(width)
    } else {
        Ok(0)
    }
}

/// Puts what simple characters are spelled by, byte for byte, in place of a copy of their bytes, of which the first `from` are done,
/// up to `end`: mostly a few more, since 16 bytes are looked at together. The answer is how many are then done.
///
/// # Errors
/// Memory ran out. What was put is then not said.
#[inline(always)]
pub(crate) fn spell_on(
    alloc: Global,
    bytes: &[u8],
    spelled: &mut [u8],
    from: usize,
    end: usize,
) -> Result<usize, AllocError>
    requires within { end ≤ length bytes.now }
    requires done { AreDone bytes.now from spelled.old }
    requires copied { (end + 64 ≤ length spelled.old) ⊎ (length spelled.old ≡ length bytes.now) }
    ensures done { IfOk result (λ n. AreDone bytes.now n spelled.new) }
    ensures more { IfOk result (λ n. from ≤ n) }
{
    let mut at = from;
    while at < end {
        let own = own_some(&bytes[at..]);
        let count = if own > 0 {
            own
        } else {
            put_first(alloc, &bytes[at..], &mut spelled[at..])?
        };
        if count == 0 {
            return Ok(at);
        }
        at += count;
    }
    Ok(at)
}
