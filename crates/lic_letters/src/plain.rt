//! Lines at the start of bytes of which nothing but white space is taken.
ghost use Rattle.std.specs.Prelude.{◌≡◌, ◌⊎◌, ℕ, ◌+◌, ◌-◌, ◌<◌, ◌≤◌, length, slice_index, take, IfOk, IfSome, IsTrue, IsUtf8, OnOk, chars};
ghost use Rattle.lic_kind.specs.LineRules.{rules_of};
ghost use Rattle.lic_trim.specs.Lines.{cut_of, whole_line};
ghost use Rattle.lic_trim.specs.Spaces.{TakesSpaces};
ghost use Rattle.lic_letters.specs.PlainLines.{ArePlainLines, IsPlainLine};
ghost use Rattle.lic_letters.specs.Simple.{AreDone, IsSpelled};

use crate::edges::edges_of;
use crate::wide::spell_on;
use lic_kind::Rules;
use lic_trim::{keeps_all, takes_spaces};
use memchr::memchr;
use std::alloc::{AllocError, Global};

/// The bytes that spelling may go on past the end of a line.
const MARGIN: usize = 64;

/// The bytes past the end of a line that are copied together.
const AHEAD: usize = 256;

/// Whether all that is taken from a line in UTF-8 is white space, as far as its edges show: the first two characters of what is between
/// its white space, and the last two.
fn wide_takes_spaces(rules: &Rules, line: &[u8]) -> bool
    ensures { IsTrue result → IsUtf8 line.now
        → TakesSpaces (cut_of (rules_of rules.now) whole_line (chars line.now)) (chars line.now) }
{
    let Some(edges) = edges_of(line.trim_ascii()) else {
        return false;
    };
    if edges.first.is_whitespace() || edges.last.is_whitespace() {
        return false;
    }
    keeps_all(rules, edges.first, edges.second, edges.before, edges.last)
}

/// Whether all that is taken from a line in UTF-8 is white space, as far as its edges show.
fn is_plain(rules: &Rules, line: &[u8]) -> bool
    ensures { IsTrue result → IsUtf8 line.now
        → TakesSpaces (cut_of (rules_of rules.now) whole_line (chars line.now)) (chars line.now) }
{
    if wide_takes_spaces(rules, line) {
        return true;
    }
    line.is_ascii() && takes_spaces(rules, line)
}

/// How many bytes the first line has, if it has ended and, where it is in UTF-8, nothing but white space is taken from it, as far as its
/// edges show.
fn plain_line(rules: &Rules, bytes: &[u8]) -> Option<usize>
    ensures within { IfSome result (λ n. n ≤ length bytes.now) }
    ensures some { IfSome result (λ n. 0 < n) }
    ensures feed { IfSome result (λ n. slice_index bytes.now (n - 1) ≡ 0x0A) }
    ensures plain { IfSome result (λ n. IsUtf8 (take n bytes.now) → IsPlainLine (rules_of rules.now) (take n bytes.now)) }
{
    let slot = memchr(b'\n', bytes)?;
    let end = slot + 1;
    if is_plain(rules, &bytes[..end]) {
        Some(end)
    } else {
        None
    }
}

/// Copies bytes until 64 more than to `end` are copied, or all of them, and mostly a few lines more.
#[inline(always)]
fn copy_on(bytes: &[u8], copy: &mut Vec<u8>, end: usize) -> Result<(), AllocError>
    requires within { end ≤ length bytes.now }
    requires copied { length copy.old.items ≤ length bytes.now }
    ensures more { OnOk result ((n : ℕ) → AreDone bytes.now n copy.old.items → AreDone bytes.now n copy.new.items) }
    ensures far { OnOk result ((end + 64 ≤ length copy.new.items) ⊎ (length copy.new.items ≡ length bytes.now)) }
{
    let from = copy.len();
    if from >= bytes.len().min(end + MARGIN) {
        return Ok(());
    }
    let to = bytes.len().min(end + AHEAD);
    copy.extend_from_slice(&bytes[from..to])?;
    Ok(())
}

/// Puts what simple characters are spelled by in place of a copy of their bytes, of which the first `done` are so already, up to
/// `end`. The answer is how many are then done.
#[inline(always)]
fn spell_to(
    alloc: Global,
    bytes: &[u8],
    spelled: &mut Vec<u8>,
    done: usize,
    end: usize,
) -> Result<usize, AllocError>
    requires within { end ≤ length bytes.now }
    requires done { AreDone bytes.now done spelled.old.items }
    ensures done { IfOk result (λ n. AreDone bytes.now n spelled.new.items) }
    ensures more { IfOk result (λ n. done ≤ n) }
{
    if done >= end {
        return Ok(done);
    }
    copy_on(bytes, spelled, end)?;
    spell_on(alloc, bytes, spelled, done, end)
}

/// Puts what such lines at the start of these bytes are spelled by in place of what is there, as far as they are of simple
/// characters. The answer is how many bytes these lines have.
///
/// # Errors
/// Memory ran out. What was put is then not said.
pub fn spell_lines(
    alloc: Global,
    rules: &Rules,
    bytes: &[u8],
    spelled: &mut Vec<u8>,
) -> Result<usize, AllocError>
    ensures within { IfOk result (λ n. n ≤ length bytes.now) }
    ensures plain { IfOk result (λ n. ArePlainLines (rules_of rules.now) (take n bytes.now)) }
    ensures spelled { IfOk result (λ n. IsSpelled (take n bytes.now) spelled.new.items) }
{
    spelled.clear();
    let mut at = 0;
    let mut done = 0;
    while let Some(count) = plain_line(rules, &bytes[at..]) {
        let end = at + count;
        done = spell_to(alloc, bytes, spelled, done, end)?;
        if done < end {
            break;
        }
        at = end;
    }
    spelled.truncate(at);
    Ok(at)
}
