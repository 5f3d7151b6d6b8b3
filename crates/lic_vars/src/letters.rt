//! The letters of a match, by the spans of their tokens.

ghost use Rattle.std.specs.Prelude.{◌≡◌, ◌<◌, ◌≤◌, ◌+◌, ◌++◌, drop, length, replicate, slice_range, take, IfOk, OnOk};
ghost use Rattle.std.specs.Str.{chars};
ghost use Rattle.lic_words.specs.Letters.{letters_in};
ghost use Rattle.lic_vars.specs.Values.{covered, letter_spans};

use lic_norm::{Span, Text};
use std::alloc::{AllocError, Global};

/// For each letter of the tokens from the first to the last that is no blank, the bytes that its token was made from.
pub fn letter_spans(
    alloc: Global,
    text: &Text,
    first: usize,
    last: usize,
) -> Result<Vec<Span>, AllocError>
    requires order { first ≤ last }
    requires within { last < length text.now.tokens }
    ensures { IfOk result (λ spans. spans.items
        ≡ letter_spans (slice_range text.now.tokens first (last + 1))) }
{
    let mut spans = Vec::new(alloc);
    let count = text.len();
    prove!(last < count);
    for i in first..last + 1 {
        let token = text.token(i);
        push_times(&mut spans, token.span, letter_count(token.text))?;
    }
    Ok(spans)
}

// Adds a span `count` times.
fn push_times(spans: &mut Vec<Span>, span: Span, count: usize) -> Result<(), AllocError>
    ensures { OnOk result (spans.new.items ≡ spans.old.items ++ replicate count span) }
{
    let mut left = count;
    while left > 0 {
        spans.push(span)?;
        left -= 1;
    }
    Ok(())
}

/// How many letters are not blanks.
pub fn letter_count(text: &str) -> usize
    ensures { result ≡ letters_in (chars text.now) }
{
    let mut count = 0;
    for c in text.chars() {
        if c == ' ' {
            continue;
        }
        count += 1;
    }
    count
}

/// The first `count` letters.
pub fn front(letters: &[Span], count: usize) -> &[Span]
    ensures { result.now ≡ take count letters.now }
{
    &letters[..count.min(letters.len())]
}

/// The letters after the first `count`.
pub fn after(letters: &[Span], count: usize) -> &[Span]
    ensures { result.now ≡ drop count letters.now }
{
    &letters[count.min(letters.len())..]
}

/// From the start of the first letter's token to the end of the last letter's.
pub fn covered(letters: &[Span]) -> Option<Span>
    ensures { result ≡ covered letters.now }
{
    let first = letters.first()?;
    let last = letters.last()?;
    Some(Span {
        start: first.start,
        end: last.end,
    })
}
