//! Phrases become one token each.
ghost use Rattle.std.specs.Prelude.{◌≡◌, ◌≤◌, ◌<◌, ◌++◌, ◌∷◌, [], ℕ, false, None, List, IfOk, IfSome, IsTrue, OnOk};
ghost use Rattle.std.specs.Prelude.{drop, length, map, option_map, take};
ghost use Rattle.std.specs.Option.{ForSome};
ghost use Rattle.std.specs.VecDeque.{deque_len};
ghost use Rattle.lic_lines.specs.Tokens.{Token, token_in, tokens_in};
ghost use Rattle.lic_phrases.specs.Waiting.{texts_of, first_phrase, phrase_found, spanned_in};
ghost use Rattle.lic_phrases.specs.Waiting.{count_found, first_given, GivesMore, AreKnown};
ghost use Rattle.lic_phrases.specs.Rewriting.{end_of_last};

use crate::final_token::{FinalToken, TokenText};
use crate::phrases::{Phrases, SEPARATOR};
use lic_lines::FirstToken;
use std::alloc::AllocError;
use std::collections::VecDeque;

/// A phrase at the start of some tokens: of how many tokens, and of which class.
#[derive(Clone, Copy)]
pub(crate) struct Found {
    count: usize,
    class: usize,
}

/// The longest phrase, of at most `most` tokens, that these begin with. The key is a buffer for its
/// own use.
fn first_phrase(
    phrases: &Phrases,
    waiting: &VecDeque<FirstToken>,
    most: usize,
    key: &mut Vec<u8>,
) -> Result<Option<Found>, AllocError>
    requires { most ≤ deque_len waiting.now }
    ensures found { IfOk result (λ r.
        option_map (phrase_found phrases.now.spellings (tokens_in waiting.now.items)) r
        ≡ first_phrase phrases.now.phrases (texts_of (tokens_in waiting.now.items)) most) }
    ensures within { IfOk result (λ r. IfSome r (λ f. (0 < f.count) × (f.count ≤ most))) }
    ensures known { IfOk result (λ r. IfSome r (λ f. f.class < length phrases.now.spellings)) }
{
    key.clear();
    let mut found = None;
    for n in 0..most {
        key.extend_from_slice(waiting[n].text.as_str().as_bytes())?;
        key.push(SEPARATOR)?;
        if let Some(class) = phrases.class_of(key.as_slice()) {
            found = Some(Found {
                count: n + 1,
                class,
            });
        }
    }
    Ok(found)
}

/// Where a token ends.
fn end_of(token: FirstToken) -> u32
    ensures { result ≡ token.end }
{
    token.end
}

/// Drops `count` tokens from the start, and gives where the last of them ends: if there is
/// none, the given index.
fn drop_front(waiting: &mut VecDeque<FirstToken>, count: usize, mut end: u32) -> u32
    requires { count ≤ deque_len waiting.old }
    ensures left { waiting.new.items ≡ drop count waiting.old.items }
    ensures end { (t : Token) → t.end ≡ end
        → result ≡ end_of_last t (take count (tokens_in waiting.old.items)) }
{
    for _ in 0..count {
        if let Some(token) = waiting.pop_front() {
            end = end_of(token);
        }
    }
    end
}

/// Gives the first of the waiting tokens, if there is one: as the phrase that was found, or as
/// itself.
fn give_first(
    waiting: &mut VecDeque<FirstToken>,
    found: Option<Found>,
    output: &mut Vec<FinalToken>,
) -> Result<(), AllocError>
    requires { ForSome found (λ f. (0 < f.count) × (f.count ≤ deque_len waiting.old)) }
    ensures left { OnOk result (waiting.new.items ≡ drop (count_found found) waiting.old.items) }
    ensures given { OnOk result ((spellings : List (List ℕ))
        → map (spanned_in spellings) output.new.items
        ≡ map (spanned_in spellings) output.old.items
        ++ first_given spellings found (tokens_in waiting.old.items)) }
    ensures known { (count : ℕ) → IfSome found (λ f. f.class < count)
        → AreKnown count output.old.items → OnOk result (AreKnown count output.new.items) }
{
    let Some(first) = waiting.pop_front() else {
        return Ok(());
    };
    let FirstToken {
        text,
        start,
        end,
        after_blank: _,
    } = first;
    let token = match found {
        None => FinalToken {
            text: TokenText::Own(text),
            start,
            end,
        },
        Some(phrase) => FinalToken {
            text: TokenText::Class(phrase.class),
            start,
            end: drop_front(waiting, phrase.count - 1, end),
        },
    };
    output.push(token)?;
    Ok(())
}

/// Gives waiting tokens as long as the longest phrase at the start of them is known. At the end of the
/// text all are given.
pub(crate) fn give_known(
    phrases: &Phrases,
    at_end: bool,
    waiting: &mut VecDeque<FirstToken>,
    key: &mut Vec<u8>,
    output: &mut Vec<FinalToken>,
) -> Result<(), AllocError>
    ensures given { OnOk result (GivesMore phrases.now at_end output.old.items waiting.old.items
        output.new.items waiting.new.items) }
    ensures few { OnOk result (deque_len waiting.new ≤ 7) }
    ensures all { IsTrue at_end → OnOk result (waiting.new.items ≡ []) }
    ensures known { AreKnown (length phrases.now.spellings) output.old.items
        → OnOk result (AreKnown (length phrases.now.spellings) output.new.items) }
{
    while let Some(first) = waiting.front() {
        let most = phrases.most_from(first.text.as_str().as_bytes());
        if !at_end && waiting.len() < most {
            break;
        }
        let found = first_phrase(phrases, waiting, most.min(waiting.len()), key)?;
        give_first(waiting, found, output)?;
    }
    Ok(())
}

/// Gives a token by itself.
#[inline(always)]
fn give_alone(token: FirstToken, output: &mut Vec<FinalToken>) -> Result<(), AllocError>
    ensures given { OnOk result ((spellings : List (List ℕ))
        → map (spanned_in spellings) output.new.items
        ≡ map (spanned_in spellings) output.old.items
        ++ first_given spellings None (token_in token ∷ [])) }
    ensures known { (count : ℕ) → AreKnown count output.old.items
        → OnOk result (AreKnown count output.new.items) }
{
    output.push(FinalToken {
        text: TokenText::Own(token.text),
        start: token.start,
        end: token.end,
    })?;
    Ok(())
}

/// Takes the next token, and gives waiting tokens as long as the longest phrase at the start of them is known.
#[inline(always)]
pub(crate) fn take_token(
    phrases: &Phrases,
    token: FirstToken,
    waiting: &mut VecDeque<FirstToken>,
    key: &mut Vec<u8>,
    output: &mut Vec<FinalToken>,
) -> Result<(), AllocError>
    ensures given { OnOk result (GivesMore phrases.now false output.old.items
        (waiting.old.items ++ token ∷ []) output.new.items waiting.new.items) }
    ensures few { OnOk result (deque_len waiting.new ≤ 7) }
    ensures known { AreKnown (length phrases.now.spellings) output.old.items
        → OnOk result (AreKnown (length phrases.now.spellings) output.new.items) }
{
    // Most tokens begin no phrase, and none waits before them.
    if waiting.is_empty() && phrases.most_from(token.text.as_str().as_bytes()) == 0 {
        return give_alone(token, output);
    }
    waiting.push_back(token)?;
    give_known(phrases, false, waiting, key, output)
}
