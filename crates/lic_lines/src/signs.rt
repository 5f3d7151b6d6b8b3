//! Single copyright signs.
ghost use Rattle.std.specs.Prelude.{◌≡◌, ◌+◌, ◌++◌, ◌<◌, ◌≤◌, List, IsTrue, length, false, take, drop, codes};
ghost use Rattle.lic_lines.specs.Cells.{Cell};
ghost use Rattle.lic_lines.specs.Tokens.{is_text, is_sign_in_parentheses, as_sign, single_signs, token_in, tokens_from, tokens_in};

use crate::small_string::SmallString;
use crate::tokens::FirstToken;

/// Whether this is the text of the token.
fn has_text(token: &FirstToken, text: &str) -> bool
    ensures { result ≡ is_text text.now (token_in token.now) }
{
    text == token.text.as_str()
}

/// Whether the three are `(`, `c` and `)`, unbroken.
fn is_sign_in_parentheses(a: &FirstToken, b: &FirstToken, c: &FirstToken) -> bool
    ensures { result ≡ is_sign_in_parentheses (token_in a.now) (token_in b.now) (token_in c.now) }
{
    has_text(a, "(") && has_text(b, "c") && !b.after_blank && has_text(c, ")") && !c.after_blank
}

/// Makes the token a sign that ends here.
fn make_sign(token: &mut FirstToken, end: u32)
    ensures { token_in token.new ≡ record (token_in token.old) { text = codes "copyright"; end = end } }
{
    token.text = SmallString::short("copyright");
    token.end = end;
}

/// Makes the token of U+00A9 a sign.
fn make_single_sign(token: &mut FirstToken)
    ensures { token_in token.new ≡ as_sign (token_in token.old) }
{
    if has_text(token, "\u{A9}") {
        let end = token.end;
        make_sign(token, end);
    }
}

/// Moves the token at one index to another before it, as a sign where it is one or begins one; gives the
/// index of the next token.
fn settle(tokens: &mut [FirstToken], kept: usize, at: usize) -> usize
    requires order { kept ≤ at }
    requires within { at < length tokens.old }
    ensures after { at < result }
    ensures within { result ≤ length tokens.old }
    ensures settled { tokens_in (take (kept + 1) tokens.new)
        ++ single_signs (tokens_in (drop result tokens.new))
        ≡ tokens_in (take kept tokens.old) ++ single_signs (tokens_in (drop at tokens.old)) }
{
    tokens.swap(kept, at);
    if tokens.len() - at > 2
        && is_sign_in_parentheses(&tokens[kept], &tokens[at + 1], &tokens[at + 2])
    {
        let end = tokens[at + 2].end;
        make_sign(&mut tokens[kept], end);
        at + 3
    } else {
        make_single_sign(&mut tokens[kept]);
        at + 1
    }
}

/// Whether the token may be a sign or begin one.
fn may_begin_sign(token: &FirstToken) -> bool
    ensures parenthesis { result ≡ false → is_text (codes "(") (token_in token.now) ≡ false }
    ensures sign { result ≡ false → as_sign (token_in token.now) ≡ token_in token.now }
{
    has_text(token, "(") | has_text(token, "\u{A9}")
}

/// The first index from this one on at which a sign may begin, or how many tokens there are.
fn first_sign(tokens: &[FirstToken], from: usize) -> usize
    requires { from ≤ length tokens.now }
    ensures after { from ≤ result }
    ensures within { result ≤ length tokens.now }
    ensures plain { tokens_in (take result tokens.now)
        ++ single_signs (tokens_in (drop result tokens.now))
        ≡ tokens_in (take from tokens.now) ++ single_signs (tokens_in (drop from tokens.now)) }
{
    let mut at = from;
    while at < tokens.len() && !may_begin_sign(&tokens[at]) {
        at += 1;
    }
    at
}

/// Whether no sign that begins in these tokens can continue after them, with a blank there or not.
#[inline(always)]
pub(crate) fn signs_end(tokens: &[FirstToken], blank_after: bool) -> bool
    ensures { IsTrue result → (gs : List (List Cell))
        → single_signs (tokens_in tokens.now ++ tokens_from blank_after gs)
        ≡ single_signs (tokens_in tokens.now) ++ single_signs (tokens_from blank_after gs) }
{
    if blank_after {
        return true;
    }
    match tokens {
        [] => true,
        [.., last] => !has_text(last, "(") & !has_text(last, "c"),
    }
}

/// Makes each copyright sign from this token on one token by itself.
pub fn join_single_signs(tokens: &mut Vec<FirstToken>, from: usize)
    requires { from ≤ length tokens.old.items }
    ensures { tokens_in tokens.new.items
        ≡ tokens_in (take from tokens.old.items)
        ++ single_signs (tokens_in (drop from tokens.old.items)) }
{
    let first = first_sign(tokens, from);
    let mut kept = first;
    let mut at = first;
    while at < tokens.len() {
        at = settle(tokens, kept, at);
        kept += 1;
    }
    tokens.truncate(kept);
}
