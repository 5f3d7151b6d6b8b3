//! The scheme of web addresses: `https` becomes `http`.
ghost use Rattle.std.specs.Prelude.{◌≡◌, ◌++◌, ◌+◌, ◌≤◌, List, codes, length};
ghost use Rattle.std.specs.Option.{IfNone};
ghost use Rattle.std.specs.VecDeque.{deque_len};
ghost use Rattle.lic_lines.specs.Tokens.{Token, is_text, token_in, tokens_in};
ghost use Rattle.lic_phrases.specs.Held.{held};
ghost use Rattle.lic_phrases.specs.Rewriting.{begins_authority, without_secure, https_as_http};

use lic_lines::{FirstToken, SmallString};
use std::collections::VecDeque;

/// Whether the token has this text.
fn is_text(text: &str, token: &FirstToken) -> bool
    ensures { result ≡ is_text text.now (token_in token.now) }
{
    text == token.text.as_str()
}

/// Whether the token is `https`, so that it has to wait for the three after it.
pub(crate) fn is_https(token: &FirstToken) -> bool
    ensures { result ≡ is_text (codes "https") (token_in token.now) }
{
    is_text("https", token)
}

/// Whether `:`, `/` and `/` come first.
fn begins_authority(tokens: &VecDeque<FirstToken>) -> bool
    ensures { result ≡ begins_authority (tokens_in tokens.now.items) }
{
    tokens.len() >= 3
        && is_text(":", &tokens[0])
        && is_text("/", &tokens[1])
        && is_text("/", &tokens[2])
}

/// Makes `http` of `https` if the tokens after it begin with `:`, `/` and `/`.
fn drop_secure(token: &mut FirstToken, past: &VecDeque<FirstToken>)
    ensures { token_in token.new
        ≡ without_secure (token_in token.old) (tokens_in past.now.items) }
{
    if is_https(token) && begins_authority(past) {
        token.text = SmallString::short("http");
    }
}

/// Takes out the first token if it is settled: it is no `https`, or three follow it.
pub(crate) fn pop_settled(address: &mut VecDeque<FirstToken>) -> Option<FirstToken>
    ensures given { (rest : List Token) → https_as_http (tokens_in address.old.items ++ rest)
        ≡ held result ++ https_as_http (tokens_in address.new.items ++ rest) }
    ensures fewer { deque_len address.new + length (held result) ≡ deque_len address.old }
    ensures few { IfNone result (deque_len address.new ≤ 3) }
{
    let first = address.front()?;
    if is_https(first) && address.len() < 4 {
        return None;
    }
    let mut settled = address.pop_front()?;
    drop_secure(&mut settled, address);
    Some(settled)
}
