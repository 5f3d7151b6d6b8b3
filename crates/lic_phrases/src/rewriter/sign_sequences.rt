//! Sequences of signs become one.
ghost use Rattle.std.specs.Prelude.{◌≡◌, ◌∷◌, ◌++◌, IsFalse, IsTrue, List};
ghost use Rattle.lic_lines.specs.Tokens.{Token, token_in};
ghost use Rattle.lic_phrases.specs.Held.{held};
ghost use Rattle.lic_phrases.specs.Rewriting.{is_sign, both_signs, sign_sequences};

use lic_lines::FirstToken;

/// Whether the token is a copyright sign.
pub(crate) fn is_sign(token: &FirstToken) -> bool
    ensures { result ≡ is_sign (token_in token.now) }
{
    "copyright" == token.text.as_str()
}

/// Whether both tokens are copyright signs.
fn are_signs(first: &FirstToken, second: &FirstToken) -> bool
    ensures { result ≡ both_signs (token_in first.now) (token_in second.now) }
{
    is_sign(first) && is_sign(second)
}

/// Takes the next token into the sequence of signs that is kept, and answers whether it could: where one
/// of them is no sign, the kept one is settled.
pub(crate) fn join_sign(kept: &mut Option<FirstToken>, next: &FirstToken) -> bool
    ensures joined { IsTrue result → (rest : List Token)
        → sign_sequences (held kept.old ++ token_in next.now ∷ rest)
        ≡ sign_sequences (held kept.new ++ rest) }
    ensures apart { IsFalse result → (kept.new ≡ kept.old) × ((rest : List Token)
        → sign_sequences (held kept.old ++ token_in next.now ∷ rest)
        ≡ held kept.old ++ sign_sequences (token_in next.now ∷ rest)) }
{
    match kept {
        Some(sequence) if are_signs(sequence, next) => {
            sequence.end = next.end;
            true
        }
        _ => false,
    }
}
