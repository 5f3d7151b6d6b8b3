//! The tokens of a phrase.
ghost use Rattle.std.specs.Prelude.{◌≡◌, [], IfOk, OnOk, length, map};
ghost use Rattle.std.specs.Str.{chars};
ghost use Rattle.lic_kind.specs.LineRules.{profile, rules_of};
ghost use Rattle.lic_lines.specs.Cells.{cell_of};
ghost use Rattle.lic_trim.specs.Sources.{unplaced, without_dropped};
ghost use Rattle.lic_lines.specs.Tokens.{tokens_in, tokens_of_cells};
ghost use Rattle.lic_phrases.specs.Keys.{texts_in};
ghost use Rattle.lic_phrases.specs.Rewriting.{SpannedText, rewritten};
ghost use Rattle.lic_phrases.specs.Settling.{Settles};
ghost use Rattle.lic_phrases.specs.Waiting.{spanned_in, AreKnown};
ghost use Rattle.lic_phrases.specs.WordLists.{phrase_texts};

use crate::final_token::FinalToken;
use crate::phrases::Phrases;
use crate::rewriter::Rewriter;
use lic_lines::{Buffers, FirstToken, Rules, push_tokens_of_line};
use lic_trim::{LinePart, unplaced};
use std::alloc::{AllocError, Global};

/// The texts of a phrase's tokens: the line rules are left out, signs are joined and `https` is
/// `http` before `://`.
pub(crate) fn phrase_tokens(alloc: Global, phrase: &str) -> Result<Vec<String>, AllocError>
    ensures { IfOk result (λ texts. texts_in texts.items ≡ phrase_texts (chars phrase.now)) }
{
    let phrases = Phrases::new(alloc);
    rewritten_texts(alloc, &phrases, phrase)
}

/// The texts of a phrase's tokens, as other phrases rewrite them.
fn rewritten_texts(
    alloc: Global,
    phrases: &Phrases,
    phrase: &str,
) -> Result<Vec<String>, AllocError>
    ensures { IfOk result (λ texts. texts_in texts.items ≡ map (λ (t : SpannedText). t.text)
        (rewritten phrases.now.phrases (tokens_of_cells profile
        (map cell_of (without_dropped (unplaced (chars phrase.now))))))) }
{
    let tokens = first_tokens(alloc, phrase)?;
    let settled = rewritten(alloc, phrases, tokens)?;
    texts_of(alloc, phrases, &settled)
}

/// The tokens of a phrase, with each copyright sign by itself.
fn first_tokens(alloc: Global, phrase: &str) -> Result<Vec<FirstToken>, AllocError>
    ensures { IfOk result (λ tokens. tokens_in tokens.items
        ≡ tokens_of_cells profile (map cell_of (without_dropped (unplaced (chars phrase.now))))) }
{
    let rules = Rules::profile(alloc);
    let mut buffers = Buffers::new(alloc);
    tokens_inside(alloc, &rules, phrase, &mut buffers)
}

/// The tokens of a text inside of a line, with each copyright sign by itself. The buffer may hold anything.
fn tokens_inside(
    alloc: Global,
    rules: &Rules,
    text: &str,
    buffers: &mut Buffers,
) -> Result<Vec<FirstToken>, AllocError>
    ensures { IfOk result (λ tokens. tokens_in tokens.items ≡ tokens_of_cells (rules_of rules.now)
        (map cell_of (without_dropped (unplaced (chars text.now))))) }
{
    let characters = unplaced(alloc, text)?;
    // Without a front and an end of a line the line rules take nothing.
    let inside = LinePart {
        has_front: false,
        has_end: false,
        past: None,
    };
    let mut tokens = Vec::new(alloc);
    push_tokens_of_line(alloc, rules, inside, &characters, buffers, &mut tokens)?;
    Ok(tokens)
}

/// Takes all tokens of a text.
fn take_tokens(
    phrases: &Phrases,
    tokens: Vec<FirstToken>,
    rewriter: &mut Rewriter,
    settled: &mut Vec<FinalToken>,
) -> Result<(), AllocError>
    requires settles { Settles phrases.now.phrases []
        (map (spanned_in phrases.now.spellings) settled.old.items) rewriter.old }
    requires known { AreKnown (length phrases.now.spellings) settled.old.items }
    ensures settles { OnOk result (Settles phrases.now.phrases (tokens_in tokens.items)
        (map (spanned_in phrases.now.spellings) settled.new.items) rewriter.new) }
    ensures known { OnOk result (AreKnown (length phrases.now.spellings) settled.new.items) }
{
    for token in tokens {
        rewriter.push(phrases, token, settled)?;
    }
    Ok(())
}

/// The tokens as they are rewritten.
fn rewritten(
    alloc: Global,
    phrases: &Phrases,
    tokens: Vec<FirstToken>,
) -> Result<Vec<FinalToken>, AllocError>
    ensures rewritten { IfOk result (λ settled. map (spanned_in phrases.now.spellings) settled.items
        ≡ rewritten phrases.now.phrases (tokens_in tokens.items)) }
    ensures known { IfOk result (λ settled. AreKnown (length phrases.now.spellings) settled.items) }
{
    let mut rewriter = Rewriter::new(alloc);
    let mut settled = Vec::new(alloc);
    take_tokens(phrases, tokens, &mut rewriter, &mut settled)?;
    rewriter.finish(phrases, &mut settled)?;
    Ok(settled)
}

/// The texts of these tokens.
fn texts_of(
    alloc: Global,
    phrases: &Phrases,
    tokens: &[FinalToken],
) -> Result<Vec<String>, AllocError>
    requires { AreKnown (length phrases.now.spellings) tokens.now }
    ensures { IfOk result (λ texts. texts_in texts.items
        ≡ map (λ t. (spanned_in phrases.now.spellings t).text) tokens.now) }
{
    let mut texts = Vec::new(alloc);
    for token in tokens {
        texts.push(String::from_str(alloc, phrases.text_of(token))?)?;
    }
    Ok(texts)
}
