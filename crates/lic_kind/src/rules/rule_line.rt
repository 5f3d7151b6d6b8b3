//! What a line of a rules file says.
ghost use Rattle.std.specs.Prelude.{◌≡◌};
ghost use Rattle.std.specs.Str.{chars};
ghost use Rattle.lic_kind.specs.RuleFiles.{begins_in_hash, kind_named, switched, switch, rule_line, line_of};
ghost use Rattle.lic_kind.specs.RuleLines.{read, said};

use crate::rule_kind::RuleKind;

/// What a line of a rules file says.
#[derive(Clone, Copy)]
pub(crate) enum RuleLine<'a> {
    /// Nothing: it is white space, or a comment.
    Comment,
    /// A text of this kind, which is missing unless exactly one word follows the kind.
    Text(RuleKind, Option<&'a str>),
    /// Whether items are taken.
    Items(bool),
    /// Whether separators are.
    Separators(bool),
    /// Nothing that is known.
    Unknown,
}

/// The kind of text that this word introduces.
fn kind_named(word: &str) -> Option<RuleKind>
    ensures { result ≡ kind_named (chars word.now) }
{
    match word {
        "lead" => Some(RuleKind::Lead),
        "lead-space" => Some(RuleKind::LeadSpace),
        "tail" => Some(RuleKind::Tail),
        "tail-space" => Some(RuleKind::TailSpace),
        "tail-repeat" => Some(RuleKind::TailRepeat),
        _ => None,
    }
}

/// What this word switches to.
fn switched(word: &str) -> Option<bool>
    ensures { result ≡ switched (chars word.now) }
{
    match word {
        "on" => Some(true),
        "off" => Some(false),
        _ => None,
    }
}

/// What follows the word `items` or `separators`, if it is a switch.
fn switch(following: Option<&str>) -> Option<bool>
    ensures { result ≡ switch (read following.entry) }
{
    switched(following?)
}

/// The rule of this word and what follows it.
fn rule_line<'a>(word: &str, following: Option<&'a str>) -> RuleLine<'a>
    ensures { said result ≡ rule_line (chars word.now) (read following.entry) }
{
    match word {
        "items" => match switch(following) {
            Some(on) => RuleLine::Items(on),
            None => RuleLine::Unknown,
        },
        "separators" => match switch(following) {
            Some(on) => RuleLine::Separators(on),
            None => RuleLine::Unknown,
        },
        _ => match kind_named(word) {
            Some(kind) => RuleLine::Text(kind, following),
            None => RuleLine::Unknown,
        },
    }
}

/// Whether a word begins a comment.
fn begins_in_hash(word: &str) -> bool
    ensures { result ≡ begins_in_hash (chars word.now) }
{
    match word.chars().next() {
        Some(c) => c == '#',
        None => false,
    }
}

/// What a line of a rules file says.
pub(crate) fn read_line(line: &str) -> RuleLine<'_>
    ensures { said result ≡ line_of line.now }
{
    let mut words = line.split_whitespace();
    let Some(word) = words.next() else {
        return RuleLine::Comment;
    };
    if begins_in_hash(word) {
        return RuleLine::Comment;
    }
    let Some(following) = words.next() else {
        return rule_line(word, None);
    };
    match words.next() {
        None => rule_line(word, Some(following)),
        Some(_) => rule_line(word, None),
    }
}
