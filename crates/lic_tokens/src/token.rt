//! Tokens and their spans, as callers see them.

/// Bytes of a source or of a canonical spelling, from `start` up to `end`, which is left out.
#[derive(Clone, Copy, Debug, PartialEq, Eq)]
pub struct Span {
    pub start: usize,
    pub end: usize,
}

/// A token: its text, and the bytes of the source that it was made from.
#[derive(Clone, Copy, Debug)]
pub struct Token<'a> {
    pub text: &'a str,
    pub span: Span,
}
