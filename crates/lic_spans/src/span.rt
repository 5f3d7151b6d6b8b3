//! Spans of places, each with the last token of a match that goes from there.

ghost use Rattle.std.specs.Prelude.{◌≡◌, ◌↔◌, IsTrue};

/// What the places of a span are.
///
/// The meaning of each kind belongs to the search; here only equality, order and whether it is one place count.
#[derive(Clone, Copy, Debug, PartialEq, Eq, PartialOrd, Ord)]
pub enum SpanKind {
    /// The end of its last token, where no letter was taken yet: one place.
    End,
    /// One place.
    Place,
    /// All places of the span at which a letter begins.
    Letters,
    /// The places to which one blank leads from those at which a letter begins.
    Blanks,
}

impl SpanKind {
    ghost use Rattle.lic_spans.specs.Spans.{gap_of};

    /// Whether a span of the kind has one place.
    pub fn is_single(self) -> bool
        ensures { IsTrue result ↔ (gap_of self ≡ 0) }
    {
        matches!(self, SpanKind::End | SpanKind::Place)
    }
}

/// Places from `low` to `high`, both included, in bytes of the text, from which what is left of a template leads to the end
/// of the token number `last`.
#[derive(Clone, Copy, Debug, PartialEq, Eq)]
pub struct PlaceSpan {
    pub low: usize,
    pub high: usize,
    pub last: usize,
    pub kind: SpanKind,
}
