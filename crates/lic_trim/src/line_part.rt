//! How much of a line is there.

/// What of a line is there: the whole line of a text, or a part of a template's line, cut off by its rules.
#[derive(Clone, Copy, Debug, PartialEq, Eq)]
pub struct LinePart {
    /// Whether the part has the line's front, so that it can lose a lead and an item.
    pub has_front: bool,
    /// Whether the part has the line's end, so that it can lose a tail.
    pub has_end: bool,
    /// What counts as following the part, for the item rule alone.
    pub past: Option<char>,
}
