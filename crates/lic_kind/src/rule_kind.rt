//! What a text of a line rule is taken as.

/// What a text of a line rule is taken as.
#[derive(Clone, Copy, Debug, PartialEq, Eq)]
pub enum RuleKind {
    /// A piece of a lead.
    Lead,
    /// A piece of a lead together with one white space character after it.
    LeadSpace,
    /// A piece of a tail.
    Tail,
    /// A piece of a tail together with one white space character before it.
    TailSpace,
    /// A piece of a tail, with its first character once or more.
    TailRepeat,
}
