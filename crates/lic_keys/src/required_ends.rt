//! Where a text of a template ends.

/// Where the longest text of a template ends in bytes.
#[derive(Debug, Drop)]
pub struct RequiredEnds {
    /// The number of the text among the parts of the template.
    pub part: usize,
    /// The places at which its letters end, without the blanks at its edges, in rising order.
    pub places: Vec<usize>,
}
