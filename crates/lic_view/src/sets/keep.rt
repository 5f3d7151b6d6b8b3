//! Which last tokens of a place are kept.

ghost use Rattle.std.specs.Prelude.{◌≡◌, ◌++◌, ◌∷◌, [], OnOk};

use crate::sets::stop::Stop;
use lic_spans::PlaceSpan;

/// Which last tokens of a place are kept: with the least one alone the search gives minimal matches, with each one all matches.
#[derive(Clone, Copy, Debug, PartialEq, Eq)]
pub enum Keep {
    /// The least one.
    Least,
    /// Each one, but of no more spans than `most`.
    Each { most: usize },
}

impl Keep {
    /// Adds a span, if there may be one more.
    pub fn push(self, spans: &mut Vec<PlaceSpan>, span: PlaceSpan) -> Result<(), Stop>
        ensures items { OnOk result (spans.new.items ≡ spans.old.items ++ span ∷ []) }
    {
        spans.push(span)?;
        self.check(spans.len())
    }

    /// Stops the search if the spans have too many numbers to go over them all. Where the least last token alone is kept, no
    /// number of a kind is in two of them, and nothing has to be stopped.
    pub fn check_numbers(self, spans: &[PlaceSpan], length: usize) -> Result<(), Stop> {
        if let Keep::Least = self {
            return Ok(());
        }
        if numbers_of(spans) > length.saturating_mul(NUMBERS_A_BYTE) {
            return Err(Stop::TooMany);
        }
        Ok(())
    }

    /// Stops the search at more spans than there may be.
    pub(crate) fn check(self, count: usize) -> Result<(), Stop> {
        match self {
            Keep::Each { most } if most < count => Err(Stop::TooMany),
            _ => Ok(()),
        }
    }
}

// How many numbers spans may have for each byte of the text.
const NUMBERS_A_BYTE: usize = 64;

// How many numbers spans have together.
fn numbers_of(spans: &[PlaceSpan]) -> usize {
    let mut count: usize = 0;
    for span in spans {
        count = count.saturating_add(span.high.saturating_sub(span.low));
    }
    count
}
