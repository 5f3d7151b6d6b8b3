//! Sets of places within a pattern, by what was taken last on the way back.

ghost use Rattle.std.specs.Prelude.{◌≡◌, ◌++◌, [], IsTrue, IfOk, OnOk};
ghost use Rattle.lic_reverse.specs.Tidily.{AreWays, IsTidyBack, Taken, spans_of, nothing, a_letter, a_blank};
ghost use Rattle.lic_view.specs.Fresh.{AreFresh};

pub(crate) mod endings;
pub(crate) mod groups;
pub(crate) mod reached;

use lic_spans::PlaceSpan;
use lic_view::{Keep, Stop, View, are_same, fresh_spans, kept, tokens_have_texts};
use std::alloc::{AllocError, Global};
use std::mem;

/// The places to which going back over a pattern has led, by what was taken last.
#[derive(Debug)]
pub(crate) struct Ways {
    /// Nothing yet.
    pub(crate) nothing: Vec<PlaceSpan>,
    /// A letter.
    pub(crate) letter: Vec<PlaceSpan>,
    /// A blank, before which a word has a letter.
    pub(crate) blank: Vec<PlaceSpan>,
}

// Written out, so that a caller's proof has one call and not the drop of each list.
impl Drop for Ways {
    fn drop(self) {
        let Ways {
            nothing: _nothing,
            letter: _letter,
            blank: _blank,
        } = self;
    }
}

impl Ways {
    /// No places.
    pub(crate) fn none(alloc: Global) -> Ways
        ensures { (s : Taken) → spans_of result s ≡ [] }
    {
        Ways {
            nothing: Vec::new(alloc),
            letter: Vec::new(alloc),
            blank: Vec::new(alloc),
        }
    }

    /// The same places once more.
    pub(crate) fn copy(&self, alloc: Global) -> Result<Ways, AllocError>
        ensures { IfOk result (λ copy. (s : Taken) → spans_of copy s ≡ spans_of self.now s) }
    {
        Ok(Ways {
            nothing: Vec::from_slice(alloc, &self.nothing)?,
            letter: Vec::from_slice(alloc, &self.letter)?,
            blank: Vec::from_slice(alloc, &self.blank)?,
        })
    }

    /// Whether there are no places.
    pub(crate) fn is_empty(&self) -> bool
        ensures { IsTrue result → (s : Taken) → spans_of self.now s ≡ [] }
    {
        self.nothing.is_empty() && self.letter.is_empty() && self.blank.is_empty()
    }

    /// Whether the spans are those of the other.
    pub(crate) fn is_same(&self, other: &Ways) -> bool
        ensures { IsTrue result → (s : Taken) → spans_of self.now s ≡ spans_of other.now s }
    {
        are_same(&self.nothing, &other.nothing)
            && are_same(&self.letter, &other.letter)
            && are_same(&self.blank, &other.blank)
    }

    /// How many spans the longest of the lists has.
    pub(crate) fn longest(&self) -> usize {
        self.nothing
            .len()
            .max(self.letter.len())
            .max(self.blank.len())
    }

    /// Adds the places of the other.
    pub(crate) fn append(&mut self, mut other: Ways) -> Result<(), AllocError>
        ensures { OnOk result ((s : Taken) → spans_of self.new s ≡ spans_of self.old s ++ spans_of other s) }
    {
        self.nothing.append(&mut other.nothing)?;
        self.letter.append(&mut other.letter)?;
        self.blank.append(&mut other.blank)?;
        Ok(())
    }

    /// Each place once with each of its last tokens that is kept.
    pub(crate) fn kept(mut self, alloc: Global, view: &View<'_>, keep: Keep) -> Result<Ways, Stop>
        requires { AreWays view.now self }
        ensures { IfOk result (λ kept. IsTidyBack keep view.now (λ w. w ≡ []) (spans_of self) (spans_of kept)) }
    {
        tokens_have_texts(view);
        let nothing = mem::replace(&mut self.nothing, Vec::new(alloc));
        let letter = mem::replace(&mut self.letter, Vec::new(alloc));
        let blank = mem::replace(&mut self.blank, Vec::new(alloc));
        Ok(Ways {
            nothing: kept(alloc, view, keep, nothing)?,
            letter: kept(alloc, view, keep, letter)?,
            blank: kept(alloc, view, keep, blank)?,
        })
    }

    /// Those that are not known yet.
    pub(crate) fn fresh(&self, alloc: Global, keep: Keep, known: &Ways) -> Result<Ways, AllocError>
        ensures { IfOk result (λ fresh. (s : Taken) → AreFresh (spans_of self.now s) (spans_of known.now s) (spans_of fresh s)) }
    {
        Ok(Ways {
            nothing: fresh_spans(alloc, keep, &self.nothing, &known.nothing)?,
            letter: fresh_spans(alloc, keep, &self.letter, &known.letter)?,
            blank: fresh_spans(alloc, keep, &self.blank, &known.blank)?,
        })
    }
}
