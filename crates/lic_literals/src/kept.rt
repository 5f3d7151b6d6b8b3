//! Literals of which an occurrence cannot be ruled out, and where they may end.

ghost use Rattle.std.specs.Prelude.{◌≡◌, ◌<◌, IfOk};
ghost use Rattle.std.specs.Option.{option_map};

use crate::hits::Hits;
use std::alloc::{AllocError, Global};
use std::rc::Rc;

/// A literal of which an occurrence cannot be ruled out.
#[derive(Drop)]
pub struct Kept {
    /// The number of the literal.
    pub number: usize,
    // where it may end, if not anywhere
    pub(crate) ends: Option<Ends>,
}

/// The ends of a literal by the offsets of its window, which all literals share.
#[derive(Drop)]
pub struct Ends {
    pub(crate) hits: Rc<Hits>,
    pub(crate) window: usize,
    // how many bytes there are from the beginning of the window to the end of the literal
    pub(crate) to_end: usize,
    // how many bytes there are in all
    pub(crate) limit: usize,
}

impl Kept {
    ghost use Rattle.lic_literals.specs.Kept.{ends_of};

    /// The offsets at which the literal may end, in rising order; none where it may end anywhere.
    ///
    /// Only its window was compared, so it need not end at each of them.
    pub fn ends(&self, alloc: Global) -> Result<Option<Vec<usize>>, AllocError>
        ensures { IfOk result (λ ends. option_map (λ list. list.items) ends ≡ ends_of self.now) }
    {
        match &self.ends {
            Some(ends) => Ok(Some(ends.list(alloc)?)),
            None => Ok(None),
        }
    }
}

impl Ends {
    ghost use Rattle.lic_literals.specs.Kept.{listed};

    fn list(&self, alloc: Global) -> Result<Vec<usize>, AllocError>
        ensures { IfOk result (λ ends. ends.items ≡ listed self.now) }
    {
        let mut ends = Vec::new(alloc);
        for offset in self.hits.offsets(self.window) {
            if *offset <= self.limit && self.to_end <= self.limit - *offset {
                ends.push(*offset + self.to_end)?;
            }
        }
        Ok(ends)
    }
}
