//! Matches of one template that end with the same token.

ghost use Rattle.std.specs.Prelude.{◌≡◌};

use lic_set::Triple;

/// Matches of one template that end with the same token: one begins with each token from `from` to `to`.
///
/// There is none where `to` is less than `from`.
#[derive(Clone, Copy, Debug, PartialEq, Eq)]
pub struct Bundle {
    pub from: usize,
    pub to: usize,
    pub last: usize,
    pub template: usize,
}

impl Bundle {
    ghost use Rattle.lic_bundles.specs.Bundles.{first_of, others_of, part_after};

    // Its first match in the order of triples.
    pub(crate) fn first(&self) -> Triple
        ensures { result ≡ first_of self.now }
    {
        Triple {
            first: self.from,
            last: self.last,
            template: self.template,
        }
    }

    // Its matches but the first, if there are any.
    pub(crate) fn others(self) -> Option<Bundle>
        ensures { result ≡ others_of self }
    {
        if self.from >= self.to {
            return None;
        }
        Some(Bundle {
            from: self.from + 1,
            ..self
        })
    }

    // Those of its matches that come after a triple, if one is given and there are any.
    pub(crate) fn after(self, after: Option<Triple>) -> Option<Bundle>
        ensures { result ≡ part_after after self }
    {
        let Some(after) = after else {
            return (self.from <= self.to).then_some(self);
        };
        let from = self.from.max(after.first);
        if from > self.to {
            return None;
        }
        let part = Bundle { from, ..self };
        if after < part.first() {
            Some(part)
        } else {
            part.others()
        }
    }
}
