//! What is asked of the forms of matching where not all matches are.

use crate::seed::Seed;
use lic_set::Triple;

/// Which matches are asked for.
#[derive(Clone, Copy, Debug)]
pub struct Asked {
    /// Those after it, which may be a match or not.
    pub after: Triple,
    /// Those of the templates at whose numbers it has a bit.
    pub choice: u64,
}

impl Asked {
    /// Those after the one in the middle of these matches, and those of the templates 0 and 2.
    pub fn in_middle(matches: &[Triple]) -> Asked {
        Asked {
            after: matches.get(matches.len() / 2).copied().unwrap_or(FIRST),
            choice: 0b101,
        }
    }

    /// Those after one of these matches or after any triple, and those of some of three templates.
    pub fn random(seed: &mut Seed, tokens: usize, matches: &[Triple]) -> Asked {
        Asked {
            after: random_match(seed, matches).unwrap_or(random_triple(seed, tokens)),
            choice: seed.below(8),
        }
    }
}

const FIRST: Triple = Triple {
    first: 0,
    last: 0,
    template: 0,
};

// One of the matches, or none.
fn random_match(seed: &mut Seed, matches: &[Triple]) -> Option<Triple> {
    let number = seed.below((matches.len() as u64).saturating_mul(2));
    matches.get(number as usize).copied()
}

// Any triple over `tokens` tokens and three templates, or a little out of their range.
fn random_triple(seed: &mut Seed, tokens: usize) -> Triple {
    let limit = (tokens as u64).saturating_add(2);
    Triple {
        first: seed.below(limit) as usize,
        last: seed.below(limit) as usize,
        template: seed.below(4) as usize,
    }
}
