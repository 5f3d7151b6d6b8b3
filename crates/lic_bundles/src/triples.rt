//! The triples of bundles, one after another.

ghost use Rattle.std.specs.Prelude.{◌≡◌, ◌+◌, ◌<◌, ◌≤◌, [], ◌++◌, List, All, AllPairs, IsPermutation, IfOk, IfSome, IfNone};
ghost use Rattle.std.specs.List.{filter_map};
ghost use Rattle.std.specs.Option.{option_to_list};
ghost use Rattle.std.specs.VecDeque.{deque_len, deque_capacity};
ghost use Rattle.lic_set.specs.declared.triple.Triple.{Triple};
ghost use Rattle.lic_bundles.specs.Bundles.{AreApart, AreTriples, part_after};
ghost use Rattle.lic_bundles.specs.Merging.{IsNoLater, IsTaken, comes_first as is_first};

use crate::bundle::Bundle;
use lic_set::Triple;
use std::alloc::{AllocError, Global};
use std::collections::VecDeque;
use std::marker::Model;

/// Gives the triples of bundles, each once, in the order of triples.
///
/// The bundle whose first triple comes first gives it, and what is left of the bundle goes to the end of the queue of those that
/// were begun. That queue stays in order by itself, since triples are given in order and what is left of a bundle begins one
/// token later. So a triple takes a comparison of two bundles, and no memory.
#[derive(Debug, Drop)]
pub struct Triples {
    // What is left of the bundles of which some triple was given, in the order of their first triples.
    begun: VecDeque<Bundle>,
    // The others, in the same order.
    waiting: VecDeque<Bundle>,
}

impl Model for Triples {
    ghost use Rattle.std.specs.Prelude.{◌+◌, ◌≤◌, ◌++◌, List};
    ghost use Rattle.std.specs.VecDeque.{deque_len, deque_capacity};
    ghost use Rattle.lic_set.specs.declared.triple.Triple.{Triple};
    ghost use Rattle.lic_bundles.specs.Listing.{all_triples};
    ghost use Rattle.lic_bundles.specs.Merging.{AreQueues};

    ghost Value = { List Triple };

    ghost view = { λ t. all_triples (t.begun.items ++ t.waiting.items) };

    ghost invariant = { λ t. AreQueues t.begun.items t.waiting.items
        × (deque_len t.begun + deque_len t.waiting ≤ deque_capacity t.begun) };
}

impl Triples {
    /// All triples of the bundles that come after a triple, if one is given. Fails if memory runs out.
    pub fn new(
        alloc: Global,
        bundles: Vec<Bundle>,
        after: Option<Triple>,
    ) -> Result<Triples, AllocError>
        requires { AreApart bundles.items }
        ensures all { IfOk result (λ triples. AreTriples bundles.items after triples) }
        ensures only { IfOk result (λ triples. (others : List Triple)
            → AreTriples bundles.items after others → others ≡ triples) }
    {
        let waiting = parts_after(alloc, bundles, after)?;
        let begun = VecDeque::with_capacity(alloc, waiting.len())?;
        Ok(Triples {
            begun,
            waiting: VecDeque::from(waiting),
        })
    }
}

// What comes after a triple, if one is given, of the bundles that have such triples, in the order of first triples.
fn parts_after(
    alloc: Global,
    bundles: Vec<Bundle>,
    after: Option<Triple>,
) -> Result<Vec<Bundle>, AllocError>
    ensures parts { IfOk result (λ parts. IsPermutation (filter_map (part_after after) bundles.items) parts.items) }
    ensures sorted { IfOk result (λ parts. AllPairs IsNoLater parts.items) }
{
    let mut parts: Vec<Bundle> = bundles
        .into_iter()
        .filter_map(|bundle| bundle.after(after))
        .collect(alloc)?;
    parts.sort_unstable_by_key(|part| part.first());
    Ok(parts)
}

impl Iterator for Triples {
    type Item = Triple;

    ghost use Rattle.std.specs.Prelude.{List};
    ghost use Rattle.std.specs.Iterator.{YieldsFirst, item_count};
    ghost use Rattle.lic_set.specs.declared.triple.Triple.{Triple};

    ghost next_gives = { YieldsFirst (λ (left : List Triple). left) };

    ghost remaining = { item_count (λ (left : List Triple). left) };

    fn next(&mut self) -> Option<Triple> {
        let bundle = take_first(&mut self.begun, &mut self.waiting)?;
        put_back(&mut self.begun, bundle.others());
        Some(bundle.first())
    }
}

// Takes the bundle whose first triple comes first.
fn take_first(begun: &mut VecDeque<Bundle>, waiting: &mut VecDeque<Bundle>) -> Option<Bundle>
    requires begun_sorted { AllPairs IsNoLater begun.old.items }
    requires waiting_sorted { AllPairs IsNoLater waiting.old.items }
    ensures taken { IfSome result (λ b. IsTaken b begun.old.items waiting.old.items begun.new.items waiting.new.items) }
    ensures first { IfSome result (λ b. All (IsNoLater b) (begun.new.items ++ waiting.new.items)) }
    ensures none { IfNone result ((begun.old.items ≡ []) × (waiting.old.items ≡ [])) }
    ensures unchanged { IfNone result ((begun.new.items ≡ []) × (waiting.new.items ≡ [])) }
    ensures len { IfSome result (λ b. deque_len begun.new + deque_len waiting.new + 1 ≡ deque_len begun.old + deque_len waiting.old) }
    ensures capacity { deque_capacity begun.new ≡ deque_capacity begun.old }
{
    if comes_first(begun, waiting) {
        begun.pop_front()
    } else {
        waiting.pop_front()
    }
}

// Whether the first bundle of a queue comes before that of another, if the other has one.
fn comes_first(queue: &VecDeque<Bundle>, other: &VecDeque<Bundle>) -> bool
    ensures { result ≡ is_first queue.now.items other.now.items }
{
    match (queue.front(), other.front()) {
        (Some(bundle), Some(other)) => bundle.first() < other.first(),
        (bundle, _) => bundle.is_some(),
    }
}

// Puts a bundle, if there is one, to the end of a queue that has capacity for it.
fn put_back(queue: &mut VecDeque<Bundle>, bundle: Option<Bundle>)
    requires { deque_len queue.old < deque_capacity queue.old }
    ensures items { queue.new.items ≡ queue.old.items ++ option_to_list bundle }
    ensures len { deque_len queue.new ≤ deque_len queue.old + 1 }
    ensures capacity { deque_capacity queue.new ≡ deque_capacity queue.old }
{
    if let Some(bundle) = bundle {
        let _ = queue.push_back(bundle);
    }
}
