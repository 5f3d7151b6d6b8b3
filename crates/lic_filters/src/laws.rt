//! Laws of the filters, each the contract of a function that does nothing.

ghost use Rattle.std.specs.Prelude.{◌≡◌, ◌≤◌, List, Contains};
ghost use Rattle.lic_set.specs.declared.triple.Triple.{Triple};
ghost use Rattle.lic_filters.specs.Filters.{tight_of, outer_of};

/// Tight triples are tight among themselves.
pub fn tight_ones_are_tight()
    ensures { (list : List Triple) → tight_of (tight_of list) ≡ tight_of list }
{}

/// Outer triples are outer among themselves.
pub fn outer_ones_are_outer()
    ensures { (list : List Triple) → outer_of (outer_of list) ≡ outer_of list }
{}

/// Each outer triple is a tight one, and each tight one is a triple of the list.
pub fn outer_ones_are_tight()
    ensures outer { (list : List Triple) (t : Triple) → Contains (outer_of list) t
        → Contains (tight_of list) t }
    ensures tight { (list : List Triple) (t : Triple) → Contains (tight_of list) t
        → Contains list t }
{}

/// Each triple has a tight one of its template within its range.
pub fn each_holds_a_tight_one()
    ensures { (list : List Triple) (t : Triple) → Contains list t
        → (s : Triple) × Contains (tight_of list) s × (s.template ≡ t.template)
        × (t.first ≤ s.first) × (s.last ≤ t.last) }
{}

/// The range of each tight triple lies within that of an outer one.
pub fn an_outer_one_holds_each_tight_one()
    ensures { (list : List Triple) (t : Triple) → Contains (tight_of list) t
        → (s : Triple) × Contains (outer_of list) s × (s.first ≤ t.first) × (t.last ≤ s.last) }
{}
