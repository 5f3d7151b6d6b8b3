//! Laws of the grammar, each the contract of a function that does nothing.

ghost use Rattle.std.specs.Prelude.{◌≡◌, ◌∷◌, ◌⊎◌, ℕ, List};
ghost use Rattle.lic_ere.specs.FirstFaults.{IsFaultOf};
ghost use Rattle.lic_ere.specs.Grammar.{IsPattern};
ghost use Rattle.lic_ere.specs.Located.{Located};
ghost use Rattle.lic_ere.specs.Sets.{Brackets};
ghost use Rattle.lic_ere.specs.Spelling.{IsBracket};
ghost use Rattle.lic_ere.specs.Trees.{Tree};
ghost use Rattle.lic_ere.specs.declared.fault.EreFault.{EreFault};

/// No bracket begins with `[[:`, `[[.` or `[[=`: POSIX's named sets, collating symbols and equivalence classes are refused.
pub fn brackets_name_no_sets()
    ensures { (x y : Located) (cs rest : List Located) (b : Brackets) → x.1 ≡ 0x5B
        → (y.1 ≡ 0x3A) ⊎ ((y.1 ≡ 0x2E) ⊎ (y.1 ≡ 0x3D))
        → ¬ (IsBracket (x ∷ y ∷ cs) rest b) }
{}

/// A pattern has one first fault at most.
pub fn one_fault_decides()
    ensures { (pattern : List ℕ) (one other : EreFault) → IsFaultOf pattern one
        → IsFaultOf pattern other → one ≡ other }
{}

/// What is in the grammar has no first fault.
pub fn no_fault_is_in_the_grammar()
    ensures { (pattern : List ℕ) (tree : Tree) (e : EreFault) → IsPattern pattern tree
        → ¬ (IsFaultOf pattern e) }
{}

/// Each pattern is in the grammar or has a first fault.
pub fn each_pattern_has_a_tree_or_a_fault()
    ensures { (pattern : List ℕ) → ((tree : Tree) × IsPattern pattern tree)
        ⊎ ((e : EreFault) × IsFaultOf pattern e) }
{}
