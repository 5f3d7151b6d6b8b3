//! Classes of equivalent phrases.
ghost use Rattle.std.specs.Prelude.{◌≡◌, ◌<◌, ◌++◌, ◌∷◌, [], ℕ, List, EachIndex, length, slice_index};
ghost use Rattle.lic_phrases.specs.Classes.{AreRepresentatives, classes_joined};

/// The classes of these two phrases become one, named by the lesser.
pub(crate) fn join_classes(heads: &mut [usize], a: usize, b: usize)
    requires a_in { a < length heads.old }
    requires b_in { b < length heads.old }
    ensures { heads.new ≡ classes_joined heads.old a b }
{
    let p = heads[a];
    let q = heads[b];
    let (low, high) = (p.min(q), p.max(q));
    for head in heads.iter_mut() {
        if *head == high {
            *head = low;
        }
    }
}

/// The phrases of one line become one class.
pub(crate) fn join_line(heads: &mut [usize], line: &[usize])
    requires numbered { EachIndex line.now (λ k. slice_index line.now k < length heads.old) }
    requires some { 0 < length line.now }
    ensures len { length heads.new ≡ length heads.old }
    ensures joined { (lines : List (List ℕ)) → AreRepresentatives (lines ++ [] ∷ []) heads.old
        → AreRepresentatives (lines ++ line.now ∷ []) heads.new }
{
    for k in 1..line.len() {
        join_classes(heads, line[0], line[k]);
    }
}
