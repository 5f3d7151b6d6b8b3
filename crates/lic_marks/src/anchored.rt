//! A run of a position automaton over a list of tokens.

ghost use Rattle.std.specs.Prelude.{◌≡◌, ℕ, ◌≤◌, ◌↔◌, IsTrue, IfOk, List, [], ◌∷◌, ◌++◌};
ghost use Rattle.std.specs.Str.{chars};
ghost use Rattle.lic_words.specs.Expressions.{Expression};
ghost use Rattle.lic_words.specs.Describing.{IsDescribed};
ghost use Rattle.lic_marks.specs.Cores.{HasWordsOf};
ghost use Rattle.lic_marks.specs.Rows.{weight};
ghost use Rattle.lic_marks.specs.Nodes.{core_of, is_measured};
ghost use Rattle.lic_marks.specs.States.{has_gap, position_count};

use crate::node::Node;
use crate::state::State;
use std::alloc::{AllocError, Global};

/// A run of a compiled expression over a list of tokens, which may begin at the first token alone. It keeps no token, and
/// takes memory in `new` alone.
#[derive(Drop, Debug)]
pub struct AnchoredMatcher {
    tree: Node,
    state: State,
    last: char,
    is_empty: bool,
    ghost measured: { IsTrue (is_measured tree) },
    ghost fits: { weight (core_of tree) ≤ position_count state },
    ghost open: { IsTrue (has_gap state) },
}

impl AnchoredMatcher {
    ghost use Rattle.lic_marks.specs.Anchored.{HasRead, tree_of};

    /// A run that has read the empty list.
    ///
    /// # Errors
    /// Out of memory.
    pub fn new(alloc: Global, tree: Node) -> Result<AnchoredMatcher, AllocError>
        requires { IsTrue (is_measured tree) }
        ensures taken { (e : Expression) → HasWordsOf (core_of tree) e
            → IfOk result (λ run. HasRead run e []) }
        ensures tree { IfOk result (λ run. tree_of run ≡ tree) }
    {
        let mut state = State::new(alloc, &tree)?;
        state.gap(&tree);
        Ok(AnchoredMatcher {
            tree,
            state,
            last: ' ',
            is_empty: true,
        })
    }

    /// Begins anew with the empty list.
    pub fn reset(&mut self)
        ensures taken { (e : Expression) → HasWordsOf (core_of (tree_of self.old)) e
            → HasRead self.new e [] }
        ensures tree { tree_of self.new ≡ tree_of self.old }
    {
        self.state.begin();
        self.state.gap(&self.tree);
        self.last = ' ';
        self.is_empty = true;
    }

    /// Reads one token more.
    pub fn push(&mut self, token: &str)
        ensures taken { (e : Expression) (ts : List (List ℕ)) → HasRead self.old e ts
            → HasRead self.new e (ts ++ chars token.now ∷ []) }
        ensures tree { tree_of self.new ≡ tree_of self.old }
    {
        self.last = self.state.token(&self.tree, token, self.last);
        self.is_empty = false;
    }

    /// Whether the expression describes the list of the tokens that were read.
    pub fn accepts(&self) -> bool
        ensures { (e : Expression) (ts : List (List ℕ)) → HasRead self.now e ts
            → IsTrue result ↔ IsDescribed e ts }
    {
        let is_spelled = self.state.accepts(&self.tree);
        !self.is_empty & is_spelled
    }

    /// True only if the expression describes no list that begins with the tokens that were read: a letter was read, and no
    /// position is active.
    pub fn is_dead(&self) -> bool
        ensures { (e : Expression) (ts : List (List ℕ)) → HasRead self.now e ts → IsTrue result
            → (more : List (List ℕ)) → ¬ (IsDescribed e (ts ++ more)) }
    {
        self.state.is_clear()
    }
}
