//! A run of a position automaton that is entered at every token. The tokens are read from their ends: the reverse scan.

ghost use Rattle.std.specs.Prelude.{◌≡◌, ℕ, ◌<◌, ◌≤◌, ◌↔◌, IsTrue, IfOk, List, [], ◌∷◌, ◌++◌, false, length, reverse};
ghost use Rattle.std.specs.Str.{chars};
ghost use Rattle.lic_words.specs.Letters.{letters_in};
ghost use Rattle.lic_words.specs.Expressions.{Expression};
ghost use Rattle.lic_marks.specs.Cores.{HasWordsOf};
ghost use Rattle.lic_marks.specs.Rows.{weight};
ghost use Rattle.lic_marks.specs.Nodes.{core_of, is_measured};
ghost use Rattle.lic_marks.specs.States.{HasFirstBlanks, has_gap, position_count};

use crate::node::Node;
use crate::state::State;
use lic_rows::Bits;
use lic_words::ReversedLetters;
use std::alloc::{AllocError, Global};

/// A run of a compiled expression that may begin at each token: it says whether the expression describes some end of the
/// list. It keeps no token, and takes memory in `new` alone.
#[derive(Drop, Debug)]
pub struct UnanchoredMatcher {
    tree: Node,
    state: State,
    /// The positions that are active after blanks at the beginning of a word.
    first: Bits,
    /// The last letter that was taken, if a position is active.
    last: char,
    ghost measured: { IsTrue (is_measured tree) },
    ghost fits: { weight (core_of tree) ≤ position_count state },
    ghost open: { IsTrue (has_gap state) },
    ghost size: { length first ≡ position_count state },
    ghost blanks: { HasFirstBlanks (core_of tree) first },
}

impl UnanchoredMatcher {
    ghost use Rattle.lic_marks.specs.Unanchored.{DescribesEnd, HasReadEnds, tree_of};

    /// A run that has read the empty list.
    ///
    /// # Errors
    /// Out of memory.
    pub fn new(alloc: Global, tree: Node) -> Result<UnanchoredMatcher, AllocError>
        requires { IsTrue (is_measured tree) }
        ensures taken { (e : Expression) → HasWordsOf (core_of tree) e
            → IfOk result (λ s. HasReadEnds s e []) }
        ensures tree { IfOk result (λ s. tree_of s ≡ tree) }
    {
        let mut state = State::new(alloc, &tree)?;
        let first = state.first_blanks(alloc, &tree)?;
        state.clear();
        Ok(UnanchoredMatcher {
            tree,
            state,
            first,
            last: ' ',
        })
    }

    /// Begins anew with the empty list.
    pub fn reset(&mut self)
        ensures taken { (e : Expression) → HasWordsOf (core_of (tree_of self.old)) e
            → HasReadEnds self.new e [] }
        ensures tree { tree_of self.new ≡ tree_of self.old }
    {
        self.state.clear();
    }

    /// Reads one token more, from its last letter to its first.
    pub fn push_reversed(&mut self, token: &str)
        requires { 0 < letters_in (chars token.now) }
        ensures taken { (e : Expression) (ts : List (List ℕ)) → HasReadEnds self.old e ts
            → HasReadEnds self.new e (ts ++ reverse (chars token.now) ∷ []) }
        ensures tree { tree_of self.new ≡ tree_of self.old }
    {
        let mut letters = ReversedLetters::new(token, self.last, true);
        let Some(letter) = letters.next() else {
            return;
        };
        self.state.enter(&self.tree, &self.first, letter);
        self.last = self.state.finish_token(&self.tree, letters);
    }

    /// Whether the expression describes some end of the list of the tokens that were read.
    pub fn accepts(&self) -> bool
        ensures { (e : Expression) (ts : List (List ℕ)) → HasReadEnds self.now e ts
            → IsTrue result ↔ DescribesEnd e ts }
    {
        self.state.accepts(&self.tree)
    }

    /// True only if the expression describes no end of the list of the tokens that were read: no position is active.
    pub fn is_dead(&self) -> bool
        ensures { (e : Expression) (ts : List (List ℕ)) → HasReadEnds self.now e ts → IsTrue result
            → ¬ (DescribesEnd e ts) }
    {
        self.state.is_dead()
    }
}
