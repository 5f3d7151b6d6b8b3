//! The state of a position automaton that reads letters and gaps: which positions are active.

ghost use Rattle.std.specs.Prelude.{◌≡◌, ℕ, ◌≤◌, ◌↔◌, true, false, IsTrue, IfOk, List, [], ◌∷◌, ◌++◌, length};
ghost use Rattle.std.specs.Str.{chars};
ghost use Rattle.lic_words.specs.Words.{Word, blanks};
ghost use Rattle.lic_words.specs.Spelling.{Gap, free, gapped_from, last_letter, SpellsGapped};
ghost use Rattle.lic_words.specs.Reading.{gapped_letter, reversed_last_in, reversed_letters_left};
ghost use Rattle.lic_marks.specs.Cores.{Core, WordsOf};
ghost use Rattle.lic_marks.specs.Marks.{no_marks};
ghost use Rattle.lic_marks.specs.Rows.{weight, marks_of};
ghost use Rattle.lic_marks.specs.Nodes.{core_of, is_measured};
ghost use Rattle.lic_marks.specs.Representing.{AfterAny, RepresentsAtOnce, each_with, shift_over};
ghost use Rattle.lic_marks.specs.Deciding.{over_blanks};

use crate::leave::leaves;
use crate::node::Node;
use crate::rows::{clear, is_clear, join, step};
use lic_rows::Bits;
use lic_words::{Letter, Letters, ReversedLetters};
use std::alloc::{AllocError, Global};

/// The active positions of an expression. They say which words may follow the letters and gaps that were taken.
#[derive(Drop, Debug)]
pub struct State {
    /// The positions after which the next letter may come at once.
    at_once: Bits,
    /// Where a gap is open, those after which it may come after blanks.
    after_blanks: Bits,
    /// A row to compute in.
    spare: Bits,
    /// A word may still begin.
    entry: bool,
    /// A gap is open: it follows the last letter, and the positions after blanks are known.
    is_apart: bool,
    ghost after_blanks_len: { length after_blanks ≡ length at_once },
    ghost spare_len: { length spare ≡ length at_once },
}

impl State {
    ghost use Rattle.lic_marks.specs.States.{HasFirstBlanks, HasTaken, HasTakenAny, IsFresh, has_gap, position_count};

    /// A state that has taken nothing, with as many positions as this expression.
    ///
    /// # Errors
    /// Out of memory.
    pub fn new(alloc: Global, tree: &Node) -> Result<State, AllocError>
        requires { IsTrue (is_measured tree.now) }
        ensures positions { IfOk result (λ state. weight (core_of tree.now) ≤ position_count state) }
        ensures size { IfOk result (λ state. position_count state ≡ weight (core_of tree.now)) }
        ensures fresh { IfOk result IsFresh }
        ensures taken { (r : Core) → IfOk result (λ state. HasTaken r state []) }
    {
        let weight = tree.weight();
        let at_once = Bits::new(alloc, weight)?;
        let after_blanks = Bits::new(alloc, weight)?;
        let spare = Bits::new(alloc, weight)?;
        Ok(State {
            at_once,
            after_blanks,
            spare,
            entry: true,
            is_apart: false,
        })
    }

    /// Forgets all that was taken.
    pub fn begin(&mut self)
        ensures positions { position_count self.new ≡ position_count self.old }
        ensures taken { (r : Core) → HasTaken r self.new [] }
    {
        clear(&mut self.at_once);
        self.entry = true;
        self.is_apart = false;
    }

    /// Takes one letter more, after the gap before it.
    pub fn letter(&mut self, tree: &Node, letter: Letter)
        requires measured { IsTrue (is_measured tree.now) }
        requires within { weight (core_of tree.now) ≤ position_count self.old }
        ensures positions { position_count self.new ≡ position_count self.old }
        ensures taken { (lists : List (List (Gap × ℕ)))
            → HasTakenAny (core_of tree.now) self.old lists
            → HasTakenAny (core_of tree.now) self.new
            (each_with (gapped_letter letter ∷ []) lists) }
    {
        if letter.is_apart {
            self.gap(tree);
        }
        self.shift(tree, letter);
        self.entry = false;
        self.is_apart = false;
    }

    /// Opens a gap after the last letter, where none is open.
    pub fn gap(&mut self, tree: &Node)
        requires measured { IsTrue (is_measured tree.now) }
        requires within { weight (core_of tree.now) ≤ position_count self.old }
        ensures positions { position_count self.new ≡ position_count self.old }
        ensures taken { (lists : List (List (Gap × ℕ)))
            → HasTakenAny (core_of tree.now) self.old lists
            → HasTakenAny (core_of tree.now) self.new lists }
        ensures open { IsTrue (has_gap self.new) }
    {
        if !self.is_apart {
            self.close(tree);
            self.is_apart = true;
        }
    }

    /// Takes one token more, between gaps, after the letter `last`. Answers its last letter, or else the one before.
    pub fn token(&mut self, tree: &Node, token: &str, last: char) -> char
        requires measured { IsTrue (is_measured tree.now) }
        requires within { weight (core_of tree.now) ≤ position_count self.old }
        ensures positions { position_count self.new ≡ position_count self.old }
        ensures taken { (lists : List (List (Gap × ℕ)))
            → HasTakenAny (core_of tree.now) self.old lists
            → HasTakenAny (core_of tree.now) self.new
            (each_with (gapped_from last true (chars token.now)) lists) }
        ensures open { IsTrue (has_gap self.new) }
        ensures last { result ≡ last_letter last (chars token.now) }
    {
        let mut letters = Letters::new(token, last, true);
        while let Some(letter) = letters.next() {
            self.letter(tree, letter);
        }
        self.gap(tree);
        letters.last_letter()
    }

    /// Whether some word of the expression spells what was taken.
    pub fn accepts(&self, tree: &Node) -> bool
        requires measured { IsTrue (is_measured tree.now) }
        requires within { weight (core_of tree.now) ≤ position_count self.now }
        requires open { IsTrue (has_gap self.now) }
        ensures { (lists : List (List (Gap × ℕ)))
            → HasTakenAny (core_of tree.now) self.now lists
            → IsTrue result ↔ ((n : ℕ) × AfterAny (WordsOf (core_of tree.now)) lists (blanks n)) }
    {
        let at_once = leaves(tree, &self.at_once, 0, false, self.entry);
        let after_blanks = leaves(tree, &self.after_blanks, 0, true, false);
        at_once | after_blanks
    }

    /// Whether a letter was taken and no position is active: then no word begins with what was taken.
    pub fn is_clear(&self) -> bool
        ensures { (r : Core) (letters : List (Gap × ℕ)) → HasTaken r self.now letters
            → IsTrue result
            → RepresentsAtOnce r false (no_marks r) letters }
    {
        self.is_dead()
    }

    /// Whether no position is active, and no word may begin: then no word begins with what was taken.
    pub fn is_dead(&self) -> bool
        ensures { (r : Core) (lists : List (List (Gap × ℕ))) → HasTakenAny r self.now lists
            → IsTrue result
            → (v : Word) → ¬ (AfterAny (WordsOf r) lists v) }
    {
        !self.entry & is_clear(&self.at_once)
    }

    /// Forgets all that was taken. No position is active, and a word may begin only where `enter` says so.
    pub fn clear(&mut self)
        ensures positions { position_count self.new ≡ position_count self.old }
        ensures taken { (r : Core) → HasTakenAny r self.new [] }
        ensures open { IsTrue (has_gap self.new) }
    {
        clear(&mut self.at_once);
        clear(&mut self.after_blanks);
        self.entry = false;
        self.is_apart = true;
    }

    /// The positions that are active after blanks at the beginning of a word, by a state that has taken nothing.
    ///
    /// # Errors
    /// Out of memory.
    pub fn first_blanks(&mut self, alloc: Global, tree: &Node) -> Result<Bits, AllocError>
        requires measured { IsTrue (is_measured tree.now) }
        requires size { position_count self.old ≡ weight (core_of tree.now) }
        requires fresh { IsFresh self.old }
        ensures positions { position_count self.new ≡ position_count self.old }
        ensures size { IfOk result (λ first. length first ≡ position_count self.old) }
        ensures first { IfOk result (HasFirstBlanks (core_of tree.now)) }
    {
        self.close(tree);
        let mut first = Bits::new(alloc, tree.weight())?;
        first.copy_from(&self.after_blanks);
        Ok(first)
    }

    /// Takes one letter more after the gap that is open, and as the first letter of a word. `first` has the positions that
    /// are active after blanks at the beginning of a word.
    pub fn enter(&mut self, tree: &Node, first: &Bits, letter: Letter)
        requires measured { IsTrue (is_measured tree.now) }
        requires within { weight (core_of tree.now) ≤ position_count self.old }
        requires size { length first.now ≡ position_count self.old }
        requires first { HasFirstBlanks (core_of tree.now) first.now }
        requires open { IsTrue (has_gap self.old) }
        requires apart { IsTrue letter.is_apart }
        ensures positions { position_count self.new ≡ position_count self.old }
        ensures taken { (lists : List (List (Gap × ℕ)))
            → HasTakenAny (core_of tree.now) self.old lists
            → HasTakenAny (core_of tree.now) self.new
            (((free, letter.letter) ∷ []) ∷ each_with (gapped_letter letter ∷ []) lists) }
    {
        let c = letter.letter;
        if letter.are_words {
            clear(&mut self.at_once);
        }
        step(&mut self.at_once, tree, false, true, c);
        join(&mut self.after_blanks, first);
        step(&mut self.after_blanks, tree, true, false, c);
        join(&mut self.at_once, &self.after_blanks);
        self.entry = false;
        self.is_apart = false;
    }

    /// Takes the letters that are left of a token, which is read from its end, and opens a gap after them. Answers the
    /// last of them, or else the letter before.
    pub fn finish_token(&mut self, tree: &Node, letters: ReversedLetters) -> char
        requires measured { IsTrue (is_measured tree.now) }
        requires within { weight (core_of tree.now) ≤ position_count self.old }
        ensures positions { position_count self.new ≡ position_count self.old }
        ensures taken { (lists : List (List (Gap × ℕ)))
            → HasTakenAny (core_of tree.now) self.old lists
            → HasTakenAny (core_of tree.now) self.new
            (each_with (reversed_letters_left letters.entry) lists) }
        ensures open { IsTrue (has_gap self.new) }
        ensures last { result ≡ reversed_last_in letters.entry }
    {
        let mut letters = letters;
        while let Some(letter) = letters.next() {
            self.letter(tree, letter);
        }
        self.gap(tree);
        letters.last_letter()
    }

    // The positions that are active after one blank or more, from those at once: the closure over blanks.
    fn close(&mut self, tree: &Node)
        requires measured { IsTrue (is_measured tree.now) }
        requires within { weight (core_of tree.now) ≤ position_count self.old }
        ensures positions { position_count self.new ≡ position_count self.old }
        ensures after_blanks { marks_of (core_of tree.now) self.new.after_blanks
            ≡ over_blanks (core_of tree.now) self.old.entry
            (marks_of (core_of tree.now) self.old.at_once) }
        ensures at_once { self.new.at_once ≡ self.old.at_once }
        ensures entry { self.new.entry ≡ self.old.entry }
    {
        self.after_blanks.copy_from(&self.at_once);
        step(&mut self.after_blanks, tree, false, self.entry, ' ');
        let mut grew = true;
        while grew {
            self.spare.copy_from(&self.after_blanks);
            step(&mut self.spare, tree, true, false, ' ');
            grew = join(&mut self.after_blanks, &self.spare);
        }
    }

    // Takes the active positions over a letter that comes at once, or after the gap that is open.
    fn shift(&mut self, tree: &Node, letter: Letter)
        requires measured { IsTrue (is_measured tree.now) }
        requires within { weight (core_of tree.now) ≤ position_count self.old }
        ensures positions { position_count self.new ≡ position_count self.old }
        ensures marks { marks_of (core_of tree.now) self.new.at_once
            ≡ shift_over (core_of tree.now) self.old.entry
            (marks_of (core_of tree.now) self.old.at_once)
            (marks_of (core_of tree.now) self.old.after_blanks)
            (gapped_letter letter).0 letter.letter }
    {
        let c = letter.letter;
        if !letter.is_apart {
            step(&mut self.at_once, tree, false, self.entry, c);
        } else if letter.are_words {
            self.at_once.copy_from(&self.after_blanks);
            step(&mut self.at_once, tree, true, false, c);
        } else {
            self.spare.copy_from(&self.after_blanks);
            step(&mut self.spare, tree, true, false, c);
            step(&mut self.at_once, tree, false, self.entry, c);
            join(&mut self.at_once, &self.spare);
        }
    }
}
