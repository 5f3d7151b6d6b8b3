//! Places on the way from the first instruction to the last.

ghost use Rattle.std.specs.Prelude.{◌≡◌, ◌↔◌, ◌++◌, ◌∷◌, [], ℕ, IsTrue};
ghost use Rattle.std.specs.Str.{chars};
ghost use Rattle.lic_words.specs.Words.{Word};
ghost use Rattle.lic_view.specs.PlaceSets.{ArePlaced, Reaches};
ghost use Rattle.lic_vars.specs.Cuts.{IsOpen, LeadsTo, ReadsFrom, ReadsOn, letter_place};

use lic_reverse::have_place;
use lic_spans::PlaceSpan;
use lic_view::{View, tokens_have_texts};

/// A place, and whether blanks of the gap there are written already.
#[derive(Clone, Copy, Debug, PartialEq, Eq)]
pub struct Cut {
    pub place: usize,
    pub is_apart: bool,
}

/// Where a letter begins that comes next.
pub fn letter_place(view: &View<'_>, cut: Cut) -> usize
    ensures { result ≡ letter_place view.now cut }
{
    if cut.is_apart && view.is_blank(cut.place) {
        prove!(cut.place < view.bytes().len());
        cut.place + 1
    } else {
        cut.place
    }
}

/// Whether the spans have a place of the cut.
pub fn have_cut(view: &View<'_>, spans: &[PlaceSpan], cut: Cut) -> bool
    requires placed { ArePlaced view.now spans.now }
    requires open { IsOpen view.now cut }
    ensures { IsTrue result ↔ ((p : ℕ) × (last : ℕ) × ReadsFrom view.now cut [] p × Reaches view.now spans.now p last) }
{
    tokens_have_texts(view);
    have_place(view, spans, cut.place) || have_place(view, spans, letter_place(view, cut))
}

/// The cut after a text that can be read.
pub fn after_text(view: &View<'_>, text: &str, cut: Cut) -> Cut
    requires { (w : Word) × ReadsOn view.now cut (chars text.now ++ w) }
    ensures { LeadsTo view.now cut (chars text.now) result }
{
    tokens_have_texts(view);
    let mut cut = cut;
    for c in text.chars() {
        cut = after_letter(view, c, cut);
    }
    cut
}

// The cut after a letter or a blank that can be read.
fn after_letter(view: &View<'_>, letter: char, cut: Cut) -> Cut
    requires { (w : Word) × ReadsOn view.now cut (letter ∷ w) }
    ensures { LeadsTo view.now cut (letter ∷ []) result }
{
    tokens_have_texts(view);
    let _length = view.bytes().len();
    if letter == ' ' {
        return Cut {
            place: cut.place,
            is_apart: true,
        };
    }
    Cut {
        place: letter_place(view, cut) + letter.len_utf8(),
        is_apart: false,
    }
}
