//! Where tokens begin and end.
ghost use Rattle.std.specs.Prelude.{◌≡◌, ℕ, Bool, false, List, ◌∷◌, ◌+◌, ◌*◌, ◌^◌, ◌<◌, ◌≤◌, length, OnOk};
ghost use Rattle.lic_columns.specs.Masks.{IsColumn, EndsBefore};
ghost use Rattle.lic_columns.specs.Cells.{AreCells, cells_of, firsts, lasts, starts_of, ends_of};
ghost use Rattle.lic_columns.specs.Cells.{Blank};
ghost use Rattle.lic_columns.specs.Known.{IsText};
ghost use Rattle.lic_columns.specs.Marks.{HaveLetters};
ghost use Rattle.lic_columns.specs.Tokens.{text_spans};

use crate::block::SIZE;
use crate::columns::Columns;
use crate::marks::{Carried, Kept};
use crate::mask::{but_not, moved_up};
use crate::offsets::Offsets;
use std::alloc::AllocError;

/// Memory is taken for a token in this number of bytes.
const BYTES_OF_A_TOKEN: usize = 4;

/// At which offsets of a column a token begins; of the words of the column before the last offset alone has an effect.
#[inline(always)]
fn first_offsets(before: u64, word: u64, marks: &Kept) -> u64
    ensures { (words kept joined : List Bool) (k : ℕ) → AreCells words kept joined → EndsBefore before words k → IsColumn word words k
        → IsColumn marks.now.kept kept k → IsColumn marks.now.joined joined k
        → IsColumn result (firsts Blank (cells_of words kept joined)) k }
{
    but_not(word, moved_up(before, word)) | but_not(marks.kept, marks.joined)
}

/// At which offsets of a column a token has ended: the offset before is its last. Of the words and of the kept marks of the column before
/// the last offset alone has an effect.
#[inline(always)]
fn end_offsets(before: u64, word: u64, kept_before: u64, marks: &Kept) -> u64
    ensures { (words kept joined : List Bool) (k : ℕ) → AreCells words kept joined → EndsBefore before words k → IsColumn word words k
        → EndsBefore kept_before kept k → IsColumn marks.now.kept kept k → IsColumn marks.now.joined joined k
        → IsColumn result (false ∷ lasts (cells_of words kept joined)) k }
{
    but_not(moved_up(before, word), word) | but_not(moved_up(kept_before, marks.kept), marks.joined)
}

/// Lists the offsets where the tokens of a text begin, and those after the offsets where they end: each longest streak of bytes of a
/// word, and each mark that is in no separator, or row of quotes or of dashes. The text begins at this offset.
///
/// # Errors
/// Memory ran out. What the lists then hold is not said.
pub fn list_tokens(
    separators: bool,
    at: u32,
    bytes: &[u8],
    columns: &Columns,
    starts: &mut Offsets,
    ends: &mut Offsets,
) -> Result<(), AllocError>
    requires fits { at + length bytes.now + 65 ≤ 2 ^ 32 }
    requires text { IsText (length bytes.now) columns.now }
    requires letters { HaveLetters bytes.now columns.now.letters columns.now.mark }
    ensures starts { OnOk result (starts.new ≡ starts_of (text_spans separators at bytes.now columns.now)) }
    ensures ends { OnOk result (ends.new ≡ ends_of (text_spans separators at bytes.now columns.now)) }
{
    starts.start(bytes.len() / BYTES_OF_A_TOKEN)?;
    ends.start(bytes.len() / BYTES_OF_A_TOKEN)?;
    let (letters, words, marks) = (columns.letters(), columns.word(), columns.mark());
    let mut carried = Carried::start();
    let mut mark = marks.column(0);
    let mut before = 0;
    let mut kept = 0;
    for k in 0..bytes.len() / SIZE + 1 {
        let after = marks.column(k + 1);
        let here = carried.next(separators, bytes, letters, marks, mark, after, k);
        let word = words.column(k);
        let offset = at + (k * SIZE) as u32;
        starts.put(offset, first_offsets(before, word, &here))?;
        ends.put(offset, end_offsets(before, word, kept, &here))?;
        mark = after;
        before = word;
        kept = here.kept;
    }
    Ok(())
}
