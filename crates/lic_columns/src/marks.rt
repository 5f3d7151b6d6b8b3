//! Streaks of marks, column by column: separators go, quotes and dashes are joined.
ghost use Rattle.std.specs.Prelude.{◌≡◌, ℕ, Bool, List, true, ◌+◌, ◌*◌, ◌^◌, ◌<◌, ◌≤◌, ◌&&◌, length, slice_index, if◌then◌else◌};
ghost use Rattle.lic_columns.specs.Carried.{AreCarried};
ghost use Rattle.lic_columns.specs.Masks.{EndsBefore, IsColumn, flag_at};
ghost use Rattle.lic_columns.specs.Marks.{HaveLetters, same_as_next, middles, is_joining, kept_by, kept_in, joined_marks};
ghost use Rattle.lic_trim.specs.PieceLengths.{has_bit};

use crate::block::{joining_offsets, same_offsets};
use crate::flags::Flags;
use crate::mask::{LAST, but_not, moved_down, moved_up};

/// Which marks of a column are the same as the next, and which have its letter.
#[derive(Drop, Clone, Copy)]
pub struct Pairs {
    pub same: u64,
    pub alike: u64,
}

impl Pairs {
    /// Those of column k, by its marks and those of the column after.
    #[inline(always)]
    fn of_column(bytes: &[u8], letters: &[u8], mark: u64, after: u64, k: usize) -> Pairs
        requires inside { 0 < mark → k * 64 < length bytes.now }
        requires long { length letters.now ≡ length bytes.now }
        ensures { (marks : List Bool) → length bytes.now ≡ length marks → HaveLetters bytes.now letters.now marks → IsColumn mark marks k
            → IsColumn after marks (k + 1)
            → IsColumn result.same (same_as_next bytes.now marks) k × IsColumn result.alike (same_as_next letters.now marks) k }
    {
        let both = mark & moved_down(mark, after);
        if both == 0 {
            return Pairs { same: 0, alike: 0 };
        }
        let alike = both & same_offsets(letters, k);
        if alike == 0 {
            return Pairs { same: 0, alike: 0 };
        }
        let same = alike & same_offsets(bytes, k);
        Pairs { same, alike }
    }
}

/// Which of the offsets of column k have the letter of quotes or of dashes.
#[inline(always)]
fn joining(offsets: u64, letters: &[u8], k: usize) -> u64
    requires { (i : ℕ) → i < 64 → has_bit offsets i ≡ true → k * 64 + i < length letters.now }
    ensures { (i : ℕ) → i < 64
        → has_bit result i ≡ (has_bit offsets i && is_joining (slice_index letters.now (k * 64 + i))) }
{
    if offsets == 0 {
        return 0;
    }
    offsets & joining_offsets(letters, k)
}

/// The marks of a column without separators, and those of them that are joined to the one before.
#[derive(Drop, Clone, Copy)]
pub struct Kept {
    pub kept: u64,
    pub joined: u64,
}

/// Which marks of a column are the middle ones of three same ones, by which are the same as the next; of those of the column before the
/// last offset alone has an effect.
#[inline(always)]
fn middles_of(before: u64, same: u64) -> u64
    ensures { (flags : List Bool) (k : ℕ) → EndsBefore before flags k → IsColumn same flags k → IsColumn result (middles flags) k }
{
    moved_up(before, same) & same
}

/// The marks of a column that are kept: without those in a separator, where separators are taken out. Which marks are the middle ones of three
/// same ones is given for the column, the one before and the one after; of these the last and the first offset alone have an effect.
#[inline(always)]
fn kept_of(separators: bool, mark: u64, before: u64, middle: u64, after: u64) -> u64
    ensures { (flags marks : List Bool) (k : ℕ) → EndsBefore before flags k → IsColumn middle flags k
        → has_bit after 0 ≡ flag_at flags ((k + 1) * 64) → IsColumn mark marks k → IsColumn result (if separators then kept_by flags marks else marks) k }
{
    if separators {
        let beside = moved_up(before, middle) | moved_down(middle, after);
        but_not(mark, middle | beside)
    } else {
        mark
    }
}

/// Whether the first mark of a column is the middle one of three same ones, as the lowest bit of a mask; of those that are the same as the
/// next in the column before the last offset alone has an effect, and mostly it has none.
#[inline(always)]
fn middle_first(bytes: &[u8], letters: &[u8], marks: &Flags, before: u64, k: usize) -> u64
    requires long { length bytes.now ≡ length marks.now }
    requires letters { HaveLetters bytes.now letters.now marks.now }
    requires more { k + 1 < 2 ^ 64 }
    requires before { EndsBefore before (same_as_next bytes.now marks.now) k }
    ensures { has_bit result 0 ≡ flag_at (middles (same_as_next bytes.now marks.now)) (k * 64) }
{
    if before >> LAST == 0 {
        return 0;
    }
    let pairs = Pairs::of_column(bytes, letters, marks.column(k), marks.column(k + 1), k);
    middles_of(before, pairs.same)
}

/// What is carried to a column, of the column before, of which the last offset alone has an effect: its pairs, which of its marks are the
/// middle ones of three, and the kept marks that have the letter of the next.
#[derive(Drop, Clone, Copy)]
pub struct Carried {
    pub pairs: Pairs,
    pub middle: u64,
    pub close: u64,
}

impl Carried {
    /// What is carried to column 0.
    pub fn start() -> Carried
        ensures { (separators : Bool) (bytes letters : List ℕ) (marks : List Bool) → AreCarried separators bytes letters marks 0 result }
    {
        Carried {
            pairs: Pairs { same: 0, alike: 0 },
            middle: 0,
            close: 0,
        }
    }

    /// The marks of column k, by its marks and those of the column after. What is carried is then what is carried to the next column.
    /// Mostly no mark has the letter of the next: then all are kept, none is joined, and nothing else is carried.
    #[inline(always)]
    pub fn next(
        &mut self,
        separators: bool,
        bytes: &[u8],
        letters: &[u8],
        marks: &Flags,
        mark: u64,
        after: u64,
        k: usize,
    ) -> Kept
        requires long { length bytes.now ≡ length marks.now }
        requires letters { HaveLetters bytes.now letters.now marks.now }
        requires more { k + 2 < 2 ^ 64 }
        requires carried { AreCarried separators bytes.now letters.now marks.now k self.old }
        requires mark { IsColumn mark marks.now k }
        requires after { IsColumn after marks.now (k + 1) }
        ensures kept { IsColumn result.kept (kept_in separators bytes.now marks.now) k }
        ensures joined { IsColumn result.joined (joined_marks letters.now (kept_in separators bytes.now marks.now)) k }
        ensures carried { AreCarried separators bytes.now letters.now marks.now (k + 1) self.new }
    {
        let pairs = Pairs::of_column(bytes, letters, mark, after, k);
        if pairs.alike | self.pairs.alike >> LAST == 0 {
            return Kept {
                kept: mark,
                joined: 0,
            };
        }
        self.next_by_pairs(separators, bytes, letters, marks, pairs, k)
    }

    /// The same by the pairs of column k, whichever they are.
    #[inline(never)]
    fn next_by_pairs(
        &mut self,
        separators: bool,
        bytes: &[u8],
        letters: &[u8],
        marks: &Flags,
        pairs: Pairs,
        k: usize,
    ) -> Kept
        requires long { length bytes.now ≡ length marks.now }
        requires letters { HaveLetters bytes.now letters.now marks.now }
        requires more { k + 2 < 2 ^ 64 }
        requires carried { AreCarried separators bytes.now letters.now marks.now k self.old }
        requires same { IsColumn pairs.same (same_as_next bytes.now marks.now) k }
        requires alike { IsColumn pairs.alike (same_as_next letters.now marks.now) k }
        ensures kept { IsColumn result.kept (kept_in separators bytes.now marks.now) k }
        ensures joined { IsColumn result.joined (joined_marks letters.now (kept_in separators bytes.now marks.now)) k }
        ensures carried { AreCarried separators bytes.now letters.now marks.now (k + 1) self.new }
    {
        let middle = middles_of(self.pairs.same, pairs.same);
        let after = middle_first(bytes, letters, marks, pairs.same, k + 1);
        let kept = kept_of(separators, marks.column(k), self.middle, middle, after);
        let close = pairs.alike & kept;
        let joined = joining(kept & moved_up(self.close, close), letters, k);
        *self = Carried {
            pairs,
            middle,
            close,
        };
        Kept { kept, joined }
    }
}
