//! State sets: a row of bits says which positions are active.

ghost use Rattle.std.specs.Prelude.{◌≡◌, ◌<◌, ◌≤◌, ◌↔◌, IsTrue, false, true, length, replicate};
ghost use Rattle.lic_marks.specs.Cores.{Core};
ghost use Rattle.lic_marks.specs.Marks.{join, shift};
ghost use Rattle.lic_marks.specs.Rows.{weight, marks_of, unset_count};
ghost use Rattle.lic_marks.specs.Nodes.{core_of, is_measured};

use crate::moves::Reading;
use crate::node::Node;
use crate::shift::shift;
use lic_rows::Bits;

/// Whether no position is active.
pub fn is_clear(row: &Bits) -> bool
    ensures { IsTrue result ↔ (row.now ≡ replicate (length row.now) false) }
{
    !row.is_any_set(0, row.len())
}

/// Makes no position active.
pub fn clear(row: &mut Bits)
    ensures clear { row.new ≡ replicate (length row.old) false }
    ensures len { length row.new ≡ length row.old }
{
    let end = row.len();
    row.clear(0, end);
}

/// Makes the other row's positions active too, and says whether one was new.
pub fn join(row: &mut Bits, other: &Bits) -> bool
    requires { length row.old ≡ length other.now }
    ensures marks { (r : Core)
        → marks_of r row.new ≡ join r (marks_of r row.old) (marks_of r other.now) }
    ensures same { result ≡ false → row.new ≡ row.old }
    ensures grows { result ≡ true → unset_count row.new < unset_count row.old }
    ensures len { length row.new ≡ length row.old }
{
    row.join(other)
}

/// Takes the active positions over the letter. `after` says that the letter before it was a blank, and `entry` that a
/// word may begin with it.
pub fn step(row: &mut Bits, tree: &Node, after: bool, entry: bool, letter: char)
    requires measured { IsTrue (is_measured tree.now) }
    requires within { weight (core_of tree.now) ≤ length row.old }
    ensures marks { marks_of (core_of tree.now) row.new
        ≡ shift (core_of tree.now) after entry (marks_of (core_of tree.now) row.old) letter }
    ensures len { length row.new ≡ length row.old }
{
    shift(tree, row, 0, entry, Reading { letter, after });
}
