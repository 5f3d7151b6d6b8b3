//! Reading a pattern from left to right.
ghost use Rattle.std.specs.Prelude.{◌≡◌, ◌⊎◌, IfOk, IfErr, Ok, Err};
ghost use Rattle.lic_ere.specs.Trees.{Tree, tree_of};
ghost use Rattle.lic_ere.specs.Faults.{Gives, out_of_memory};
ghost use Rattle.lic_ere.specs.FirstFaults.{IsFaultOf};
ghost use Rattle.lic_ere.specs.declared.fault.EreFault.{EreFault};
ghost use Rattle.lic_ere.specs.Grammar.{IsPattern};
ghost use Rattle.lic_ere.specs.Reading.{start, read_from, reading};
ghost use Rattle.lic_ere.specs.Views.{left};

use crate::ere::Ere;
use crate::fault::EreFault;
use crate::lexeme::next_lexeme;
use crate::reader::PatternReader;
use crate::remaining::Remaining;
use std::alloc::Global;

/// Reads characters, the whole of a pattern.
fn read_all(alloc: Global, all: Remaining<'_>) -> Result<Ere, EreFault>
    ensures { Gives tree_of result (read_from start (left all.entry)) }
{
    let mut reader = PatternReader::new(alloc);
    let mut rest = all;
    while let Some((first, after)) = rest.split_first() {
        let (offset, character) = first;
        let (lexeme, following) = next_lexeme(alloc, offset, character, after)?;
        reader.meet(alloc, offset, lexeme)?;
        rest = following;
    }
    reader.finish(alloc)
}

/// Reads the pattern, or finds its first fault from the left (this project's profile of extended
/// regular expressions, POSIX.1-2017, XBD 9.4). Where memory runs out the cause is `OutOfMemory`, at 0.
pub fn read(alloc: Global, pattern: &str) -> Result<Ere, EreFault>
    // What is read is in the grammar.
    ensures found { IfOk result (λ tree. IsPattern pattern.now (tree_of tree)) }
    // What is in the grammar is read, unless memory runs out.
    ensures only { (tree : Tree) → IsPattern pattern.now tree → Gives tree_of result (Ok tree) }
    // What is refused is refused by the fault that decides, or since memory ran out.
    ensures first { IfErr result (λ e. (e ≡ out_of_memory) ⊎ IsFaultOf pattern.now e) }
    // The fault that decides is reported, unless memory runs out.
    ensures decides { (e : EreFault) → IsFaultOf pattern.now e → Gives tree_of result (Err e) }
    // Which tree, or which fault it is, unless memory runs out.
    ensures exact { Gives tree_of result (reading pattern.now) }
{
    read_all(alloc, Remaining::new(pattern))
}
