//! The windows of literals, of three lengths.

ghost use Rattle.std.specs.Prelude.{◌≤◌, ◌<◌, ◌↔◌, length, IfOk, IfSome, IsNone, OnOk};
ghost use Rattle.lic_literals.specs.Sizes.{AreSizes};
ghost use Rattle.lic_literals.specs.Windows.{AddsKey};

pub(crate) mod table;

use crate::counts::Counts;
use crate::grams::{LONG_GRAM, SHORT_GRAM};
use crate::hits::Hits;
use crate::tables::table::Table;
use std::alloc::{AllocError, Global};

// How many bytes a window has.
const LONG: usize = 16;

const MIDDLE: usize = 7;

const SHORT: usize = 4;

// Of how many offsets in a row one is looked at for the windows of a length.
const LONG_STEP: usize = 8;

const MIDDLE_STEP: usize = 4;

const SHORT_STEP: usize = 1;

/// The window of a literal.
#[derive(Clone, Copy, Debug)]
pub struct Key {
    /// The number of the window: that of the first literal that has this one.
    pub window: usize,
    /// How many bytes there are from the beginning of the window to the end of the literal.
    pub to_end: usize,
}

/// The windows of literals, each of the greatest length that its literal has.
pub struct Tables {
    long: Table<LONG, LONG_GRAM, LONG_STEP>,
    middle: Table<MIDDLE, SHORT_GRAM, MIDDLE_STEP>,
    short: Table<SHORT, SHORT_GRAM, SHORT_STEP>,
}

// Written out, so that a caller's proof has one call and not the drop of each table.
impl Drop for Tables {
    fn drop(self) {
        let Tables {
            long: _long,
            middle: _middle,
            short: _short,
        } = self;
    }
}

impl Tables {
    ghost use Rattle.lic_literals.specs.Windows.{AddsLiteral, AreBelow, HaveNone, NotesKeys};

    /// Tables without windows.
    pub fn new(alloc: Global) -> Result<Tables, AllocError>
        ensures { IfOk result HaveNone }
    {
        Ok(Tables {
            long: Table::new(alloc)?,
            middle: Table::new(alloc)?,
            short: Table::new(alloc)?,
        })
    }

    /// Adds the rarest window of a literal of this number, unless it is too short to have one.
    pub fn add(
        &mut self,
        literal: &[u8],
        number: usize,
        counts: &Counts,
    ) -> Result<Option<Key>, AllocError>
        ensures adds { IfOk result (λ key. AddsLiteral literal.now number key self.old self.new) }
        ensures none { IfOk result (λ key. IsNone key ↔ (length literal.now < 4)) }
    {
        let Some(size) = window_length(literal) else {
            return Ok(None);
        };
        let key = match size {
            LONG => add_to(&mut self.long, literal, number, counts)?,
            MIDDLE => add_to(&mut self.middle, literal, number, counts)?,
            _ => add_to(&mut self.short, literal, number, counts)?,
        };
        Ok(Some(key))
    }

    /// Notes each offset at which a window occurs in the bytes.
    pub fn note_all(&self, bytes: &[u8], hits: &mut Hits) -> Result<(), AllocError>
        ensures { OnOk result (NotesKeys self.now bytes.now hits.old hits.new) }
    {
        self.long.note_all(bytes, hits)?;
        self.middle.note_all(bytes, hits)?;
        self.short.note_all(bytes, hits)
    }
}

/// How many bytes the window of a literal has, if it is long enough for one.
pub fn window_length(literal: &[u8]) -> Option<usize>
    ensures some { IfSome result (λ n. (4 ≤ n) × (n ≤ length literal.now)) }
    ensures none { IsNone result ↔ (length literal.now < 4) }
{
    if literal.len() >= LONG {
        Some(LONG)
    } else if literal.len() >= MIDDLE {
        Some(MIDDLE)
    } else if literal.len() >= SHORT {
        Some(SHORT)
    } else {
        None
    }
}

// Adds the rarest window of a literal to a table.
fn add_to<const LENGTH: usize, const GRAM: usize, const STEP: usize>(
    table: &mut Table<LENGTH, GRAM, STEP>,
    literal: &[u8],
    number: usize,
    counts: &Counts,
) -> Result<Key, AllocError>
    requires sizes { AreSizes LENGTH GRAM STEP }
    requires long { LENGTH ≤ length literal.now }
    ensures { IfOk result (λ key. AddsKey literal.now number key table.old table.new) }
{
    let start = counts.rarest(literal, LENGTH);
    let window = literal[start..].first_chunk::<LENGTH>().unwrap();
    Ok(Key {
        window: table.add(window, number)?,
        to_end: literal.len() - start,
    })
}
