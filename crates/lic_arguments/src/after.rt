//! The triple after which a scan resumes, as an argument has it.

ghost use Rattle.std.specs.Prelude.{ℕ, IfOk, IfErr, IfSome, IfNone};
ghost use Rattle.lic_arguments.specs.After.{IsNumber, IsAfter, IsAsGiven, IsFirstFault};
ghost use Rattle.lic_arguments.specs.declared.after.After.{After as TheAfter};

use crate::fault::ArgumentFault;

/// A triple as it is written in an argument: by its template's identifier.
#[derive(Clone, Copy, Debug, PartialEq, Eq)]
pub struct After<'a> {
    pub first: usize,
    pub last: usize,
    pub id: &'a str,
}

/// What is given of the options of which one asks for another.
#[derive(Clone, Copy, Debug, PartialEq, Eq)]
pub struct Given<'a> {
    pub all: bool,
    pub has_limit: bool,
    pub after: Option<&'a str>,
    /// How many files are read.
    pub files: usize,
}

/// A number in decimal digits, and nothing else.
fn read_number(text: &str) -> Option<usize>
    ensures some { IfSome result (IsNumber text.now) }
    ensures none { IfNone result ((n : ℕ) → ¬ IsNumber text.now n) }
{
    // `parse` would take a sign
    if text.starts_with('+') {
        return None;
    }
    text.parse::<usize>().ok()
}

/// Reads `F:L:ID`. The identifier may hold colons, and may be empty.
fn read_after(text: &str) -> Option<After<'_>>
    ensures some { IfSome result (IsAfter text.now) }
    ensures none { IfNone result ((after : TheAfter) → ¬ IsAfter text.now after) }
{
    let (first, rest) = text.split_once(':')?;
    let (last, id) = rest.split_once(':')?;
    Some(After {
        first: read_number(first)?,
        last: read_number(last)?,
        id,
    })
}

impl<'a> Given<'a> {
    /// The triple that is given, if one is. Of several faults the first is reported: no `--all`, `--limit` without it, several
    /// files, a bad triple.
    pub fn triple(self) -> Result<Option<After<'a>>, ArgumentFault>
        ensures ok { IfOk result (IsAsGiven self.entry) }
        ensures fault { IfErr result (IsFirstFault self.entry) }
    {
        if !self.all {
            if self.after.is_some() {
                return Err(ArgumentFault::AfterNeedsAll);
            }
            if self.has_limit {
                return Err(ArgumentFault::LimitNeedsAll);
            }
        }
        let Some(text) = self.after else {
            return Ok(None);
        };
        if self.files > 1 {
            return Err(ArgumentFault::AfterFiles);
        }
        match read_after(text) {
            Some(after) => Ok(Some(after)),
            None => Err(ArgumentFault::BadTriple),
        }
    }
}
