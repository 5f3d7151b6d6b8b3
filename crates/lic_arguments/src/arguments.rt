//! What is asked for by the command line.

ghost use Rattle.std.specs.Prelude.{◌≡◌, ◌≢◌, ℕ, IfOk, IfErr, IfSome, IfNone, codes, length, map, unwrap_or, []};
ghost use Rattle.clap.specs.Matches.{found_of, first_value};
ghost use Rattle.lic_arguments.specs.After.{IsAsGiven, IsFirstFault};
ghost use Rattle.lic_arguments.specs.Arguments.{IsNamed, IsTripleOf, IsUnnamed};
ghost use Rattle.lic_arguments.specs.Options.{IsFlag, IsText, IsLimit, IsGiven, files_in};

use crate::after::{After, Given};
use crate::fault::ArgumentFault;
use clap::ArgMatches;
use lic_find::Ask;
use lic_set::{Set, Triple};
use std::alloc::Global;

/// The files that are given, or standard input alone where none is.
fn files_given<'a>(alloc: Global, found: &ArgMatches<'a>) -> Result<Vec<&'a str>, ArgumentFault>
    ensures files { IfOk result (λ files. map (λ f. f.now) files.items ≡ files_in (found_of found.now)) }
    ensures fault { IfErr result (λ fault. fault ≡ ArgumentFault.Memory) }
{
    let mut files = Vec::new(alloc);
    if let Some(given) = found.get_strs("files") {
        files.extend_from_slice(given)?;
    }
    if files.is_empty() {
        files.push("-")?;
    }
    Ok(files)
}

/// The arguments of `tokens`.
#[derive(Debug, Drop)]
pub struct TokensArguments<'a> {
    /// The file of the list of equivalent words.
    pub words: Option<&'a str>,
    /// The file of the line rules.
    pub rules: Option<&'a str>,
    /// Standard input alone where no file is given.
    pub files: Vec<&'a str>,
}

impl<'a> TokensArguments<'a> {
    /// Reads what the parser found.
    pub fn read(alloc: Global, found: &ArgMatches<'a>) -> Result<TokensArguments<'a>, ArgumentFault>
        ensures words { IfOk result (λ read. IsText (found_of found.now) (codes "words") read.words) }
        ensures rules { IfOk result (λ read. IsText (found_of found.now) (codes "rules") read.rules) }
        ensures files { IfOk result (λ read. map (λ f. f.now) read.files.items ≡ files_in (found_of found.now)) }
        ensures fault { IfErr result (λ fault. fault ≡ ArgumentFault.Memory) }
    {
        Ok(TokensArguments {
            words: found.get_str("words"),
            rules: found.get_str("rules"),
            files: files_given(alloc, found)?,
        })
    }
}

/// The arguments of `check`.
#[derive(Clone, Copy, Debug)]
pub struct CheckArguments<'a> {
    /// The folder of the templates.
    pub folder: &'a str,
    /// The file of the list of equivalent words.
    pub words: Option<&'a str>,
    /// The file of the line rules.
    pub rules: Option<&'a str>,
}

impl<'a> CheckArguments<'a> {
    /// Reads what the parser found.
    pub fn read(found: &ArgMatches<'a>) -> CheckArguments<'a>
        ensures folder { result.folder.now ≡ unwrap_or (first_value (found_of found.now) (codes "templates")) [] }
        ensures words { IsText (found_of found.now) (codes "words") result.words }
        ensures rules { IsText (found_of found.now) (codes "rules") result.rules }
    {
        CheckArguments {
            folder: found.get_str("templates").unwrap_or(""),
            words: found.get_str("words"),
            rules: found.get_str("rules"),
        }
    }
}

/// The arguments of `scan`.
#[derive(Debug, Drop)]
pub struct ScanArguments<'a> {
    /// The folder of the templates.
    pub folder: &'a str,
    /// The file of the list of equivalent words.
    pub words: Option<&'a str>,
    /// The file of the line rules.
    pub rules: Option<&'a str>,
    /// All matches; without it the outer ones.
    pub all: bool,
    /// Only what comes after this triple; given with `all` alone.
    pub after: Option<After<'a>>,
    /// At most this many lines for each file; given with `all` alone.
    pub limit: Option<u64>,
    /// Standard input alone where no file is given.
    pub files: Vec<&'a str>,
}

/// What is given of the options of which one asks for another.
fn given_of<'a>(found: &ArgMatches<'a>, files: usize) -> Given<'a>
    ensures { IsGiven (found_of found.now) files result }
{
    Given {
        all: found.get_flag("all"),
        has_limit: found.contains_id("limit"),
        after: found.get_str("after"),
        files,
    }
}

impl<'a> ScanArguments<'a> {
    /// Reads what the parser found.
    pub fn read(alloc: Global, found: &ArgMatches<'a>) -> Result<ScanArguments<'a>, ArgumentFault>
        ensures folder { IfOk result (λ read. read.folder.now ≡ unwrap_or (first_value (found_of found.now) (codes "templates")) []) }
        ensures words { IfOk result (λ read. IsText (found_of found.now) (codes "words") read.words) }
        ensures rules { IfOk result (λ read. IsText (found_of found.now) (codes "rules") read.rules) }
        ensures all { IfOk result (λ read. IsFlag (found_of found.now) (codes "all") read.all) }
        ensures after { IfOk result (λ read. (given : Given)
            × IsGiven (found_of found.now) (length read.files.items) given
            × IsAsGiven given read.after) }
        ensures limit { IfOk result (λ read. IsLimit (found_of found.now) read.limit) }
        ensures files { IfOk result (λ read. map (λ f. f.now) read.files.items ≡ files_in (found_of found.now)) }
        // The first fault of what is given, where memory did not run out.
        ensures fault { IfErr result (λ fault. fault ≢ ArgumentFault.Memory → (given : Given)
            × IsGiven (found_of found.now) (length (files_in (found_of found.now))) given
            × IsFirstFault given fault) }
    {
        let files = files_given(alloc, found)?;
        let after = given_of(found, files.len()).triple()?;
        Ok(ScanArguments {
            folder: found.get_str("templates").unwrap_or(""),
            words: found.get_str("words"),
            rules: found.get_str("rules"),
            all: found.get_flag("all"),
            after,
            limit: found.get_one::<u32>("limit").map(u64::from),
            files,
        })
    }
}

/// The number of the template with this identifier.
fn number_of(set: &Set, id: &str) -> Option<usize>
    ensures some { IfSome result (λ k. IsNamed set.now id.now k) }
    ensures none { IfNone result ((k : ℕ) → ¬ (IsNamed set.now id.now k)) }
{
    for k in 0..set.len() {
        if set.id(k) == id {
            return Some(k);
        }
    }
    None
}

/// What is asked of each file, once the templates are known.
pub fn ask_of(alloc: Global, arguments: &ScanArguments<'_>, set: &Set) -> Result<Ask, ArgumentFault>
    ensures all { IfOk result (λ ask. ask.all ≡ arguments.now.all) }
    ensures limit { IfOk result (λ ask. ask.limit ≡ arguments.now.limit) }
    ensures after { IfOk result (λ ask. IsTripleOf set.now arguments.now.after ask.after) }
    ensures fault { IfErr result (IsUnnamed set.now arguments.now.after) }
{
    let mut ask = Ask {
        all: arguments.all,
        after: None,
        limit: arguments.limit,
    };
    if let Some(after) = arguments.after {
        let Some(template) = number_of(set, after.id) else {
            let id = after.id.to_string(alloc)?;
            return Err(ArgumentFault::NoTemplate { id });
        };
        ask.after = Some(Triple {
            first: after.first,
            last: after.last,
            template,
        });
    }
    Ok(ask)
}
