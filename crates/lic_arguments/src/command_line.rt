//! The command line and its parser.

ghost use Rattle.std.specs.Prelude.{◌≡◌, ◌≢◌, IfOk, IfErr, map};
ghost use Rattle.clap.specs.Simple.{App, app_of, with_rule};
ghost use Rattle.clap.specs.Values.{kind_of};
ghost use Rattle.lic_arguments.specs.CommandLine.{AreMatchesOf, HasForm, HasRule, HasShape, IsNoCall, after, all, bare, check, files, licscan, limit, rules};
ghost use Rattle.lic_arguments.specs.CommandLine.{scan, templates, tokens, words};

use clap::error::ErrorKind;
use clap::{Arg, ArgAction, ArgMatches, Command, Error, value_parser};
use std::alloc::{AllocError, Global};

/// The version of the program, for whoever names it in a bill of materials.
pub const VERSION: &str = "0.1.0";

const ABOUT: &str = "Finds the ranges of texts that licence templates match";

const SCAN_ABOUT: &str = "Prints each range of a file that a template matches";

const SCAN_DETAILS: &str = "\
Templates are the files of DIR whose names end in .template.txt; the part before
that is the identifier.

Without --all a match is left out where a shorter one of the same template lies
within it, and of the rest one that lies within a longer one of another
template. With --all every match is written.

A match is a line of six fields with a tab between two: the file, the
template's identifier, the numbers of the first and the last token, counted
from 0, the byte at which the match starts, and the byte just past its end.

Without --all a line for each variable of the template follows: an empty field,
the variable's name, the byte at which its value starts, the byte just past its
end, and the value. If a variable has no value, a - follows its name.

F:L:ID are the numbers of a first and a last token, and an identifier.

Status: 0 if a line was written, 1 if none was, 2 if there was an error.

Example: licscan scan --templates templates LICENSE README";

const CHECK_ABOUT: &str = "Checks that each template matches its own original text";

const CHECK_DETAILS: &str = "\
Templates are the files of DIR whose names end in .template.txt; the part before
that is the identifier.

A template is a line of three fields with a tab between two: the identifier,
the weight, and yes or no. The original text is the template with each
variable's original value in its place and with all optional parts.

Status: 1 if a line says no, else 0; 2 if there was an error.

Example: licscan check --templates templates";

const TOKENS_ABOUT: &str = "Prints each token of a file";

const TOKENS_DETAILS: &str = "\
A line has four fields with a tab between two: the file, the byte at which the
token starts, the byte just past its end, and the token's text.

Status: 0 if a line was written, 1 if none was, 2 if there was an error.

Example: licscan tokens LICENSE";

/// The folder of the templates.
fn templates_option<'a>(alloc: Global) -> Arg<'a>
    ensures { HasRule templates result }
{
    Arg::new(alloc, "templates")
        .long("templates")
        .value_name("DIR")
        .help("The folder of the templates")
        .required(true)
        .action(ArgAction::Set)
}

/// The file of the list of equivalent words.
fn words_option<'a>(alloc: Global) -> Arg<'a>
    ensures { HasRule words result }
{
    Arg::new(alloc, "words")
        .long("words")
        .value_name("FILE")
        .help("The list of words that count as the same")
        .action(ArgAction::Set)
}

/// The file of the line rules.
fn rules_option<'a>(alloc: Global) -> Arg<'a>
    ensures { HasRule rules result }
{
    Arg::new(alloc, "rules")
        .long("rules")
        .value_name("FILE")
        .help("The line rules: comment marks and list items to ignore")
        .action(ArgAction::Set)
}

/// The files that are read.
fn files_argument<'a>(alloc: Global) -> Arg<'a>
    ensures { HasRule files result }
{
    Arg::new(alloc, "files")
        .value_name("FILES")
        .help("The files to read; none, or -, is standard input")
        .num_args(0..)
        .action(ArgAction::Append)
}

/// Whether every match is written.
fn all_option<'a>(alloc: Global) -> Arg<'a>
    ensures { HasRule all result }
{
    Arg::new(alloc, "all")
        .long("all")
        .help("Write every match, and no variables")
        .action(ArgAction::SetTrue)
}

/// The match after which a scan resumes.
fn after_option<'a>(alloc: Global) -> Arg<'a>
    ensures { HasRule after result }
{
    Arg::new(alloc, "after")
        .long("after")
        .value_name("F:L:ID")
        .help("With --all: only what comes after this match")
        .action(ArgAction::Set)
}

/// The most lines for each file.
fn limit_option<'a>(alloc: Global) -> Arg<'a>
    ensures { HasRule limit result }
{
    Arg::new(alloc, "limit")
        .long("limit")
        .value_name("N")
        .help("With --all: at most N lines for each file")
        .value_parser(value_parser!(u32).range(1..))
        .action(ArgAction::Set)
}

/// With the files of the list of equivalent words and of the line rules.
fn with_lists<'a>(alloc: Global, command: Command<'a>) -> Result<Command<'a>, AllocError>
    ensures { IfOk result (λ added. (a : App) → HasForm a command.entry
        → HasForm (with_rule (with_rule a words) rules) added) }
{
    command.arg(words_option(alloc))?.arg(rules_option(alloc))
}

/// The options and files of `scan`.
fn scan_command<'a>(alloc: Global) -> Result<Command<'a>, AllocError>
    ensures { IfOk result (HasShape scan) }
{
    let command = Command::new(alloc, "scan")
        .about(SCAN_ABOUT)
        .after_help(SCAN_DETAILS)
        .arg(templates_option(alloc))?;
    with_lists(alloc, command)?
        .arg(all_option(alloc))?
        .arg(after_option(alloc))?
        .arg(limit_option(alloc))?
        .arg(files_argument(alloc))
}

/// The options of `check`.
fn check_command<'a>(alloc: Global) -> Result<Command<'a>, AllocError>
    ensures { IfOk result (HasShape check) }
{
    let command = Command::new(alloc, "check")
        .about(CHECK_ABOUT)
        .after_help(CHECK_DETAILS)
        .arg(templates_option(alloc))?;
    with_lists(alloc, command)
}

/// The options and files of `tokens`.
fn tokens_command<'a>(alloc: Global) -> Result<Command<'a>, AllocError>
    ensures { IfOk result (HasShape tokens) }
{
    let command = Command::new(alloc, "tokens")
        .about(TOKENS_ABOUT)
        .after_help(TOKENS_DETAILS);
    with_lists(alloc, command)?.arg(files_argument(alloc))
}

/// The program before its commands are added.
fn bare_program<'a>(alloc: Global) -> Result<Command<'a>, AllocError>
    ensures { IfOk result (λ command. app_of command ≡ bare) }
{
    Ok(
        Command::new(alloc, "licscan")
            .bin_name("licscan")?
            .no_binary_name(true)
            .version(VERSION)
            .about(ABOUT)
            .subcommand_required(true),
    )
}

/// The program with its commands.
fn program<'a>(alloc: Global) -> Result<Command<'a>, AllocError>
    ensures { IfOk result (λ command. app_of command ≡ licscan) }
{
    bare_program(alloc)?
        .subcommand(scan_command(alloc)?)?
        .subcommand(check_command(alloc)?)?
        .subcommand(tokens_command(alloc)?)
}

/// Reads the arguments, without the program's name.
pub fn parse<'a>(alloc: Global, args: &'a [&'a str]) -> Result<ArgMatches<'a>, Error>
    ensures found { IfOk result (AreMatchesOf (map (λ a. a.now) args.entry.now)) }
    ensures fault { IfErr result (λ error. kind_of error ≢ ErrorKind.OutOfMemory → IsNoCall (map (λ a. a.now) args.entry.now) (kind_of error)) }
{
    program(alloc)?.try_get_matches_from(args)
}
