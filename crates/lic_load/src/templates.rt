//! The folder of the templates.

ghost use Rattle.std.specs.Prelude.{◌≡◌, ◌≢◌, ◌⊎◌, ◌<◌, ◌↔◌, ◌++◌, ◌∷◌, [], ℕ, All, List, length, map, Err, IfErr, IfNone, IfOk, IfSome, IsTrue, OnOk};
ghost use Rattle.std.specs.List.Sorted.{IsSorted};
ghost use Rattle.std.specs.IoError.{error_kind};
ghost use Rattle.std.specs.Str.{IsUtf8};
ghost use Rattle.std.specs.String.{string_bytes};
ghost use Rattle.std.specs.declared.io.ErrorKind.TheVariants.{OutOfMemory};
ghost use Rattle.lic_kind.specs.LineRules.{rules_of};
ghost use Rattle.lic_elements.specs.Faults.{fault_at};
ghost use Rattle.lic_markup.specs.Parts.{template_of};
ghost use Rattle.lic_markup.specs.Templates.{IsTemplate};
ghost use Rattle.lic_load.specs.declared.templates.TemplateFault.TheVariants.{Unreadable, Memory};
ghost use Rattle.lic_load.specs.Causes.{fault_of_read, IsTemplateFault};
ghost use Rattle.lic_load.specs.Listings.{IsIdentifier, IsReadBy, compare, count_of_names};
ghost use Rattle.lic_load.specs.Loading.{IsLoaded, IsFaultOfTemplates};
ghost use Rattle.lic_load.specs.Reporting.{IsRepeated, IsReported, line_of_template, line_of_unnamed};

use crate::fault::{LoadFault, tell, wants_memory};
use lic_fields::Escaped;
use lic_kind::Rules;
use lic_markup::{MarkupCause, MarkupFault, Template, read_template};
use lic_norm::Words;
use lic_set::Set;
use lic_stream::{Counted, ReadFault, Sink, read_up_to};
use simdutf8::compat::from_utf8;
use std::alloc::{AllocError, AllocFailed, Global};
use std::fs::File;
use std::rt::Files;
use std::{fs, io};
use thiserror::Error;

/// The most bytes that a template may have.
const MAX_BYTES: usize = 1_048_576;

/// What follows the identifier in the name of a template's file.
const ENDING: &str = ".template.txt";

/// Why one template is left out.
#[derive(Debug, Drop, Error)]
enum TemplateFault {
    #[error("cannot be read")]
    Unreadable,
    #[error("not UTF-8 at byte {at}")]
    NotUtf8 { at: usize },
    #[error("{0}")]
    Markup(MarkupFault),
    #[error("out of memory")]
    Memory,
}

impl From<AllocError> for TemplateFault {
    ghost from_gives = { λ _ fault. fault ≡ Memory };

    fn from(_error: AllocError) -> TemplateFault {
        TemplateFault::Memory
    }
}

impl From<io::Error> for TemplateFault {
    ghost from_gives = { λ error fault. (error_kind error ≡ OutOfMemory → fault ≡ Memory)
        × (error_kind error ≢ OutOfMemory → fault ≡ Unreadable) };

    fn from(error: io::Error) -> TemplateFault {
        if wants_memory(&error) {
            TemplateFault::Memory
        } else {
            TemplateFault::Unreadable
        }
    }
}

impl From<ReadFault> for TemplateFault {
    ghost from_gives = { λ read fault. fault ≡ fault_of_read read };

    fn from(fault: ReadFault) -> TemplateFault {
        match fault {
            ReadFault::Read => TemplateFault::Unreadable,
            ReadFault::Memory => TemplateFault::Memory,
        }
    }
}

/// The names of a folder's templates.
#[derive(Debug, Drop)]
pub struct Listing {
    /// The identifiers, in the order of their bytes.
    pub ids: Vec<String>,
    /// How many names are not UTF-8.
    pub unnamed: usize,
}

/// Lists the templates of a folder.
pub fn list_templates<Rt: Files + AllocGlobal + Clone + Drop>(
    rt: &Rt,
    alloc: Global,
    folder: &str,
) -> Result<Listing, LoadFault>
    ensures ordered { IfOk result (λ listing. IsSorted compare listing.ids.items) }
    ensures refused { IfErr result (λ fault. (fault ≡ LoadFault.Listing) ⊎ (fault ≡ LoadFault.Memory)) }
{
    let mut ids = Vec::new(alloc);
    let mut unnamed = 0usize;
    for entry in fs::read_dir(rt, folder).map_err(listing_fault)? {
        match entry {
            Ok(entry) => add_id(alloc, &mut ids, entry.file_name())?,
            Err(e) if e.kind() == io::ErrorKind::InvalidFilename => {
                unnamed = unnamed.saturating_add(1);
            }
            Err(e) => return Err(listing_fault(e)),
        }
    }
    ids.sort()?;
    Ok(Listing { ids, unnamed })
}

/// The identifier in the name of a template's file. Other names have none.
fn identifier_of(name: &str) -> Option<&str>
    ensures some { IfSome result (λ id. IsIdentifier name.now id.now) }
    ensures none { IfNone result ((id : List ℕ) → ¬ (IsIdentifier name.now id)) }
{
    let id = name.strip_suffix(ENDING)?;
    if id.is_empty() {
        return None;
    }
    Some(id)
}

/// Adds the identifier of a file, if its name is one of a template.
fn add_id(alloc: Global, ids: &mut Vec<String>, name: &str) -> Result<(), LoadFault>
    ensures added { (id : List ℕ) → IsIdentifier name.now id → OnOk result
        (map string_bytes ids.new.items ≡ map string_bytes ids.old.items ++ id ∷ []) }
    ensures others { ((id : List ℕ) → ¬ (IsIdentifier name.now id)) → ids.new ≡ ids.old }
    ensures refused { IfErr result (λ fault. fault ≡ LoadFault.Memory) }
{
    let Some(id) = identifier_of(name) else {
        return Ok(());
    };
    ids.push(id.to_string(alloc)?)?;
    Ok(())
}

/// Why a folder cannot be listed.
fn listing_fault(error: io::Error) -> LoadFault
    ensures memory { error_kind error ≡ OutOfMemory → result ≡ LoadFault.Memory }
    ensures listing { error_kind error ≢ OutOfMemory → result ≡ LoadFault.Listing }
{
    if wants_memory(&error) {
        LoadFault::Memory
    } else {
        LoadFault::Listing
    }
}

/// The bytes of a template's file: no more than one more than a template may have.
///
/// Only files are opened, since to open a pipe may take for ever.
fn read_file<Rt: Files + AllocGlobal>(
    rt: &Rt,
    alloc: Global,
    path: &str,
) -> Result<Vec<u8>, TemplateFault> {
    if !fs::metadata(rt, path)?.is_file() {
        return Err(TemplateFault::Unreadable);
    }
    let mut source = Counted::new(File::open(rt, path)?);
    Ok(read_up_to(alloc, &mut source, MAX_BYTES + 1)?)
}

/// The template that some bytes hold.
///
/// # Errors
///
/// Refused are bytes that are too long, then those that are not UTF-8, and templates as by `read_template`.
fn template_in(
    alloc: Global,
    bytes: &[u8],
    words: &Words,
    rules: &Rules,
) -> Result<Template, TemplateFault>
    ensures utf8 { OnOk result (IsUtf8 bytes.now) }
    ensures found { IfOk result (λ template.
        IsTemplate (rules_of rules.now) words.now bytes.now (template_of template)) }
    ensures refused { IfErr result (IsTemplateFault (rules_of rules.now) words.now bytes.now) }
    ensures long { 1048576 < length bytes.now
        → result ≡ Err (TemplateFault.Markup (fault_at 0 MarkupCause.TooLong)) }
{
    if bytes.len() > MAX_BYTES {
        return Err(TemplateFault::Markup(MarkupFault {
            offset: 0,
            cause: MarkupCause::TooLong,
        }));
    }
    match from_utf8(bytes) {
        Ok(text) => read_template(alloc, text, words, rules).map_err(TemplateFault::Markup),
        Err(e) => Err(TemplateFault::NotUtf8 {
            at: e.valid_up_to(),
        }),
    }
}

/// Reads a template.
fn load<Rt: Files + AllocGlobal>(
    rt: &Rt,
    alloc: Global,
    folder: &str,
    id: &str,
    words: &Words,
    rules: &Rules,
) -> Result<Template, TemplateFault>
    ensures { IfOk result (IsReadBy (rules_of rules.now) words.now) }
{
    let path = format!(in alloc; "{folder}/{id}{ENDING}")?;
    let bytes = read_file(rt, alloc, path.as_str())?;
    template_in(alloc, bytes.as_slice(), words, rules)
}

/// The templates of a folder, and whether one was left out.
#[derive(Debug, Drop)]
pub struct Loaded {
    pub set: Set,
    pub is_refused: bool,
}

/// Reports the names that are not UTF-8.
fn report_unnamed<E: Sink>(err: &mut E, count: usize)
    ensures { IsRepeated line_of_unnamed (E.taken err.old) (E.failed err.old) count
        (E.taken err.new) (E.failed err.new) }
{
    for _ in 0..count {
        tell(err, "licscan: templates: a file name is not UTF-8\n");
    }
}

/// Reports a template that is left out, and why.
fn report_left_out<E: Sink>(
    alloc: Global,
    err: &mut E,
    id: &str,
    fault: &TemplateFault,
) -> Result<(), AllocError>
    ensures { OnOk result ((why : List ℕ)
        × IsReported (E.taken err.old) (E.taken err.new) (E.failed err.old) (E.failed err.new)
        (line_of_template id.now why)) }
{
    let id = Escaped(id);
    let why = fault.to_string(alloc)?;
    let line = format!(in alloc; "licscan: template {id}: {why}\n")?;
    tell(err, line.as_str());
    Ok(())
}

/// Reads the templates of a folder that is listed, by identifier. One that is refused or cannot be read is reported and left out,
/// and so is a name that is not UTF-8.
pub fn load_all<Rt: Files + AllocGlobal, E: Sink>(
    rt: &Rt,
    alloc: Global,
    folder: &str,
    listing: Listing,
    words: &Words,
    rules: &Rules,
    err: &mut E,
) -> Result<Loaded, LoadFault>
    ensures left_out { IfOk result (λ loaded. IsTrue loaded.is_refused
        ↔ (length loaded.set < count_of_names listing)) }
    // Each template is what some bytes say by these rules and this list.
    ensures read { IfOk result (λ loaded. All (λ known.
        IsReadBy (rules_of rules.now) words.now known.template) loaded.set) }
    // The set is of those that were read, under their identifiers; each other one is reported.
    ensures loaded { IfOk result (λ loaded. IsLoaded (rules_of rules.now) words.now listing
        (E.taken err.old) (E.taken err.new) (E.failed err.old) (E.failed err.new) loaded.set) }
    // Memory ran out, or those that were read are no set.
    ensures refused { IfErr result (IsFaultOfTemplates (rules_of rules.now) words.now listing
        (E.taken err.old) (E.taken err.new) (E.failed err.old) (E.failed err.new)) }
{
    report_unnamed(err, listing.unnamed);
    let mut is_refused = listing.unnamed > 0;
    let mut templates = Vec::new(alloc);
    for id in listing.ids {
        match load(rt, alloc, folder, id.as_str(), words, rules) {
            Ok(template) => templates.push((id, template))?,
            Err(TemplateFault::Memory) => return Err(LoadFault::Memory),
            Err(fault) => {
                report_left_out(alloc, err, id.as_str(), &fault)?;
                is_refused = true;
            }
        }
    }
    match Set::build(alloc, templates) {
        Ok(set) => Ok(Loaded { set, is_refused }),
        Err(fault) => Err(LoadFault::Set(fault)),
    }
}
