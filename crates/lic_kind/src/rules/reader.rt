//! The reader of a rules file.
ghost use Rattle.std.specs.Prelude.{◌≡◌, ◌+◌, ◌⊎◌, not, length, [], None, Some, IfErr, OnOk};
ghost use Rattle.std.specs.List.{list_all};
ghost use Rattle.std.specs.Str.{chars};
ghost use Rattle.lic_kind.specs.Kinds.{is_dropped};
ghost use Rattle.lic_kind.specs.RuleFiles.{is_text, text, text_count, cause_of, cause_of_text, line_of, rules_in};
ghost use Rattle.lic_kind.specs.RuleLines.{read};
ghost use Rattle.lic_kind.specs.RuleReading.{rules_read, with_text, with_line};

use crate::rule_kind::RuleKind;
use crate::rule_text::RuleText;
use crate::rules::rule_line::{RuleLine, read_line};
use crate::rules_fault::RulesCause;
use crate::tables::is_dropped;
use std::alloc::Global;

/// The most texts of a file, repeats counted.
const MAX_TEXTS: usize = 256;

/// The most characters of a text.
const MAX_CHARACTERS: usize = 16;

/// How many characters a word has.
fn character_count(word: &str) -> usize
    ensures { result ≡ length (chars word.now) }
{
    word.chars().count()
}

/// Whether no character of a word is dropped.
fn is_whole(word: &str) -> bool
    ensures { result ≡ list_all (λ c. not (is_dropped c)) (chars word.now) }
{
    word.chars().all(|c| !is_dropped(c))
}

/// Whether a word of a file may be a text of a rule.
fn is_text(word: &str) -> bool
    ensures { result ≡ is_text (chars word.now) }
{
    character_count(word) <= MAX_CHARACTERS && is_whole(word)
}

/// What is read of a file so far.
#[derive(Drop)]
pub(crate) struct RulesReader {
    pub(crate) lead: Vec<RuleText>,
    pub(crate) lead_space: Vec<RuleText>,
    pub(crate) tail: Vec<RuleText>,
    pub(crate) tail_space: Vec<RuleText>,
    pub(crate) tail_repeat: Vec<RuleText>,
    pub(crate) items: bool,
    pub(crate) separators: bool,
    /// How many texts were read.
    count: usize,
}

impl RulesReader {
    pub(crate) fn new(alloc: Global) -> RulesReader
        ensures rules { rules_read result ≡ rules_in [] }
        ensures count { result.count ≡ 0 }
    {
        RulesReader {
            lead: Vec::new(alloc),
            lead_space: Vec::new(alloc),
            tail: Vec::new(alloc),
            tail_space: Vec::new(alloc),
            tail_repeat: Vec::new(alloc),
            items: true,
            separators: true,
            count: 0,
        }
    }

    /// Adds a text.
    fn add(&mut self, kind: RuleKind, text: RuleText) -> Result<(), RulesCause>
        ensures rules { OnOk result
            (rules_read self.new ≡ with_text kind text.characters.items (rules_read self.old)) }
        ensures count { self.new.count ≡ self.old.count }
        ensures fault { IfErr result (λ cause. cause ≡ RulesCause.OutOfMemory) }
    {
        match kind {
            RuleKind::Lead => self.lead.push(text)?,
            RuleKind::LeadSpace => self.lead_space.push(text)?,
            RuleKind::Tail => self.tail.push(text)?,
            RuleKind::TailSpace => self.tail_space.push(text)?,
            RuleKind::TailRepeat => self.tail_repeat.push(text)?,
        }
        Ok(())
    }

    /// Reads a text of this kind, which is missing unless exactly one word follows the kind.
    fn read_text(
        &mut self,
        alloc: Global,
        kind: RuleKind,
        following: Option<&str>,
    ) -> Result<(), RulesCause>
        ensures rules { OnOk result
            (rules_read self.new ≡ with_line (text kind (read following.entry))
            (rules_read self.old)) }
        ensures count { OnOk result (self.new.count ≡ self.old.count + 1) }
        ensures sound { OnOk result (cause_of_text self.old.count (read following.entry) ≡ None) }
        ensures fault { IfErr result (λ cause.
            (cause_of_text self.old.count (read following.entry) ≡ Some cause)
            ⊎ (cause ≡ RulesCause.OutOfMemory)) }
    {
        if self.count >= MAX_TEXTS {
            return Err(RulesCause::TooManyTexts);
        }
        let Some(word) = following else {
            return Err(RulesCause::BadText);
        };
        if !is_text(word) {
            return Err(RulesCause::BadText);
        }
        let text = RuleText::new(alloc, word)?;
        self.add(kind, text)?;
        self.count += 1;
        Ok(())
    }

    /// Reads a line.
    pub(crate) fn read_line(&mut self, alloc: Global, line: &str) -> Result<(), RulesCause>
        ensures rules { OnOk result
            (rules_read self.new ≡ with_line (line_of line.now) (rules_read self.old)) }
        ensures count { OnOk result
            (self.new.count ≡ self.old.count + text_count (line_of line.now)) }
        ensures sound { OnOk result (cause_of self.old.count (line_of line.now) ≡ None) }
        ensures fault { IfErr result (λ cause.
            (cause_of self.old.count (line_of line.now) ≡ Some cause)
            ⊎ (cause ≡ RulesCause.OutOfMemory)) }
    {
        match read_line(line) {
            RuleLine::Comment => Ok(()),
            RuleLine::Text(kind, following) => self.read_text(alloc, kind, following),
            RuleLine::Items(on) => {
                self.items = on;
                Ok(())
            }
            RuleLine::Separators(on) => {
                self.separators = on;
                Ok(())
            }
            RuleLine::Unknown => Err(RulesCause::UnknownRule),
        }
    }
}
