//! The line rules.
ghost use Rattle.std.specs.Prelude.{◌≡◌};
ghost use Rattle.lic_kind.specs.Beginnings.{AreEndsKnown, AreFrontsKnown};
ghost use Rattle.lic_kind.specs.TextLists.{texts_of};

mod beginnings;
mod reader;
mod rule_line;

use crate::rule_kind::RuleKind;
use crate::rules::beginnings::Beginnings;
use crate::rules::reader::RulesReader;
use crate::rules_fault::RulesFault;
use crate::texts::{FixedText, Texts};
use std::alloc::Global;

static LEAD: [FixedText; 20] = [
    ("//", &['/', '/']),
    ("///", &['/', '/', '/']),
    ("/*", &['/', '*']),
    ("*/", &['*', '/']),
    ("*", &['*']),
    ("#", &['#']),
    ("%", &['%']),
    (";", &[';']),
    ("!", &['!']),
    ("|", &['|']),
    (">", &['>']),
    ("--", &['-', '-']),
    ("::", &[':', ':']),
    ("<!--", &['<', '!', '-', '-']),
    ("{-", &['{', '-']),
    ("-}", &['-', '}']),
    ("(*", &['(', '*']),
    ("*)", &['*', ')']),
    (".\\\"", &['.', '\\', '"']),
    ("'\\\"", &['\'', '\\', '"']),
];

static LEAD_SPACE: [FixedText; 2] = [("dnl", &['d', 'n', 'l']), ("REM", &['R', 'E', 'M'])];

static TAIL: [FixedText; 3] = [
    ("-->", &['-', '-', '>']),
    ("*)", &['*', ')']),
    ("-}", &['-', '}']),
];

static TAIL_SPACE: [FixedText; 3] = [("*", &['*']), ("#", &['#']), ("|", &['|'])];

static TAIL_REPEAT: [FixedText; 1] = [("*/", &['*', '/'])];

/// The line rules: what is taken from the start and the end of a line, and whether separators become blanks.
#[derive(Drop)]
pub struct Rules {
    pub(crate) lead: Texts,
    pub(crate) lead_space: Texts,
    pub(crate) tail: Texts,
    pub(crate) tail_space: Texts,
    pub(crate) tail_repeat: Texts,
    pub(crate) items: bool,
    pub(crate) separators: bool,
    front: Beginnings,
    end: Beginnings,
    ghost lead_known: { AreFrontsKnown front 0 (texts_of lead) },
    ghost lead_space_known: { AreFrontsKnown front 48 (texts_of lead_space) },
    ghost tail_known: { AreEndsKnown end 0 (texts_of tail) },
    ghost tail_space_known: { AreEndsKnown end 40 (texts_of tail_space) },
    ghost tail_repeat_known: { AreEndsKnown end 52 (texts_of tail_repeat) },
}

/// The first bit of the texts of a lead with white space after them; those of a lead have the bits from 0 on.
const LEAD_SPACE_BIT: usize = 48;

/// The first bit of the texts of a tail with white space before them; those of a tail have the bits from 0 on.
const TAIL_SPACE_BIT: usize = 40;

/// The first bit of the texts of a tail that repeat their first character.
const TAIL_REPEAT_BIT: usize = 52;

/// The texts of each kind.
struct AllTexts {
    lead: Texts,
    lead_space: Texts,
    tail: Texts,
    tail_space: Texts,
    tail_repeat: Texts,
}

impl Rules {
    ghost use Rattle.std.specs.Prelude.{◌<◌, ◌⊎◌, [], true, IfErr, IfOk, IfSome, OnOk, length, slice_index_or};
    ghost use Rattle.std.specs.Str.{chars};
    ghost use Rattle.lic_kind.specs.LineRules.{rules_of, rules_with, texts_of_kind, profile};
    ghost use Rattle.lic_kind.specs.Beginnings.{HasEnds, HasFronts, HasSomeEnd, HasSomeFront};
    ghost use Rattle.lic_kind.specs.RuleFiles.{AreSound, IsFirstFault, lines_of, out_of_memory, rules_in};

    /// The rules of these texts, with quick looks at where they begin and end.
    fn with(texts: AllTexts, items: bool, separators: bool) -> Rules
        ensures { rules_of result ≡ rules_with texts items separators }
    {
        let AllTexts {
            lead,
            lead_space,
            tail,
            tail_space,
            tail_repeat,
        } = texts;
        let mut front = Beginnings::none();
        front.add_fronts(0, &lead);
        front.add_fronts(LEAD_SPACE_BIT, &lead_space);
        let mut end = Beginnings::none();
        end.add_ends(0, &tail);
        end.add_ends(TAIL_SPACE_BIT, &tail_space);
        end.add_ends(TAIL_REPEAT_BIT, &tail_repeat);
        Rules {
            lead,
            lead_space,
            tail,
            tail_space,
            tail_repeat,
            items,
            separators,
            front,
            end,
        }
    }

    /// The rules of this project's profile of the comment indicators, list items and separators of SPDX 2.3,
    /// Annex B. Takes no memory.
    pub fn profile(alloc: Global) -> Rules
        ensures { rules_of result ≡ profile }
    {
        let _ = alloc;
        let texts = AllTexts {
            lead: Texts::fixed(&LEAD),
            lead_space: Texts::fixed(&LEAD_SPACE),
            tail: Texts::fixed(&TAIL),
            tail_space: Texts::fixed(&TAIL_SPACE),
            tail_repeat: Texts::fixed(&TAIL_REPEAT),
        };
        let items = true;
        let separators = true;
        Rules::with(texts, items, separators)
    }

    /// Reads line rules from a file (this project's profile of SPDX 2.3, Annex B). A line ends at U+000A. A line
    /// of white space alone, or whose first other character is `#`, is skipped; another one is a word, white
    /// space, and a text: `lead`, `lead-space`, `tail`, `tail-space` and `tail-repeat` with a text of at most 16
    /// characters, none of them white space or dropped, or `items` and `separators` with `on` or `off`. Items
    /// and separators are taken where no line says otherwise, and the last line that does counts.
    ///
    /// The first line at fault decides: it is of no known form; or it is text number 257, repeats counted; or
    /// its text is missing or not as it has to be. Lack of memory is on line 0.
    pub fn read(alloc: Global, text: &str) -> Result<Rules, RulesFault>
        ensures accepted { OnOk result (AreSound (lines_of text.now) (length (lines_of text.now))) }
        ensures rules { IfOk result (λ rules. rules_of rules ≡ rules_in (lines_of text.now)) }
        ensures refused { IfErr result (λ fault. IsFirstFault (lines_of text.now) fault
            ⊎ (fault ≡ out_of_memory)) }
    {
        let mut reader = RulesReader::new(alloc);
        let mut number: usize = 0;
        for line in text.split('\n') {
            number += 1;
            if let Err(cause) = reader.read_line(alloc, line) {
                return Err(cause.at(number));
            }
        }
        let texts = AllTexts {
            lead: Texts::owned(reader.lead),
            lead_space: Texts::owned(reader.lead_space),
            tail: Texts::owned(reader.tail),
            tail_space: Texts::owned(reader.tail_space),
            tail_repeat: Texts::owned(reader.tail_repeat),
        };
        Ok(Rules::with(texts, reader.items, reader.separators))
    }

    /// The texts of this kind.
    pub fn texts(&self, kind: RuleKind) -> &Texts
        ensures { texts_of result.now ≡ texts_of_kind kind (rules_of self.now) }
    {
        match kind {
            RuleKind::Lead => &self.lead,
            RuleKind::LeadSpace => &self.lead_space,
            RuleKind::Tail => &self.tail,
            RuleKind::TailSpace => &self.tail_space,
            RuleKind::TailRepeat => &self.tail_repeat,
        }
    }

    /// How many texts of this kind there are.
    pub fn count(&self, kind: RuleKind) -> usize
        ensures { result ≡ length (texts_of_kind kind (rules_of self.now)) }
    {
        self.texts(kind).len()
    }

    /// The text of this kind and number, counted from 0 in the order of the file.
    pub fn text(&self, kind: RuleKind, i: usize) -> &str
        requires { i < length (texts_of_kind kind (rules_of self.now)) }
        ensures { chars result.now ≡ slice_index_or (texts_of_kind kind (rules_of self.now)) i [] }
    {
        self.texts(kind).text(i)
    }

    /// Whether a list item after the lead of a line is taken.
    pub fn items(&self) -> bool
        ensures { result ≡ (rules_of self.now).items }
    {
        self.items
    }

    /// Whether three or more of one same mark are a separator.
    pub fn separators(&self) -> bool
        ensures { result ≡ (rules_of self.now).separators }
    {
        self.separators
    }

    /// Which texts of a lead may be where a line has these two characters: text i has bit i, and one with white space has another bit.
    /// Nothing is said where more may be than a mask has bits for.
    #[inline(always)]
    pub fn begun_leads(&self, first: char, second: char) -> Option<u64>
        ensures lead { IfSome result (λ mask. HasFronts mask first second (rules_of self.now).lead) }
        ensures lead_space { IfSome result (λ mask. HasSomeFront mask first second (rules_of self.now).lead_space) }
    {
        self.front.begun(first, second)
    }

    /// Which texts of a tail may be where a line, from its end on, has these two characters: text i has bit i, and one of another kind
    /// has another bit. Nothing is said where more may be than a mask has bits for.
    #[inline(always)]
    pub fn begun_tails(&self, first: char, second: char) -> Option<u64>
        ensures tail { IfSome result (λ mask. HasEnds mask first second (rules_of self.now).tail) }
        ensures tail_space { IfSome result (λ mask. HasSomeEnd mask first second (rules_of self.now).tail_space) }
        ensures tail_repeat { IfSome result (λ mask. HasSomeEnd mask first second (rules_of self.now).tail_repeat) }
    {
        self.end.begun(first, second)
    }
}
