//! Sets of templates.

ghost use Rattle.std.specs.Prelude.{◌≡◌, ◌≢◌, ◌<◌, ◌≤◌, ◌↔◌, ℕ, List, All, Contains, map, length, slice_index_or, IfOk, IfSome, IfNone, OnOk, IsErrOf};
ghost use Rattle.std.specs.String.{string_bytes};
ghost use Rattle.std.specs.List.{AllAdjacentBelow};
ghost use Rattle.std.specs.List.Sorted.{IsStrictlyIncreasing};
ghost use Rattle.lic_keys.specs.Keys.{AreKeysOf};
ghost use Rattle.lic_keys.specs.Required.{HasNoLetters, HoldEnds};
ghost use Rattle.lic_places.specs.Places.{spelling_of};
ghost use Rattle.lic_set.specs.Candidates.{IsCandidateOf, number_of};
ghost use Rattle.lic_set.specs.Matches.{IsMatch};
ghost use Rattle.lic_set.specs.Rising.{IsRising};
ghost use Rattle.lic_set.specs.Sets.{Known, RepeatsAt, all_known, parts_of};
ghost use Rattle.lic_set.specs.declared.triple.Triple.{Triple};

use lic_keys::{Candidate, Keys, RequiredEnds};
use lic_markup::Template;
use lic_norm::Text;
use lic_norm::laws::{tokens_are_token_texts, tokens_are_utf8};
use std::alloc::{AllocError, Global};
use std::marker::Model;
use thiserror::Error;

/// The most templates that a set may have (this project's profile).
pub const MAX_TEMPLATES: usize = 4096;

/// Why a set is refused.
#[derive(Debug, Drop, Error)]
pub enum BuildFault {
    /// Two templates have this identifier.
    #[error("B1: {id}")]
    Twice { id: String },
    /// More than 4,096 templates.
    #[error("B2: more than 4096 templates")]
    TooMany,
    /// Memory ran out.
    #[error("B3: out of memory")]
    Memory,
}

impl From<AllocError> for BuildFault {
    ghost use Rattle.lic_set.specs.declared.set.BuildFault.TheVariants.{Memory};

    ghost from_gives = { λ _ fault. fault ≡ Memory };

    fn from(_: AllocError) -> BuildFault {
        BuildFault::Memory
    }
}

/// A template, and the identifier that it is known by.
#[derive(Debug, Drop)]
pub struct Named {
    pub id: String,
    pub template: Template,
}

/// Templates, ordered by the bytes of their identifiers. A template's number is its index, from 0.
#[derive(Debug, Drop)]
pub struct Set {
    named: Vec<Named>,
    keys: Keys,
}

impl Model for Set {
    ghost use Rattle.std.specs.Prelude.{List};
    ghost use Rattle.std.specs.Coded.{codes};
    ghost use Rattle.lic_markup.specs.contracts.part.Part as e;
    ghost use Rattle.lic_keys.specs.Keys.{AreKeysOf};
    ghost use Rattle.lic_set.specs.Sets.{Known, all_known, parts_of};

    ghost Value = { List Known };

    ghost coded = { Prim.hlevel (codes, e.the_row.coded) };

    ghost view = { λ a. all_known a.named.items };

    ghost invariant = { λ a. AreKeysOf (parts_of (all_known a.named.items)) a.keys };
}

impl Set {
    ghost use Rattle.lic_set.specs.Sets.{Known, IsSetOf, OccursTwice, pairs_known};

    /// Makes a set of templates, each under its identifier, with what the search needs to look for all of them at once.
    ///
    /// More than 4,096 templates, two of one identifier, and lack of memory are refused, in this order (this project's
    /// profile).
    pub fn build(alloc: Global, mut templates: Vec<(String, Template)>) -> Result<Set, BuildFault>
        ensures holds { IfOk result (λ set. IsSetOf (pairs_known templates.items) set) }
        ensures few { OnOk result (length templates.items ≤ 4096) }
        ensures many { IsErrOf result BuildFault.TooMany ↔ (4096 < length templates.items) }
        ensures twice { (id : _) → IsErrOf result (BuildFault.Twice id)
            → (length templates.items ≤ 4096)
            × OccursTwice (string_bytes id) (pairs_known templates.items) }

        // Lack of memory is reported only if nothing else prevents a set.
        ensures memory { IsErrOf result BuildFault.Memory
            → (set : _) × IsSetOf (pairs_known templates.items) set }
    {
        if templates.len() > MAX_TEMPLATES {
            return Err(BuildFault::TooMany);
        }
        templates.sort_unstable_by(|a, b| a.0.cmp(&b.0));
        if let Some(k) = first_repeat(&templates) {
            let (id, _) = templates.swap_remove(k);
            return Err(BuildFault::Twice { id });
        }
        Ok(Set::assemble(alloc, templates)?)
    }

    // These templates in this order, with what is looked for of each.
    fn assemble(alloc: Global, templates: Vec<(String, Template)>) -> Result<Set, AllocError>
        ensures { IfOk result (λ set. set ≡ pairs_known templates.items) }
    {
        let named: Vec<Named> = templates
            .into_iter()
            .map(|(id, template)| Named { id, template })
            .collect(alloc)?;
        let keys = build_keys(alloc, &named)?;
        Ok(Set { named, keys })
    }

    /// How many templates there are.
    pub fn len(&self) -> usize
        ensures { result ≡ length self.now }
    {
        self.named.len()
    }

    /// The identifier of the template number `k`.
    pub fn id(&self, k: usize) -> &str
        requires { k < length self.now }
        ensures { (d : _) → result.now ≡ (slice_index_or self.now k d).id }
    {
        self.named[k].id.as_str()
    }

    /// The template number `k`.
    pub fn template(&self, k: usize) -> &Template
        requires { k < length self.now }
        ensures { (d : _) → result.now ≡ (slice_index_or self.now k d).template }
    {
        &self.named[k].template
    }

    /// The templates that can describe a range of a text's tokens, by rising numbers: the required literal of each of the others
    /// does not occur in the canonical spelling of the text.
    ///
    /// # Errors
    ///
    /// Fails if memory runs out.
    pub fn candidates(&self, alloc: Global, text: &Text) -> Result<Vec<Candidate>, AllocError>
        ensures rising { IfOk result (λ found. IsRising (map number_of found.items) (length self.now)) }
        ensures others { IfOk result (λ found. (t : Triple) → IsMatch self.now text.now.tokens t
            → Contains (map number_of found.items) t.template) }
        ensures each { IfOk result (λ found. All (IsCandidateOf self.now text.now.tokens) found.items) }
    {
        tokens_are_utf8(text);
        tokens_are_token_texts(text);
        self.keys.candidates(alloc, text.spelled())
    }

    /// The text of a candidate that is in whatever its template describes, and where its letters end in the canonical spelling of
    /// the text, in rising order. None if the template has no such text.
    ///
    /// # Errors
    ///
    /// Fails if memory runs out.
    pub fn required_ends(
        &self,
        alloc: Global,
        text: &Text,
        candidate: &Candidate,
    ) -> Result<Option<RequiredEnds>, AllocError>
        requires { IsCandidateOf self.now text.now.tokens candidate.now }
        ensures ends { IfOk result (λ found. IfSome found (λ ends. (d : Known)
            → HoldEnds (spelling_of text.now.tokens) (slice_index_or self.now candidate.now.number d).template.parts
            ends.part ends.places.items)) }
        ensures rising { IfOk result (λ found. IfSome found (λ ends. IsStrictlyIncreasing ends.places.items)) }
        ensures none { IfOk result (λ found. IfNone found ((d : Known)
            → HasNoLetters (slice_index_or self.now candidate.now.number d).template.parts)) }
    {
        self.keys.ends(alloc, text.spelled(), candidate)
    }
}

// The keys of these templates.
fn build_keys(alloc: Global, named: &[Named]) -> Result<Keys, AllocError>
    ensures { IfOk result (λ keys. AreKeysOf (parts_of (all_known named.now)) keys) }
{
    let templates = templates_of(alloc, named)?;
    Keys::build(alloc, &templates)
}

// These templates without their identifiers.
fn templates_of(alloc: Global, named: &[Named]) -> Result<Vec<&Template>, AllocError>
    ensures { IfOk result (λ templates.
        map (λ t. t.now.parts) templates.items ≡ parts_of (all_known named.now)) }
{
    let mut templates = Vec::with_capacity(alloc, named.len())?;
    for one in named {
        templates.push(&one.template)?;
    }
    Ok(templates)
}

// The first index whose identifier is that of the index before.
fn first_repeat(templates: &[(String, Template)]) -> Option<usize>
    ensures found { IfSome result (RepeatsAt templates.now) }
    ensures none { IfNone result
        (AllAdjacentBelow (λ a b. string_bytes a.0 ≢ string_bytes b.0) templates.now
        (length templates.now)) }
{
    for k in 1..templates.len() {
        if templates[k - 1].0 == templates[k].0 {
            return Some(k);
        }
    }
    None
}
