//! The values of one report's matches.

ghost use Rattle.std.specs.Prelude.{◌≡◌, IfOk, map};
ghost use Rattle.lic_set.specs.Matches.{IsMatch};
ghost use Rattle.lic_vars.specs.Values.{AreValues};
ghost use Rattle.lic_vars.specs.Views.{value_of};

use lic_norm::Text;
use lic_set::{Set, Triple};
use lic_vars::{Assigner, Value};
use std::alloc::{AllocError, Global};
use std::collections::HashMap;
use std::marker::Model;

/// Answers the values of matches of a set's templates. A template is compiled with its first match, and kept for the others, and
/// what is kept is linear in the templates that had a match.
#[derive(Debug, Drop)]
pub struct Assigners<'s> {
    set: &'s Set,
    // by the numbers of their templates
    made: HashMap<usize, Assigner<'s>>,
}

impl<'s> Model for Assigners<'s> {
    ghost use Rattle.std.specs.Prelude.{List};
    ghost use Rattle.std.specs.Coded.{codes};
    ghost use Rattle.lic_markup.specs.contracts.part.Part as e;
    ghost use Rattle.lic_set.specs.Sets.{Known};
    ghost use Rattle.lic_report.specs.Assigners.{AreAssigners};

    ghost Value = { List Known };

    ghost coded = { Prim.hlevel (codes, e.the_row.coded) };

    ghost view = { λ a. a.set.now };

    ghost invariant = { λ a. AreAssigners a.set.now a.made };
}

impl<'s> Assigners<'s> {
    /// No template is compiled yet.
    pub fn new(alloc: Global, set: &'s Set) -> Assigners<'s>
        ensures { result ≡ set.now }
    {
        Assigners {
            set,
            made: HashMap::new(alloc),
        }
    }

    /// The set.
    pub fn set(&self) -> &'s Set
        ensures { result.now ≡ self.now }
    {
        self.set
    }

    /// The values of a match. Fails if memory runs out.
    pub fn assign(
        &mut self,
        alloc: Global,
        text: &Text,
        triple: Triple,
    ) -> Result<Vec<Value<'s>>, AllocError>
        requires { IsMatch self.old text.now.tokens triple }
        ensures set { self.new ≡ self.old }
        ensures values { IfOk result (λ values.
            AreValues self.old text.now.tokens triple (map value_of values.items)) }
    {
        if let Some(assigner) = self.made.get(&triple.template) {
            return assigner.assign(alloc, text, triple);
        }
        let assigner = Assigner::new(alloc, self.set, triple.template)?;
        let values = assigner.assign(alloc, text, triple)?;
        self.made.insert(triple.template, assigner)?;
        Ok(values)
    }
}
