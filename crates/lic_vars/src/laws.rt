//! Laws of values and derivations, each the contract of a function that does nothing.

ghost use Rattle.std.specs.Prelude.{◌≡◌, ◌↔◌, ℕ, [], List, Contains, Some};
ghost use Rattle.lic_words.specs.Describing.{IsDescribed};
ghost use Rattle.lic_norm.specs.Tokens.{TokenValue};
ghost use Rattle.lic_tokens.specs.declared.token.Span.{Span};
ghost use Rattle.lic_markup.specs.Parts.{Nodes};
ghost use Rattle.lic_markup.specs.Meaning.{nodes_words};
ghost use Rattle.lic_set.specs.Sets.{Known};
ghost use Rattle.lic_set.specs.Matches.{IsMatch};
ghost use Rattle.lic_set.specs.declared.triple.Triple.{Triple};
ghost use Rattle.lic_vars.specs.Derivations.{Choice, Derivation, record_of};
ghost use Rattle.lic_vars.specs.Values.{Assigned, AreValues, RunsFrom, choice_values};

/// Two choices with equal records give equal values.
pub fn equal_records_give_equal_values()
    ensures { (ns : Nodes) (c d : Choice ns) (spans : List Span) → record_of ns c ≡ record_of ns d
        → choice_values ns c spans ≡ choice_values ns d spans }
{}

/// A template describes tokens exactly where there are tokens and a derivation of them.
pub fn described_tokens_have_derivations()
    ensures { (ns : Nodes) (ts : List (List ℕ))
        → IsDescribed (nodes_words ns) ts ↔ ((ts ≡ [] → ⊥) × Derivation ns ts) }
{}

/// Each match has a list of values.
pub fn matches_have_values()
    ensures { (set : List Known) (tokens : List TokenValue) (t : Triple)
        → IsMatch set tokens t → (values : List Assigned) × AreValues set tokens t values }
{}

/// There is one list of the values of a match.
pub fn values_are_one_list()
    ensures { (set : List Known) (tokens : List TokenValue) (t : Triple) (xs ys : List Assigned)
        → AreValues set tokens t xs → AreValues set tokens t ys → xs ≡ ys }
{}

/// A value runs from the start of a token of the match to the end of one.
pub fn values_run_over_tokens()
    ensures { (set : List Known) (tokens : List TokenValue) (t : Triple) (values : List Assigned)
        (value : Assigned) (span : Span)
        → AreValues set tokens t values → Contains values value → value.span ≡ Some span
        → RunsFrom tokens t span }
{}
