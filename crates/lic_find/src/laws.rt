//! Laws of the definitions, each the contract of a function that does nothing.

ghost use Rattle.std.specs.Prelude.{◌≡◌, List, Option};
ghost use Rattle.lic_norm.specs.Tokens.{TokenValue};
ghost use Rattle.lic_set.specs.Sets.{Known};
ghost use Rattle.lic_find.specs.Listing.{matches_after};
ghost use Rattle.lic_set.specs.Matches.{AreMatches};
ghost use Rattle.lic_set.specs.declared.triple.Triple.{Triple};

use lic_auto::laws::whether_an_expression_describes_is_decided;

/// There is one list of the matches: which they are and in which order leaves no choice.
pub fn matches_are_one_list()
    ensures { (set : List Known) (tokens : List TokenValue) (after : Option Triple)
        (xs ys : List Triple)
        → AreMatches set tokens after xs → AreMatches set tokens after ys → xs ≡ ys }
{}

/// The list that is computed by a test of each triple has exactly the matches.
pub fn matches_are_listed()
    ensures { (set : List Known) (tokens : List TokenValue) (after : Option Triple)
        → AreMatches set tokens after (matches_after set tokens after) }
{
    whether_an_expression_describes_is_decided();
}

/// For all templates and tokens there is a list of the matches.
pub fn matches_exist()
    ensures { (set : List Known) (tokens : List TokenValue) (after : Option Triple)
        → (found : List Triple) × AreMatches set tokens after found }
{
    matches_are_listed();
}
