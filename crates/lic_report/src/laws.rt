//! Laws of reports, each the contract of a function that does nothing.

ghost use Rattle.std.specs.Prelude.{◌≡◌, ℕ, List};
ghost use Rattle.lic_norm.specs.Tokens.{TokenValue};
ghost use Rattle.lic_set.specs.Sets.{Known};
ghost use Rattle.lic_find.specs.declared.ask.Ask.{Ask};
ghost use Rattle.lic_report.specs.Report.{IsReportOf};

use lic_filters::laws::outer_ones_are_tight;
use lic_find::laws::{matches_are_one_list, matches_exist};
use lic_vars::laws::{matches_have_values, values_are_one_list};

/// For each name, templates, request, source and tokens there is a report.
pub fn reports_exist()
    ensures { (name : List ℕ) (set : List Known) (ask : Ask) (source : List ℕ) (tokens : List TokenValue)
        → (lines : List ℕ) × IsReportOf name set ask source tokens lines }
{
    matches_exist();
    matches_have_values();
    outer_ones_are_tight();
}

/// There is one report: what is asked for leaves no choice of lines.
pub fn reports_are_one()
    ensures { (name : List ℕ) (set : List Known) (ask : Ask) (source : List ℕ) (tokens : List TokenValue) (xs ys : List ℕ)
        → IsReportOf name set ask source tokens xs → IsReportOf name set ask source tokens ys → xs ≡ ys }
{
    matches_are_one_list();
    values_are_one_list();
}
