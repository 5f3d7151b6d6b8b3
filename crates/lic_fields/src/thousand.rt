//! Numbers that differ in their last three digits alone.

ghost use Rattle.std.specs.Prelude.{◌≡◌, ◌<◌, ℕ, List, [], MatchOption, ⊤, drop};
ghost use Rattle.lic_fields.specs.Fronts.{EndsField, last_digits_below_1000};

use crate::last_digits::LAST_DIGITS;
use std::marker::Model;

/// Numbers below this one are kept: 1,000 more is a number too.
const GREATEST: u64 = 1 << 63;

/// Numbers of three digits or more that differ in their last three digits alone.
#[derive(Debug, Drop)]
pub(crate) struct Thousand {
    least: u64,
    // the last three digits of each, from the least on, and a tab after them
    digits: &'static [[u8; 4]],
}

impl Model for Thousand {
    ghost use Rattle.std.specs.Prelude.{List, ℕ};
    ghost use Rattle.lic_fields.specs.Fronts.{IsThousand, first_digits};

    ghost Value = { List ℕ };

    ghost view = { λ t. first_digits t.least };

    ghost invariant = { λ t. IsThousand t.least t.digits.now };
}

/// The last digits of the numbers below 1,000 from `from` on, and a tab after each.
fn last_digits(from: usize) -> &'static [[u8; 4]]
    requires { from < 1000 }
    ensures { result.now ≡ drop from last_digits_below_1000 }
{
    &LAST_DIGITS[from..]
}

impl Thousand {
    /// The numbers of three digits.
    pub(crate) fn hundreds() -> Thousand
        ensures { result ≡ [] }
    {
        Thousand {
            least: 100,
            digits: last_digits(100),
        }
    }

    /// The numbers that differ from this one in their last three digits alone. None for a number of fewer digits, and for a very great
    /// one.
    pub(crate) fn of(n: u64) -> Option<Thousand>
        ensures { MatchOption result ⊤ (λ first. (four : List ℕ) × EndsField first four n) }
    {
        if n < 100 || n >= GREATEST {
            return None;
        }
        if n < 1_000 {
            return Some(Thousand::hundreds());
        }
        Some(Thousand {
            least: n - n % 1_000,
            digits: last_digits(0),
        })
    }

    /// The same numbers.
    #[inline(always)]
    pub(crate) fn copied(&self) -> Thousand
        ensures { result ≡ self.now }
    {
        Thousand {
            least: self.least,
            digits: self.digits,
        }
    }

    /// The last three digits of a number, and a tab after them. None for a number that is not among these: the difference is very great
    /// where it is less than the least.
    #[inline(always)]
    pub(crate) fn digits_of(&self, n: u64) -> Option<&[u8; 4]>
        ensures { MatchOption result ⊤ (λ four. EndsField self.now four.now n) }
    {
        self.digits.get(n.wrapping_sub(self.least) as usize)
    }
}
