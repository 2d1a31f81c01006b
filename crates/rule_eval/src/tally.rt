// How many neighbours show what words count, kept from one evaluation to the next.
ghost use Rattle.std.specs.Prelude.{◌≡◌, [], ◌∷◌, ◌+◌, ◌-◌, ◌≤◌, if◌then◌else◌};
ghost use Rattle.rule_eval.specs.Tallies.{IsTally, CanMove, moved_tally};

use crate::seen::{is_number, is_undefined};
use quantity::Value;

/// How many neighbours show 1, 0 and `?` at their port `out`.
#[derive(Clone, Copy)]
pub struct Tally {
    pub ones: u8,
    pub zeros: u8,
    pub undefs: u8,
}

impl Tally {
    /// The tally of one neighbour that shows this value.
    #[inline(always)]
    pub fn one(value: &Value) -> Tally
        ensures { IsTally result (value.now ∷ []) }
    {
        let ones = one_where(is_number(100_000, value));
        let zeros = one_where(is_number(0, value));
        let undefs = one_where(is_undefined(value));
        Tally {
            ones,
            zeros,
            undefs,
        }
    }

    /// The tally where one neighbour shows another value, of which these are the tallies before
    /// and now.
    #[inline(always)]
    pub fn moved(self, gone: Tally, come: Tally) -> Tally
        requires { CanMove self gone come }
        ensures { result ≡ moved_tally self gone come }
    {
        let ones = moved_number(self.ones, gone.ones, come.ones);
        let zeros = moved_number(self.zeros, gone.zeros, come.zeros);
        let undefs = moved_number(self.undefs, gone.undefs, come.undefs);
        Tally {
            ones,
            zeros,
            undefs,
        }
    }
}

/// 1 where it is so, else 0.
#[inline(always)]
fn one_where(so: bool) -> u8
    ensures { result ≡ if so then 1 else 0 }
{
    if so { 1 } else { 0 }
}

/// A number of neighbours, one of which was counted and now is.
#[inline(always)]
fn moved_number(number: u8, gone: u8, come: u8) -> u8
    requires low { gone ≤ number + come }
    requires high { number + come ≤ 255 }
    ensures { result ≡ number + come - gone }
{
    number + come - gone
}
