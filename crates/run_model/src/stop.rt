// Why a leaf of a run doesn't move, and why a run stops.
ghost use Rattle.std.specs.Prelude.{◌≡◌};
ghost use Rattle.run_model.specs.Stopping.{stop_of_rules, stop_of_leaf};

use quantity::{Time, Value};
use rule_tree::RuleStop;

/// Why a leaf doesn't move.
#[derive(Clone, Copy, Debug)]
pub enum LeafStop {
    /// The rules of a cell stop it, or a sum in a box is too large.
    Rule(RuleStop),
    /// There is no memory.
    Memory,
}

/// Why a run stops: at which leaf, by its number in declared order, and at which instant.
#[derive(Clone, Copy, PartialEq, Eq, Debug)]
pub enum Stop {
    /// No rule of a cell is true.
    NoTrueRule(u32, Time),
    /// A value of a leaf is too large.
    Overflow(u32, Time),
    /// A rule of a cell gives this delay, which is no whole number of milliseconds from 0 to
    /// `MAX_DELAY`.
    BadDelay(u32, Time, Value),
    /// As many cycles as the limit were run at one instant.
    TooManyCycles(Time),
    /// There is no memory.
    Memory,
}

impl Stop {
    /// The stop of a run whose leaf doesn't move at this instant.
    pub fn of_leaf(leaf: u32, t: Time, why: LeafStop) -> Stop
        ensures { result ≡ stop_of_leaf leaf t why }
    {
        match why {
            LeafStop::Rule(stop) => Stop::of_rules(leaf, t, stop),
            LeafStop::Memory => Stop::Memory,
        }
    }

    /// The stop of a run whose leaf its rules stop at this instant.
    pub fn of_rules(leaf: u32, t: Time, why: RuleStop) -> Stop
        ensures { result ≡ stop_of_rules leaf t why }
    {
        match why {
            RuleStop::NoTrueRule => Stop::NoTrueRule(leaf, t),
            RuleStop::Overflow => Stop::Overflow(leaf, t),
            RuleStop::BadDelay(delay) => Stop::BadDelay(leaf, t, delay),
        }
    }
}
