// A time or none.
ghost use Rattle.std.specs.Prelude.{◌≡◌, None, Some};

use crate::time::Time;
use std::marker::Model;

/// The number that stands for none: no time has so many milliseconds.
const NONE: u32 = 4_294_967_295;

/// A time, or none.
#[derive(Clone, Copy, PartialEq, Eq)]
pub struct MaybeTime {
    ms: u32,
}

impl Model for MaybeTime {
    ghost use Rattle.std.specs.Prelude.{◌≡◌, ℕ, Option};
    ghost use Rattle.quantity.specs.Packed.{time_at, ms_of, same_number};

    ghost Value = { Option ℕ };

    ghost view = { λ t. time_at t.ms };

    ghost invariant = { λ t. ms_of (time_at t.ms) ≡ t.ms };

    ghost inverse = { λ o. record { ms = ms_of o } };

    ghost inverse_ok = { λ t h. same_number t.ms (ms_of (time_at t.ms)) (λ n. record { ms = n }) h };
}

impl MaybeTime {
    /// No time.
    #[inline(always)]
    pub fn none() -> MaybeTime
        ensures { result ≡ None }
    {
        MaybeTime { ms: NONE }
    }

    /// This time.
    #[inline(always)]
    pub fn some(time: Time) -> MaybeTime
        ensures { result ≡ Some time }
    {
        MaybeTime { ms: time.ms() }
    }

    /// The same time, or none.
    #[inline(always)]
    pub fn of(time: Option<Time>) -> MaybeTime
        ensures { result ≡ time }
    {
        match time {
            Some(time) => MaybeTime::some(time),
            None => MaybeTime::none(),
        }
    }

    /// The time, if there is one.
    #[inline(always)]
    pub fn get(self) -> Option<Time>
        ensures { result ≡ self }
    {
        Time::new(self.ms)
    }
}
