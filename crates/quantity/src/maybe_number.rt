// A number or none.
ghost use Rattle.std.specs.Prelude.{◌≡◌, ◌<◌, None, Some};

use std::marker::Model;

/// The number that stands for none.
pub const NONE: u32 = 4_294_967_295;

/// A number below the greatest of 32 bits, or none.
#[derive(Clone, Copy)]
pub struct MaybeNumber {
    number: u32,
}

impl Model for MaybeNumber {
    ghost use Rattle.std.specs.Prelude.{ℕ, Option};
    ghost use Rattle.quantity.specs.Packed.{number_at, number_of, told_number};

    ghost Value = { Option ℕ };

    ghost view = { λ n. number_at n.number };

    ghost inverse = { λ o. record { number = number_of o } };

    ghost inverse_ok = { λ n h. told_number n.number (λ k. record { number = k }) };
}

impl MaybeNumber {
    /// No number.
    #[inline(always)]
    pub fn none() -> MaybeNumber
        ensures { result ≡ None }
    {
        MaybeNumber { number: NONE }
    }

    /// This number.
    #[inline(always)]
    pub fn some(number: u32) -> MaybeNumber
        requires { number < 4294967295 }
        ensures { result ≡ Some number }
    {
        MaybeNumber { number }
    }

    /// The number, if there is one.
    #[inline(always)]
    pub fn get(self) -> Option<u32>
        ensures { result ≡ self }
    {
        if self.number == NONE {
            None
        } else {
            Some(self.number)
        }
    }
}
