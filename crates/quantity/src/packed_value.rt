// A value as a number.
ghost use Rattle.std.specs.Prelude.{◌≡◌};

use crate::raw::Raw;
use crate::value::Value;
use std::marker::Model;

/// The number that stands for `?`: no value has so many hundred-thousandths.
const UNDEFINED: i64 = 9_223_372_036_854_775_807;

/// A value.
#[derive(Clone, Copy, PartialEq, Eq, Debug)]
pub struct PackedValue {
    raw: i64,
}

impl Model for PackedValue {
    ghost use Rattle.std.specs.Prelude.{◌≡◌};
    ghost use Rattle.quantity.specs.declared.value.Value.{Value as AnyValue};
    ghost use Rattle.quantity.specs.Packed.{value_at, raw_of, same_raw};

    ghost Value = { AnyValue };

    ghost view = { λ p. value_at p.raw };

    ghost invariant = { λ p. raw_of (value_at p.raw) ≡ p.raw };

    ghost inverse = { λ v. record { raw = raw_of v } };

    ghost inverse_ok = { λ p h. same_raw p.raw (raw_of (value_at p.raw)) (λ z. record { raw = z }) h };
}

impl PackedValue {
    /// The same value.
    #[inline(always)]
    pub fn of(value: Value) -> PackedValue
        ensures { result ≡ value }
    {
        match value {
            Value::Undefined => PackedValue { raw: UNDEFINED },
            Value::Num(raw) => PackedValue { raw: raw.get() },
        }
    }

    /// The value.
    #[inline(always)]
    pub fn get(self) -> Value
        ensures { result ≡ self }
    {
        match Raw::new(self.raw) {
            Some(raw) => Value::Num(raw),
            None => Value::Undefined,
        }
    }
}
