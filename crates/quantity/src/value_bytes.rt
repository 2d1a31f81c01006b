// A value, and a value or none, as bytes.
ghost use Rattle.std.specs.Prelude.{◌≡◌, ◌==◌, None, Some, unsigned_abs, if◌then◌else◌};
ghost use Rattle.quantity.specs.Roots.{IsBounded};
ghost use Rattle.quantity.specs.declared.value.Value.TheVariants.{Undefined};
ghost use Rattle.quantity.specs.Packed.{raw_of};

use crate::raw::Raw;
use crate::value::Value;
use std::marker::Model;

/// The number that stands for `?`: no value has so many hundred-thousandths.
const UNDEFINED: i64 = 9_223_372_036_854_775_807;

/// The same number, as a size.
const GREATEST: u64 = 9_223_372_036_854_775_807;

/// The number that stands for no value.
const NOTHING: i64 = 9_223_372_036_854_775_806;

/// A value as eight bytes. They may stand anywhere, so that a record leaves no room before them.
#[derive(Clone, Copy, PartialEq, Eq, Debug)]
pub struct ValueBytes {
    bytes: [u8; 8],
}

impl Model for ValueBytes {
    ghost use Rattle.std.specs.Prelude.{◌≡◌};
    ghost use Rattle.quantity.specs.declared.value.Value.{Value as AnyValue};
    ghost use Rattle.quantity.specs.Packed.{bytes_of, raw_in, raw_of, same_bytes, value_at};

    ghost Value = { AnyValue };

    ghost view = { λ p. value_at (raw_in p.bytes) };

    ghost invariant = { λ p. bytes_of (raw_of (value_at (raw_in p.bytes))) ≡ p.bytes };

    ghost inverse = { λ v. record { bytes = bytes_of (raw_of v) } };

    ghost inverse_ok = { λ p h. same_bytes p.bytes (bytes_of (raw_of (value_at (raw_in p.bytes))))
        (λ b. record { bytes = b }) h };
}

impl ValueBytes {
    /// The same value.
    #[inline(always)]
    pub fn of(value: Value) -> ValueBytes
        ensures { result ≡ value }
    {
        let raw = match value {
            Value::Undefined => UNDEFINED,
            Value::Num(raw) => raw.get(),
        };
        ValueBytes {
            bytes: raw.to_le_bytes(),
        }
    }

    /// The value.
    #[inline(always)]
    pub fn get(self) -> Value
        ensures { result ≡ self }
    {
        match Raw::new(i64::from_le_bytes(self.bytes)) {
            Some(raw) => Value::Num(raw),
            None => Value::Undefined,
        }
    }
}

/// A value, or none, as eight bytes.
#[derive(Clone, Copy, PartialEq, Eq, Debug)]
pub struct MaybeValueBytes {
    bytes: [u8; 8],
}

impl Model for MaybeValueBytes {
    ghost use Rattle.std.specs.Prelude.{◌≡◌, Option};
    ghost use Rattle.quantity.specs.declared.value.Value.{Value as AnyValue};
    ghost use Rattle.quantity.specs.Packed.{bytes_of, choice_at, raw_in, raw_of_choice, same_bytes};

    ghost Value = { Option AnyValue };

    ghost view = { λ p. choice_at (raw_in p.bytes) };

    ghost invariant = { λ p. bytes_of (raw_of_choice (choice_at (raw_in p.bytes))) ≡ p.bytes };

    ghost inverse = { λ o. record { bytes = bytes_of (raw_of_choice o) } };

    ghost inverse_ok = { λ p h. same_bytes p.bytes (bytes_of (raw_of_choice (choice_at (raw_in p.bytes))))
        (λ b. record { bytes = b }) h };
}

impl MaybeValueBytes {
    /// The same value, or none.
    #[inline(always)]
    pub fn of(value: Option<Value>) -> MaybeValueBytes
        ensures { result ≡ value }
    {
        let raw = match value {
            Some(value) => raw_of(value),
            None => NOTHING,
        };
        MaybeValueBytes {
            bytes: raw.to_le_bytes(),
        }
    }

    /// The value, if there is one.
    #[inline(always)]
    pub fn get(self) -> Option<Value>
        ensures { result ≡ self }
    {
        let raw = i64::from_le_bytes(self.bytes);
        match Raw::new(raw) {
            Some(raw) => Some(Value::Num(raw)),
            None => unknown(raw),
        }
    }
}

/// The number that stands for a value.
#[inline(always)]
fn raw_of(value: Value) -> i64
    ensures raw { result ≡ raw_of value }
    ensures bounded { IsBounded value }
{
    match value {
        Value::Undefined => UNDEFINED,
        Value::Num(raw) => raw.get(),
    }
}

/// What a number stands for that is none of hundred-thousandths: `?`, or none.
#[inline(always)]
fn unknown(raw: i64) -> Option<Value>
    ensures { result ≡ (if unsigned_abs raw == 9223372036854775807 then Some Undefined else None) }
{
    if raw.unsigned_abs() == GREATEST {
        Some(Value::Undefined)
    } else {
        None
    }
}
