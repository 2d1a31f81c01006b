// Values that are whole numbers.
ghost use Rattle.std.specs.Prelude.{◌≡◌};
ghost use Rattle.rule_forms.specs.WholeNumbers.{whole_number_in};

use quantity::Value;

/// The whole number that a value is, if it is one that isn't negative.
pub fn whole_number(value: Value) -> Option<u64>
    ensures { result ≡ whole_number_in value }
{
    let Value::Num(raw) = value else {
        return None;
    };
    let raw = raw.get();
    if raw < 0 {
        return None;
    }
    let raw = raw.unsigned_abs();
    if raw % 100_000 == 0 {
        Some(raw / 100_000)
    } else {
        None
    }
}
