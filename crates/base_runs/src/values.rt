// Values as tests give them.
use quantity::{Raw, Value};

/// So many hundred-thousandths.
pub(crate) fn number(raw: i64) -> Value {
    match Raw::new(raw) {
        Some(raw) => Value::Num(raw),
        None => Value::Undefined,
    }
}
