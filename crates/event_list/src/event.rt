// An event as it is kept.
use quantity::{Time, Value};

/// A value at an input of the whole model: the input by its number, and the time of the value.
#[derive(Clone, Copy)]
pub(crate) struct Event {
    pub(crate) time: Time,
    pub(crate) port: u16,
    pub(crate) value: Value,
}
