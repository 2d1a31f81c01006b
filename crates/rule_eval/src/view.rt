// What a cell sees when it evaluates its rules.
use quantity::{Place, Time, Value};

/// What a cell sees when it evaluates its rules.
#[derive(Clone, Copy)]
pub struct View<'a> {
    /// The instant.
    pub time: Time,
    /// Where the cell stands.
    pub place: Place,
    /// The number of dimensions of its space, 2 or 3.
    pub dims: u8,
    /// For each offset, what the neighbour gave at its port `out`, and then at each further port.
    pub neighbours: &'a [Value],
    /// The number of further ports, at most 3.
    pub ports: u8,
    /// The value of `portvalue(thisport)`.
    pub port: Value,
    /// The values of the cell's variables.
    pub variables: &'a [Value],
}
