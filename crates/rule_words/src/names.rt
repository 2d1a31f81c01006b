// The names that the rules of a group may use.
ghost use Rattle.rule_words.specs.Few.{AreFew};

use quantity::{Name, Offset};

/// The names that the rules of a cell group may use.
#[derive(Drop)]
pub struct Names {
    /// The neighbourhood, in its written order: at most 128 offsets.
    pub offsets: Vec<Offset>,
    /// The number of dimensions of the space, 2 or 3.
    pub dims: u8,
    /// The state variables, at most 8.
    pub variables: Vec<Name>,
    /// The neighbour ports beside `out`, at most 3.
    pub ports: Vec<Name>,
    pub ghost few: { AreFew offsets.items variables.items ports.items },
}
