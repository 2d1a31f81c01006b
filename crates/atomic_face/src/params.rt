// Parameters of atomic models, and why a model doesn't take what it is given.
ghost use Rattle.std.specs.Prelude.{◌≡◌};
ghost use Rattle.quantity.specs.Times.{earlier};

use quantity::Text;

/// A key with its value, and the number of its line.
#[derive(Drop)]
pub struct Param {
    pub line: u32,
    pub key: Text,
    pub value: Text,
}

/// The parameters of an atomic component, in the order of their lines.
#[derive(Drop)]
pub struct Params {
    pub entries: Vec<Param>,
}

/// Why a model doesn't take parameters.
#[derive(Clone, Copy, Debug)]
pub enum SettleRefusal {
    /// The value of a parameter is off its form: the least line of such.
    BadParameter(u32),
    /// There is no memory for the settings.
    Memory,
}

/// Why a model doesn't take a state.
#[derive(Clone, Copy, Debug)]
pub enum RestoreRefusal {
    /// The words aren't a state of the class with these settings.
    BadState,
    /// There is no memory for the state.
    Memory,
}

/// The lesser of two lines, where there are such.
pub fn least(a: Option<u32>, b: Option<u32>) -> Option<u32>
    ensures { result ≡ earlier a b }
{
    match (a, b) {
        (Some(a), Some(b)) => Some(a.min(b)),
        (None, b) => b,
        (a, None) => a,
    }
}
