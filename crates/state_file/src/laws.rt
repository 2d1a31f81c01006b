//! Laws of saved states.
ghost use Rattle.state_file.specs.ReadStates.{ReadStatesFit};

/// The states that a text gives fit the leaves of the model that it is read for, where this is
/// sound: each cell has the ports and variables of its group, and each box the class and settings
/// of its leaf.
pub fn read_states_fit()
    ensures { ReadStatesFit }
{}
