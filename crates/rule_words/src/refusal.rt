// Why a text is no rule of a group.
ghost use Rattle.std.specs.Prelude.{◌≡◌};

use quantity::OutOfMemory;

/// Why a text is no rule of a group: the first that applies, in the order of the tests.
#[derive(Clone, Copy, PartialEq, Eq, Debug)]
pub enum RuleRefusal {
    /// A piece of the text is no token, the tokens are no rule, or a port is given twice.
    BadRule,
    /// An operand is a number where a truth value is wanted, or the other way round.
    BadSort,
    /// A word is the name of a random function.
    RandomRefused,
    /// A word is none of the language.
    UnknownFunction,
    /// A cell is no offset of the neighbourhood, or has a wrong number of coordinates.
    NotANeighbour,
    /// A word behind `$` is no state variable.
    UnknownVariable,
    /// A word behind `~` is no port.
    UnknownNeighbourPort,
    /// There are more than 4096 tokens, or more than 64 parentheses open at once.
    TooLarge,
    /// There is no memory for the rule's tree.
    Memory,
}

impl From<OutOfMemory> for RuleRefusal {
    ghost use Rattle.rule_words.specs.declared.refusal.RuleRefusal.TheVariants.{Memory};

    ghost from_gives = { λ _ refusal. refusal ≡ Memory };

    fn from(_error: OutOfMemory) -> RuleRefusal {
        RuleRefusal::Memory
    }
}
