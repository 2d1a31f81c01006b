// The functions of the language: each is a row, its word and the sorts that it takes and gives.

/// What an expression gives: a value or a truth value.
#[derive(Clone, Copy, PartialEq, Eq)]
pub enum Sort {
    Number,
    Truth,
}

/// A function of the language.
#[derive(Clone, Copy, PartialEq, Eq)]
pub enum Function {
    StateCount,
    CellPos,
    If,
    Ifu,
    Abs,
    Sign,
    Sqrt,
    Trunc,
    Fractional,
    Round,
    Min,
    Max,
    Remainder,
    Even,
    Odd,
    IsInt,
    IsUndefined,
}

impl Function {
    ghost use Rattle.std.specs.Prelude.{◌≡◌};
    ghost use Rattle.rule_tree.specs.Functions.{row};

    /// All functions.
    pub const ALL: [Function; 17] = [
        Function::StateCount,
        Function::CellPos,
        Function::If,
        Function::Ifu,
        Function::Abs,
        Function::Sign,
        Function::Sqrt,
        Function::Trunc,
        Function::Fractional,
        Function::Round,
        Function::Min,
        Function::Max,
        Function::Remainder,
        Function::Even,
        Function::Odd,
        Function::IsInt,
        Function::IsUndefined,
    ];

    /// The word that it is called by.
    pub fn word(self) -> &'static [u8]
        ensures { result.now ≡ (row self).word }
    {
        match self {
            Function::StateCount => b"statecount",
            Function::CellPos => b"cellpos",
            Function::If => b"if",
            Function::Ifu => b"ifu",
            Function::Abs => b"abs",
            Function::Sign => b"sign",
            Function::Sqrt => b"sqrt",
            Function::Trunc => b"trunc",
            Function::Fractional => b"fractional",
            Function::Round => b"round",
            Function::Min => b"min",
            Function::Max => b"max",
            Function::Remainder => b"remainder",
            Function::Even => b"even",
            Function::Odd => b"odd",
            Function::IsInt => b"isint",
            Function::IsUndefined => b"isundefined",
        }
    }

    /// The sorts of its arguments, in order.
    pub fn takes(self) -> &'static [Sort]
        ensures { result.now ≡ (row self).takes }
    {
        match self {
            Function::If => &[Sort::Truth, Sort::Number, Sort::Number],
            Function::Ifu => &[Sort::Truth, Sort::Number, Sort::Number, Sort::Number],
            Function::Min | Function::Max | Function::Remainder => &[Sort::Number, Sort::Number],
            _ => &[Sort::Number],
        }
    }

    /// The sort of what it makes.
    pub fn gives(self) -> Sort
        ensures { result ≡ (row self).gives }
    {
        match self {
            Function::Even | Function::Odd | Function::IsInt | Function::IsUndefined => Sort::Truth,
            _ => Sort::Number,
        }
    }
}
