// The letters of the log's lines, and what their lines tell.

/// A letter of the log's lines. It says what a line is of.
#[derive(Clone, Copy, PartialEq, Eq)]
pub enum Letter {
    /// A value that a leaf gave at its port `out`.
    Y,
    /// A value that a cell gave at a further port.
    N,
    /// A value that reached a leaf.
    X,
    /// A leaf that moved.
    S,
}

/// What the lines of a letter tell of a leaf.
#[derive(Clone, Copy, PartialEq, Eq)]
pub enum Tells {
    /// A value at a port: of a cell alone, or of any leaf.
    Given { of_cells_alone: bool },
    /// That a leaf moved.
    Moved,
}

impl Letter {
    ghost use Rattle.std.specs.Prelude.{◌≡◌};
    ghost use Rattle.text_forms.specs.Letters.{has_letter, letter_byte, letter_named, told_by};

    /// All letters, in the order in which the lines of a cycle stand.
    pub const ALL: [Letter; 4] = [Letter::Y, Letter::N, Letter::X, Letter::S];

    /// The byte that it is written as.
    #[inline(always)]
    pub fn byte(self) -> u8
        ensures { result ≡ letter_byte self }
    {
        match self {
            Letter::Y => b'Y',
            Letter::N => b'N',
            Letter::X => b'X',
            Letter::S => b'S',
        }
    }

    /// The letter that is written so; None where no letter is.
    #[inline(always)]
    pub fn of_byte(byte: u8) -> Option<Letter>
        ensures { result ≡ letter_named byte }
    {
        Letter::ALL
            .iter()
            .copied()
            .find(|letter| letter.byte() == byte)
    }

    /// Whether it is among letters that are written so.
    pub fn is_among(self, bytes: &[u8]) -> bool
        ensures { result ≡ has_letter bytes.now self }
    {
        let byte = self.byte();
        bytes.iter().any(|c| *c == byte)
    }

    /// What its lines tell.
    #[inline(always)]
    pub fn tells(self) -> Tells
        ensures { result ≡ told_by self }
    {
        match self {
            Letter::Y => Tells::Given {
                of_cells_alone: false,
            },
            Letter::N => Tells::Given {
                of_cells_alone: true,
            },
            Letter::X => Tells::Given {
                of_cells_alone: false,
            },
            Letter::S => Tells::Moved,
        }
    }
}
