// The tokens of a rule.
ghost use Rattle.std.specs.Prelude.{◌≡◌};
ghost use Rattle.std.specs.Bool.{then_some};
ghost use Rattle.std.specs.List.{find};
ghost use Rattle.std.specs.Option.{option_map};
ghost use Rattle.std.specs.Str.{bytes_eq};
ghost use Rattle.quantity.specs.Bytes.{is_among};
ghost use Rattle.rule_words.specs.Shown.{text_of};
ghost use Rattle.rule_words.specs.Tokens.{marks};

/// A mark of the rule language.
#[derive(Clone, Copy)]
pub enum Mark {
    /// `?`
    Question,
    /// `(`
    OpenParenthesis,
    /// `)`
    CloseParenthesis,
    /// `{`
    OpenBrace,
    /// `}`
    CloseBrace,
    /// `,`
    Comma,
    /// `+`
    Plus,
    /// `-`
    Minus,
    /// `*`
    Times,
    /// `/`
    Over,
    /// `=`
    Equal,
    /// `!=`
    Unequal,
    /// `<`
    Less,
    /// `<=`
    LessEqual,
    /// `>`
    Greater,
    /// `>=`
    GreaterEqual,
    /// `$`, in front of a variable
    Dollar,
    /// `~`, in front of a port
    Tilde,
    /// `:=`
    Becomes,
    /// `;`
    Semicolon,
}

/// A token of a rule: a word, a number without a sign, or a mark.
#[derive(Clone, Copy)]
pub enum Token<'a> {
    Word(&'a [u8]),
    Number(&'a [u8]),
    Mark(Mark),
}

const MARKS: [Mark; 20] = [
    Mark::Question,
    Mark::OpenParenthesis,
    Mark::CloseParenthesis,
    Mark::OpenBrace,
    Mark::CloseBrace,
    Mark::Comma,
    Mark::Plus,
    Mark::Minus,
    Mark::Times,
    Mark::Over,
    Mark::Equal,
    Mark::Unequal,
    Mark::Less,
    Mark::LessEqual,
    Mark::Greater,
    Mark::GreaterEqual,
    Mark::Dollar,
    Mark::Tilde,
    Mark::Becomes,
    Mark::Semicolon,
];

impl Mark {
    /// The mark that is written so.
    pub fn read(text: &[u8]) -> Option<Mark>
        ensures { option_map text_of result ≡ then_some (is_among marks text.now) text.now }
    {
        mark_in(&MARKS, text)
    }

    /// How the mark is written.
    pub fn text(self) -> &'static [u8]
        ensures { result.now ≡ text_of self }
    {
        match self {
            Mark::Question => b"?",
            Mark::OpenParenthesis => b"(",
            Mark::CloseParenthesis => b")",
            Mark::OpenBrace => b"{",
            Mark::CloseBrace => b"}",
            Mark::Comma => b",",
            Mark::Plus => b"+",
            Mark::Minus => b"-",
            Mark::Times => b"*",
            Mark::Over => b"/",
            Mark::Equal => b"=",
            Mark::Unequal => b"!=",
            Mark::Less => b"<",
            Mark::LessEqual => b"<=",
            Mark::Greater => b">",
            Mark::GreaterEqual => b">=",
            Mark::Dollar => b"$",
            Mark::Tilde => b"~",
            Mark::Becomes => b":=",
            Mark::Semicolon => b";",
        }
    }
}

fn mark_in(marks: &[Mark], text: &[u8]) -> Option<Mark>
    ensures { result ≡ find (λ m. bytes_eq text.now (text_of m)) marks.now }
{
    marks.iter().copied().find(|mark| text == mark.text())
}
