// The words and marks of operators and functions.
ghost use Rattle.std.specs.Prelude.{◌≡◌, [], ◌∷◌};
ghost use Rattle.std.specs.List.{find};
ghost use Rattle.std.specs.Str.{bytes_eq};
ghost use Rattle.rule_words.specs.Descent.{not_in, sign_in};
ghost use Rattle.rule_tree.specs.Functions.{row};
ghost use Rattle.rule_tree.specs.Phrases as P;
ghost use Rattle.rule_tree.specs.Phrases.{argument_count, counts, functions, looked_up};
ghost use Rattle.rule_tree.specs.Phrases.{operator_marks, operator_words};
ghost use Rattle.rule_words.specs.Reading.{operator_in};
ghost use Rattle.rule_words.specs.Shown.{level_of, text_of, token_of};
ghost use Rattle.rule_words.specs.Tokens.{is_mark};

use crate::level::Level;
use crate::token::{Mark, Token};
use quantity::Compare;
use rule_tree::{Binary, Count, Function, Unary};

/// The operator that a token is between two operands of a level.
pub fn operator_in(level: Level, token: Token<'_>) -> Option<Binary>
    ensures { result ≡ operator_in (level_of level) (token_of token.entry) }
{
    match token {
        Token::Word(word) => operator_word(level, word),
        Token::Number(_) => None,
        Token::Mark(mark) => operator_mark(level, mark),
    }
}

fn operator_word(level: Level, word: &[u8]) -> Option<Binary>
    ensures { result ≡ looked_up (operator_words (level_of level)) word.now }
{
    match level {
        Level::Expression => one_of(word, b"imp", Binary::Imp, b"eqv", Binary::Eqv),
        Level::Disjunction => one_of(word, b"or", Binary::Or, b"xor", Binary::Xor),
        Level::Conjunction => (word == b"and".as_slice()).then_some(Binary::And),
        Level::Negation
        | Level::Comparison
        | Level::Sum
        | Level::Product
        | Level::Signed
        | Level::Primary => None,
    }
}

// The operator of two whose word this is.
fn one_of(
    word: &[u8],
    first: &[u8],
    first_operator: Binary,
    second: &[u8],
    second_operator: Binary,
) -> Option<Binary>
    ensures { result
        ≡ looked_up ((first.now, first_operator) ∷ (second.now, second_operator) ∷ []) word.now }
{
    if word == first {
        Some(first_operator)
    } else if word == second {
        Some(second_operator)
    } else {
        None
    }
}

fn operator_mark(level: Level, mark: Mark) -> Option<Binary>
    ensures { result ≡ looked_up (operator_marks (level_of level)) (text_of mark) }
{
    match level {
        Level::Comparison => comparison_in(mark),
        Level::Sum => sum_in(mark),
        Level::Product => product_in(mark),
        Level::Expression
        | Level::Disjunction
        | Level::Conjunction
        | Level::Negation
        | Level::Signed
        | Level::Primary => None,
    }
}

fn comparison_in(mark: Mark) -> Option<Binary>
    ensures { result ≡ looked_up (operator_marks P.comp) (text_of mark) }
{
    let compare = match mark {
        Mark::Equal => Compare::Equal,
        Mark::Unequal => Compare::Unequal,
        Mark::Less => Compare::Less,
        Mark::LessEqual => Compare::LessEqual,
        Mark::Greater => Compare::Greater,
        Mark::GreaterEqual => Compare::GreaterEqual,
        _ => return None,
    };
    Some(Binary::Cmp(compare))
}

fn sum_in(mark: Mark) -> Option<Binary>
    ensures { result ≡ looked_up (operator_marks P.sum) (text_of mark) }
{
    match mark {
        Mark::Plus => Some(Binary::Add),
        Mark::Minus => Some(Binary::Sub),
        _ => None,
    }
}

fn product_in(mark: Mark) -> Option<Binary>
    ensures { result ≡ looked_up (operator_marks P.prod) (text_of mark) }
{
    match mark {
        Mark::Times => Some(Binary::Mul),
        Mark::Over => Some(Binary::Div),
        _ => None,
    }
}

/// Whether a token is this mark.
pub fn is_mark(mark: Mark, token: Token<'_>) -> bool
    ensures { result ≡ is_mark (text_of mark) (token_of token.entry) }
{
    match token {
        Token::Mark(found) => same_mark(found, mark),
        Token::Word(_) | Token::Number(_) => false,
    }
}

/// Whether two marks are one.
pub fn same_mark(mark: Mark, other: Mark) -> bool
    ensures { result ≡ bytes_eq (text_of mark) (text_of other) }
{
    mark.text() == other.text()
}

/// The sign that a token is before an operand.
pub fn sign_in(token: Token<'_>) -> Option<Unary>
    ensures { result ≡ sign_in (token_of token.entry) }
{
    match token {
        Token::Mark(Mark::Plus) => Some(Unary::Plus),
        Token::Mark(Mark::Minus) => Some(Unary::Minus),
        _ => None,
    }
}

/// The `not` that a token is.
pub fn not_in(token: Token<'_>) -> Option<Unary>
    ensures { result ≡ not_in (token_of token.entry) }
{
    match token {
        Token::Word(word) => (word == b"not".as_slice()).then_some(Unary::Not),
        Token::Number(_) | Token::Mark(_) => None,
    }
}

/// The function of this name.
#[tactic(auto, using(crate::proofs::FunctionWords::functions_found))]
pub fn function_in(word: &[u8]) -> Option<Function>
    ensures { result ≡ looked_up functions word.now }
{
    named(&Function::ALL, word)
}

fn named(functions: &[Function], word: &[u8]) -> Option<Function>
    ensures { result ≡ find (λ f. bytes_eq (row f).word word.now) functions.now }
{
    functions
        .iter()
        .copied()
        .find(|function| function.word() == word)
}

/// The count of this name.
pub fn count_in(word: &[u8]) -> Option<Count>
    ensures { result ≡ looked_up counts word.now }
{
    if word == b"truecount".as_slice() {
        Some(Count::Ones)
    } else if word == b"falsecount".as_slice() {
        Some(Count::Zeros)
    } else if word == b"undefcount".as_slice() {
        Some(Count::Undefs)
    } else {
        None
    }
}

/// How many arguments a function takes.
pub fn argument_count(function: Function) -> usize
    ensures { result ≡ argument_count function }
{
    function.takes().len()
}
