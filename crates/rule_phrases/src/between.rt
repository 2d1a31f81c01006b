// What a descent reads between phrases: operators, signs and marks.
ghost use Rattle.std.specs.Option.{option_map};
ghost use Rattle.std.specs.Prelude.{◌≡◌, ◌<◌, ◌≤◌, [], ◌∷◌, ◌++◌, length, IfOk, IfSome, OnOk, OnErr};
ghost use Rattle.rule_phrases.specs.Between.{AreArguments, behind_signs, called_before};
ghost use Rattle.rule_phrases.specs.Between.{most_operators, operator_before, sign_at};
ghost use Rattle.rule_phrases.specs.Between.{signs_before, with_signs};
ghost use Rattle.rule_tree.specs.Phrases.{tighter};
ghost use Rattle.rule_words.specs.Descent.{prefix_if_closed, then_on};
ghost use Rattle.rule_words.specs.Shown.{level_of, token_of, tokens_of};
ghost use Rattle.rule_phrases.specs.Terms.{IsFront, StandsForPhrase};

use crate::front::Front;
use crate::term::Term;
use quantity::OutOfMemory;
use rule_tree::{Binary, Function, Unary};
use rule_words::cell::after_mark;
use rule_words::level::Level;
use rule_words::table::{argument_count, not_in, operator_in, sign_in};
use rule_words::token::{Mark, Token};
use std::alloc::Global;

/// The arguments at the front of tokens, and the tokens behind them.
#[derive(Drop)]
pub struct Arguments<'t, 'a> {
    pub terms: Vec<Term>,
    pub rest: &'t [Token<'a>],
}

/// Signs before an operand, the outermost first, and the tokens behind them.
#[derive(Drop)]
pub struct Signs<'t, 'a> {
    pub signs: Vec<Unary>,
    pub rest: &'t [Token<'a>],
}

/// The level of the operands of a level: the next tighter one.
pub(crate) fn operand_level(level: Level) -> Level
    ensures { level_of result ≡ tighter (level_of level) }
{
    match level {
        Level::Expression => Level::Disjunction,
        Level::Disjunction => Level::Conjunction,
        Level::Conjunction => Level::Negation,
        Level::Negation => Level::Comparison,
        Level::Comparison => Level::Sum,
        Level::Sum => Level::Product,
        Level::Product => Level::Signed,
        Level::Signed => Level::Primary,
        Level::Primary => Level::Primary,
    }
}

/// An operator of a level at the front, and the tokens behind it.
pub(crate) fn operator_before<'t, 'a>(
    level: Level,
    tokens: &'t [Token<'a>],
) -> Option<(Binary, &'t [Token<'a>])>
    ensures operator { option_map (λ cut. (cut.0, tokens_of cut.1.now)) result
        ≡ operator_before (level_of level) (tokens_of tokens.now) }
    ensures shorter { IfSome result (λ cut. length cut.1.now < length tokens.now) }
{
    let [token, rest @ ..] = tokens else {
        return None;
    };
    let operator = operator_in(level, *token)?;
    Some((operator, rest))
}

/// How many operators of a level join operands in so many tokens: a comparison is joined to no
/// other.
pub(crate) fn most_operators(level: Level, tokens: usize) -> usize
    ensures { result ≡ most_operators (level_of level) tokens }
{
    match level {
        Level::Comparison => 1,
        _ => tokens,
    }
}

/// The sign that a token is before an operand of a level.
fn sign_at(level: Level, token: Token<'_>) -> Option<Unary>
    ensures { result ≡ sign_at (level_of level) (token_of token.entry) }
{
    match level {
        Level::Negation => not_in(token),
        _ => sign_in(token),
    }
}

/// The signs before an operand of a level.
pub(crate) fn signs_before<'t, 'a>(
    alloc: Global,
    level: Level,
    tokens: &'t [Token<'a>],
) -> Result<Signs<'t, 'a>, OutOfMemory>
    ensures signs { IfOk result (λ s. s.signs.items
        ≡ signs_before (sign_at (level_of level)) (tokens_of tokens.now)) }
    ensures rest { IfOk result (λ s. tokens_of s.rest.now
        ≡ behind_signs (sign_at (level_of level)) (tokens_of tokens.now)) }
    ensures shorter { IfOk result (λ s. length s.rest.now ≤ length tokens.now) }
{
    let mut signs = Vec::new(alloc);
    let mut rest = tokens;
    while let [token, behind @ ..] = rest {
        let Some(sign) = sign_at(level, *token) else {
            break;
        };
        let Ok(()) = signs.push(sign) else {
            return Err(OutOfMemory);
        };
        rest = behind;
    }
    Ok(Signs { signs, rest })
}

/// An operand with these signs before it.
pub(crate) fn with_signs(
    alloc: Global,
    mut signs: Vec<Unary>,
    operand: Term,
) -> Result<Term, OutOfMemory>
    ensures { IfOk result (λ term. (names : _) (x : _) → StandsForPhrase names operand x
        → StandsForPhrase names term (with_signs signs.items x)) }
{
    let mut term = operand;
    while let Some(sign) = signs.pop() {
        term = Term::one(alloc, sign, term)?;
    }
    Ok(term)
}

/// What was read, where a closing parenthesis follows.
pub fn closed<'t, 'a>(inner: Front<'t, 'a>) -> Option<Front<'t, 'a>>
    ensures read { (names : _) (p : _) → IsFront names p (Some inner.entry)
        → IsFront names (then_on p prefix_if_closed) result }
    ensures shorter { IfSome result (λ front. length front.rest.now ≤ length inner.entry.rest.now) }
{
    let rest = after_mark(Mark::CloseParenthesis, inner.rest)?;
    Some(Front {
        term: inner.term,
        rest,
    })
}

/// A function of these arguments, where a closing parenthesis follows and they are as many as it
/// takes.
pub fn called<'t, 'a>(
    alloc: Global,
    function: Function,
    arguments: Arguments<'t, 'a>,
) -> Result<Option<Front<'t, 'a>>, OutOfMemory>
    ensures read { IfOk result (λ front. (names : _) (p : _) → AreArguments names p
        (Some arguments.entry) → IsFront names (called_before function p) front) }
    ensures shorter { IfOk result (λ front. IfSome front
        (λ f. length f.rest.now ≤ length arguments.entry.rest.now)) }
{
    let Some(rest) = after_mark(Mark::CloseParenthesis, arguments.rest) else {
        return Ok(None);
    };
    if arguments.terms.len() != argument_count(function) {
        return Ok(None);
    }
    let term = Term::call(alloc, function, arguments.terms)?;
    Ok(Some(Front { term, rest }))
}

/// Puts a term behind the others. Where memory is refused, they stay as they were.
pub fn push(terms: &mut Vec<Term>, term: Term) -> Result<(), OutOfMemory>
    ensures ok { OnOk result (terms.new.items ≡ terms.old.items ++ term ∷ []) }
    ensures err { OnErr result (terms.new.items ≡ terms.old.items) }
{
    match terms.push(term) {
        Ok(()) => Ok(()),
        Err(_) => Err(OutOfMemory),
    }
}
