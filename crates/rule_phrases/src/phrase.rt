// Expressions, by recursive descent: it recurs from level to level and into parentheses alone;
// signs, operators and commas are loops.
ghost use Rattle.std.specs.Prelude.{◌≡◌, ◌<◌, ◌≤◌, ℕ, length, IfOk, IfSome};
ghost use Rattle.rule_phrases.specs.Between.{AreArguments, operand_reader, operands_before, sign_at};
ghost use Rattle.rule_words.specs.Descent.{at_level, call_before, enclosed_before, list_before};
ghost use Rattle.rule_words.specs.Descent.{signed_operand, primary_before, expression_reader};
ghost use Rattle.rule_tree.specs.Phrases.{expr};
ghost use Rattle.rule_words.specs.Reading.{phrase_of};
ghost use Rattle.rule_words.specs.Shown.{level_of, names_of, tokens_of};
ghost use Rattle.rule_phrases.specs.Terms.{IsFront, IsTerm};

use crate::atom::{atom_before, opening_before};
use crate::between::{
    Arguments, called, closed, most_operators, operand_level, operator_before, push, signs_before,
    with_signs,
};
use crate::front::Front;
use crate::term::Term;
use quantity::OutOfMemory;
use rule_tree::Function;
use rule_words::cell::after_mark;
use rule_words::level::Level;
use rule_words::names::Names;
use rule_words::token::{Mark, Token};
use std::alloc::Global;

/// The expression that all tokens are; None where they are none.
pub fn phrase(
    alloc: Global,
    names: &Names,
    tokens: &[Token<'_>],
) -> Result<Option<Term>, OutOfMemory>
    ensures { IfOk result (λ term. IsTerm (names_of names.now)
        (phrase_of (tokens_of tokens.now)) term) }
{
    let Some(read) = front(alloc, names, Level::Expression, tokens)? else {
        return Ok(None);
    };
    if read.rest.is_empty() {
        Ok(Some(read.term))
    } else {
        Ok(None)
    }
}

/// The phrase of a level at the front of tokens.
#[cycle(descent)]
fn front<'t, 'a>(
    alloc: Global,
    names: &Names,
    level: Level,
    tokens: &'t [Token<'a>],
) -> Result<Option<Front<'t, 'a>>, OutOfMemory>
    ensures read { IfOk result (λ front. (n : ℕ) → length tokens.now ≤ n → IsFront
        (names_of names.now)
        (at_level (expression_reader n) (level_of level) (tokens_of tokens.now)) front) }
    ensures shorter { IfOk result (λ front. IfSome front
        (λ f. length f.rest.now < length tokens.now)) }
{
    let operand = operand_level(level);
    match level {
        Level::Negation => prefixed(alloc, names, level, operand, tokens),
        Level::Signed => prefixed(alloc, names, level, operand, tokens),
        Level::Primary => primary(alloc, names, tokens),
        _ => operands(alloc, names, level, operand, tokens),
    }
}

/// Operands with operators of a level between, joined from the left.
#[cycle(descent)]
fn operands<'t, 'a>(
    alloc: Global,
    names: &Names,
    level: Level,
    operand: Level,
    tokens: &'t [Token<'a>],
) -> Result<Option<Front<'t, 'a>>, OutOfMemory>
    ensures read { IfOk result (λ front. (n : ℕ) → length tokens.now ≤ n
        → IsFront (names_of names.now) (operands_before (level_of level)
        (operand_reader n operand) (tokens_of tokens.now)) front) }
    ensures shorter { IfOk result (λ front. IfSome front
        (λ f. length f.rest.now < length tokens.now)) }
{
    let Some(first) = front(alloc, names, operand, tokens)? else {
        return Ok(None);
    };
    let mut term = first.term;
    let mut rest = first.rest;
    // Each operator takes a token, so there are no more of them than tokens.
    let most = most_operators(level, rest.len());
    'operators: for _ in 0..most {
        let Some((operator, behind)) = operator_before(level, rest) else {
            return Ok(Some(Front { term, rest }));
        };
        let Some(right) = front(alloc, names, operand, behind)? else {
            return Ok(None);
        };
        term = Term::two(alloc, operator, term, right.term)?;
        rest = right.rest;
    }
    Ok(Some(Front { term, rest }))
}

/// An operand behind any number of signs.
#[cycle(descent)]
fn prefixed<'t, 'a>(
    alloc: Global,
    names: &Names,
    level: Level,
    operand: Level,
    tokens: &'t [Token<'a>],
) -> Result<Option<Front<'t, 'a>>, OutOfMemory>
    ensures read { IfOk result (λ front. (n : ℕ) → length tokens.now ≤ n
        → IsFront (names_of names.now) (signed_operand (sign_at (level_of level))
        (operand_reader n operand) (tokens_of tokens.now)) front) }
    ensures shorter { IfOk result (λ front. IfSome front
        (λ f. length f.rest.now < length tokens.now)) }
{
    let prefix = signs_before(alloc, level, tokens)?;
    let Some(inner) = front(alloc, names, operand, prefix.rest)? else {
        return Ok(None);
    };
    let term = with_signs(alloc, prefix.signs, inner.term)?;
    Ok(Some(Front {
        term,
        rest: inner.rest,
    }))
}

/// A primary: a value, a name, or what stands in parentheses.
#[cycle(descent)]
fn primary<'t, 'a>(
    alloc: Global,
    names: &Names,
    tokens: &'t [Token<'a>],
) -> Result<Option<Front<'t, 'a>>, OutOfMemory>
    ensures read { IfOk result (λ front. (n : ℕ) → length tokens.now ≤ n
        → IsFront (names_of names.now)
        (primary_before (expression_reader n) (tokens_of tokens.now)) front) }
    ensures shorter { IfOk result (λ front. IfSome front
        (λ f. length f.rest.now < length tokens.now)) }
{
    if let Some(atom) = atom_before(names, tokens) {
        return Ok(Some(atom));
    }
    let Some((opening, inner)) = opening_before(tokens) else {
        return Ok(None);
    };
    match opening {
        None => enclosed(alloc, names, inner),
        Some(function) => call(alloc, names, function, inner),
    }
}

/// What stands in parentheses, behind the opening one.
#[cycle(descent)]
fn enclosed<'t, 'a>(
    alloc: Global,
    names: &Names,
    tokens: &'t [Token<'a>],
) -> Result<Option<Front<'t, 'a>>, OutOfMemory>
    ensures read { IfOk result (λ front. (n : ℕ) → length tokens.now ≤ n
        → IsFront (names_of names.now)
        (enclosed_before (at_level (expression_reader n) expr) (tokens_of tokens.now)) front) }
    ensures shorter { IfOk result (λ front. IfSome front
        (λ f. length f.rest.now < length tokens.now)) }
{
    let Some(inner) = front(alloc, names, Level::Expression, tokens)? else {
        return Ok(None);
    };
    Ok(closed(inner))
}

/// A function of its arguments, behind the opening parenthesis.
#[cycle(descent)]
fn call<'t, 'a>(
    alloc: Global,
    names: &Names,
    function: Function,
    tokens: &'t [Token<'a>],
) -> Result<Option<Front<'t, 'a>>, OutOfMemory>
    ensures read { IfOk result (λ front. (n : ℕ) → length tokens.now ≤ n
        → IsFront (names_of names.now)
        (call_before function (at_level (expression_reader n) expr) (tokens_of tokens.now)) front) }
    ensures shorter { IfOk result (λ front. IfSome front
        (λ f. length f.rest.now < length tokens.now)) }
{
    let Some(list) = arguments(alloc, names, tokens)? else {
        return Ok(None);
    };
    called(alloc, function, list)
}

/// Expressions with commas between.
#[cycle(descent)]
fn arguments<'t, 'a>(
    alloc: Global,
    names: &Names,
    tokens: &'t [Token<'a>],
) -> Result<Option<Arguments<'t, 'a>>, OutOfMemory>
    ensures read { IfOk result (λ list. (n : ℕ) → length tokens.now ≤ n
        → AreArguments (names_of names.now)
        (list_before (at_level (expression_reader n) expr) (tokens_of tokens.now)) list) }
    ensures shorter { IfOk result (λ list. IfSome list
        (λ a. length a.rest.now < length tokens.now)) }
{
    let Some(first) = front(alloc, names, Level::Expression, tokens)? else {
        return Ok(None);
    };
    let mut terms = Vec::new(alloc);
    push(&mut terms, first.term)?;
    let mut rest = first.rest;
    'commas: loop {
        let Some(behind) = after_mark(Mark::Comma, rest) else {
            return Ok(Some(Arguments { terms, rest }));
        };
        let Some(next) = front(alloc, names, Level::Expression, behind)? else {
            return Ok(None);
        };
        push(&mut terms, next.term)?;
        rest = next.rest;
    }
}
