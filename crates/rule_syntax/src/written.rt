// The parts of a rule, from its tokens.
ghost use Rattle.std.specs.Prelude.{◌≡◌, codes, map, IfOk};
ghost use Rattle.std.specs.Option.{option_map};
ghost use Rattle.rule_words.specs.Reading.{all_assigned, cell_phrase_before, delay_before};
ghost use Rattle.rule_words.specs.Reading.{given_in, last_block, number_before, phrase_block};
ghost use Rattle.rule_words.specs.Reading.{question_before, sets_before, sets_block, value_before};
ghost use Rattle.rule_words.specs.Reading.{written_rule};
ghost use Rattle.rule_syntax.specs.RulesRead.{AreRead, AreValues, IsNamedFront};
ghost use Rattle.rule_syntax.specs.RulesRead.{ReadsBehind, ReadsParts};
ghost use Rattle.rule_syntax.specs.RulesRead.{braced_value, give_of, plain_before, plain_value};
ghost use Rattle.rule_syntax.specs.RulesRead.{question_or_cell, set_of};
ghost use Rattle.rule_words.specs.Shown.{names_of, tokens_of};
ghost use Rattle.rule_phrases.specs.Terms.{IsFront, IsTerm};

use crate::assigned::{NamedFront, all_assigned, begins_with_tilde, holds_sets, is_question};
use crate::named::{Kind, NamedValue, NamedValues, gives, has_repeat, is_number, is_truth, sets};
use quantity::{OutOfMemory, Value};
use rule_phrases::atom::{block, cell_before, number_before};
use rule_phrases::front::Front;
use rule_phrases::phrase::phrase;
use rule_phrases::term::{Lacks, Term};
use rule_tree::{Give, RuleTree, SetVariable};
use rule_words::names::Names;
use rule_words::token::{Mark, Token};
use std::alloc::Global;

/// A rule of the grammar with numbers in the place of names, and what it is judged by.
#[derive(Drop)]
pub(crate) struct ReadRule {
    pub tree: RuleTree,
    pub lacks: Lacks,
    /// Whether a port is given twice.
    pub port_twice: bool,
    /// Whether values, delay and sets are numbers, and the condition is a truth value.
    pub right_sorts: bool,
}

/// The rule that all tokens are; None where they are none.
pub(crate) fn written_rule(
    alloc: Global,
    names: &Names,
    tokens: &[Token<'_>],
) -> Result<Option<ReadRule>, OutOfMemory>
    ensures { IfOk result (λ rule. AreRead (names_of names.now)
        (written_rule (tokens_of tokens.now)) rule) }
{
    let Some(given) = value_before(alloc, names, tokens)? else {
        return Ok(None);
    };
    let Some(set) = sets_before(alloc, names, given.rest)? else {
        return Ok(None);
    };
    rule_behind(alloc, names, given.values, set.values, set.rest)
}

/// The rule of these values with the delay and the condition that the tokens behind them are; None
/// where they are none.
fn rule_behind(
    alloc: Global,
    names: &Names,
    given: NamedValues<'_>,
    set: NamedValues<'_>,
    tokens: &[Token<'_>],
) -> Result<Option<ReadRule>, OutOfMemory>
    ensures { IfOk result (λ rule. ReadsBehind (names_of names.now) given.entry set.entry
        (tokens_of tokens.now) rule) }
{
    let Some(delay) = delay_before(alloc, names, tokens)? else {
        return Ok(None);
    };
    let Some(condition) = last_block(alloc, names, delay.rest)? else {
        return Ok(None);
    };
    let rule = rule(alloc, given, delay.term, condition, set)?;
    Ok(Some(rule))
}

/// The rule of its parts.
fn rule(
    alloc: Global,
    given: NamedValues<'_>,
    delay: Term,
    condition: Term,
    set: NamedValues<'_>,
) -> Result<ReadRule, OutOfMemory>
    ensures { IfOk result (λ rule. ReadsParts given.entry delay condition set.entry rule) }
{
    let lacks = given
        .lacks
        .and(delay.lacks)
        .and(condition.lacks)
        .and(set.lacks);
    let right_sorts = given.are_numbers
        & is_number(&delay)
        & is_truth(&condition)
        & set.are_numbers;
    let port_twice = has_repeat(&given.list);
    let (gives, sets) = gives_and_sets(alloc, given.list, set.list)?;
    let tree = RuleTree {
        gives,
        delay: delay.node,
        condition: condition.node,
        sets,
    };
    Ok(ReadRule {
        tree,
        lacks,
        port_twice,
        right_sorts,
    })
}

/// The values for ports and for variables, without their words.
fn gives_and_sets(
    alloc: Global,
    given: Vec<NamedValue<'_>>,
    set: Vec<NamedValue<'_>>,
) -> Result<(Vec<Give>, Vec<SetVariable>), OutOfMemory>
    ensures gives { IfOk result (λ made. made.0.items ≡ map give_of given.entry.items) }
    ensures sets { IfOk result (λ made. made.1.items ≡ map set_of set.entry.items) }
{
    let gives = gives(alloc, given)?;
    let sets = sets(alloc, set)?;
    Ok((gives, sets))
}

/// The values for ports at the front, and the tokens behind them.
fn value_before<'t, 'a>(
    alloc: Global,
    names: &Names,
    tokens: &'t [Token<'a>],
) -> Result<Option<NamedFront<'t, 'a>>, OutOfMemory>
    ensures { IfOk result (λ front. IsNamedFront (names_of names.now) Kind.Port
        (value_before (tokens_of tokens.now)) front) }
{
    match braced_value(alloc, names, tokens)? {
        Some(front) => Ok(Some(front)),
        None => plain_value(alloc, names, tokens),
    }
}

/// A block of values for ports, or of one expression.
fn braced_value<'t, 'a>(
    alloc: Global,
    names: &Names,
    tokens: &'t [Token<'a>],
) -> Result<Option<NamedFront<'t, 'a>>, OutOfMemory>
    ensures { IfOk result (λ front. IsNamedFront (names_of names.now) Kind.Port
        (braced_value (tokens_of tokens.now)) front) }
{
    let Some((inner, rest)) = block(Mark::OpenBrace, Mark::CloseBrace, tokens) else {
        return Ok(None);
    };
    let Some(values) = given_in(alloc, names, inner)? else {
        return Ok(None);
    };
    Ok(Some(NamedFront { values, rest }))
}

/// What a block gives: values for ports, or one expression for the port `out`.
fn given_in<'a>(
    alloc: Global,
    names: &Names,
    tokens: &[Token<'a>],
) -> Result<Option<NamedValues<'a>>, OutOfMemory>
    ensures { IfOk result (λ values. AreValues (names_of names.now) Kind.Port
        (given_in (tokens_of tokens.now)) values) }
{
    if begins_with_tilde(tokens) {
        return all_assigned(alloc, names, Kind::Port, tokens);
    }
    let Some(term) = phrase(alloc, names, tokens)? else {
        return Ok(None);
    };
    let values = NamedValues::at_out(alloc, names, term)?;
    Ok(Some(values))
}

/// A value without braces, for the port `out`.
fn plain_value<'t, 'a>(
    alloc: Global,
    names: &Names,
    tokens: &'t [Token<'a>],
) -> Result<Option<NamedFront<'t, 'a>>, OutOfMemory>
    ensures { IfOk result (λ front. IsNamedFront (names_of names.now) Kind.Port
        (plain_value (tokens_of tokens.now)) front) }
{
    let Some(front) = plain_front(names, tokens) else {
        return Ok(None);
    };
    let values = NamedValues::at_out(alloc, names, front.term)?;
    Ok(Some(NamedFront {
        values,
        rest: front.rest,
    }))
}

/// A number, `?` or a cell.
fn plain_front<'t, 'a>(names: &Names, tokens: &'t [Token<'a>]) -> Option<Front<'t, 'a>>
    ensures { IsFront (names_of names.now) (plain_before (tokens_of tokens.now)) result }
{
    match number_front(tokens) {
        Some(front) => Some(front),
        None => question_or_cell(names, tokens),
    }
}

fn question_or_cell<'t, 'a>(names: &Names, tokens: &'t [Token<'a>]) -> Option<Front<'t, 'a>>
    ensures { IsFront (names_of names.now) (question_or_cell (tokens_of tokens.now)) result }
{
    match question_front(tokens) {
        Some(front) => Some(front),
        None => cell_front(names, tokens),
    }
}

/// A number with an optional sign.
fn number_front<'t, 'a>(tokens: &'t [Token<'a>]) -> Option<Front<'t, 'a>>
    ensures { (names : _) → IsFront names (number_before (tokens_of tokens.now)) result }
{
    let Some((value, rest)) = number_before(tokens) else {
        return None;
    };
    Some(Front {
        term: Term::value(value),
        rest,
    })
}

/// `?`
fn question_front<'t, 'a>(tokens: &'t [Token<'a>]) -> Option<Front<'t, 'a>>
    ensures { (names : _) → IsFront names (question_before (tokens_of tokens.now)) result }
{
    let (first, rest) = tokens.split_first()?;
    if !is_question(first) {
        return None;
    }
    Some(Front {
        term: Term::value(Value::Undefined),
        rest,
    })
}

fn cell_front<'t, 'a>(names: &Names, tokens: &'t [Token<'a>]) -> Option<Front<'t, 'a>>
    ensures { IsFront (names_of names.now) (cell_phrase_before (tokens_of tokens.now)) result }
{
    let (cell, rest) = cell_before(tokens)?;
    Some(Front {
        term: Term::cell(names, &cell),
        rest,
    })
}

/// The values for variables at the front, and the tokens behind them.
fn sets_before<'t, 'a>(
    alloc: Global,
    names: &Names,
    tokens: &'t [Token<'a>],
) -> Result<Option<NamedFront<'t, 'a>>, OutOfMemory>
    ensures { IfOk result (λ front. IsNamedFront (names_of names.now) Kind.Variable
        (sets_before (tokens_of tokens.now)) front) }
{
    let Some((inner, rest)) = sets_block(tokens) else {
        return Ok(Some(NamedFront {
            values: NamedValues::none(alloc),
            rest: tokens,
        }));
    };
    let Some(values) = all_assigned(alloc, names, Kind::Variable, inner)? else {
        return Ok(None);
    };
    Ok(Some(NamedFront { values, rest }))
}

/// A block of values for variables, and the tokens behind it.
fn sets_block<'t, 'a>(tokens: &'t [Token<'a>]) -> Option<(&'t [Token<'a>], &'t [Token<'a>])>
    ensures { option_map
        (λ cut. (all_assigned (codes "$") (tokens_of cut.0.now), tokens_of cut.1.now)) result
        ≡ sets_block (tokens_of tokens.now) }
{
    let (inner, rest) = block(Mark::OpenBrace, Mark::CloseBrace, tokens)?;
    if holds_sets(inner) {
        Some((inner, rest))
    } else {
        None
    }
}

/// The delay at the front: a block, or a number.
fn delay_before<'t, 'a>(
    alloc: Global,
    names: &Names,
    tokens: &'t [Token<'a>],
) -> Result<Option<Front<'t, 'a>>, OutOfMemory>
    ensures { IfOk result (λ front. IsFront (names_of names.now)
        (delay_before (tokens_of tokens.now)) front) }
{
    match phrase_block(alloc, names, tokens)? {
        Some(front) => Ok(Some(front)),
        None => Ok(number_front(tokens)),
    }
}

/// A block of one expression.
fn phrase_block<'t, 'a>(
    alloc: Global,
    names: &Names,
    tokens: &'t [Token<'a>],
) -> Result<Option<Front<'t, 'a>>, OutOfMemory>
    ensures { IfOk result (λ front. IsFront (names_of names.now)
        (phrase_block (tokens_of tokens.now)) front) }
{
    let Some((inner, rest)) = block(Mark::OpenBrace, Mark::CloseBrace, tokens) else {
        return Ok(None);
    };
    let Some(term) = phrase(alloc, names, inner)? else {
        return Ok(None);
    };
    Ok(Some(Front { term, rest }))
}

/// A block of one expression that all tokens are.
fn last_block(
    alloc: Global,
    names: &Names,
    tokens: &[Token<'_>],
) -> Result<Option<Term>, OutOfMemory>
    ensures { IfOk result (λ term. IsTerm (names_of names.now)
        (last_block (tokens_of tokens.now)) term) }
{
    let Some(front) = phrase_block(alloc, names, tokens)? else {
        return Ok(None);
    };
    if !front.rest.is_empty() {
        return Ok(None);
    }
    Ok(Some(front.term))
}
