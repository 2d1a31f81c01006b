// Values for ports and variables, from their tokens.
ghost use Rattle.std.specs.Prelude.{◌≡◌, codes, map, IfOk};
ghost use Rattle.std.specs.List.{slice_split};
ghost use Rattle.std.specs.Option.{option_map};
ghost use Rattle.std.specs.Str.{bytes_eq};
ghost use Rattle.quantity.specs.Bytes.{all_there};
ghost use Rattle.rule_words.specs.Reading.{all_assigned, assignment_in, block_begins, ended_parts};
ghost use Rattle.rule_syntax.specs.RulesRead.{AreValues, IsAdded, holds_sets, mark_for};
ghost use Rattle.rule_syntax.specs.RulesRead.{shown_parts, some_parts, word_before};
ghost use Rattle.rule_words.specs.Shown.{names_of, text_of, token_of, tokens_of};
ghost use Rattle.rule_words.specs.Tokens.{is_mark};

use crate::named::{Kind, NamedValues};
use quantity::OutOfMemory;
use rule_phrases::phrase::phrase;
use rule_words::names::Names;
use rule_words::table::same_mark;
use rule_words::token::{Mark, Token};
use std::alloc::{AllocError, Global};

/// Values at the front of tokens, and the tokens behind them.
#[derive(Drop)]
pub(crate) struct NamedFront<'t, 'a> {
    pub values: NamedValues<'a>,
    pub rest: &'t [Token<'a>],
}

/// The values that all tokens are, each with its mark, its word and `:=` in front and a semicolon
/// behind. None where they are none, and where there are no tokens.
pub(crate) fn all_assigned<'a>(
    alloc: Global,
    names: &Names,
    kind: Kind,
    tokens: &[Token<'a>],
) -> Result<Option<NamedValues<'a>>, OutOfMemory>
    ensures { IfOk result (λ values. AreValues (names_of names.now) kind
        (all_assigned (mark_for kind) (tokens_of tokens.now)) values) }
{
    let parts = parts(alloc, tokens)?;
    match ended_parts(&parts) {
        Some(parts) => assign_all(alloc, names, kind, parts),
        None => Ok(None),
    }
}

/// What stands between semicolons.
fn parts<'t, 'a>(alloc: Global, tokens: &'t [Token<'a>]) -> Result<Vec<&'t [Token<'a>]>, AllocError>
    ensures { IfOk result (λ parts. shown_parts parts.items
        ≡ slice_split (is_mark (codes ";")) (tokens_of tokens.now)) }
{
    tokens.split(|token| is_semicolon(token)).collect(alloc)
}

/// The parts that a semicolon ends, where there are any and nothing stands behind the last
/// semicolon.
fn ended_parts<'p, 't, 'a>(parts: &'p [&'t [Token<'a>]]) -> Option<&'p [&'t [Token<'a>]]>
    ensures { option_map (λ p. shown_parts p.now) result
        ≡ some_parts (ended_parts (shown_parts parts.now)) }
{
    let (left, ended) = parts.split_last()?;
    if !left.is_empty() {
        return None;
    }
    if ended.is_empty() {
        return None;
    }
    Some(ended)
}

/// The values that these parts are; None where a part is none.
fn assign_all<'a>(
    alloc: Global,
    names: &Names,
    kind: Kind,
    parts: &[&[Token<'a>]],
) -> Result<Option<NamedValues<'a>>, OutOfMemory>
    ensures { IfOk result (λ values. AreValues (names_of names.now) kind
        (all_there (map (assignment_in (mark_for kind)) (shown_parts parts.now))) values) }
{
    let mut values = NamedValues::none(alloc);
    for part in parts {
        if !assign(alloc, &mut values, names, kind, part)? {
            return Ok(None);
        }
    }
    Ok(Some(values))
}

/// Puts the value that all tokens are behind the others; false where they are none.
fn assign<'a>(
    alloc: Global,
    values: &mut NamedValues<'a>,
    names: &Names,
    kind: Kind,
    tokens: &[Token<'a>],
) -> Result<bool, OutOfMemory>
    ensures { IfOk result (λ is. IsAdded (names_of names.now) kind
        (assignment_in (mark_for kind) (tokens_of tokens.now)) values.old values.new is) }
{
    let Some((word, behind)) = word_before(kind, tokens) else {
        return Ok(false);
    };
    let Some(term) = phrase(alloc, names, behind)? else {
        return Ok(false);
    };
    values.add(names, kind, word, term)?;
    Ok(true)
}

fn is_semicolon(token: &Token<'_>) -> bool
    ensures { result ≡ is_mark (codes ";") (token_of token.now) }
{
    matches!(token, Token::Mark(Mark::Semicolon))
}

/// The word at the front of a value for a port or a variable, behind its mark and before `:=`, and
/// the tokens behind.
fn word_before<'t, 'a>(kind: Kind, tokens: &'t [Token<'a>]) -> Option<(&'a [u8], &'t [Token<'a>])>
    ensures { option_map (λ cut. (cut.0.now, tokens_of cut.1.now)) result
        ≡ word_before (mark_for kind) (tokens_of tokens.now) }
{
    match tokens {
        [
            Token::Mark(mark),
            Token::Word(word),
            Token::Mark(becomes),
            rest @ ..,
        ] => {
            if kind.is_marked(*mark) && is_becomes(*becomes) {
                Some((word, rest))
            } else {
                None
            }
        }
        _ => None,
    }
}

/// Whether a token is the mark `?`.
pub(crate) fn is_question(token: &Token<'_>) -> bool
    ensures { result ≡ is_mark (codes "?") (token_of token.now) }
{
    matches!(token, Token::Mark(Mark::Question))
}

fn is_becomes(mark: Mark) -> bool
    ensures { result ≡ bytes_eq (text_of mark) (codes ":=") }
{
    same_mark(mark, Mark::Becomes)
}

/// Whether a value for a port stands at the front.
pub(crate) fn begins_with_tilde(tokens: &[Token<'_>]) -> bool
    ensures { result ≡ block_begins (codes "~") (tokens_of tokens.now) }
{
    match tokens {
        [Token::Mark(mark), ..] => Kind::Port.is_marked(*mark),
        _ => false,
    }
}

/// Whether the third token is `:=`.
pub(crate) fn holds_sets(tokens: &[Token<'_>]) -> bool
    ensures { result ≡ holds_sets (tokens_of tokens.now) }
{
    match tokens {
        [_, _, Token::Mark(mark), ..] => is_becomes(*mark),
        _ => false,
    }
}
