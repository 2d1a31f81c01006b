// The parts of rules without expressions in them.
ghost use Rattle.std.specs.Prelude.{◌≡◌, ◌<◌, ◌≤◌, ◌∷◌, length, IfSome};
ghost use Rattle.std.specs.List.{position};
ghost use Rattle.std.specs.Option.{option_map};
ghost use Rattle.quantity.specs.Literals.{unsigned_literal};
ghost use Rattle.rule_phrases.specs.Between.{unsigned_before};
ghost use Rattle.rule_words.specs.Descent.{atom_before, opening_before, port_value_before};
ghost use Rattle.rule_words.specs.Descent.{variable_before, word_before};
ghost use Rattle.rule_words.specs.AtomParts.{after_word, behind_this_port, marked_before};
ghost use Rattle.rule_tree.specs.Phrases as P;
ghost use Rattle.rule_tree.specs.Phrases.{looked_up};
ghost use Rattle.rule_words.specs.Reading.{block, cell_before, cell_phrase_before, constants};
ghost use Rattle.rule_words.specs.Reading.{number_before, question_before, word_phrase};
ghost use Rattle.rule_words.specs.Shown.{cell_of, names_of, text_of, token_of, tokens_of};
ghost use Rattle.rule_phrases.specs.Terms.{IsFront, IsTerm};
ghost use Rattle.rule_words.specs.Tokens as T;
ghost use Rattle.rule_words.specs.Tokens.{is_mark};

use crate::front::Front;
use crate::term::Term;
use quantity::{Tri, Value};
use rule_tree::Function;
use rule_words::cell::{WrittenCell, after_mark, place_before, port_before};
use rule_words::names::Names;
use rule_words::table::{count_in, function_in, is_mark};
use rule_words::token::{Mark, Token};

/// The tokens between an opening mark at the front and the first closing one, and those behind it.
pub fn block<'t, 'a>(
    opening: Mark,
    closing: Mark,
    tokens: &'t [Token<'a>],
) -> Option<(&'t [Token<'a>], &'t [Token<'a>])>
    ensures parts { option_map (λ cut. (tokens_of cut.0.now, tokens_of cut.1.now)) result
        ≡ block (text_of opening) (text_of closing) (tokens_of tokens.now) }
    ensures shorter { IfSome result (λ cut. length cut.1.now < length tokens.now) }
{
    let rest = after_mark(opening, tokens)?;
    let at = mark_place(closing, rest)?;
    Some((&rest[..at], &rest[at + 1..]))
}

// The place of the first such mark.
fn mark_place(mark: Mark, tokens: &[Token<'_>]) -> Option<usize>
    ensures place { result ≡ position (λ t. is_mark (text_of mark) (token_of t)) tokens.now }
    ensures within { IfSome result (λ at. at < length tokens.now) }
{
    tokens.iter().position(|token| is_mark(mark, *token))
}

/// A number with an optional sign at the front, and the tokens behind it.
pub fn number_before<'t, 'a>(tokens: &'t [Token<'a>]) -> Option<(Value, &'t [Token<'a>])>
    ensures { option_map (λ c. (P.value c.0, tokens_of c.1.now)) result
        ≡ number_before (tokens_of tokens.now) }
{
    if let Some(behind) = after_mark(Mark::Minus, tokens) {
        let Some((value, rest)) = unsigned_before(behind) else {
            return None;
        };
        return Some((value.neg(), rest));
    }
    match after_mark(Mark::Plus, tokens) {
        Some(behind) => unsigned_before(behind),
        None => unsigned_before(tokens),
    }
}

/// A number without a sign at the front, and the tokens behind it.
fn unsigned_before<'t, 'a>(tokens: &'t [Token<'a>]) -> Option<(Value, &'t [Token<'a>])>
    ensures { option_map (λ cut. (cut.0, tokens_of cut.1.now)) result
        ≡ unsigned_before (tokens_of tokens.now) }
{
    let [Token::Number(text), rest @ ..] = tokens else {
        return None;
    };
    Some((Value::parse_unsigned(text)?, rest))
}

/// A cell at the front, and the tokens behind it.
pub fn cell_before<'t, 'a>(tokens: &'t [Token<'a>]) -> Option<(WrittenCell<'a>, &'t [Token<'a>])>
    ensures cell { option_map (λ cut. (cell_of cut.0, tokens_of cut.1.now)) result
        ≡ cell_before (tokens_of tokens.now) }
    ensures shorter { IfSome result (λ cut. length cut.1.now < length tokens.now) }
{
    let ((row, column, plane), rest) = place_before(tokens)?;
    let (port, rest) = port_before(rest);
    let cell = WrittenCell {
        row,
        column,
        plane,
        port,
    };
    Some((cell, rest))
}

/// A primary without expressions in it at the front, and the tokens behind it.
pub fn atom_before<'t, 'a>(names: &Names, tokens: &'t [Token<'a>]) -> Option<Front<'t, 'a>>
    ensures atom { IsFront (names_of names.now) (atom_before (tokens_of tokens.now)) result }
    ensures shorter { IfSome result (λ front. length front.rest.now < length tokens.now) }
{
    let (first, rest) = tokens.split_first()?;
    match *first {
        Token::Number(text) => number_atom(text, rest),
        Token::Word(word) => word_before(word, rest),
        Token::Mark(_) => mark_before(names, tokens),
    }
}

fn number_atom<'t, 'a>(text: &[u8], rest: &'t [Token<'a>]) -> Option<Front<'t, 'a>>
    ensures atom { (names : _) → IsFront names (option_map
        (λ n. (P.value (Value.Num n), tokens_of rest.now)) (unsigned_literal text.now)) result }
    ensures within { IfSome result (λ front. length front.rest.now ≤ length rest.now) }
{
    let value = Value::parse_unsigned(text)?;
    let term = Term::value(value);
    Some(Front { term, rest })
}

// What a word at the front is, behind which these tokens stand.
fn word_before<'t, 'a>(word: &[u8], rest: &'t [Token<'a>]) -> Option<Front<'t, 'a>>
    ensures atom { (names : _) → IsFront names (word_before word.now (tokens_of rest.now)) result }
    ensures within { IfSome result (λ front. length front.rest.now ≤ length rest.now) }
{
    if let Some(term) = word_phrase(word) {
        return Some(Front { term, rest });
    }
    port_value_before(word, rest)
}

// The constant or the count that a word is.
fn word_phrase(word: &[u8]) -> Option<Term>
    ensures { (names : _) → IsTerm names (word_phrase word.now) result }
{
    if let Some(term) = constant_in(word) {
        return Some(term);
    }
    let count = count_in(word)?;
    Some(Term::counted(count))
}

fn constant_in(word: &[u8]) -> Option<Term>
    ensures { (names : _) → IsTerm names (looked_up constants word.now) result }
{
    if word == b"t".as_slice() {
        Some(Term::truth(Tri::True))
    } else if word == b"f".as_slice() {
        Some(Term::truth(Tri::False))
    } else if word == b"time".as_slice() {
        Some(Term::now())
    } else {
        None
    }
}

fn port_value_before<'t, 'a>(word: &[u8], rest: &'t [Token<'a>]) -> Option<Front<'t, 'a>>
    ensures atom { (names : _) → IsFront names
        (port_value_before (T.word word.now ∷ tokens_of rest.now)) result }
    ensures within { IfSome result (λ front. length front.rest.now ≤ length rest.now) }
{
    if word != b"portvalue".as_slice() {
        return None;
    }
    let rest = behind_this_port(rest)?;
    let term = Term::port_value();
    Some(Front { term, rest })
}

fn behind_this_port<'t, 'a>(tokens: &'t [Token<'a>]) -> Option<&'t [Token<'a>]>
    ensures rest { option_map (λ rest. tokens_of rest.now) result
        ≡ behind_this_port (tokens_of tokens.now) }
    ensures shorter { IfSome result (λ rest. length rest.now < length tokens.now) }
{
    let inner = after_mark(Mark::OpenParenthesis, tokens)?;
    let rest = after_word(b"thisport", inner)?;
    after_mark(Mark::CloseParenthesis, rest)
}

fn after_word<'t, 'a>(word: &[u8], tokens: &'t [Token<'a>]) -> Option<&'t [Token<'a>]>
    ensures rest { option_map (λ rest. tokens_of rest.now) result
        ≡ after_word word.now (tokens_of tokens.now) }
    ensures shorter { IfSome result (λ rest. length rest.now < length tokens.now) }
{
    let [Token::Word(first), rest @ ..] = tokens else {
        return None;
    };
    (*first == word).then_some(rest)
}

// What begins with a mark: `?`, a variable or a cell.
fn mark_before<'t, 'a>(names: &Names, tokens: &'t [Token<'a>]) -> Option<Front<'t, 'a>>
    ensures atom { IsFront (names_of names.now) (marked_before (tokens_of tokens.now)) result }
    ensures shorter { IfSome result (λ front. length front.rest.now < length tokens.now) }
{
    if let Some(front) = question_before(tokens) {
        return Some(front);
    }
    if let Some(front) = variable_before(names, tokens) {
        return Some(front);
    }
    cell_phrase_before(names, tokens)
}

fn question_before<'t, 'a>(tokens: &'t [Token<'a>]) -> Option<Front<'t, 'a>>
    ensures atom { (names : _) → IsFront names (question_before (tokens_of tokens.now)) result }
    ensures shorter { IfSome result (λ front. length front.rest.now < length tokens.now) }
{
    let rest = after_mark(Mark::Question, tokens)?;
    let term = Term::value(Value::Undefined);
    Some(Front { term, rest })
}

fn variable_before<'t, 'a>(names: &Names, tokens: &'t [Token<'a>]) -> Option<Front<'t, 'a>>
    ensures atom { IsFront (names_of names.now) (variable_before (tokens_of tokens.now)) result }
    ensures shorter { IfSome result (λ front. length front.rest.now < length tokens.now) }
{
    let [Token::Mark(Mark::Dollar), Token::Word(word), rest @ ..] = tokens else {
        return None;
    };
    let term = Term::variable(names, word);
    Some(Front { term, rest })
}

fn cell_phrase_before<'t, 'a>(names: &Names, tokens: &'t [Token<'a>]) -> Option<Front<'t, 'a>>
    ensures atom { IsFront (names_of names.now) (cell_phrase_before (tokens_of tokens.now)) result }
    ensures shorter { IfSome result (λ front. length front.rest.now < length tokens.now) }
{
    let (cell, rest) = cell_before(tokens)?;
    let term = Term::cell(names, &cell);
    Some(Front { term, rest })
}

/// An opening parenthesis at the front, behind the name of a function or behind nothing, and the
/// tokens behind it.
pub fn opening_before<'t, 'a>(
    tokens: &'t [Token<'a>],
) -> Option<(Option<Function>, &'t [Token<'a>])>
    ensures opening { option_map (λ cut. (cut.0, tokens_of cut.1.now)) result
        ≡ opening_before (tokens_of tokens.now) }
    ensures shorter { IfSome result (λ cut. length cut.1.now < length tokens.now) }
{
    match tokens {
        [Token::Mark(Mark::OpenParenthesis), rest @ ..] => Some((None, rest)),
        [
            Token::Word(word),
            Token::Mark(Mark::OpenParenthesis),
            rest @ ..,
        ] => { Some((Some(function_in(word)?), rest)) }
        _ => None,
    }
}
