// The tokens of a rule's text, and what is tested of them at once.
ghost use Rattle.std.specs.Prelude.{◌≡◌, ◌+◌, ◌^◌, ◌<◌, ◌≤◌, [], ◌∷◌, ◌++◌, IfOk};
ghost use Rattle.std.specs.Bool.{then_some};
ghost use Rattle.std.specs.Option.{option_map};
ghost use Rattle.quantity.specs.Bytes.{is_among, is_blank};
ghost use Rattle.quantity.specs.Literals.{is_unsigned_literal};
ghost use Rattle.rule_words.specs.RuleOf.{words_refused};
ghost use Rattle.rule_words.specs.Shown.{token_of, tokens_of};
ghost use Rattle.rule_words.specs.TokenSteps.{names_next, run_tokens};
ghost use Rattle.rule_words.specs.Tokens.{deepest, is_large, mark, marks, number_token};
ghost use Rattle.rule_words.specs.Tokens.{parentheses_after, tokens, tokens_in, words_after};
ghost use Rattle.rule_words.specs.Tokens.{words_in};

use crate::piece::{first_piece, is_of_run, word_length};
use crate::refusal::RuleRefusal;
use crate::token::{Mark, Token};
use crate::word::word_refused;
use quantity::{OutOfMemory, Value};
use std::alloc::{AllocError, Global};

/// The tokens of a text, in order; None where a piece is no token.
pub fn tokens(alloc: Global, text: &[u8]) -> Result<Option<Vec<Token<'_>>>, OutOfMemory>
    ensures { IfOk result (λ found. option_map (λ list. tokens_of list.items) found
        ≡ tokens text.now) }
{
    let mut found = Vec::new(alloc);
    let mut rest = text;
    while let Some((piece, behind)) = first_piece(rest) {
        if !put_tokens(piece, &mut found)? {
            return Ok(None);
        }
        rest = behind;
    }
    Ok(Some(found))
}

/// Appends the tokens in a piece; false where it holds something else.
fn put_tokens<'a>(piece: &'a [u8], into: &mut Vec<Token<'a>>) -> Result<bool, OutOfMemory>
    ensures { IfOk result (λ known.
        option_map (λ ts. tokens_of into.old.items ++ ts) (tokens_in piece.now)
        ≡ then_some known (tokens_of into.new.items)) }
{
    let [first, ..] = piece else {
        return Ok(true);
    };
    if is_blank(*first) {
        Ok(true)
    } else if first.is_ascii_alphabetic() {
        put_word(piece, into)
    } else if is_of_run(*first) {
        put_token(number_token(piece), into)
    } else {
        put_token(mark_token(piece), into)
    }
}

/// Appends a word, and the number that begins with a point behind it; false where something else
/// is there.
fn put_word<'a>(run: &'a [u8], into: &mut Vec<Token<'a>>) -> Result<bool, OutOfMemory>
    ensures { IfOk result (λ known.
        option_map (λ ts. tokens_of into.old.items ++ ts) (run_tokens run.now)
        ≡ then_some known (tokens_of into.new.items)) }
{
    let (word, rest) = run.split_at(word_length(run));
    into.push(Token::Word(word)).map_err(AllocError::from)?;
    if rest.is_empty() {
        return Ok(true);
    }
    put_token(number_token(rest), into)
}

/// Appends the token; false where there is none.
fn put_token<'a>(token: Option<Token<'a>>, into: &mut Vec<Token<'a>>) -> Result<bool, OutOfMemory>
    ensures { IfOk result (λ known.
        option_map (λ t. tokens_of into.old.items ++ token_of t ∷ []) token.entry
        ≡ then_some known (tokens_of into.new.items)) }
{
    let Some(token) = token else {
        return Ok(false);
    };
    into.push(token).map_err(AllocError::from)?;
    Ok(true)
}

/// The number that a text is.
fn number_token(text: &[u8]) -> Option<Token<'_>>
    ensures { option_map (λ t. token_of t ∷ []) result ≡ number_token text.now }
{
    if is_unsigned_literal(text) {
        Some(Token::Number(text))
    } else {
        None
    }
}

fn is_unsigned_literal(text: &[u8]) -> bool
    ensures { result ≡ is_unsigned_literal text.now }
{
    Value::parse_unsigned(text).is_some()
}

/// The mark that a text is.
fn mark_token(text: &[u8]) -> Option<Token<'_>>
    ensures { option_map (λ t. token_of t) result
        ≡ then_some (is_among marks text.now) (mark text.now) }
{
    Some(Token::Mark(Mark::read(text)?))
}

fn is_blank(byte: u8) -> bool
    ensures { result ≡ is_blank byte }
{
    byte == b' ' || byte == b'\t'
}

/// The refusal of the first word that is none of the language, among those that stand behind no
/// `$` or `~`.
pub fn words_refused(tokens: &[Token<'_>]) -> Option<RuleRefusal>
    ensures { result ≡ words_refused (words_in (tokens_of tokens.now)) }
{
    let mut named = false;
    for token in tokens {
        if let Some(refusal) = refused_at(named, token) {
            return Some(refusal);
        }
        named = is_sigil(token);
    }
    None
}

/// The refusal of one token; a word that names something is none.
fn refused_at(named: bool, token: &Token<'_>) -> Option<RuleRefusal>
    ensures { result ≡ words_refused (words_after named (token_of token.now ∷ [])) }
{
    match token {
        Token::Word(word) if !named => word_refused(word),
        _ => None,
    }
}

/// Whether the word behind this token names something.
fn is_sigil(token: &Token<'_>) -> bool
    ensures { result ≡ names_next (token_of token.now) }
{
    matches!(token, Token::Mark(Mark::Dollar | Mark::Tilde))
}

/// The most tokens that a rule may have.
pub const MAX_TOKENS: usize = 4096;

/// The most parentheses that may be open at once in a rule, so that reading one never goes deep.
pub const MAX_OPEN_PARENTHESES: usize = 64;

/// Whether there are more tokens than `MAX_TOKENS`, or more than `MAX_OPEN_PARENTHESES` are open at
/// once.
pub fn is_large(tokens: &[Token<'_>]) -> bool
    ensures { result ≡ is_large (tokens_of tokens.now) }
{
    tokens.len() > MAX_TOKENS || most_open(tokens) > MAX_OPEN_PARENTHESES
}

/// The most parentheses that are open at once.
fn most_open(tokens: &[Token<'_>]) -> usize
    ensures { result ≡ deepest 0 (tokens_of tokens.now) }
{
    let mut opened = 0;
    let mut most = 0;
    for token in tokens {
        opened = open_after(opened, token);
        most = most.max(opened);
    }
    most
}

/// The parentheses that are open behind a token, where so many are open before it.
fn open_after(opened: usize, token: &Token<'_>) -> usize
    requires { opened + 1 < 2 ^ 64 }
    ensures value { result ≡ parentheses_after opened (token_of token.now) }
    ensures bound { result ≤ opened + 1 }
{
    match token {
        Token::Mark(Mark::OpenParenthesis) => opened + 1,
        Token::Mark(Mark::CloseParenthesis) => opened.saturating_sub(1),
        _ => opened,
    }
}
