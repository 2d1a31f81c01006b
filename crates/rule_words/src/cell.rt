// Cells as they are written, read piece by piece: a cell is short, so no token is looked at that
// is none of it.
ghost use Rattle.std.specs.Prelude.{◌≡◌, ◌<◌, ◌≤◌, ◌^◌, ◌∷◌, length, pos, unsigned_abs, Some};
ghost use Rattle.std.specs.Prelude.{IfSome};
ghost use Rattle.std.specs.Option.{option_map};
ghost use Rattle.quantity.specs.Digits.{whole_number};
ghost use Rattle.rule_words.specs.AtomParts.{after_mark};
ghost use Rattle.rule_words.specs.CellParts.{digits_before, int_before, next_int};
ghost use Rattle.rule_words.specs.CellParts.{place_before, plane_before};
ghost use Rattle.rule_words.specs.Reading.{port_in};
ghost use Rattle.rule_words.specs.Shown.{plane_of, text_of, tokens_of};

use crate::table::is_mark;
use crate::token::{Mark, Token};
use quantity::digits::whole_number;

/// A neighbour by its written coordinates, and the port that is read there.
#[derive(Clone, Copy)]
pub struct WrittenCell<'a> {
    pub row: i64,
    pub column: i64,
    /// The third coordinate, where there is one.
    pub plane: Option<i64>,
    /// The word behind `~`, or `out`.
    pub port: &'a [u8],
}

/// The tokens behind a mark at the front.
pub fn after_mark<'t, 'a>(mark: Mark, tokens: &'t [Token<'a>]) -> Option<&'t [Token<'a>]>
    ensures rest { option_map (λ rest. tokens_of rest.now) result
        ≡ after_mark (text_of mark) (tokens_of tokens.now) }
    ensures shorter { IfSome result (λ rest. length rest.now < length tokens.now) }
{
    let [first, rest @ ..] = tokens else {
        return None;
    };
    if is_mark(mark, *first) {
        Some(rest)
    } else {
        None
    }
}

/// A whole number of at most ten digits with an optional sign at the front, and the tokens behind
/// it.
fn int_before<'t, 'a>(tokens: &'t [Token<'a>]) -> Option<(i64, &'t [Token<'a>])>
    ensures int { option_map (λ cut. (cut.0, tokens_of cut.1.now)) result
        ≡ int_before (tokens_of tokens.now) }
    ensures shorter { IfSome result (λ cut. length cut.1.now < length tokens.now) }
{
    if let Some(behind) = after_mark(Mark::Minus, tokens) {
        let (number, rest) = digits_before(behind)?;
        return Some((-number, rest));
    }
    match after_mark(Mark::Plus, tokens) {
        Some(behind) => digits_before(behind),
        None => digits_before(tokens),
    }
}

/// A whole number of at most ten digits without a sign at the front, and the tokens behind it.
fn digits_before<'t, 'a>(tokens: &'t [Token<'a>]) -> Option<(i64, &'t [Token<'a>])>
    ensures int { option_map (λ cut. (cut.0, tokens_of cut.1.now)) result
        ≡ digits_before (tokens_of tokens.now) }
    ensures bounded { IfSome result (λ cut. unsigned_abs cut.0 < 10 ^ 10) }
    ensures shorter { IfSome result (λ cut. length cut.1.now < length tokens.now) }
{
    let [Token::Number(text), rest @ ..] = tokens else {
        return None;
    };
    Some((digits(text)?, rest))
}

fn digits(text: &[u8]) -> Option<i64>
    ensures value { result ≡ option_map pos (whole_number 10 text.now) }
    ensures bounded { IfSome result (λ n. unsigned_abs n < 10 ^ 10) }
{
    Some(whole_number(10, text)? as i64)
}

/// A whole number behind a comma at the front, and the tokens behind it.
fn next_int<'t, 'a>(tokens: &'t [Token<'a>]) -> Option<(i64, &'t [Token<'a>])>
    ensures int { option_map (λ cut. (cut.0, tokens_of cut.1.now)) result
        ≡ next_int (tokens_of tokens.now) }
    ensures shorter { IfSome result (λ cut. length cut.1.now < length tokens.now) }
{
    int_before(after_mark(Mark::Comma, tokens)?)
}

/// The third coordinate at the front, where there is one, and the tokens behind the parenthesis
/// that closes.
fn plane_before<'t, 'a>(tokens: &'t [Token<'a>]) -> Option<(Option<i64>, &'t [Token<'a>])>
    ensures plane { option_map (λ cut. (cut.0, tokens_of cut.1.now)) result
        ≡ plane_before (tokens_of tokens.now) }
    ensures shorter { IfSome result (λ cut. length cut.1.now < length tokens.now) }
{
    if let Some(rest) = after_mark(Mark::CloseParenthesis, tokens) {
        return Some((None, rest));
    }
    let (plane, rest) = next_int(tokens)?;
    Some((Some(plane), after_mark(Mark::CloseParenthesis, rest)?))
}

/// The coordinates of a cell in parentheses at the front, and the tokens behind them.
pub fn place_before<'t, 'a>(
    tokens: &'t [Token<'a>],
) -> Option<((i64, i64, Option<i64>), &'t [Token<'a>])>
    ensures place { option_map
        (λ cut. (cut.0.0 ∷ cut.0.1 ∷ plane_of cut.0.2, tokens_of cut.1.now)) result
        ≡ place_before (tokens_of tokens.now) }
    ensures shorter { IfSome result (λ cut. length cut.1.now < length tokens.now) }
{
    let inner = after_mark(Mark::OpenParenthesis, tokens)?;
    let (row, rest) = int_before(inner)?;
    let (column, rest) = next_int(rest)?;
    let (plane, rest) = plane_before(rest)?;
    Some(((row, column, plane), rest))
}

/// The port that is named at the front, or `out`, and the tokens behind it.
pub fn port_before<'t, 'a>(tokens: &'t [Token<'a>]) -> (&'a [u8], &'t [Token<'a>])
    ensures port { Some (result.0.now, tokens_of result.1.now) ≡ port_in (tokens_of tokens.now) }
    ensures within { length result.1.now ≤ length tokens.now }
{
    match tokens {
        [Token::Mark(Mark::Tilde), Token::Word(word), rest @ ..] => (word, rest),
        _ => (b"out", tokens),
    }
}
