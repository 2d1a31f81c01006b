// What stands at the front of tokens.
use crate::term::Term;
use rule_words::token::Token;

/// An expression at the front of tokens, and the tokens behind it.
#[derive(Drop)]
pub struct Front<'t, 'a> {
    pub term: Term,
    pub rest: &'t [Token<'a>],
}
