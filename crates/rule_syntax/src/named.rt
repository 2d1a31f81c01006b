// Values for ports and variables, with numbers in the place of names.
ghost use Rattle.std.specs.Prelude.{◌≡◌, [], ◌∷◌, map, IfOk, OnOk};
ghost use Rattle.std.specs.List.{list_any};
ghost use Rattle.std.specs.Str.{bytes_eq};
ghost use Rattle.quantity.specs.Bytes.{has_repeat};
ghost use Rattle.rule_words.specs.Reading.{assigned_at_out};
ghost use Rattle.rule_tree.specs.Phrases.{Phrase};
ghost use Rattle.rule_syntax.specs.RulesRead.{AreNamed, give_of, mark_for, named_for, number_for};
ghost use Rattle.rule_syntax.specs.RulesRead.{set_of, words_of, PutsNamed};
ghost use Rattle.rule_words.specs.Shown.{names_of, text_of};
ghost use Rattle.rule_tree.specs.Sound.{is_sort};
ghost use Rattle.rule_phrases.specs.Terms.{Misses, StandsForPhrase};
ghost use Rattle.rule_syntax.specs.declared.named.NamedValue.{NamedValue as AnyValue};

use quantity::OutOfMemory;
use rule_phrases::scope::{port_number, variable_number};
use rule_phrases::term::{Lacks, Term};
use rule_tree::{Give, Node, SetVariable, Sort};
use rule_words::names::Names;
use rule_words::table::same_mark;
use rule_words::token::Mark;
use std::alloc::{AllocError, Global};

/// What a value is for.
#[derive(Clone, Copy)]
pub(crate) enum Kind {
    Port,
    Variable,
}

impl Kind {
    /// Whether this mark stands in front of the word.
    pub(crate) fn is_marked(self, mark: Mark) -> bool
        ensures { result ≡ bytes_eq (text_of mark) (mark_for self) }
    {
        match self {
            Kind::Port => same_mark(mark, Mark::Tilde),
            Kind::Variable => same_mark(mark, Mark::Dollar),
        }
    }

    /// The number of the port or the variable; 0 where the group has none of this word.
    fn number(self, names: &Names, word: &[u8]) -> u8
        ensures { result ≡ number_for (names_of names.now) self word.now }
    {
        match self {
            Kind::Port => port_number(names, word).unwrap_or(0),
            Kind::Variable => variable_number(names, word).unwrap_or(0),
        }
    }

    /// Whether the group lacks this port or variable.
    fn lacks(self, names: &Names, word: &[u8]) -> Lacks
        ensures { Misses (names_of names.now) result (named_for self word.now ∷ []) }
    {
        match self {
            Kind::Port => Lacks::of_port(names, word),
            Kind::Variable => Lacks::of_variable(names, word),
        }
    }
}

/// A value for a port or a variable of this word.
#[derive(Drop)]
pub(crate) struct NamedValue<'a> {
    pub word: &'a [u8],
    /// The port's or variable's number, or 0 where the group has none of this word.
    pub number: u8,
    pub value: Node,
}

/// Values for ports, or for variables, and what they are judged by.
#[derive(Drop)]
pub(crate) struct NamedValues<'a> {
    pub list: Vec<NamedValue<'a>>,
    pub lacks: Lacks,
    pub are_numbers: bool,
}

impl<'a> NamedValues<'a> {
    /// No values.
    pub(crate) fn none(alloc: Global) -> NamedValues<'a>
        ensures { (names kind : _) → AreNamed names kind result [] }
    {
        NamedValues {
            list: Vec::new(alloc),
            lacks: Lacks::nothing(),
            are_numbers: true,
        }
    }

    /// One value for the port `out`.
    pub(crate) fn at_out(
        alloc: Global,
        names: &Names,
        term: Term,
    ) -> Result<NamedValues<'a>, OutOfMemory>
        ensures { IfOk result (λ values. (x : Phrase) → StandsForPhrase (names_of names.now) term x
            → AreNamed (names_of names.now) Kind.Port values (assigned_at_out x)) }
    {
        let mut values = NamedValues::none(alloc);
        values.add(names, Kind::Port, b"out".as_slice(), term)?;
        Ok(values)
    }

    /// Puts a value behind the others.
    pub(crate) fn add(
        &mut self,
        names: &Names,
        kind: Kind,
        word: &'a [u8],
        term: Term,
    ) -> Result<(), OutOfMemory>
        ensures { OnOk result
            (PutsNamed (names_of names.now) kind word.now term self.old self.new) }
    {
        self.are_numbers &= is_number(&term);
        self.lacks = self.lacks.and(kind.lacks(names, word)).and(term.lacks);
        let value = NamedValue {
            word,
            number: kind.number(names, word),
            value: term.node,
        };
        self.list.push(value).map_err(AllocError::from)?;
        Ok(())
    }
}

/// Whether a term gives a value, and no truth value.
pub(crate) fn is_number(term: &Term) -> bool
    ensures { result ≡ is_sort Sort.Number term.now.sort }
{
    matches!(term.sort, Some(Sort::Number))
}

/// Whether a term gives a truth value.
pub(crate) fn is_truth(term: &Term) -> bool
    ensures { result ≡ is_sort Sort.Truth term.now.sort }
{
    matches!(term.sort, Some(Sort::Truth))
}

/// Whether a word stands twice.
// It recurs once for each value, and a value takes at least five of a rule's 4096 tokens.
pub(crate) fn has_repeat(values: &[NamedValue<'_>]) -> bool
    ensures { result ≡ has_repeat (words_of values.now) }
{
    let Some((first, rest)) = values.split_first() else {
        return false;
    };
    is_among(rest, first.word) || has_repeat(rest)
}

fn is_among(values: &[NamedValue<'_>], word: &[u8]) -> bool
    ensures { result
        ≡ list_any (λ (value : AnyValue). bytes_eq word.now value.word.now) values.now }
{
    values.iter().any(|value| word == value.word)
}

/// The values for ports, without their words.
pub(crate) fn gives(alloc: Global, values: Vec<NamedValue<'_>>) -> Result<Vec<Give>, OutOfMemory>
    ensures { IfOk result (λ gives. gives.items ≡ map give_of values.entry.items) }
{
    let mut gives = Vec::new(alloc);
    for value in values {
        let give = Give {
            port: value.number,
            value: value.value,
        };
        gives.push(give).map_err(AllocError::from)?;
    }
    Ok(gives)
}

/// The values for variables, without their words.
pub(crate) fn sets(
    alloc: Global,
    values: Vec<NamedValue<'_>>,
) -> Result<Vec<SetVariable>, OutOfMemory>
    ensures { IfOk result (λ sets. sets.items ≡ map set_of values.entry.items) }
{
    let mut sets = Vec::new(alloc);
    for value in values {
        let set = SetVariable {
            variable: value.number,
            value: value.value,
        };
        sets.push(set).map_err(AllocError::from)?;
    }
    Ok(sets)
}
