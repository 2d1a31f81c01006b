// What the values of entries say, each read once by the form of its key.
ghost use Rattle.std.specs.Prelude.{◌≡◌, ◌≤◌, map, IfOk};
ghost use Rattle.std.specs.List.{filter_map, list_all};
ghost use Rattle.std.specs.Option.{option_map};
ghost use Rattle.quantity.specs.Bytes.{words};
ghost use Rattle.quantity.specs.Digits.{whole_number};
ghost use Rattle.quantity.specs.Literals.{value_in};
ghost use Rattle.source_text.specs.Shown.{named_of, numbers_of, texts};
ghost use Rattle.source_text.specs.Tuples as T;
ghost use Rattle.model_text.specs.Forms as F;
ghost use Rattle.model_walk.specs.PortRule.{port_rule_of};
ghost use Rattle.model_walk.specs.ReadValues as spec;

use crate::link::link_text;
use crate::port_rule::{PortRuleText, port_rule_text};
use crate::tuples::tuples_of;
use model_text::key::Form;
use quantity::digits::whole_number;
use quantity::{OutOfMemory, Value};
use source_text::tuples::tuple;
use source_text::words::{next_word, words};
use source_text::{NamedTuple, Tuple};
use std::alloc::{AllocError, Global};

/// The words that are values of cells, and whether all words are.
#[derive(Drop)]
pub struct ReadValues {
    pub values: Vec<Value>,
    pub are_all: bool,
}

/// What the value of an entry says.
#[derive(Drop)]
pub enum ReadValue<'a> {
    /// Its text: the form of the key asks for no more, or there is nothing else to be read in it.
    Text,
    Number(u64),
    Tuple(Tuple),
    /// Tuples, each behind the group's name or behind nothing.
    Tuples(Vec<NamedTuple<'a>>),
    Value(Value),
    PortRule(PortRuleText<'a>),
    Words(Vec<&'a [u8]>),
    Values(ReadValues),
    /// The text of a link, whose words are the ends.
    Ends(Vec<u8>),
}

impl<'a> ReadValue<'a> {
    /// Reads a text by a form, in the section of this name.
    pub(crate) fn read(
        alloc: Global,
        name: &[u8],
        form: Form,
        text: &'a [u8],
    ) -> Result<ReadValue<'a>, OutOfMemory>
        ensures { IfOk result (spec.IsReadBy name.now form text.now) }
    {
        match form {
            Form::Any | Form::DelayKind | Form::Border | Form::FileName | Form::Name => {
                Ok(ReadValue::Text)
            }
            Form::Size => Ok(number(7, text)),
            Form::DelayTime => Ok(number(9, text)),
            Form::Sizes => Ok(numbers(text)),
            Form::Tuples => tuples(alloc, name, text),
            Form::Value => Ok(value(text)),
            Form::PortRule => Ok(port_rule(name, text)),
            Form::Names | Form::Variables | Form::Ports => {
                Ok(ReadValue::Words(words(alloc, text)?))
            }
            Form::VariableValues | Form::PortValues => {
                Ok(ReadValue::Values(values(alloc, text)?))
            }
            Form::Link => Ok(ReadValue::Ends(link_text(alloc, text)?)),
        }
    }

    pub fn number(&self) -> Option<u64>
        ensures { result ≡ spec.number_in self.now }
    {
        match self {
            ReadValue::Number(number) => Some(*number),
            _ => None,
        }
    }

    pub fn tuple(&self) -> Option<Tuple>
        ensures { option_map numbers_of result ≡ spec.numbers_in self.now }
    {
        match self {
            ReadValue::Tuple(tuple) => Some(*tuple),
            _ => None,
        }
    }

    /// Tuples, each behind the group's name or behind nothing.
    pub fn tuples(&self) -> Option<&[NamedTuple<'a>]>
        ensures { option_map (λ r. map named_of r.now) result ≡ spec.tuples_in self.now }
    {
        match self {
            ReadValue::Tuples(tuples) => Some(tuples),
            _ => None,
        }
    }

    pub fn value(&self) -> Option<Value>
        ensures { result ≡ spec.value_in self.now }
    {
        match self {
            ReadValue::Value(value) => Some(*value),
            _ => None,
        }
    }

    pub fn port_rule(&self) -> Option<PortRuleText<'a>>
        ensures { option_map port_rule_of result ≡ spec.port_rule_in self.now }
    {
        match self {
            ReadValue::PortRule(rule) => Some(*rule),
            _ => None,
        }
    }

    /// The words, where the form asks for words.
    pub fn words(&self) -> &[&'a [u8]]
        ensures { texts result.now ≡ spec.words_in self.now }
    {
        match self {
            ReadValue::Words(words) => words,
            _ => &[],
        }
    }

    /// The words that are values of cells, where the form asks for them.
    pub fn values(&self) -> &[Value]
        ensures { result.now ≡ spec.values_in self.now }
    {
        match self {
            ReadValue::Values(read) => &read.values,
            _ => &[],
        }
    }

    /// Whether these are all words, where the form asks for values.
    pub fn are_values(&self) -> bool
        ensures { result ≡ spec.are_values_in self.now }
    {
        match self {
            ReadValue::Values(read) => read.are_all,
            _ => false,
        }
    }

    /// A text whose words are the ends of a link.
    pub fn ends(&self) -> &[u8]
        ensures { words result.now ≡ spec.ends_in self.now }
    {
        match self {
            ReadValue::Ends(ends) => ends,
            _ => &[],
        }
    }
}

fn number<'a>(most: usize, text: &[u8]) -> ReadValue<'a>
    requires { most ≤ 9 }
    ensures { spec.number_in result ≡ whole_number most text.now }
{
    match whole_number(most, text) {
        None => ReadValue::Text,
        Some(number) => ReadValue::Number(number),
    }
}

fn numbers<'a>(text: &[u8]) -> ReadValue<'a>
    ensures { spec.numbers_in result ≡ T.tuple text.now }
{
    match tuple(text) {
        None => ReadValue::Text,
        Some(tuple) => ReadValue::Tuple(tuple),
    }
}

fn tuples<'a>(alloc: Global, name: &[u8], text: &'a [u8]) -> Result<ReadValue<'a>, OutOfMemory>
    ensures { IfOk result (λ read. spec.tuples_in read ≡ F.tuples_of name.now text.now) }
{
    match tuples_of(alloc, name, text)? {
        None => Ok(ReadValue::Text),
        Some(tuples) => Ok(ReadValue::Tuples(tuples)),
    }
}

fn value<'a>(text: &[u8]) -> ReadValue<'a>
    ensures { spec.value_in result ≡ value_in text.now }
{
    match Value::parse(text) {
        None => ReadValue::Text,
        Some(value) => ReadValue::Value(value),
    }
}

fn port_rule<'a>(name: &[u8], text: &'a [u8]) -> ReadValue<'a>
    ensures { spec.port_rule_in result ≡ F.port_rule_text name.now text.now }
{
    match port_rule_text(name, text) {
        None => ReadValue::Text,
        Some(rule) => ReadValue::PortRule(rule),
    }
}

/// The words that are values, and whether all are.
#[tactic(auto, using(crate::proofs::Words::value_more))]
fn values(alloc: Global, text: &[u8]) -> Result<ReadValues, OutOfMemory>
    ensures values { IfOk result (λ read. read.values.items ≡ filter_map value_in (words text.now)) }
    ensures all { IfOk result (λ read. read.are_all ≡ list_all F.is_value_text (words text.now)) }
{
    let mut values = Vec::new(alloc);
    let mut are_all = true;
    let mut rest = text;
    while let Some((word, behind)) = next_word(rest) {
        rest = behind;
        let Some(value) = Value::parse(word) else {
            are_all = false;
            continue;
        };
        values.push(value).map_err(AllocError::from)?;
    }
    Ok(ReadValues { values, are_all })
}
