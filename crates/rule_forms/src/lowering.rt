// The forms that stand for the trees of rules.
ghost use Rattle.std.specs.Prelude.{◌≡◌, ◌∷◌, ◌++◌, [], IfOk, IfSome, OnOk, map};
ghost use Rattle.rule_tree.specs.Expression as E;
ghost use Rattle.rule_tree.specs.InCode.{expr_of};
ghost use Rattle.rule_tree.specs.Meaning.{whole};
ghost use Rattle.rule_forms.specs.Forms.{expr_of_form, expr_of_plain, expr_of_test};

use crate::forms::{Form, PlainTest, PortAt, Test};
use crate::whole_numbers::whole_number;
use quantity::{Compare, OutOfMemory, Value};
use rule_tree::{Binary, Count, Node, Unary};
use std::alloc::{AllocError, Global};

/// The form that stands for an expression.
#[cycle(form)]
pub(crate) fn form_of(alloc: Global, node: &Node) -> Result<Form, OutOfMemory>
    ensures { IfOk result (λ form. expr_of_form form ≡ expr_of node.now) }
{
    match node {
        Node::Number(value) => Ok(Form::Number(*value)),
        Node::Truth(truth) => Ok(Form::Test(Test::Plain(PlainTest::Truth(*truth)))),
        Node::Neighbour(k, port) => Ok(Form::Neighbour(*k, *port)),
        Node::Variable(k) => Ok(Form::Variable(*k)),
        Node::Now => Ok(Form::Now),
        Node::PortValue => Ok(Form::PortValue),
        Node::Counted(count) => Ok(Form::Counted(*count)),
        Node::One(operator, operand) => {
            let operand = form_of(alloc, operand)?;
            one(alloc, *operator, operand)
        }
        Node::Two(operator, left, right) => {
            let left = form_of(alloc, left)?;
            form_behind(alloc, right, *operator, left)
        }
        Node::Call(function, nodes) => {
            let arguments = forms_of(alloc, nodes)?;
            Ok(Form::Call(*function, arguments))
        }
    }
}

/// The form of an operator between a left operand, as a form, and a right one.
#[cycle(form)]
fn form_behind(
    alloc: Global,
    right: &Node,
    operator: Binary,
    left: Form,
) -> Result<Form, OutOfMemory>
    ensures { IfOk result (λ form. expr_of_form form
        ≡ E.two operator (expr_of_form left) (expr_of right.now)) }
{
    let right = form_of(alloc, right)?;
    two(alloc, operator, left, right)
}

#[cycle(form)]
fn forms_of(alloc: Global, nodes: &[Node]) -> Result<Vec<Form>, OutOfMemory>
    ensures { IfOk result (λ forms. map expr_of_form forms.items ≡ map expr_of nodes.now) }
{
    let mut forms = Vec::new(alloc);
    for node in nodes {
        let form = form_of(alloc, node)?;
        forms.push(form).map_err(AllocError::from)?;
    }
    Ok(forms)
}

fn one(alloc: Global, operator: Unary, operand: Form) -> Result<Form, OutOfMemory>
    ensures { IfOk result (λ form. expr_of_form form ≡ E.one operator (expr_of_form operand)) }
{
    match operator {
        Unary::Not => negated(alloc, operand),
        Unary::Plus | Unary::Minus => one_of(alloc, operator, operand),
    }
}

fn negated(alloc: Global, operand: Form) -> Result<Form, OutOfMemory>
    ensures { IfOk result (λ form. expr_of_form form ≡ E.one Unary.Not (expr_of_form operand)) }
{
    match operand {
        Form::Test(test) => {
            let test = Box::new(alloc, test).map_err(AllocError::from)?;
            Ok(Form::Test(Test::Not(test)))
        }
        operand => one_of(alloc, Unary::Not, operand),
    }
}

fn one_of(alloc: Global, operator: Unary, operand: Form) -> Result<Form, OutOfMemory>
    ensures { IfOk result (λ form. expr_of_form form ≡ E.one operator (expr_of_form operand)) }
{
    let operand = Box::new(alloc, operand).map_err(AllocError::from)?;
    Ok(Form::One(operator, operand))
}

fn two(alloc: Global, operator: Binary, left: Form, right: Form) -> Result<Form, OutOfMemory>
    ensures { IfOk result (λ form. expr_of_form form
        ≡ E.two operator (expr_of_form left) (expr_of_form right)) }
{
    match operator {
        Binary::And => both(alloc, left, right),
        Binary::Or => either(alloc, left, right),
        Binary::Cmp(how) => compared(alloc, how, left, right),
        Binary::Add => added(alloc, left, right),
        operator => two_of(alloc, operator, left, right),
    }
}

fn both(alloc: Global, left: Form, right: Form) -> Result<Form, OutOfMemory>
    ensures { IfOk result (λ form. expr_of_form form
        ≡ E.two Binary.And (expr_of_form left) (expr_of_form right)) }
{
    match (left, right) {
        (Form::Test(left), Form::Test(right)) => {
            let test = both_tests(alloc, left, right)?;
            Ok(Form::Test(test))
        }
        (left, right) => two_of(alloc, Binary::And, left, right),
    }
}

fn both_tests(alloc: Global, left: Test, right: Test) -> Result<Test, OutOfMemory>
    ensures { IfOk result (λ test. expr_of_test test
        ≡ E.two Binary.And (expr_of_test left) (expr_of_test right)) }
{
    let right = Box::new(alloc, right).map_err(AllocError::from)?;
    match left {
        Test::Plain(left) => Ok(Test::PlainBoth(left, right)),
        left => {
            let left = Box::new(alloc, left).map_err(AllocError::from)?;
            Ok(Test::Both(left, right))
        }
    }
}

fn either(alloc: Global, left: Form, right: Form) -> Result<Form, OutOfMemory>
    ensures { IfOk result (λ form. expr_of_form form
        ≡ E.two Binary.Or (expr_of_form left) (expr_of_form right)) }
{
    match (left, right) {
        (Form::Test(left), Form::Test(right)) => {
            let test = either_tests(alloc, left, right)?;
            Ok(Form::Test(test))
        }
        (left, right) => two_of(alloc, Binary::Or, left, right),
    }
}

fn either_tests(alloc: Global, left: Test, right: Test) -> Result<Test, OutOfMemory>
    ensures { IfOk result (λ test. expr_of_test test
        ≡ E.two Binary.Or (expr_of_test left) (expr_of_test right)) }
{
    let right = Box::new(alloc, right).map_err(AllocError::from)?;
    match left {
        Test::Plain(left) => Ok(Test::PlainEither(left, right)),
        left => {
            let left = Box::new(alloc, left).map_err(AllocError::from)?;
            Ok(Test::Either(left, right))
        }
    }
}

fn compared(alloc: Global, how: Compare, left: Form, right: Form) -> Result<Form, OutOfMemory>
    ensures { IfOk result (λ form. expr_of_form form
        ≡ E.two (Binary.Cmp how) (expr_of_form left) (expr_of_form right)) }
{
    match (left, right) {
        (Form::Neighbour(k, port), Form::Number(value)) => {
            Ok(Form::Test(Test::Plain(neighbour_is(how, k, port, &value))))
        }
        (Form::Counted(count), Form::Number(value)) => {
            Ok(Form::Test(Test::Plain(count_is(how, count, &value))))
        }
        (left, right) => two_of(alloc, Binary::Cmp(how), left, right),
    }
}

/// The test of a neighbour's value.
fn neighbour_is(how: Compare, k: u8, port: u8, value: &Value) -> PlainTest
    ensures { expr_of_plain result
        ≡ E.two (Binary.Cmp how) (E.neighbour k port) (E.number value.now) }
{
    match (how, port, value) {
        (Compare::Equal, 0, Value::Num(number)) => PlainTest::OutIs(k, *number),
        (how, port, value) => PlainTest::NeighbourIs(how, k, port, *value),
    }
}

/// The test of a count.
fn count_is(how: Compare, count: Count, value: &Value) -> PlainTest
    ensures { expr_of_plain result
        ≡ E.two (Binary.Cmp how) (E.counted count) (E.number value.now) }
{
    match (how, small_number(value)) {
        (Compare::Equal, Some(number)) => PlainTest::CountEquals(count, number),
        (how, _) => PlainTest::CountIs(how, count, *value),
    }
}

/// The whole number from 0 to 255 that a value is.
#[tactic(auto, using(crate::proofs::WholeNumbers::whole_again))]
fn small_number(value: &Value) -> Option<u8>
    ensures { IfSome result (λ n. value.now ≡ whole n) }
{
    match whole_number(*value) {
        Some(n) if n <= 255 => Some(n as u8),
        _ => None,
    }
}

#[tactic(auto, using(crate::proofs::FormTrees::one_more))]
fn added(alloc: Global, left: Form, right: Form) -> Result<Form, OutOfMemory>
    ensures { IfOk result (λ form. expr_of_form form
        ≡ E.two Binary.Add (expr_of_form left) (expr_of_form right)) }
{
    match (left, right) {
        (Form::Sum(k, p, mut more), Form::Neighbour(offset, port)) => {
            put(&mut more, offset, port)?;
            Ok(Form::Sum(k, p, more))
        }
        (Form::Neighbour(k, p), Form::Neighbour(offset, port)) => {
            let mut more = Vec::new(alloc);
            put(&mut more, offset, port)?;
            Ok(Form::Sum(k, p, more))
        }
        (left, right) => two_of(alloc, Binary::Add, left, right),
    }
}

fn put(ports: &mut Vec<PortAt>, offset: u8, port: u8) -> Result<(), OutOfMemory>
    ensures { OnOk result (ports.new.items
        ≡ ports.old.items ++ record { offset = offset; port = port } ∷ []) }
{
    ports
        .push(PortAt { offset, port })
        .map_err(AllocError::from)?;
    Ok(())
}

fn two_of(alloc: Global, operator: Binary, left: Form, right: Form) -> Result<Form, OutOfMemory>
    ensures { IfOk result (λ form. expr_of_form form
        ≡ E.two operator (expr_of_form left) (expr_of_form right)) }
{
    let left = Box::new(alloc, left).map_err(AllocError::from)?;
    let right = Box::new(alloc, right).map_err(AllocError::from)?;
    Ok(Form::Two(operator, left, right))
}
