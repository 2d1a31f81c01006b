// The sorts that operators and functions take and give.
ghost use Rattle.std.specs.Prelude.{◌≡◌, ◌&&◌, [], ◌∷◌, length};
ghost use Rattle.std.specs.Cmp.Lexicographic.{pointwise};
ghost use Rattle.rule_tree.specs.Phrases.{phrases};
ghost use Rattle.rule_tree.specs.Scope.{all_numbered};
ghost use Rattle.quantity.specs.Bytes.{in_front};
ghost use Rattle.rule_tree.specs.Sound.{result_sort, binary_signature, function_signature};
ghost use Rattle.rule_tree.specs.Sound.{is_sort, same_sort, sorts_of, unary_signature};
ghost use Rattle.rule_phrases.specs.Terms.{AllStand};
ghost use Rattle.rule_tree.specs.declared.function.Sort.{Sort as AnySort};
ghost use Rattle.rule_phrases.specs.declared.term.Term.{Term as AnyTerm};

use crate::term::Term;
use rule_tree::{Binary, Function, Sort, Unary};

/// The sort of a sign of an operand; None where it doesn't take the operand.
pub(crate) fn sort_of_one(sign: Unary, operand: Option<Sort>) -> Option<Sort>
    ensures { result ≡ result_sort (unary_signature sign) (in_front operand (Some [])) }
{
    let sort = unary_sort(sign);
    is_of(sort, operand).then_some(sort)
}

/// The sort of an operator between two operands; None where it doesn't take them.
pub(crate) fn sort_of_two(operator: Binary, left: Option<Sort>, right: Option<Sort>) -> Option<Sort>
    ensures { result
        ≡ result_sort (binary_signature operator) (in_front left (in_front right (Some []))) }
{
    let taken = operand_sort(operator);
    are_of(taken, left, right).then_some(operator_gives(operator))
}

/// The sort of a function of its arguments; None where it doesn't take them.
pub(crate) fn sort_of_call(function: Function, arguments: &[Term]) -> Option<Sort>
    ensures { (names : _) (xs : _) → AllStand names arguments.now xs → result
        ≡ result_sort (function_signature function)
        (sorts_of (all_numbered names (phrases xs)) (length names.offsets)) }
{
    let taken = are_taken(function.takes(), arguments);
    taken.then_some(function.gives())
}

/// Whether arguments are of these sorts, one for one.
fn are_taken(sorts: &[Sort], arguments: &[Term]) -> bool
    ensures { result
        ≡ pointwise (λ (a : AnySort) (t : AnyTerm). is_sort a t.sort) sorts.now arguments.now }
{
    match sorts {
        [] => arguments.is_empty(),
        [sort, sorts @ ..] => match arguments {
            [] => false,
            [term, arguments @ ..] => is_of(*sort, term.sort) && are_taken(sorts, arguments),
        },
    }
}

fn is_of(sort: Sort, given: Option<Sort>) -> bool
    ensures { result ≡ is_sort sort given }
{
    match given {
        None => false,
        Some(given) => is_same(sort, given),
    }
}

fn is_same(sort: Sort, given: Sort) -> bool
    ensures { result ≡ same_sort sort given }
{
    sort == given
}

fn are_of(sort: Sort, left: Option<Sort>, right: Option<Sort>) -> bool
    ensures { result ≡ (is_sort sort left && is_sort sort right) }
{
    is_of(sort, left) && is_of(sort, right)
}

/// What a sign takes, and gives.
fn unary_sort(sign: Unary) -> Sort
    ensures { unary_signature sign ≡ record { takes = result ∷ []; gives = result } }
{
    match sign {
        Unary::Plus | Unary::Minus => Sort::Number,
        Unary::Not => Sort::Truth,
    }
}

/// What an operator takes on either side.
fn operand_sort(operator: Binary) -> Sort
    ensures { (binary_signature operator).takes ≡ result ∷ result ∷ [] }
{
    match operator {
        Binary::Imp | Binary::Eqv | Binary::Or | Binary::Xor | Binary::And => Sort::Truth,
        Binary::Cmp(_) | Binary::Add | Binary::Sub | Binary::Mul | Binary::Div => Sort::Number,
    }
}

fn operator_gives(operator: Binary) -> Sort
    ensures { (binary_signature operator).gives ≡ result }
{
    match operator {
        Binary::Add | Binary::Sub | Binary::Mul | Binary::Div => Sort::Number,
        _ => Sort::Truth,
    }
}
