// Expressions that are read, and what is known of each at once.
ghost use Rattle.std.specs.Prelude.{◌≡◌, ◌==◌, ◌&&◌, ◌||◌, ◌++◌, [], ◌∷◌, if◌then◌else◌, length};
ghost use Rattle.std.specs.Prelude.{is_some, map, nat_lt, IfOk};
ghost use Rattle.rule_tree.specs.Expression as E;
ghost use Rattle.rule_tree.specs.InCode.{expr_of};
ghost use Rattle.rule_tree.specs.Phrases as P;
ghost use Rattle.rule_tree.specs.Scope.{a_cell, a_port, a_variable, all_named_in, offset_number};
ghost use Rattle.rule_words.specs.Shown.{cell_of, names_of};
ghost use Rattle.rule_phrases.specs.Terms.{AllStand, Misses, StandsForPhrase};
ghost use Rattle.rule_phrases.specs.declared.term.Term.{Term as AnyTerm};

use crate::scope::{offset_number, port_number, variable_number};
use crate::sort::{sort_of_call, sort_of_one, sort_of_two};
use quantity::{OutOfMemory, Tri, Value};
use rule_tree::{Binary, Count, Function, Node, Sort, Unary};
use rule_words::cell::WrittenCell;
use rule_words::names::Names;
use std::alloc::{AllocError, Global};

/// Which kinds of names stand in an expression that the group has not.
#[derive(Clone, Copy)]
pub struct Lacks {
    /// A cell that is no offset, or has a wrong number of coordinates.
    pub neighbour: bool,
    pub variable: bool,
    pub port: bool,
}

/// An expression that is read: its tree with numbers in the place of names, its sort, where it has
/// one, and what the group lacks of its names.
#[derive(Drop)]
pub struct Term {
    pub node: Node,
    pub sort: Option<Sort>,
    pub lacks: Lacks,
}

impl Lacks {
    /// Nothing is lacking.
    pub fn nothing() -> Lacks
        ensures { (names : _) → Misses names result [] }
    {
        Lacks {
            neighbour: false,
            variable: false,
            port: false,
        }
    }

    /// Whether the group lacks this port.
    pub fn of_port(names: &Names, word: &[u8]) -> Lacks
        ensures { Misses (names_of names.now) result (a_port word.now ∷ []) }
    {
        Lacks {
            neighbour: false,
            variable: false,
            port: port_number(names, word).is_none(),
        }
    }

    /// Whether the group lacks this variable.
    pub fn of_variable(names: &Names, word: &[u8]) -> Lacks
        ensures { Misses (names_of names.now) result (a_variable word.now ∷ []) }
    {
        Lacks {
            neighbour: false,
            variable: variable_number(names, word).is_none(),
            port: false,
        }
    }

    /// What the group lacks of a cell and of its port.
    fn of_cell(names: &Names, cell: &WrittenCell<'_>) -> Lacks
        ensures { Misses (names_of names.now) result
            (a_cell (cell_of cell.now) ∷ a_port cell.now.port.now ∷ []) }
    {
        Lacks {
            neighbour: !is_neighbour(names, cell),
            variable: false,
            port: port_number(names, cell.port).is_none(),
        }
    }

    /// What is lacking of the names of all these expressions.
    fn of_all(terms: &[Term]) -> Lacks
        ensures { (names : _) (xs : _) → AllStand names terms.now xs
            → Misses names result (all_named_in (P.phrases xs)) }
    {
        match terms {
            [] => Lacks::nothing(),
            [term, terms @ ..] => term.lacks.and(Lacks::of_all(terms)),
        }
    }

    /// What is lacking of the names of two expressions.
    pub fn and(self, other: Lacks) -> Lacks
        ensures { (names : _) (ns ms : _) → Misses names self ns → Misses names other ms
            → Misses names result (ns ++ ms) }
    {
        Lacks {
            neighbour: either(self.neighbour, other.neighbour),
            variable: either(self.variable, other.variable),
            port: either(self.port, other.port),
        }
    }
}

impl Term {
    /// A number, or `?`.
    pub fn value(value: Value) -> Term
        ensures { (names : _) → StandsForPhrase names result (P.value value) }
    {
        Term {
            node: Node::Number(value),
            sort: Some(Sort::Number),
            lacks: Lacks::nothing(),
        }
    }

    /// A truth value.
    pub fn truth(truth: Tri) -> Term
        ensures { (names : _) → StandsForPhrase names result (P.truth truth) }
    {
        Term {
            node: Node::Truth(truth),
            sort: Some(Sort::Truth),
            lacks: Lacks::nothing(),
        }
    }

    /// The time at which the rule is evaluated.
    pub fn now() -> Term
        ensures { (names : _) → StandsForPhrase names result P.now }
    {
        Term {
            node: Node::Now,
            sort: Some(Sort::Number),
            lacks: Lacks::nothing(),
        }
    }

    /// The value that came at the input port.
    pub fn port_value() -> Term
        ensures { (names : _) → StandsForPhrase names result P.port_value }
    {
        Term {
            node: Node::PortValue,
            sort: Some(Sort::Number),
            lacks: Lacks::nothing(),
        }
    }

    /// How many neighbours gave the value that is counted: 1, 0 or `?`.
    pub fn counted(count: Count) -> Term
        ensures { (names : _) → StandsForPhrase names result (P.counted count) }
    {
        Term {
            node: Node::Counted(count),
            sort: Some(Sort::Number),
            lacks: Lacks::nothing(),
        }
    }

    /// The neighbour's port that a cell names.
    pub fn cell(names: &Names, cell: &WrittenCell<'_>) -> Term
        ensures { StandsForPhrase (names_of names.now) result (P.cell (cell_of cell.now)) }
    {
        let offset = offset_number(names, cell).unwrap_or(0);
        let port = port_number(names, cell.port).unwrap_or(0);
        Term {
            node: Node::Neighbour(offset, port),
            sort: sort_at(offset, names.offsets.len()),
            lacks: Lacks::of_cell(names, cell),
        }
    }

    /// The state variable of this name.
    pub fn variable(names: &Names, word: &[u8]) -> Term
        ensures { StandsForPhrase (names_of names.now) result (P.variable word.now) }
    {
        let variable = variable_number(names, word).unwrap_or(0);
        Term {
            node: Node::Variable(variable),
            sort: Some(Sort::Number),
            lacks: Lacks::of_variable(names, word),
        }
    }

    /// A sign or `not` before an operand.
    pub fn one(alloc: Global, sign: Unary, operand: Term) -> Result<Term, OutOfMemory>
        ensures { IfOk result (λ term. (names : _) (x : _) → StandsForPhrase names operand x
            → StandsForPhrase names term (P.one sign x)) }
    {
        let sort = sort_of_one(sign, operand.sort);
        let lacks = operand.lacks;
        let node = one_node(alloc, sign, operand.node)?;
        Ok(Term { node, sort, lacks })
    }

    /// Two operands with an operator between.
    pub fn two(
        alloc: Global,
        operator: Binary,
        left: Term,
        right: Term,
    ) -> Result<Term, OutOfMemory>
        ensures { IfOk result (λ term. (names : _) (x y : _) → StandsForPhrase names left x
            → StandsForPhrase names right y → StandsForPhrase names term (P.two operator x y)) }
    {
        let sort = sort_of_two(operator, left.sort, right.sort);
        let lacks = left.lacks.and(right.lacks);
        let node = two_node(alloc, operator, left.node, right.node)?;
        Ok(Term { node, sort, lacks })
    }

    /// A function of its arguments, in written order.
    pub fn call(
        alloc: Global,
        function: Function,
        arguments: Vec<Term>,
    ) -> Result<Term, OutOfMemory>
        ensures { IfOk result (λ term. (names : _) (xs : _) → AllStand names arguments.items xs
            → StandsForPhrase names term (P.call function (P.phrases xs))) }
    {
        let sort = sort_of_call(function, &arguments);
        let lacks = Lacks::of_all(&arguments);
        let nodes = nodes_of(alloc, arguments)?;
        Ok(Term {
            node: Node::Call(function, nodes),
            sort,
            lacks,
        })
    }
}

fn one_node(alloc: Global, sign: Unary, operand: Node) -> Result<Node, OutOfMemory>
    ensures { IfOk result (λ node. expr_of node ≡ E.one sign (expr_of operand)) }
{
    let operand = Box::new(alloc, operand).map_err(AllocError::from)?;
    Ok(Node::One(sign, operand))
}

fn two_node(alloc: Global, operator: Binary, left: Node, right: Node) -> Result<Node, OutOfMemory>
    ensures { IfOk result (λ node. expr_of node ≡ E.two operator (expr_of left) (expr_of right)) }
{
    let left = Box::new(alloc, left).map_err(AllocError::from)?;
    let right = Box::new(alloc, right).map_err(AllocError::from)?;
    Ok(Node::Two(operator, left, right))
}

/// The trees of these expressions.
fn nodes_of(alloc: Global, terms: Vec<Term>) -> Result<Vec<Node>, OutOfMemory>
    ensures { IfOk result (λ nodes. nodes.items ≡ map (λ (t : AnyTerm). t.node) terms.items) }
{
    let nodes = terms.into_iter().map(|term| term.node).collect(alloc)?;
    Ok(nodes)
}

/// Apart from its uses, so that proofs see the answer whole.
fn either(left: bool, right: bool) -> bool
    ensures { result ≡ (left || right) }
{
    left || right
}

/// Whether a cell has as many coordinates as the space, and is an offset of the neighbourhood.
fn is_neighbour(names: &Names, cell: &WrittenCell<'_>) -> bool
    ensures { result ≡ ((length (cell_of cell.now).place == names.now.dims) && is_some
        (offset_number (names_of names.now) (cell_of cell.now).place)) }
{
    coordinates(cell) == names.dims && offset_number(names, cell).is_some()
}

/// The number of coordinates of a cell.
fn coordinates(cell: &WrittenCell<'_>) -> u8
    ensures { result ≡ length (cell_of cell.now).place }
{
    match cell.plane {
        None => 2,
        Some(_) => 3,
    }
}

/// The sort of an offset of this number, among so many.
fn sort_at(offset: u8, offsets: usize) -> Option<Sort>
    ensures { result ≡ (if nat_lt offset offsets then Some Sort.Number else None) }
{
    if usize::from(offset) < offsets {
        Some(Sort::Number)
    } else {
        None
    }
}
