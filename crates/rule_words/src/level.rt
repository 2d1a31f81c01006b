// The levels of the grammar.

/// A level of the grammar of phrases, the loosest first.
#[derive(Clone, Copy)]
pub enum Level {
    /// `imp`, `eqv`
    Expression,
    /// `or`, `xor`
    Disjunction,
    /// `and`
    Conjunction,
    /// `not`
    Negation,
    /// `=`, `!=`, `<`, `<=`, `>`, `>=`
    Comparison,
    /// `+`, `-` between two operands
    Sum,
    /// `*`, `/`
    Product,
    /// `+`, `-` before one operand
    Signed,
    Primary,
}
