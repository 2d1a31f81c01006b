// Where it stands what a rule gives.
use quantity::Value;
use rule_forms::Constant;

/// Where it stands what a rule gives.
#[derive(Clone, Copy)]
pub enum Lent<'r> {
    /// In the rule's text: the variables stay.
    Known(&'r Constant),
    /// Here: one value alone, at the port `out`. The variables stay.
    Alone(Value),
    /// In the place for what is given, with the variables after the sets in theirs.
    Placed,
}
