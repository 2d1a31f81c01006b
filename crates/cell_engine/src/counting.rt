// Whether rules count neighbours. Nothing rests on the answer but for which groups tallies are
// kept.
use rule_eval::RuleCode;
use rule_forms::{Form, PlainTest, Test};

/// Whether a condition of these sets is a test that counts neighbours.
pub(crate) fn sets_count(sets: &[Vec<RuleCode>]) -> bool {
    for rules in sets {
        if rules_count(rules) {
            return true;
        }
    }
    false
}

fn rules_count(rules: &[RuleCode]) -> bool {
    for rule in rules {
        if condition_counts(rule.condition()) {
            return true;
        }
    }
    false
}

fn condition_counts(form: &Form) -> bool {
    match form {
        Form::Test(test) => test_counts(test),
        _ => false,
    }
}

fn test_counts(test: &Test) -> bool {
    match test {
        Test::Plain(test) => plain_counts(test),
        Test::Not(a) => test_counts(a),
        Test::Both(a, b) => test_counts(a) || test_counts(b),
        Test::Either(a, b) => test_counts(a) || test_counts(b),
        Test::PlainBoth(a, b) => plain_counts(a) || test_counts(b),
        Test::PlainEither(a, b) => plain_counts(a) || test_counts(b),
    }
}

fn plain_counts(test: &PlainTest) -> bool {
    match test {
        PlainTest::CountIs(_, _, _) => true,
        PlainTest::CountEquals(_, _) => true,
        _ => false,
    }
}
