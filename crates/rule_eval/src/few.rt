// Whether rules go by a cell's own value and by counts alone.
ghost use Rattle.std.specs.Prelude.{◌≡◌, IsTrue};
ghost use Rattle.std.specs.List.{All};
ghost use Rattle.rule_forms.specs.Forms.{expr_of_form};
ghost use Rattle.rule_eval.specs.Few.{GoByFew, GoesByFew, IsByFew, plain_reads_few, reads_few};

use rule_forms::{Form, PlainTest, RuleCode, Test};

/// Whether these rules make the same wherever a cell sees the same own value, the same counts and
/// variables: their conditions are tests that read no more, and what they give stands in their
/// text. A cell sees its own value as that of a neighbour, by the offset of this number.
pub fn go_by_few(rules: &[RuleCode], own: u8) -> bool
    ensures { IsTrue result → GoByFew own rules.now }
{
    each_by_few(rules, own)
}

fn each_by_few(rules: &[RuleCode], own: u8) -> bool
    ensures { IsTrue result → All (GoesByFew own) rules.now }
{
    let mut all = true;
    for rule in rules {
        all = all & goes_by_few(rule, own);
    }
    all
}

fn goes_by_few(rule: &RuleCode, own: u8) -> bool
    ensures { IsTrue result → GoesByFew own rule.now }
{
    match rule.constant() {
        Some(_known) => form_by_few(rule.condition(), own),
        None => false,
    }
}

fn form_by_few(form: &Form, own: u8) -> bool
    ensures { IsTrue result → IsByFew own (expr_of_form form.now) }
{
    match form {
        Form::Test(test) => reads_few(test, own),
        _ => false,
    }
}

fn reads_few(test: &Test, own: u8) -> bool
    ensures { result ≡ reads_few own test.now }
{
    match test {
        Test::Plain(test) => plain_reads_few(test, own),
        Test::Not(a) => reads_few(a, own),
        Test::Both(a, b) => reads_few(a, own) & reads_few(b, own),
        Test::Either(a, b) => reads_few(a, own) & reads_few(b, own),
        Test::PlainBoth(a, b) => plain_reads_few(a, own) & reads_few(b, own),
        Test::PlainEither(a, b) => plain_reads_few(a, own) & reads_few(b, own),
    }
}

fn plain_reads_few(test: &PlainTest, own: u8) -> bool
    ensures { result ≡ plain_reads_few own test.now }
{
    match test {
        PlainTest::Truth(_) => true,
        PlainTest::NeighbourIs(_, k, port, _) => {
            let here = *k == own;
            here & (*port == 0)
        }
        PlainTest::CountIs(_, _, _) => true,
        PlainTest::OutIs(k, _) => *k == own,
        PlainTest::CountEquals(_, _) => true,
    }
}
