// Texts of rules, read with ample memory.
use quantity::{Name, Offset, Tri, Value};
use rule_syntax::Rule;
use rule_tree::{Binary, Count, Function, Give, Node, RuleTree, SetVariable};
use rule_words::{Names, RuleRefusal};
use std::process::Abort;

// 1 in 65 parentheses.
const TOO_DEEP: &str =
    "{ (((((((((((((((((((((((((((((((((((((((((((((((((((((((((((((((((1))))))))))))))))))))))))))))))))))))))))))))))))))))))))))))))))) } 100 { t }";

fn offset(column: i8) -> Offset {
    Offset {
        row: 0,
        column,
        plane: 0,
    }
}

fn name(rt: &(impl Abort + AllocGlobal), word: &str) -> Name {
    Name::parse(rt.alloc(), word.as_bytes()).expect(rt, "a name")
}

// A line of cells that see the one to the left, themselves and the one to the right, with a
// variable and a port.
fn line(rt: &(impl Abort + AllocGlobal)) -> Names {
    Names {
        offsets: vec![in rt.alloc(); offset(-1), offset(0), offset(1)].expect(rt, "memory"),
        dims: 2,
        variables: vec![in rt.alloc(); name(rt, "a")].expect(rt, "memory"),
        ports: vec![in rt.alloc(); name(rt, "p")].expect(rt, "memory"),
    }
}

fn read(rt: &(impl Abort + AllocGlobal), text: &str) -> Result<RuleTree, RuleRefusal> {
    let names = line(rt);
    Rule::read(rt.alloc(), text.as_bytes(), &names)
}

fn is_number(node: &Node, raw: i64) -> bool {
    match node {
        Node::Number(Value::Num(found)) => found.get() == raw,
        _ => false,
    }
}

// ~p := max((0,1), truecount);
fn is_greater_at_p(give: &Give) -> bool {
    match &give.value {
        Node::Call(Function::Max, arguments) => {
            give.port == 1
                && matches!(
                    arguments.as_slice(),
                    [Node::Neighbour(2, 0), Node::Counted(Count::Ones)]
                )
        }
        _ => false,
    }
}

// $a := $a + 1;
fn counts(set: &SetVariable) -> bool {
    match &set.value {
        Node::Two(Binary::Add, left, right) => {
            set.variable == 0 && matches!(&**left, Node::Variable(0)) && is_number(right, 100_000)
        }
        _ => false,
    }
}

// Whether what a rule gives, sets, its delay and its condition are those of the text.
fn are_right(rule: &RuleTree) -> (bool, bool, bool, bool) {
    let gives = match rule.gives.as_slice() {
        [give] => is_greater_at_p(give),
        _ => false,
    };
    let sets = match rule.sets.as_slice() {
        [set] => counts(set),
        _ => false,
    };
    (
        gives,
        sets,
        is_number(&rule.delay, 10_000_000),
        matches!(rule.condition, Node::Truth(Tri::True)),
    )
}

#[test]
fn a_rule_is_read(rt: HostRuntime) {
    let text = "{ ~p := max((0,1), truecount); } { $a := $a + 1; } 100 { t }";
    let rule = read(&rt, text).expect(&rt, text);
    assert_eq!(rt; are_right(&rule), (true, true, true, true));
}

// Texts, and why they are refused.
const REFUSED: [(&str, RuleRefusal); 8] = [
    ("1 100", RuleRefusal::BadRule),
    ("{ t } 100 { t }", RuleRefusal::BadSort),
    ("{ random } 100 { t }", RuleRefusal::RandomRefused),
    ("{ power(2,3) } 100 { t }", RuleRefusal::UnknownFunction),
    ("{ (0,2) } 100 { t }", RuleRefusal::NotANeighbour),
    ("{ $z } 100 { t }", RuleRefusal::UnknownVariable),
    ("{ ~q := 1; } 100 { t }", RuleRefusal::UnknownNeighbourPort),
    (TOO_DEEP, RuleRefusal::TooLarge),
];

#[test]
fn texts_are_refused(rt: HostRuntime) {
    for (text, why) in &REFUSED {
        assert_eq!(rt; read(&rt, text).err(), Some(*why), "{text}");
    }
}
