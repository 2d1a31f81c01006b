// A rule with all parts, made into code and evaluated with ample memory.
ghost use Rattle.std.specs.Prelude.{◌≡◌, ◌≤◌, [], ◌∷◌, ◌++◌, length, OnOk};
ghost use Rattle.quantity.specs.declared.bounds.TheConstants.{MAX_TIME};
ghost use Rattle.rule_eval.specs.Seen.{IsView};

use quantity::{Compare, OutOfMemory, Place, Raw, Time, Tri, Value};
use rule_eval::{Given, RuleCode, Stack, View, evaluate};
use rule_forms::Form;
use rule_tree::{Binary, Function, Give, Node, RuleStop, RuleTree, SetVariable};
use std::alloc::{AllocError, Global};
use std::process::Abort;

// So many hundred-thousandths.
fn raw(raw: i64) -> Value {
    match Raw::new(raw) {
        Some(raw) => Value::Num(raw),
        None => Value::Undefined,
    }
}

fn n(hundred_thousandths: i64) -> Node {
    Node::Number(raw(hundred_thousandths))
}

fn time(ms: u32) -> Time
    requires { ms ≤ MAX_TIME }
{
    match Time::new(ms) {
        Some(time) => time,
        None => unreachable!(),
    }
}

fn two(rt: &(impl Abort + AllocGlobal), operator: Binary, a: Node, b: Node) -> Node {
    let a = Box::new(rt.alloc(), a).expect(rt, "memory");
    let b = Box::new(rt.alloc(), b).expect(rt, "memory");
    Node::Two(operator, a, b)
}

// 110 - time
fn delay(rt: &(impl Abort + AllocGlobal)) -> Node {
    two(rt, Binary::Sub, n(11_000_000), Node::Now)
}

// ~out := portvalue(thisport); ~p := (0,1)~p;
fn gives(rt: &(impl Abort + AllocGlobal)) -> Vec<Give> {
    let out = Give {
        port: 0,
        value: Node::PortValue,
    };
    let p = Give {
        port: 1,
        value: Node::Neighbour(1, 1),
    };
    vec![in rt.alloc(); out, p].expect(rt, "memory")
}

// $a := $a + 1; $b := $a;
fn sets(rt: &(impl Abort + AllocGlobal)) -> Vec<SetVariable> {
    let a = SetVariable {
        variable: 0,
        value: two(rt, Binary::Add, Node::Variable(0), n(100_000)),
    };
    let b = SetVariable {
        variable: 1,
        value: Node::Variable(0),
    };
    vec![in rt.alloc(); a, b].expect(rt, "memory")
}

// A rule that is true where the first neighbour gave 1, after one that never is.
fn rules(rt: &(impl Abort + AllocGlobal)) -> Vec<RuleTree> {
    let never = RuleTree {
        gives: Vec::new(rt.alloc()),
        delay: n(0),
        condition: Node::Truth(Tri::False),
        sets: Vec::new(rt.alloc()),
    };
    let moving = RuleTree {
        gives: gives(rt),
        delay: delay(rt),
        condition: two(
            rt,
            Binary::Cmp(Compare::Equal),
            Node::Neighbour(0, 0),
            n(100_000),
        ),
        sets: sets(rt),
    };
    vec![in rt.alloc(); never, moving].expect(rt, "memory")
}

// What these rules give, and the variables after them, where the first neighbour gave this value
// at its port out, at this time. The second neighbour gave 3 at port p; the value of the port is 2;
// both variables are 0.
fn found(
    rt: &(impl Abort + AllocGlobal),
    first: Value,
    ms: u32,
) -> (Result<(Given, Time), RuleStop>, [Value; 2])
    requires { ms ≤ MAX_TIME }
{
    let neighbours = [first, Value::Undefined, raw(0), raw(300_000)];
    let variables = [raw(0), raw(0)];
    let mut changed = [raw(0), raw(0)];
    let view = View {
        time: time(ms),
        place: Place {
            row: 0,
            column: 0,
            plane: 0,
        },
        dims: 2,
        neighbours: &neighbours,
        ports: 1,
        port: raw(200_000),
        variables: &variables,
    };
    let outcome = outcome(rt.alloc(), &rules(rt), &view, &mut changed).expect(rt, "memory");
    (outcome, changed)
}

#[test]
fn a_true_rule_gives_and_sets(rt: HostRuntime) {
    let (outcome, changed) = found(&rt, raw(100_000), 60);
    let given = Given {
        values: [Some(raw(200_000)), Some(raw(300_000)), None, None],
    };
    assert_eq!(rt; outcome, Ok((given, time(50))));
    assert_eq!(rt; changed, [raw(100_000), raw(100_000)]);
}

#[test]
fn stops_are_told(rt: HostRuntime) {
    let table = [
        (raw(100_000), 120, RuleStop::BadDelay(raw(-1_000_000))),
        (raw(50_000), 60, RuleStop::NoTrueRule),
        (Value::Undefined, 60, RuleStop::NoTrueRule),
    ];
    for (first, ms, stop) in table {
        assert!(rt; ms <= 719_999_998);
        let (outcome, _changed) = found(&rt, first, ms);
        assert_eq!(rt; outcome, Err(stop));
    }
}

// A rule that gives nothing, after this delay.
fn waiting(rt: &(impl Abort + AllocGlobal), delay: Node) -> RuleTree {
    RuleTree {
        gives: Vec::new(rt.alloc()),
        delay,
        condition: Node::Truth(Tri::True),
        sets: Vec::new(rt.alloc()),
    }
}

#[test]
fn a_rule_is_kept_as_forms(rt: HostRuntime) {
    let code = RuleCode::make(rt.alloc(), &waiting(&rt, delay(&rt))).expect(&rt, "memory");
    assert!(rt; matches!(code.delay(), Form::Two(Binary::Sub, _, _)));
    assert_eq!(rt; code.depth(), 0);
}

// min(time, max(1, 2)): while 2 is put on the stack, 1 and the time stand there.
#[test]
fn arguments_stand_on_the_stack(rt: HostRuntime) {
    let inner = vec![in rt.alloc(); n(100_000), n(200_000)].expect(&rt, "memory");
    let outer = vec![in rt.alloc(); Node::Now, Node::Call(Function::Max, inner)];
    let least = Node::Call(Function::Min, outer.expect(&rt, "memory"));
    let code = RuleCode::make(rt.alloc(), &waiting(&rt, least)).expect(&rt, "memory");
    assert_eq!(rt; code.depth(), 3);
}

// What the rules give over a view.
fn outcome(
    alloc: Global,
    trees: &[RuleTree],
    view: &View,
    changed: &mut [Value],
) -> Result<Result<(Given, Time), RuleStop>, OutOfMemory>
    requires view { IsView view.now }
    requires variables { length changed.old ≡ length view.now.variables.now }
{
    let mut depth = 0;
    let mut codes = Vec::new(alloc);
    for tree in trees {
        let code = RuleCode::make(alloc, tree)?;
        depth = depth.max(code.depth());
        add(&mut codes, code)?;
    }
    let mut stack = Stack::for_depth(alloc, depth)?;
    Ok(evaluate(&codes, view, changed, &mut stack))
}

fn add(codes: &mut Vec<RuleCode>, code: RuleCode) -> Result<(), OutOfMemory>
    ensures { OnOk result (codes.new.items ≡ codes.old.items ++ code ∷ []) }
{
    codes.push(code).map_err(AllocError::from)?;
    Ok(())
}
