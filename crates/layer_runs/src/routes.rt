// The routes of a model: a generator in a component with two outputs, a generator beside it, and a
// queue that both feed, the first over two links.
ghost use Rattle.std.specs.Prelude.{◌≡◌};
ghost use Rattle.model_leaves.specs.Leaves.{OfTree};
ghost use Rattle.route_flat.specs.Nets.{RoutesOf};

use atomic_face::{BoxNo, Class, PortNo, Stock};
use atomic_kinds::CounterModel;
use model_leaves::{Model, Source, Target, TargetPort};
use model_tree::{Atomic, Component, Coupled, End, Link, LinkRefusal};
use quantity::{Name, OutOfMemory, Time, Value};
use route_flat::Routes;
use route_flat::laws::each_port_has_its_list;
use std::alloc::{AllocError, Global};
use std::process::Abort;
use std::test::Fail;

fn name(alloc: Global, text: &str) -> Result<Name, OutOfMemory> {
    Name::parse(alloc, text.as_bytes()).map_err(|_| OutOfMemory)
}

/// The number of a box. Routes do not depend on boxes, so all components may have one.
fn a_box(alloc: Global) -> Result<BoxNo, Fail> {
    // For the proof: the types of a box's parts are named.
    let _value: Option<Value> = None;
    let _time: Option<Time> = None;
    let mut boxes = Vec::new(alloc);
    boxes.push(CounterModel::new())?;
    let mut stock = Stock::new(alloc, boxes)?;
    let Ok(at) = stock.take(Class::Counter) else {
        return Err(Fail::new("no box"));
    };
    Ok(at)
}

fn atomic(alloc: Global, text: &str, class: Class, at: BoxNo) -> Result<Component, OutOfMemory> {
    Ok(Component::Atomic(Atomic {
        name: name(alloc, text)?,
        class,
        at,
    }))
}

/// The port of a child, or an own port where no child is named.
fn end(alloc: Global, port: &str, child: &str) -> Result<End, OutOfMemory> {
    let port = name(alloc, port)?;
    if child.is_empty() {
        return Ok(End::Own(port));
    }
    Ok(End::Child(port, name(alloc, child)?))
}

/// A component without inputs, whose outputs have one letter each.
fn around(
    alloc: Global,
    text: &str,
    outs: &[&str],
    children: Vec<Component>,
) -> Result<Coupled, OutOfMemory> {
    let mut names = Vec::new(alloc);
    for out in outs {
        names.push(name(alloc, out)?).map_err(AllocError::from)?;
    }
    Ok(Coupled {
        name: name(alloc, text)?,
        ins: Vec::new(alloc),
        outs: names,
        children,
        links: Vec::new(alloc),
    })
}

/// Adds a link, or says why it is refused.
fn joined(
    alloc: Global,
    component: &mut Coupled,
    from: (&str, &str),
    to: (&str, &str),
) -> Result<Result<(), LinkRefusal>, OutOfMemory> {
    let link = Link {
        from: end(alloc, from.0, from.1)?,
        to: end(alloc, to.0, to.1)?,
    };
    Ok(component.link(link))
}

/// The component top: `s` with the generator `g`, the generator `h`, and the queue `q`.
fn served(alloc: Global, at: BoxNo) -> Result<Coupled, OutOfMemory> {
    let mut inside = Vec::new(alloc);
    let generator = atomic(alloc, "g", Class::Generator, at)?;
    inside.push(generator).map_err(AllocError::from)?;
    let mut s = around(alloc, "s", &["a", "b"], inside)?;
    let _first = joined(alloc, &mut s, ("out", "g"), ("a", ""))?;
    let _second = joined(alloc, &mut s, ("out", "g"), ("b", ""))?;
    let mut children = Vec::new(alloc);
    children
        .push(Component::Coupled(s))
        .map_err(AllocError::from)?;
    for (text, class) in [("h", Class::Generator), ("q", Class::Queue)] {
        let child = atomic(alloc, text, class, at)?;
        children.push(child).map_err(AllocError::from)?;
    }
    around(alloc, "top", &["o"], children)
}

fn target(to: TargetPort, rank: u32, path: u32) -> Target {
    Target { to, rank, path }
}

/// The sources at a port of a leaf, where there is one.
fn sources_at<'a>(model: &Model, routes: &'a Routes, leaf: u32, port: u16) -> Option<&'a [Source]>
    requires { OfTree model.now (λ t. RoutesOf t routes.now) }
{
    each_port_has_its_list();
    if leaf >= model.leaves() {
        return None;
    }
    if u32::from(port) >= routes.ports(leaf) {
        return None;
    }
    Some(routes.sources(leaf, PortNo(port)))
}

/// Links of the component top, from and to a port of a child, or an own port where no child is named.
const LINKS: [((&str, &str), (&str, &str)); 4] = [
    (("out", "h"), ("in", "q")),
    (("a", "s"), ("in", "q")),
    (("b", "s"), ("in", "q")),
    (("out", "q"), ("o", "")),
];

/// Adds the links, and one that is refused.
fn join(rt: &(impl Abort + AllocGlobal), top: &mut Coupled) -> Result<(), Fail> {
    for &(from, to) in &LINKS {
        assert_eq!(rt; joined(rt.alloc(), top, from, to)?, Ok(()));
    }
    assert_eq!(rt;
        joined(rt.alloc(), top, ("out", "q"), ("in", "q"))?,
        Err(LinkRefusal::SelfLink)
    );
    Ok(())
}

/// The model of the component top.
fn model_of(rt: &(impl Abort + AllocGlobal)) -> Result<Model, Fail> {
    let mut top = served(rt.alloc(), a_box(rt.alloc())?)?;
    join(rt, &mut top)?;
    Ok(Model::new(rt.alloc(), top)?)
}

/// A queue takes from two generators.
fn takes_from_two(rt: &impl Abort, model: &Model, routes: &Routes)
    requires { OfTree model.now (λ t. RoutesOf t routes.now) }
{
    let [g, h] = [Source::Leaf(0), Source::Leaf(1)];
    assert_eq!(rt; sources_at(model, routes, 2, 0), Some([h, g, g].as_slice()));
}

/// Each generator has its targets, and the queue has the output.
fn each_has_its_targets(rt: &impl Abort, routes: &Routes) {
    let queue = TargetPort::Leaf(2, PortNo(0));
    let [first, second] = [target(queue, 1, 1), target(queue, 2, 2)];
    let third = target(queue, 0, 0);
    let output = target(TargetPort::TopOut(0), 0, 3);
    assert_eq!(rt;
        (
            routes.targets(Source::Leaf(0)),
            routes.targets(Source::Leaf(1)),
            routes.targets(Source::Leaf(2)),
            routes.targets(Source::TopIn(0))
        ),
        (
            [first, second].as_slice(),
            [third].as_slice(),
            [output].as_slice(),
            [].as_slice()
        )
    );
}

#[test]
fn two_generators_feed_a_queue(rt: HostRuntime) -> Result<(), Fail> {
    let model = model_of(&rt)?;
    let routes = Routes::build(rt.alloc(), &model)?;
    takes_from_two(&rt, &model, &routes);
    each_has_its_targets(&rt, &routes);
    Ok(())
}
