// A model of one group: its leaves and ports as they are called, and links that are added and
// refused.
use atomic_face::PortNo;
use cell_grid::{Border, Grid, Initial, Zones};
use model_leaves::Model;
use model_tree::{CellGroup, CellSettings, Component, Coupled, End, Link, LinkRefusal};
use quantity::{DelayKind, Name, OutOfMemory, Time, Value};
use std::alloc::{AllocError, Global};
use std::process::Abort;
use std::test::Fail;

fn name(alloc: Global, text: &[u8]) -> Result<Name, OutOfMemory> {
    Name::parse(alloc, text).map_err(|_| OutOfMemory)
}

fn one(alloc: Global, text: &[u8]) -> Result<Vec<Name>, OutOfMemory> {
    let mut names = Vec::new(alloc);
    names.push(name(alloc, text)?).map_err(AllocError::from)?;
    Ok(names)
}

/// A group `b` of two rows and three columns, with an input `p`.
fn group(alloc: Global) -> Result<CellGroup, OutOfMemory> {
    let grid = Grid::new(2, 3, None, Border::NoWrapped).ok_or(OutOfMemory)?;
    Ok(CellGroup {
        name: name(alloc, b"b")?,
        grid,
        settings: CellSettings {
            kind: DelayKind::Transport,
            default_delay: Time::new(100).ok_or(OutOfMemory)?,
        },
        offsets: Vec::new(alloc),
        initial: Initial::filled(alloc, &grid, Value::Undefined)?,
        zones: Zones::new(alloc),
        zone_rules: Vec::new(alloc),
        rule_sets: Vec::new(alloc),
        port_rules: Vec::new(alloc),
        ins: one(alloc, b"p")?,
        outs: Vec::new(alloc),
        links: Vec::new(alloc),
        variables: Vec::new(alloc),
        variable_values: Vec::new(alloc),
        ports: Vec::new(alloc),
        port_values: Vec::new(alloc),
    })
}

/// A component with the input `p` and this group.
fn around(alloc: Global, group: CellGroup) -> Result<Coupled, OutOfMemory> {
    let mut children = Vec::new(alloc);
    children
        .push(Component::Cells(group))
        .map_err(AllocError::from)?;
    Ok(Coupled {
        name: name(alloc, b"top")?,
        ins: one(alloc, b"p")?,
        outs: Vec::new(alloc),
        children,
        links: Vec::new(alloc),
    })
}

/// From the input `p` to a port of a cell.
fn into_cell(alloc: Global, port: &[u8], cell: u32) -> Result<Link, OutOfMemory> {
    Ok(Link {
        from: End::Own(name(alloc, b"p")?),
        to: End::Cell(name(alloc, port)?, cell),
    })
}

/// How many input ports a cell has.
fn ports_of(alloc: Global, group: &CellGroup, cell: u32) -> Result<usize, OutOfMemory> {
    if cell >= group.grid.cells() {
        return Ok(0);
    }
    Ok(group.ports_of(alloc, cell)?.len())
}

/// How a leaf is called, with the names of its first output and input ports.
fn called(model: &Model, leaf: u32, into: &mut Vec<u8>) -> Result<(), OutOfMemory> {
    if leaf >= model.leaves() {
        return Ok(());
    }
    model.leaf_text(leaf, into)?;
    model.out_port_text(leaf, PortNo(0), into)?;
    for port in model.ports_at(leaf) {
        into.extend_from_slice(port.as_bytes())?;
    }
    Ok(())
}

/// A port, a cell, and what comes of a link to them.
type Joined<'a> = (&'a [u8], u32, Result<(), LinkRefusal>);

/// Links that are added and refused.
const LINKS: [Joined<'static>; 4] = [
    (b"w", 4, Ok(())),
    (b"v", 4, Ok(())),
    (b"w", 4, Err(LinkRefusal::DuplicateLink)),
    (b"w", 6, Err(LinkRefusal::UnknownPort)),
];

/// Adds the links to the group.
fn join(rt: &(impl Abort + AllocGlobal), group: &mut CellGroup) -> Result<(), Fail> {
    for (port, cell, want) in &LINKS {
        let joined = group.link(into_cell(rt.alloc(), port, *cell)?);
        assert_eq!(rt; joined, *want);
    }
    assert_eq!(rt; ports_of(rt.alloc(), group, 4)?, 2);
    Ok(())
}

/// From the input `p` to the group's input `p`.
fn into_group(alloc: Global) -> Result<Link, OutOfMemory> {
    Ok(Link {
        from: End::Own(name(alloc, b"p")?),
        to: End::Child(name(alloc, b"p")?, name(alloc, b"b")?),
    })
}

/// Links the component to its group.
fn join_group(rt: &(impl Abort + AllocGlobal), top: &mut Coupled) -> Result<(), Fail> {
    let link = into_group(rt.alloc())?;
    assert_eq!(rt; top.link(link), Ok(()));
    Ok(())
}

#[test]
fn links_are_added_and_refused(rt: HostRuntime) -> Result<(), Fail> {
    let mut group = group(rt.alloc())?;
    join(&rt, &mut group)?;
    let mut top = around(rt.alloc(), group)?;
    join_group(&rt, &mut top)
}

/// A model of the component with the group, in which the input leads to a cell.
fn model_of(alloc: Global) -> Result<Model, Fail> {
    let link = into_cell(alloc, b"v", 4)?;
    let mut group = group(alloc)?;
    let _added = group.link(link);
    let top = around(alloc, group)?;
    Ok(Model::new(alloc, top)?)
}

#[test]
fn leaves_and_ports_are_called(rt: HostRuntime) -> Result<(), Fail> {
    let model = model_of(rt.alloc())?;
    let mut text = Vec::new(rt.alloc());
    called(&model, 4, &mut text)?;
    assert_eq!(rt; text.as_slice(), b"b(1,1)outv".as_slice());
    Ok(())
}
