// Where links begin, with names looked up.
ghost use Rattle.std.specs.Prelude.{◌≡◌, ℕ, ℤ, List, Option, Some, map, slice_get, IfOk};
ghost use Rattle.std.specs.List.{position};
ghost use Rattle.std.specs.Option.{option_map};
ghost use Rattle.std.specs.Str.{bytes_eq};
ghost use Rattle.model_tree.specs.declared.link.Link.{Link as AnyLink};
ghost use Rattle.model_tree.specs.Causes.{OfComponent};
ghost use Rattle.served_tree.specs.Processors.{out_number};
ghost use Rattle.served_tree.specs.Places.{node_of};
ghost use Rattle.served_tree.specs.Rows.{own_input, output_of as output_at, cell_ref, group_ref};
ghost use Rattle.tree_tables.specs.Stations.{ref_of};
ghost use Rattle.tree_tables.specs.Begins.{begin_in, child_begin_in, coupled_begin};

use crate::entry::Ref;
use model_tree::{Component, End, Link};
use port_net::Children;
use port_net::arrivals::same;
use quantity::{Name, OutOfMemory, counted};
use std::alloc::{AllocError, Global};

/// What is inside a component: children by their names, or cells.
#[derive(Clone, Copy)]
pub(crate) enum Inside<'i, 'c> {
    Children(&'i Children<'c>),
    Cells,
}

/// Where each link begins that begins anywhere, in a component with these inputs and what is
/// inside by these numbers.
pub(crate) fn begins(
    alloc: Global,
    links: &[Link],
    ins: &[Name],
    inside: &Inside<'_, '_>,
    numbers: &[u32],
) -> Result<Vec<Option<Ref>>, OutOfMemory>
    ensures { IfOk result (λ bs. (settings : ℕ → List ℤ) → map (option_map ref_of) bs.items
        ≡ map (λ (l : AnyLink). begin_in inside.now settings numbers.now ins.now l.from)
        links.now) }
{
    let mut all = Vec::new(alloc);
    for link in links {
        let begin = begin_of(&link.from, ins, inside, numbers)?;
        all.push(begin).map_err(AllocError::from)?;
    }
    Ok(all)
}

/// Where a link begins, by what is inside.
fn begin_of(
    from: &End,
    ins: &[Name],
    inside: &Inside<'_, '_>,
    numbers: &[u32],
) -> Result<Option<Ref>, OutOfMemory>
    ensures { IfOk result (λ b. (settings : ℕ → List ℤ) → option_map ref_of b
        ≡ begin_in inside.now settings numbers.now ins.now from.now) }
{
    match inside {
        Inside::Children(children) => begin_among_children(from, ins, children, numbers),
        Inside::Cells => begin_among_cells(from, ins, numbers),
    }
}

/// Where a link of a coupled component begins.
fn begin_among_children(
    from: &End,
    ins: &[Name],
    children: &Children<'_>,
    numbers: &[u32],
) -> Result<Option<Ref>, OutOfMemory>
    ensures { IfOk result (λ b. (settings : ℕ → List ℤ) → option_map ref_of b
        ≡ coupled_begin children.now.list.now settings numbers.now ins.now from.now) }
{
    match from {
        End::Own(port) => own_begin(ins, port),
        End::Child(port, child) => child_begin(children, numbers, port, child),
        End::Cell(_port, _cell) => Ok(None),
    }
}

/// Where a link of a group begins.
fn begin_among_cells(from: &End, ins: &[Name], numbers: &[u32]) -> Result<Option<Ref>, OutOfMemory>
    ensures { IfOk result
        (λ b. option_map ref_of b ≡ group_ref numbers.now ins.now from.now) }
{
    match from {
        End::Own(port) => own_begin(ins, port),
        End::Child(_port, _child) => Ok(None),
        End::Cell(_port, cell) => Ok(cell_begin(numbers, *cell)),
    }
}

/// An own input.
fn own_begin(ins: &[Name], port: &Name) -> Result<Option<Ref>, OutOfMemory>
    ensures { IfOk result (λ b. option_map ref_of b
        ≡ option_map own_input (position (bytes_eq port.now) ins.now)) }
{
    let place = place_of(ins, port)?;
    match place {
        None => Ok(None),
        Some(place) => Ok(Some(Ref::OwnInput(place))),
    }
}

/// An output port of the first child of a name.
fn child_begin(
    children: &Children<'_>,
    numbers: &[u32],
    port: &Name,
    child: &Name,
) -> Result<Option<Ref>, OutOfMemory>
    ensures { IfOk result (λ b. (settings : ℕ → List ℤ) → option_map ref_of b
        ≡ child_begin_in children.now.list.now settings numbers.now port.now child.now) }
{
    match children.place(child) {
        None => Ok(None),
        Some(place) => match number_at(numbers, place) {
            None => Ok(None),
            Some(processor) => {
                let number = port_number(&children.list[place], port)?;
                Ok(output(processor, number))
            }
        },
    }
}

/// An output port of a processor, if it has this number.
fn output(processor: u32, number: Option<u32>) -> Option<Ref>
    ensures { option_map ref_of result ≡ option_map (output_at processor) number }
{
    match number {
        None => None,
        Some(port) => Some(Ref::OutputOf { processor, port }),
    }
}

/// The one output of a cell, if it is there.
fn cell_begin(numbers: &[u32], cell: u32) -> Option<Ref>
    ensures { option_map ref_of result ≡ cell_ref numbers.now cell }
{
    match number_at(numbers, cell as usize) {
        None => None,
        Some(processor) => Some(Ref::OutputOf { processor, port: 0 }),
    }
}

/// The number of an output port. Links know one port of a box alone.
fn port_number(component: &Component, port: &Name) -> Result<Option<u32>, OutOfMemory>
    ensures { IfOk result (λ n. OfComponent component.now
        (λ t. (first : ℕ) → n ≡ out_number (node_of t first) port.now)) }
{
    match component {
        Component::Coupled(c) => place_of(&c.outs, port),
        Component::Cells(g) => place_of(&g.outs, port),
        Component::Atomic(_) => Ok(Some(0)),
    }
}

/// The place of the first of these names that is this one. One that is too great is refused as if
/// there were no memory for it.
fn place_of(names: &[Name], name: &Name) -> Result<Option<u32>, OutOfMemory>
    ensures { IfOk result (λ place. place ≡ position (bytes_eq name.now) names.now) }
{
    match place_among(names, name) {
        None => Ok(None),
        Some(place) => {
            let place = counted(place)?;
            Ok(Some(place))
        }
    }
}

/// The same place, however great.
fn place_among(names: &[Name], name: &Name) -> Option<usize>
    ensures { result ≡ position (bytes_eq name.now) names.now }
{
    names.iter().position(|other| same(name, other))
}

/// The number at a place, if there is one.
fn number_at(numbers: &[u32], place: usize) -> Option<u32>
    ensures { result ≡ slice_get numbers.now place }
{
    numbers.get(place).copied()
}
