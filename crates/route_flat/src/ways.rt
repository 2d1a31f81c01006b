// The paths of a model, in the order of their numbers.
ghost use Rattle.std.specs.Prelude.{◌≡◌, ◌<◌, ◌++◌, IfOk, OnOk, length};
ghost use Rattle.std.specs.List.{HoldsAt, enumerate_from, flat_map};
ghost use Rattle.model_leaves.specs.declared.path.Source.{Source as AnySource};
ghost use Rattle.route_flat.specs.Ways.{ways_at, ways_to_leaf, ways_to_top, ways_of, targets_among};
ghost use Rattle.route_flat.specs.BySource.{list_from};

use crate::by_source::BySource;
use crate::port_lists::PortLists;
use crate::way::Way;
use atomic_face::PortNo;
use model_leaves::{Path, Source, Target, TargetPort};
use quantity::{OutOfMemory, counted};
use std::alloc::{AllocError, Global};

/// All paths.
pub(crate) fn ways(alloc: Global, lists: &PortLists) -> Result<Vec<Way>, OutOfMemory>
    ensures { IfOk result (λ ways. ways.items ≡ ways_of lists.now) }
{
    let mut ways = Vec::new(alloc);
    to_leaves(lists, &mut ways)?;
    to_tops(lists, &mut ways)?;
    Ok(ways)
}

/// Appends the paths to leaves.
fn to_leaves(lists: &PortLists, into: &mut Vec<Way>) -> Result<(), OutOfMemory>
    ensures { let all = flat_map ways_to_leaf (enumerate_from 0 lists.now.ports) in
        OnOk result (into.new.items ≡ into.old.items ++ all) }
{
    for leaf in 0..lists.leaf_count() {
        to_leaf(lists, counted(leaf)?, into)?;
    }
    Ok(())
}

/// Appends the paths to one leaf.
fn to_leaf(lists: &PortLists, leaf: u32, into: &mut Vec<Way>) -> Result<(), OutOfMemory>
    requires { leaf < length lists.now.ports }
    ensures { OnOk result (HoldsAt (λ ports. into.new.items
        ≡ into.old.items ++ ways_to_leaf (leaf, ports))
        lists.now.ports leaf) }
{
    for port in 0..lists.ports(leaf) {
        let number = PortNo(narrow(port)?);
        let to = TargetPort::Leaf(leaf, number);
        to_port(to, lists.sources(leaf, number), into)?;
    }
    Ok(())
}

/// Appends the paths to outputs of top.
fn to_tops(lists: &PortLists, into: &mut Vec<Way>) -> Result<(), OutOfMemory>
    ensures { let all = flat_map ways_to_top (enumerate_from 0 lists.now.tops) in
        OnOk result (into.new.items ≡ into.old.items ++ all) }
{
    for out in 0..lists.top_count() {
        let number = narrow(counted(out)?)?;
        to_port(TargetPort::TopOut(number), lists.top_sources(number), into)?;
    }
    Ok(())
}

/// Appends the paths to a port.
fn to_port(to: TargetPort, sources: &[Source], into: &mut Vec<Way>) -> Result<(), OutOfMemory>
    ensures { OnOk result (into.new.items ≡ into.old.items ++ ways_at to sources.now) }
{
    for (place, source) in sources.iter().enumerate() {
        let rank = counted(place)?;
        let path = Path { from: *source, to };
        into.push(Way { path, rank }).map_err(AllocError::from)?;
    }
    Ok(())
}

/// A number of a port, which refuses as if there were no memory for more.
fn narrow(number: u32) -> Result<u16, OutOfMemory>
    ensures { IfOk result (λ n. n ≡ number) }
{
    u16::try_from(number).map_err(|_| OutOfMemory)
}

/// Where each source leads.
pub(crate) fn by_source(alloc: Global, ways: &[Way]) -> Result<BySource, OutOfMemory>
    ensures { IfOk result (λ by. (from : AnySource)
        → list_from by from ≡ targets_among ways.now from) }
{
    let mut by = BySource::new(alloc);
    for (number, way) in ways.iter().enumerate() {
        let target = Target {
            to: way.path.to,
            rank: way.rank,
            path: counted(number)?,
        };
        by.put(alloc, way.path.from, target)?;
    }
    Ok(by)
}
