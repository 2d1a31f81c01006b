// The ends of links, as they stand in a section.
ghost use Rattle.std.specs.Prelude.{◌≡◌, ◌∷◌, ◌&&◌, [], IfOk, IsTrue, codes};
ghost use Rattle.std.specs.List.{list_any};
ghost use Rattle.std.specs.Option.{option_map, option_and_then};
ghost use Rattle.quantity.specs.Bytes.{is_byte};
ghost use Rattle.quantity.specs.Names.{is_name};
ghost use Rattle.source_text.specs.Shown.{named_of, texts};
ghost use Rattle.source_text.specs.Tuples.{parts_of};
ghost use Rattle.ma_lines.specs.InCode.{section_of};
ghost use Rattle.model_text.specs.Links as L;
ghost use Rattle.model_text.specs.Spaces.{space_of};
ghost use Rattle.model_walk.specs.ReadValues.{IsReadUnder};
ghost use Rattle.model_links.specs.Around.{IsSpaceOf};

use cell_grid::Grid;
use cell_grid::tuple_place::cell_in;
use ma_lines::Section;
use model_tree::{End, Link};
use model_walk::ReadEntry;
use model_walk::link::two_ends;
use quantity::digits::cut_at;
use quantity::name::is_name;
use quantity::{Name, NameRefusal, OutOfMemory};
use source_text::NamedTuple;
use source_text::tuples::{named_tuple, parts};
use std::alloc::Global;

/// The link of an entry; None where it hasn't two ends or one of them has no form of an end.
pub(crate) fn link_of(
    alloc: Global,
    section: &Section,
    grid: Option<&Grid>,
    read: &ReadEntry<'_>,
) -> Result<Option<Link>, OutOfMemory>
    requires space { IsSpaceOf (section_of section.now) grid }
    requires read { IsReadUnder section.now.name (codes "link") read.now.entry.now.value
        read.now.value }
    ensures { IfOk result (λ link. link ≡ L.link_of (section_of section.now) read.now.entry.now) }
{
    let Some((first, second)) = two_ends(read.value.ends()) else {
        return Ok(None);
    };
    let Some(from) = end_in(alloc, section, grid, first)? else {
        return Ok(None);
    };
    let Some(to) = end_in(alloc, section, grid, second)? else {
        return Ok(None);
    };
    Ok(Some(Link { from, to }))
}

/// An end that is written so; None where it has no form of an end.
fn end_in(
    alloc: Global,
    section: &Section,
    grid: Option<&Grid>,
    text: &[u8],
) -> Result<Option<End>, OutOfMemory>
    requires { IsSpaceOf (section_of section.now) grid }
    ensures { IfOk result (λ end. end ≡ L.end_in (section_of section.now) text.now) }
{
    if !has_at(text) {
        return own_end(alloc, text);
    }
    match grid {
        None => child_end(alloc, text),
        Some(grid) => cell_end(alloc, section, grid, text),
    }
}

fn has_at(text: &[u8]) -> bool
    ensures { result ≡ list_any (is_byte 64) text.now }
{
    text.iter().any(|byte| b'@' == *byte)
}

/// A port of the section itself.
fn own_end(alloc: Global, text: &[u8]) -> Result<Option<End>, OutOfMemory>
    ensures { IfOk result (λ end. end ≡ L.own_end text.now) }
{
    if !is_name(text) {
        return Ok(None);
    }
    let port = name(alloc, text)?;
    Ok(Some(End::Own(port)))
}

/// A port of a child.
fn child_end(alloc: Global, text: &[u8]) -> Result<Option<End>, OutOfMemory>
    ensures { IfOk result (λ end. end ≡ L.child_end text.now) }
{
    let (port, child) = cut_at(b'@', text);
    if !are_names(port, child) {
        return Ok(None);
    }
    let port = name(alloc, port)?;
    let child = name(alloc, child)?;
    Ok(Some(End::Child(port, child)))
}

fn are_names(a: &[u8], b: &[u8]) -> bool
    ensures { result ≡ (is_name a.now && is_name b.now) }
{
    is_name(a) && is_name(b)
}

/// A port of a cell of the group.
fn cell_end(
    alloc: Global,
    section: &Section,
    grid: &Grid,
    text: &[u8],
) -> Result<Option<End>, OutOfMemory>
    requires { grid.now ≡ space_of (section_of section.now) }
    ensures { IfOk result (λ end. end ≡ L.cell_end (section_of section.now) text.now) }
{
    let (port, behind) = cut_at(b'@', text);
    let Some(named) = one_tuple(alloc, section, behind)? else {
        return Ok(None);
    };
    if !is_name(port) {
        return Ok(None);
    }
    let Some(cell) = cell_in(named.place, grid) else {
        return Ok(None);
    };
    let port = name(alloc, port)?;
    Ok(Some(End::Cell(port, cell)))
}

/// The one tuple that stands behind the name of the group; None for any other text.
fn one_tuple<'a>(
    alloc: Global,
    section: &Section,
    text: &'a [u8],
) -> Result<Option<NamedTuple<'a>>, OutOfMemory>
    ensures { IfOk result (λ found. option_map named_of found
        ≡ option_and_then (L.one_tuple (section_of section.now)) (parts_of text.now)) }
{
    let Some(parts) = parts(alloc, text)? else {
        return Ok(None);
    };
    Ok(tuple_of_parts(section, &parts))
}

/// The tuple of the one part; None where there are more or fewer parts.
fn tuple_of_parts<'a>(section: &Section, parts: &[&'a [u8]]) -> Option<NamedTuple<'a>>
    ensures { option_map named_of result ≡ L.one_tuple (section_of section.now) (texts parts.now) }
{
    match parts {
        [part] => tuple_of_group(section, part),
        _ => None,
    }
}

fn tuple_of_group<'a>(section: &Section, part: &'a [u8]) -> Option<NamedTuple<'a>>
    ensures { option_map named_of result ≡ L.one_tuple (section_of section.now) (part.now ∷ []) }
{
    let named = named_tuple(part)?;
    if named.name == section.name.as_bytes() {
        return Some(named);
    }
    None
}

/// The name that a text is known to be.
fn name(alloc: Global, text: &[u8]) -> Result<Name, OutOfMemory>
    requires { IsTrue (is_name text.now) }
    ensures { IfOk result (λ name. name ≡ text.now) }
{
    match Name::parse(alloc, text) {
        Ok(name) => Ok(name),
        Err(NameRefusal::Memory) => Err(OutOfMemory),
        Err(NameRefusal::Bad) => unreachable!(),
    }
}
