// The face of a section: the ports at which its links may begin and end.
ghost use Rattle.std.specs.Prelude.{◌≡◌, ◌∷◌, [], map, IfOk, OnOk};
ghost use Rattle.std.specs.Option.{option_map};
ghost use Rattle.source_text.specs.Shown.{texts};
ghost use Rattle.model_walk.specs.Shown.{item_of};
ghost use Rattle.model_links.specs.Around.{IsSpaceOf};
ghost use Rattle.model_links.specs.Lent.{end_of, AddsEnds};
ghost use Rattle.model_links.specs.PortEnds.{end_at, ends_at, child_ends, ends_by, all_ends, cells_of};
ghost use Rattle.model_links.specs.Faces.{sources_of, targets_of};
ghost use Rattle.model_links.specs.declared.child.Side.TheVariants.{From, To};

use crate::child::{Side, child_ports, first_children, own_ports};
use crate::lent::{LentEnd, add_end};
use cell_grid::Grid;
use indexmap::IndexSet;
use model_walk::item::name_of;
use model_walk::{Item, ReadSection, ReadSections};
use quantity::OutOfMemory;
use std::alloc::Global;

/// Where the links of a section may begin and end, and how many cells they may name.
#[derive(Drop)]
pub(crate) struct Face<'a> {
    /// The inputs of the section and the outputs of its children, each once.
    pub sources: IndexSet<LentEnd<'a>>,
    /// The outputs of the section and the inputs of its children, each once.
    pub targets: IndexSet<LentEnd<'a>>,
    /// How many cells there are; 0 in a coupled component.
    pub cells: u32,
}

/// The face of a section. Of children of one name the first counts.
pub(crate) fn face_of<'a>(
    alloc: Global,
    sections: &ReadSections<'a>,
    section: &ReadSection<'a>,
    grid: Option<&Grid>,
) -> Result<Face<'a>, OutOfMemory>
    requires { IsSpaceOf section.now grid }
    ensures sources { IfOk result (λ face. sources_of face
        ≡ all_ends From sections.now section.now) }
    ensures targets { IfOk result (λ face. targets_of face
        ≡ all_ends To sections.now section.now) }
    ensures cells { IfOk result (λ face. face.cells ≡ cells_of section.now) }
{
    let children = first_children(alloc, section)?;
    let sources = ends(alloc, sections, section, &children, Side::From)?;
    let targets = ends(alloc, sections, section, &children, Side::To)?;
    Ok(Face {
        sources,
        targets,
        cells: cells(section, grid),
    })
}

fn cells(section: &ReadSection<'_>, grid: Option<&Grid>) -> u32
    requires { IsSpaceOf section.now grid }
    ensures { result ≡ cells_of section.now }
{
    // For the proof: only the clauses speak of it.
    let _section = section;
    match grid {
        None => 0,
        Some(grid) => grid.cells(),
    }
}

/// The ports of a section that has these children at which its links may begin, or may end.
fn ends<'a>(
    alloc: Global,
    sections: &ReadSections<'a>,
    section: &ReadSection<'a>,
    children: &[Item<'a>],
    side: Side,
) -> Result<IndexSet<LentEnd<'a>>, OutOfMemory>
    ensures { IfOk result (λ ends. map end_of ends.keys
        ≡ ends_by side sections.now section.now (map item_of children.now)) }
{
    let mut ends = IndexSet::new(alloc);
    let own = own_ports(alloc, section, side)?;
    add_ports(None, &own, &mut ends)?;
    for child in children {
        add_child(alloc, sections, child, side, &mut ends)?;
    }
    Ok(ends)
}

/// Adds the ports of a child.
fn add_child<'a>(
    alloc: Global,
    sections: &ReadSections<'a>,
    child: &Item<'a>,
    side: Side,
    ends: &mut IndexSet<LentEnd<'a>>,
) -> Result<(), OutOfMemory>
    ensures { OnOk result (AddsEnds (child_ends side sections.now (item_of child.now))
        ends.old.keys ends.new.keys) }
{
    let ports = child_ports(alloc, sections, child, side)?;
    add_ports(Some(name_of(child)), &ports, ends)
}

/// Adds ports of the section itself, or of the child of this name.
fn add_ports<'a>(
    child: Option<&'a [u8]>,
    ports: &[&'a [u8]],
    ends: &mut IndexSet<LentEnd<'a>>,
) -> Result<(), OutOfMemory>
    ensures { OnOk result (AddsEnds (ends_at (option_map (λ r. r.now) child.entry)
        (texts ports.now)) ends.old.keys ends.new.keys) }
{
    for port in ports {
        add_port(child, port, ends)?;
    }
    Ok(())
}

fn add_port<'a>(
    child: Option<&'a [u8]>,
    port: &'a [u8],
    ends: &mut IndexSet<LentEnd<'a>>,
) -> Result<(), OutOfMemory>
    ensures { OnOk result (AddsEnds (end_at (option_map (λ r. r.now) child.entry) port.now ∷ [])
        ends.old.keys ends.new.keys) }
{
    match child {
        None => add_end(LentEnd::Own(port), ends),
        Some(child) => add_end(LentEnd::Child(port, child), ends),
    }
}
