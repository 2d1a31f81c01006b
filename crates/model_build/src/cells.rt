// Groups of cells.
ghost use Rattle.std.specs.Prelude.{◌≡◌, ◌<◌, length, IfOk};
ghost use Rattle.quantity.specs.declared.value.Value.TheVariants.{Undefined};
ghost use Rattle.cell_grid.specs.Initial.{uniform_values};
ghost use Rattle.model_tree.specs.Stands.{group_of};
ghost use Rattle.model_walk.specs.Placed.{plain_group};
ghost use Rattle.model_walk.specs.Sets.{sets_shown};
ghost use Rattle.model_build.specs.Ahead.{TakesGroup, group_with};

use crate::parts::{Parts, next_links};
use cell_grid::Initial;
use ma_lines::Section;
use model_tree::{CellGroup, Link};
use model_walk::names::known_name;
use model_walk::{GroupRules, PlacedGroup};
use quantity::{Name, OutOfMemory, Value};
use std::alloc::Global;

/// The next group, with its rules and its links.
pub(crate) fn next_group(alloc: Global, parts: &mut Parts<'_>) -> Result<CellGroup, OutOfMemory>
    requires groups { 0 < length parts.old.groups.rest.items }
    requires rules { 0 < length parts.old.rules.rest.items }
    requires links { 0 < length parts.old.links.rest.items }
    ensures { IfOk result (λ group. TakesGroup parts.old group parts.new) }
{
    let links = next_links(parts);
    let Some(rules) = parts.rules.next() else {
        unreachable!()
    };
    // Last, since it is dear to let go.
    let Some(placed) = parts.groups.next() else {
        unreachable!()
    };
    let group = made_group(alloc, placed, rules, links)?;
    Ok(group)
}

/// The group of what its section says, its rules and its links, with `?` in each cell.
fn made_group(
    alloc: Global,
    placed: PlacedGroup<'_>,
    rules: GroupRules,
    links: Vec<Link>,
) -> Result<CellGroup, OutOfMemory>
    ensures { IfOk result
        (λ group. group_of group
        ≡ group_with (plain_group placed.entry) (sets_shown rules) links.items) }
{
    let (name, initial) = name_and_values(alloc, &placed)?;
    Ok(joined_group(name, initial, placed, rules, links))
}

/// The name of a group, and its values with `?` in each cell.
fn name_and_values(alloc: Global, placed: &PlacedGroup<'_>) -> Result<(Name, Initial), OutOfMemory>
    ensures name { IfOk result (λ made. made.0 ≡ placed.now.section.now.name) }
    ensures initial { IfOk result (λ made. made.1 ≡ uniform_values placed.now.grid Undefined) }
{
    let name = section_name(alloc, placed.section)?;
    let initial = Initial::filled(alloc, &placed.grid, Value::Undefined)?;
    Ok((name, initial))
}

/// The group of this name with these initial values.
fn joined_group(
    name: Name,
    initial: Initial,
    placed: PlacedGroup<'_>,
    rules: GroupRules,
    links: Vec<Link>,
) -> CellGroup
    requires name { name ≡ placed.section.now.name }
    requires initial { initial ≡ uniform_values placed.grid Undefined }
    ensures { group_of result
        ≡ group_with (plain_group placed.entry) (sets_shown rules) links.items }
{
    let names = placed.names;
    CellGroup {
        name,
        grid: placed.grid,
        settings: placed.settings,
        offsets: names.offsets,
        initial,
        zones: placed.zones,
        zone_rules: rules.zone_rules,
        rule_sets: rules.rule_sets,
        port_rules: rules.port_rules,
        ins: placed.ins,
        outs: placed.outs,
        links,
        variables: names.variables,
        variable_values: placed.variable_values,
        ports: names.ports,
        port_values: placed.port_values,
    }
}

/// The name of a section.
pub(crate) fn section_name(alloc: Global, section: &Section) -> Result<Name, OutOfMemory>
    ensures { IfOk result (λ name. name ≡ section.now.name) }
{
    known_name(alloc, section.name.as_bytes())
}
