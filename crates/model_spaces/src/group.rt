// What the section of a group says, read once.
ghost use Rattle.std.specs.Prelude.{◌≡◌, ◌≤◌, Some, None, Err, codes, length, IfOk, OnOk};
ghost use Rattle.quantity.specs.declared.bounds.TheConstants.{MAX_OFFSETS};
ghost use Rattle.rule_syntax.specs.Shown as syntax;
ghost use Rattle.model_text.specs.Keyed as K;
ghost use Rattle.model_text.specs.Rules as R;
ghost use Rattle.model_text.specs.Spaces as S;
ghost use Rattle.model_text.specs.Trees as T;
ghost use Rattle.model_walk.specs.Shown.{refusal_of};
ghost use Rattle.model_spaces.specs.Right.{CanBeRead, SaysGroup};

use crate::keyed::values;
use crate::parts::{Parts, read_parts, refused};
use crate::sizes::{settings, space};
use cell_grid::{Grid, Initial};
use model_walk::names::names;
use model_walk::{PlacedGroup, ReadSection, Stop};
use quantity::{Name, Offset, OutOfMemory, Value};
use rule_syntax::Names;
use std::alloc::Global;

/// What the section of a group says, and the values of its cells before files. Refused is the least
/// refusal of its space.
pub(crate) fn read_group<'a>(
    alloc: Global,
    section: &ReadSection<'a>,
) -> Result<(PlacedGroup<'a>, Initial), Stop>
    requires { CanBeRead section.now }
    ensures right { OnOk result (K.least_refusal (S.of_space section.now) ≡ None) }
    ensures group { IfOk result (SaysGroup section.now) }
    ensures refused { (why : _) → result ≡ Err (Stop.Refused why)
        → K.least_refusal (S.of_space section.now) ≡ Some (refusal_of why) }
{
    let grid = space(section);
    let parts = read_parts(alloc, section, &grid)?;
    if let Some(why) = refused(section, &parts) {
        return Err(Stop::Refused(why));
    }
    let Parts {
        offsets,
        rows,
        ports,
        zones,
    } = parts;
    let Some(values) = rows.values else {
        unreachable!()
    };
    let names = group_names(alloc, section, &grid, offsets.offsets)?;
    let (ins, outs, variable_values, port_values) = read_words(alloc, section, &names)?;
    let group = PlacedGroup {
        section: section.section(),
        grid,
        settings: settings(section),
        names,
        zones: zones.zones,
        zone_rules: zones.rules,
        port_rules: ports.rules,
        ins,
        outs,
        variable_values,
        port_values,
    };
    Ok((group, values))
}

/// The names that the rules of a group may use, which are few enough.
fn group_names(
    alloc: Global,
    section: &ReadSection<'_>,
    grid: &Grid,
    offsets: Vec<Offset>,
) -> Result<Names, OutOfMemory>
    requires names { CanBeRead section.now }
    requires space { grid.now ≡ S.space_of section.now }
    requires few { length (S.offsets_of section.now) ≤ MAX_OFFSETS }
    requires offsets { offsets.items ≡ S.offsets_of section.now }
    ensures { IfOk result
        (λ names. syntax.names_of names ≡ R.rule_names_of section.now) }
{
    let variables = names(alloc, section, b"statevariables")?;
    let ports = names(alloc, section, b"neighborports")?;
    Ok(Names {
        offsets,
        dims: grid.dims(),
        variables,
        ports,
    })
}

/// The input and output ports of a group, and the values of its variables and of its cells' ports.
fn read_words(
    alloc: Global,
    section: &ReadSection<'_>,
    rule_names: &Names,
) -> Result<(Vec<Name>, Vec<Name>, Vec<Value>, Vec<Value>), OutOfMemory>
    ensures ins { IfOk result (λ words. words.0.items
        ≡ K.texts_of (codes "in") section.now) }
    ensures outs { IfOk result (λ words. words.1.items
        ≡ K.texts_of (codes "out") section.now) }
    ensures variable_values { IfOk result (λ words. words.2.items
        ≡ T.values_of_key (K.value_of (codes "statevalues") section.now)
        (syntax.names_of rule_names.now).variables) }
    ensures port_values { IfOk result (λ words. words.3.items
        ≡ T.values_of_key (K.value_of (codes "portvalues") section.now)
        (syntax.names_of rule_names.now).ports) }
{
    let ins = names(alloc, section, b"in")?;
    let outs = names(alloc, section, b"out")?;
    let variable_values = values(alloc, section.first(b"statevalues"), &rule_names.variables)?;
    let port_values = values(alloc, section.first(b"portvalues"), &rule_names.ports)?;
    Ok((ins, outs, variable_values, port_values))
}
