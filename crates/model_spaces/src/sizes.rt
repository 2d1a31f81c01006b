// The sizes of spaces, and all cells counted.
ghost use Rattle.std.specs.Prelude.{◌≡◌, ◌<◌, ◌^◌, ◌≤◌, unsigned_abs, codes, IfSome};
ghost use Rattle.std.specs.Option.{option_and_then, option_map, unwrap_or};
ghost use Rattle.quantity.specs.declared.bounds.TheConstants.{MAX_DELAY};
ghost use Rattle.source_text.specs.Tuples as texts;
ghost use Rattle.model_text.specs.Keyed as K;
ghost use Rattle.source_text.specs.Shown.{numbers_of};
ghost use Rattle.cell_grid.specs.Watched.{CanHold};
ghost use Rattle.cell_grid.specs.Space.{cell_count};
ghost use Rattle.model_text.specs.Spaces as S;
ghost use Rattle.model_text.specs.Trees as T;
ghost use Rattle.model_walk.specs.ReadValues.{number_in};
ghost use Rattle.model_walk.specs.Shown.{refusal_of};
ghost use Rattle.model_walk.specs.Met.{sections_at};

use crate::keyed::has_value;
use cell_grid::{Border, Grid};
use model_text::Kind;
use model_tree::CellSettings;
use model_walk::{ReadEntry, ReadSection, Refused};
use quantity::{DelayKind, MAX_CELLS, Time, Value};
use source_text::Tuple;

/// The most cells of all groups.
const MOST_CELLS: u128 = MAX_CELLS as u128;

fn border(section: &ReadSection<'_>) -> Border
    ensures { result ≡ S.border_of section.now }
{
    if has_value(section.section(), b"border", b"wrapped") {
        Border::Wrapped
    } else {
        Border::NoWrapped
    }
}

/// The number that an entry says, which is small, or else another.
fn number(first: Option<&ReadEntry<'_>>, otherwise: u32) -> u32
    requires { IfSome (option_and_then (λ r. number_in r.now.value) first) (λ n. n < 2 ^ 32) }
    ensures { result
        ≡ unwrap_or (option_and_then (λ r. number_in r.now.value) first.entry) otherwise }
{
    let Some(read) = first else {
        return otherwise;
    };
    match read.value.number() {
        None => otherwise,
        Some(number) => number as u32,
    }
}

fn dim(section: &ReadSection<'_>) -> Option<Tuple>
    ensures { option_map numbers_of result
        ≡ option_and_then texts.tuple (K.value_of (codes "dim") section.now) }
{
    section.first(b"dim")?.value.tuple()
}

/// Rows, columns and perhaps planes, which may be the sizes of no space that can be held.
fn sizes(section: &ReadSection<'_>) -> (u32, u32, Option<u32>)
    ensures { record {
      rows = result.0;
      columns = result.1;
      planes = result.2;
      border = S.border_of section.now;
    }
        ≡ S.space_of section.now }
{
    match dim(section) {
        None => (
            number(section.first(b"height"), 0),
            number(section.first(b"width"), 0),
            None,
        ),
        Some(tuple) => tuple_sizes(tuple),
    }
}

fn tuple_sizes(tuple: Tuple) -> (u32, u32, Option<u32>)
    ensures { (b : _) →
        record { rows = result.0; columns = result.1; planes = result.2; border = b }
        ≡ S.space_of_sizes b (numbers_of tuple) }
{
    let rows = tuple.row.unsigned_abs();
    let columns = tuple.column.unsigned_abs();
    match tuple.plane {
        None => (rows, columns, None),
        Some(plane) => (rows, columns, Some(plane.unsigned_abs())),
    }
}

/// The first group with which all cells are too many.
pub(crate) fn first_large(groups: &[&ReadSection<'_>]) -> Option<Refused>
    ensures { option_map refusal_of result
        ≡ S.first_large 0 (sections_at groups.now) }
{
    let mut total: u128 = 0;
    for section in groups {
        total += cells(section);
        if MOST_CELLS < total {
            return Some(Refused {
                line: section.section().line,
                kind: Kind::TooLarge,
            });
        }
    }
    None
}

/// The number of cells of a group.
fn cells(section: &ReadSection<'_>) -> u128
    ensures value { result ≡ cell_count (S.space_of section.now) }
    ensures bounded { result < 2 ^ 96 }
{
    let (rows, columns, planes) = sizes(section);
    rows as u128 * columns as u128 * planes.unwrap_or(1) as u128
}

/// The space of a group.
pub(crate) fn space(section: &ReadSection<'_>) -> Grid
    requires { CanHold (S.space_of section.now).rows
        (S.space_of section.now).columns
        (S.space_of section.now).planes }
    ensures { result ≡ S.space_of section.now }
{
    let (rows, columns, planes) = sizes(section);
    let Some(grid) = Grid::new(rows, columns, planes, border(section)) else {
        unreachable!()
    };
    grid
}

/// How results wait: by inertia where the section says so, and else by transport.
fn delay(section: &ReadSection<'_>) -> DelayKind
    ensures { result ≡ T.delay_kind_of section.now }
{
    if has_value(section.section(), b"delay", b"inertial") {
        DelayKind::Inertial
    } else {
        DelayKind::Transport
    }
}

/// The delay of a value that comes at a port of a cell without rules.
#[tactic(auto, using(crate::proofs::Read::number_below))]
fn default_delay(section: &ReadSection<'_>) -> Time
    requires { T.default_delay_of section.now ≤ MAX_DELAY }
    ensures { result ≡ T.default_delay_of section.now }
{
    let Some(time) = Time::new(number(section.first(b"defaultdelaytime"), 100)) else {
        unreachable!()
    };
    time
}

/// What a group says of each of its cells.
pub(crate) fn settings(section: &ReadSection<'_>) -> CellSettings
    requires { T.default_delay_of section.now ≤ MAX_DELAY }
    ensures { result ≡ T.cell_settings_of section.now }
{
    CellSettings {
        kind: delay(section),
        default_delay: default_delay(section),
    }
}

/// The value of each cell before rows and files.
pub(crate) fn initial_value(section: &ReadSection<'_>) -> Value
    ensures { result ≡ T.initial_value_of section.now }
{
    let Some(read) = section.first(b"initialvalue") else {
        return Value::Undefined;
    };
    read.value.value().unwrap_or(Value::Undefined)
}
