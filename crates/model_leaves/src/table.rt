// The table of a model's leaves.
ghost use Rattle.std.specs.Prelude.{◌≡◌, ◌<◌, ◌^◌, Some, map, length};
ghost use Rattle.model_tree.specs.declared.component.Component.TheVariants.{Coupled as in_tree};
ghost use Rattle.model_leaves.specs.Table.{seats, seats_from, groups_in};

use crate::leaf_rows::Rows;
use atomic_face::BoxNo;
use cell_grid::Grid;
use model_tree::component::Coupled;
use quantity::Name;

/// An atomic component or a group, as its leaves are called.
#[derive(Drop)]
pub(crate) struct Part {
    pub(crate) name: Name,
    pub(crate) at: PartAt,
}

/// Where the leaves of a part stand.
#[derive(Drop)]
pub(crate) enum PartAt {
    Atomic(BoxNo),
    /// The number of the group, its space, and the names of the further ports of its cells.
    Cells(u32, Grid, Vec<Name>),
}

/// The part that a leaf belongs to, its number there, and where the names of its input ports begin.
#[derive(Clone, Copy)]
pub(crate) struct Row {
    pub(crate) part: u32,
    pub(crate) cell: u32,
    pub(crate) first_port: u32,
    pub(crate) ports: u32,
}

/// A model: the component top, and the table of its leaves. Only `new` makes one.
#[derive(Drop)]
pub struct Model {
    pub(crate) top: Coupled,
    pub(crate) parts: Vec<Part>,
    pub(crate) rows: Rows,
    pub(crate) ports: Vec<Name>,
    pub(crate) groups: u32,
    /// The table is that of the component's leaves.
    ghost right: { seats parts.items ports.items rows
        ≡ map Some (seats_from (in_tree top) 0) },
    ghost counted: { groups ≡ groups_in (in_tree top) },
    ghost few: { length rows < 2 ^ 32 },
}
