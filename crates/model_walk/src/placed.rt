// What the section of a group says, but for its rules and links.
use crate::item::Item;
use cell_grid::{Grid, Zones};
use ma_lines::Section;
use model_tree::CellSettings;
use quantity::{Name, Value};
use rule_words::Names;

/// A port of a cell with the name of its rules, and the line of its entry.
#[derive(Clone, Copy)]
pub struct PlacedRule<'a> {
    pub line: u32,
    pub port: &'a [u8],
    pub cell: u32,
    pub rules: &'a [u8],
}

/// A group's section, and what it says.
#[derive(Drop)]
pub struct PlacedGroup<'a> {
    pub section: &'a Section,
    pub grid: Grid,
    pub settings: CellSettings,
    /// The offsets, each once, the number of coordinates, the variables and the further ports.
    pub names: Names,
    pub zones: Zones,
    /// The names of the zones' rules, zone by zone, with the lines of their entries.
    pub zone_rules: Vec<Item<'a>>,
    pub port_rules: Vec<PlacedRule<'a>>,
    pub ins: Vec<Name>,
    pub outs: Vec<Name>,
    pub variable_values: Vec<Value>,
    pub port_values: Vec<Value>,
}
