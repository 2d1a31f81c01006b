// The values of cells before files are laid on.
ghost use Rattle.std.specs.Prelude.{◌≡◌, ◌∷◌, [], length, IfSome};
ghost use Rattle.std.specs.Option.{is_some, option_and_then, option_map};
ghost use Rattle.cell_grid.specs.Initial.{row_digits, row_values, with_row};
ghost use Rattle.cell_grid.specs.Space.{cell_count};
ghost use Rattle.model_text.specs.Spaces as S;
ghost use Rattle.model_spaces.specs.Laid.{AddsRows};

use crate::keyed::{has_key, least_with_entry};
use cell_grid::rows::{is_row_digits, is_row_values};
use cell_grid::{Grid, Initial};
use ma_lines::Entry;
use model_text::Kind;
use model_walk::{ReadSection, Refused};

/// The values of a group's cells before files, and what is refused of the rows.
#[derive(Drop)]
pub(crate) struct ReadRows {
    /// None once a row is refused, which takes the values with it; those behind are only tested.
    pub(crate) values: Option<Initial>,
    /// The least refusal of rows of digits.
    pub(crate) digit_rows: Option<Refused>,
    /// That of rows of values.
    pub(crate) value_rows: Option<Refused>,
}

/// Lays the row of an entry, where it has a key of rows.
pub(crate) fn add_row(section: &ReadSection<'_>, grid: &Grid, entry: &Entry, read: &mut ReadRows)
    requires space { grid.now ≡ S.space_of section.now }
    requires length { IfSome read.old.values (λ values. length values ≡ cell_count grid.now) }
    ensures added { AddsRows section.now read.old read.new (entry.now ∷ []) }
    ensures length { IfSome read.new.values (λ values. length values ≡ cell_count grid.now) }
{
    // For the proof: only the clauses speak of it.
    let _section = section;
    let text = entry.value.as_bytes();
    if has_key(entry, b"initialrowvalue") {
        let is_row = lay_digits(grid, text, &mut read.values);
        read.digit_rows = least_with_entry(read.digit_rows, entry, Kind::BadInitial, is_row);
        return;
    }
    if has_key(entry, b"initialrow") {
        let is_row = lay_values(grid, text, &mut read.values);
        read.value_rows = least_with_entry(read.value_rows, entry, Kind::BadInitial, is_row);
    }
}

/// Lays a row of digits; says whether the text is one.
fn lay_digits(grid: &Grid, text: &[u8], values: &mut Option<Initial>) -> bool
    requires { IfSome values.old (λ values. length values ≡ cell_count grid.now) }
    ensures is_row { result ≡ is_some (row_digits grid.now text.now) }
    ensures laid { values.new ≡ option_and_then
        (λ old. option_map (with_row grid.now old) (row_digits grid.now text.now)) values.old }
    ensures length { IfSome values.new (λ values. length values ≡ cell_count grid.now) }
{
    let Some(initial) = values.take() else {
        return is_row_digits(text, grid);
    };
    let Ok(laid) = initial.row_digits(text, grid) else {
        return false;
    };
    *values = Some(laid);
    true
}

/// Lays a row of values; says whether the text is one.
fn lay_values(grid: &Grid, text: &[u8], values: &mut Option<Initial>) -> bool
    requires { IfSome values.old (λ values. length values ≡ cell_count grid.now) }
    ensures is_row { result ≡ is_some (row_values grid.now text.now) }
    ensures laid { values.new ≡ option_and_then
        (λ old. option_map (with_row grid.now old) (row_values grid.now text.now)) values.old }
    ensures length { IfSome values.new (λ values. length values ≡ cell_count grid.now) }
{
    let Some(initial) = values.take() else {
        return is_row_values(text, grid);
    };
    let Ok(laid) = initial.row_values(text, grid) else {
        return false;
    };
    *values = Some(laid);
    true
}
