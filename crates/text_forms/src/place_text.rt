// The coordinates of a cell as a text, which is written from its right end on.
ghost use Rattle.std.specs.Prelude.{◌≡◌, ◌+◌, ◌<◌, ◌≤◌, ◌∷◌, ◌++◌};
ghost use Rattle.std.specs.Prelude.{length, codes, decimal, take, IfSome, OnOk};
ghost use Rattle.quantity.specs.ByteNames.{comma};
ghost use Rattle.cell_grid.specs.Space.{cell_count};
ghost use Rattle.text_forms.specs.Begun.{coordinates_text, place_text};
ghost use Rattle.text_forms.specs.Placed.{IsShort, short_text};

use cell_grid::Grid;
use itoa::write_digits;
use quantity::{OutOfMemory, Place, put};
use std::marker::Model;

/// A text of at most 40 bytes, which grows on its left.
#[derive(Drop)]
pub(crate) struct PlaceText {
    bytes: [u8; 40],
    start: usize,
}

impl Model for PlaceText {
    ghost use Rattle.std.specs.Prelude.{List, ℕ, ◌≤◌, drop};

    ghost Value = { List ℕ };

    ghost view = { λ t. drop t.start t.bytes };

    ghost invariant = { λ t. t.start ≤ 40 };
}

impl PlaceText {
    /// The end of each: a parenthesis and a stroke.
    #[inline(always)]
    fn new() -> PlaceText
        ensures { result ≡ codes ") / " }
    {
        PlaceText {
            bytes: *b"                                    ) / ",
            start: 36,
        }
    }

    /// Puts a comma in front.
    #[inline(always)]
    fn put_comma(&mut self)
        requires { length self.old < 40 }
        ensures { self.new ≡ comma ∷ self.old }
    {
        self.start -= 1;
        self.bytes[self.start] = b',';
    }

    /// Puts a number in front.
    #[inline(always)]
    fn put_number(&mut self, number: u32)
        requires { length self.old ≤ 30 }
        ensures value { self.new ≡ decimal number ++ self.old }
        ensures short { length self.new ≤ length self.old + 10 }
    {
        self.start = write_digits(u64::from(number), &mut self.bytes, self.start);
    }

    /// Puts the coordinates of a cell in front, with commas between.
    #[inline(always)]
    fn put_place(&mut self, grid: &Grid, cell: u32)
        requires cell { cell < cell_count grid.now }
        requires room { length self.old ≤ 4 }
        ensures { self.new ≡ coordinates_text grid.now cell ++ self.old }
    {
        let place = grid.position(cell);
        if grid.dims() == 3 {
            self.put_three(&place);
            return;
        }
        self.put_two(&place);
    }

    #[inline(always)]
    fn put_two(&mut self, place: &Place)
        requires { length self.old ≤ 4 }
        ensures { self.new
            ≡ decimal place.now.row ++ comma ∷ (decimal place.now.column ++ self.old) }
    {
        self.put_number(place.column);
        self.put_comma();
        self.put_number(place.row);
    }

    fn put_three(&mut self, place: &Place)
        requires { length self.old ≤ 4 }
        ensures { self.new ≡ decimal place.now.row ++ comma ∷ (decimal place.now.column
            ++ comma ∷ (decimal place.now.plane ++ self.old)) }
    {
        self.put_number(place.plane);
        self.put_comma();
        self.put_number(place.column);
        self.put_comma();
        self.put_number(place.row);
    }

    #[inline(always)]
    fn as_bytes(&self) -> &[u8]
        ensures { result.now ≡ self.now }
    {
        &self.bytes[self.start..]
    }
}

/// Appends the coordinates of a cell with commas between, and what stands behind them in a line.
#[inline(always)]
pub(crate) fn put_place(grid: &Grid, cell: u32, into: &mut Vec<u8>) -> Result<(), OutOfMemory>
    requires { cell < cell_count grid.now }
    ensures ok { OnOk result (into.new.items ≡ into.old.items ++ place_text grid.now cell) }
    ensures kept { take (length into.old.items) into.new.items ≡ into.old.items }
{
    let mut text = PlaceText::new();
    text.put_place(grid, cell);
    put(text.as_bytes(), into)
}

/// The place of a cell, where it has two coordinates of at most three digits each.
#[inline(always)]
pub(crate) fn short_place(grid: &Grid, cell: u32) -> Option<Place>
    requires { cell < cell_count grid.now }
    ensures short { IfSome result (λ place. IsShort place) }
    ensures text { IfSome result (λ place. place_text grid.now cell ≡ short_text place) }
{
    if grid.dims() == 3 {
        return None;
    }
    let place = grid.position(cell);
    if place.row < 1000 && place.column < 1000 {
        Some(place)
    } else {
        None
    }
}
