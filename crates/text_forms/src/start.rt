// How lines begin. A refusal may leave more behind what was there.
ghost use Rattle.std.specs.Prelude.{◌≡◌, ◌<◌, ◌++◌, codes, length, take, true, IfSome, OnOk};
ghost use Rattle.cell_grid.specs.Space.{cell_count};
ghost use Rattle.model_tree.specs.Tree.{Leaf};
ghost use Rattle.model_leaves.specs.Leaves.{Appends, IsLeafOf};
ghost use Rattle.text_forms.specs.declared.start.Begins.TheVariants.{Nothing, Boxes};
ghost use Rattle.text_forms.specs.declared.start.Begins.TheVariants.{Cells as cells};
ghost use Rattle.model_leaves.specs.declared.table.Model.{Model};
ghost use Rattle.text_forms.specs.Begun.{line_front, head_text, named_text, IsBeginning, IsNamed, IsStart};
ghost use Rattle.text_forms.specs.Placed.{IsShort, short_text};

use crate::Letter;
use crate::kept::Kept;
use crate::pieces::{put_begun, put_leaf};
use crate::place_text::{put_place, short_place};
use crate::tail::Tail;
use model_leaves::{CellAt, Model};
use quantity::{Name, OutOfMemory, Place, Time, put};

/// Which lines begin with a text: none, those of boxes at an instant, or those of the cells of a
/// group at an instant.
#[derive(Clone, Copy)]
pub(crate) enum Begins {
    Nothing,
    Boxes(u32),
    Cells(u32, u32),
}

/// What lines of a letter begin with: letter and time, and of cells the name of their group. It is
/// kept from line to line, since most lines begin as the one before.
#[derive(Drop)]
pub(crate) struct Start {
    letter: Letter,
    of: Begins,
    text: Kept,
}

impl Start {
    /// Nothing is known of lines of this letter.
    pub(crate) fn new(letter: Letter) -> Start
        ensures letter { result.letter ≡ letter }
        ensures of { result.of ≡ Nothing }
    {
        Start {
            letter,
            of: Begins::Nothing,
            text: Kept::new(),
        }
    }

    /// Appends letter, time and leaf of a line, a stroke, and what stands behind it.
    pub(crate) fn put_head(
        &mut self,
        time: Time,
        leaf: u32,
        tail: &Tail,
        model: &Model,
        into: &mut Vec<u8>,
    ) -> Result<(), OutOfMemory>
        requires leaf { IsLeafOf model.now leaf }
        requires right { IsStart model.now self.old }
        ensures right { IsStart model.now self.new }
        ensures letter { self.new.letter ≡ self.old.letter }
        ensures ok { let text = λ (l : Leaf). head_text self.old.letter time l ++ tail.now in
            OnOk result (Appends model.now leaf text into.old.items into.new.items) }
        ensures kept { take (length into.old.items) into.new.items ≡ into.old.items }
    {
        match model.cell_at(leaf) {
            Some(cell) => self.put_cell(time, &cell, tail, into),
            None => self.put_box(time, leaf, tail, model, into),
        }
    }

    /// Appends letter and time, the name of a box, a stroke, and what stands behind it.
    #[inline(always)]
    fn put_box(
        &mut self,
        time: Time,
        leaf: u32,
        tail: &Tail,
        model: &Model,
        into: &mut Vec<u8>,
    ) -> Result<(), OutOfMemory>
        requires leaf { IsLeafOf model.now leaf }
        requires right { IsStart model.now self.old }
        ensures right { IsStart model.now self.new }
        ensures letter { self.new.letter ≡ self.old.letter }
        ensures ok { let text = λ (l : Leaf). head_text self.old.letter time l ++ tail.now in
            OnOk result (Appends model.now leaf text into.old.items into.new.items) }
        ensures kept { take (length into.old.items) into.new.items ≡ into.old.items }
    {
        self.begin_box(time, into)?;
        put_leaf(leaf, model, into)?;
        put(b" / ", into)?;
        put(tail.as_bytes(), into)
    }

    /// Appends letter and time, the name of a cell, a stroke, and what stands behind it: as one
    /// where all but the coordinates is kept and these are short.
    #[inline(always)]
    fn put_cell(
        &mut self,
        time: Time,
        cell: &CellAt<'_>,
        tail: &Tail,
        into: &mut Vec<u8>,
    ) -> Result<(), OutOfMemory>
        requires inside { cell.now.cell < cell_count cell.now.space.now }
        ensures right { (m : Model) → IsNamed m cell.now → IsStart m self.old → IsStart m self.new }
        ensures letter { self.new.letter ≡ self.old.letter }
        ensures ok { (m : Model) → IsNamed m cell.now → IsStart m self.old → OnOk result
            (into.new.items ≡ into.old.items
            ++ (named_text self.old.letter time cell.now ++ tail.now)) }
        ensures kept { take (length into.old.items) into.new.items ≡ into.old.items }
    {
        match self.place_of(time, cell) {
            Some(place) => self.text.put_line(&place, tail, into),
            None => self.put_parts(time, cell, tail, into),
        }
    }

    /// The place of a cell, where it is short and the text is what lines of the cell's group at
    /// this instant begin with.
    #[inline(always)]
    fn place_of(&self, time: Time, cell: &CellAt<'_>) -> Option<Place>
        requires inside { cell.now.cell < cell_count cell.now.space.now }
        ensures short { IfSome result (λ place. IsShort place) }
        ensures text { IfSome result (λ place. (m : Model) → IsNamed m cell.now → IsStart m self.now
            → self.now.text ++ short_text place ≡ named_text self.now.letter time cell.now) }
    {
        if self.is_of_group(time.ms(), cell.group) {
            short_place(cell.space, cell.cell)
        } else {
            None
        }
    }

    /// The same, part by part.
    #[inline(never)]
    fn put_parts(
        &mut self,
        time: Time,
        cell: &CellAt<'_>,
        tail: &Tail,
        into: &mut Vec<u8>,
    ) -> Result<(), OutOfMemory>
        requires inside { cell.now.cell < cell_count cell.now.space.now }
        ensures right { (m : Model) → IsNamed m cell.now → IsStart m self.old → IsStart m self.new }
        ensures letter { self.new.letter ≡ self.old.letter }
        ensures ok { (m : Model) → IsNamed m cell.now → IsStart m self.old → OnOk result
            (into.new.items ≡ into.old.items
            ++ (named_text self.old.letter time cell.now ++ tail.now)) }
        ensures kept { take (length into.old.items) into.new.items ≡ into.old.items }
    {
        self.begin_cell(time, cell, into)?;
        put_place(cell.space, cell.cell, into)?;
        put(tail.as_bytes(), into)
    }

    /// Appends letter and time of a line of a cell, and its group's name.
    fn begin_cell(
        &mut self,
        time: Time,
        cell: &CellAt<'_>,
        into: &mut Vec<u8>,
    ) -> Result<(), OutOfMemory>
        ensures right { (m : Model) → IsNamed m cell.now → IsStart m self.old → IsStart m self.new }
        ensures letter { self.new.letter ≡ self.old.letter }
        ensures ok { (m : Model) → IsNamed m cell.now → IsStart m self.old → OnOk result
            (into.new.items ≡ into.old.items
            ++ (line_front self.old.letter time ++ cell.now.name.now ++ codes "(")) }
        ensures kept { take (length into.old.items) into.new.items ≡ into.old.items }
    {
        if self.is_of_group(time.ms(), cell.group) {
            return put(self.text.as_bytes(), into);
        }
        let before = into.len();
        put_group_begun(self.letter, time, cell.name, into)?;
        self.keep(Begins::Cells(time.ms(), cell.group), &into[before..]);
        Ok(())
    }

    /// Whether the text is what lines of the cells of this group at this instant begin with.
    #[inline(always)]
    fn is_of_group(&self, time: u32, group: u32) -> bool
        ensures { result ≡ true → self.now.of ≡ cells time group }
    {
        match self.of {
            Begins::Cells(of_time, of_group) => of_time == time && of_group == group,
            _ => false,
        }
    }

    /// Appends and keeps what lines of boxes begin with, where the text isn't that.
    fn begin_box(&mut self, time: Time, into: &mut Vec<u8>) -> Result<(), OutOfMemory>
        ensures right { (m : Model) → IsStart m self.old → IsStart m self.new }
        ensures letter { self.new.letter ≡ self.old.letter }
        ensures ok { (m : Model) → IsStart m self.old → OnOk result
            (into.new.items ≡ into.old.items ++ line_front self.old.letter time) }
        ensures kept { take (length into.old.items) into.new.items ≡ into.old.items }
    {
        if self.is_of_boxes(time.ms()) {
            return put(self.text.as_bytes(), into);
        }
        let before = into.len();
        put_begun(self.letter, time, into)?;
        self.keep(Begins::Boxes(time.ms()), &into[before..]);
        Ok(())
    }

    /// Whether the text is what lines of boxes at this instant begin with.
    #[inline(always)]
    fn is_of_boxes(&self, time: u32) -> bool
        ensures { result ≡ true → self.now.of ≡ Boxes time }
    {
        match self.of {
            Begins::Boxes(of_time) => of_time == time,
            _ => false,
        }
    }

    /// Keeps what such lines begin with.
    fn keep(&mut self, of: Begins, text: &[u8])
        ensures letter { self.new.letter ≡ self.old.letter }
        ensures right { (m : Model)
            → IsBeginning m self.old.letter of text.now → IsStart m self.new }
    {
        self.of = of;
        if !self.text.keep(text) {
            self.of = Begins::Nothing;
        }
    }
}

/// Appends letter and time of a line of a cell, and its group's name.
fn put_group_begun(
    letter: Letter,
    time: Time,
    name: &Name,
    into: &mut Vec<u8>,
) -> Result<(), OutOfMemory>
    ensures ok { OnOk result (into.new.items
        ≡ into.old.items ++ (line_front letter time ++ name.now ++ codes "(")) }
    ensures kept { take (length into.old.items) into.new.items ≡ into.old.items }
{
    put_begun(letter, time, into)?;
    put(name.as_bytes(), into)?;
    put(b"(", into)
}
