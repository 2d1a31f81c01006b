// The line of a leaf, without its end. A refusal may leave more behind what was there.
ghost use Rattle.std.specs.Prelude.{◌≡◌, length, take, OnOk};
ghost use Rattle.model_tree.specs.Tree.{Leaf};
ghost use Rattle.model_leaves.specs.PlaneTexts.{leaf_text};
ghost use Rattle.model_leaves.specs.Leaves.{Appends, IsLeafOf};
ghost use Rattle.run_model.specs.Cycle.{cell_state};
ghost use Rattle.cell_table.specs.Saved.{cell_of_saved};
ghost use Rattle.text_forms.specs.StateText.{leaf_line};
ghost use Rattle.state_lines.specs.LeafLines.{box_line};

use crate::words::{put_ports, put_values, put_words};
use cell_table::CellState;
use model_leaves::Model;
use quantity::{OutOfMemory, put};

/// Appends the line of a cell in this state.
pub fn put_cell(
    leaf: u32,
    model: &Model,
    state: &CellState,
    into: &mut Vec<u8>,
) -> Result<(), OutOfMemory>
    requires { IsLeafOf model.now leaf }
    ensures ok { OnOk result (Appends model.now leaf
        (λ (l : Leaf). leaf_line l (cell_state (cell_of_saved state.now)))
        into.old.items into.new.items) }
    ensures kept { take (length into.old.items) into.new.items ≡ into.old.items }
{
    put(b"cell ", into)?;
    put_leaf(leaf, model, into)?;
    put_ports(&state.ports, into)?;
    put_values(&state.variables, into)
}

/// Appends the line of a box whose state has these words.
pub fn put_box(
    leaf: u32,
    model: &Model,
    words: &[i64],
    into: &mut Vec<u8>,
) -> Result<(), OutOfMemory>
    requires { IsLeafOf model.now leaf }
    ensures ok { OnOk result (Appends model.now leaf (λ (l : Leaf). box_line l words.now)
        into.old.items into.new.items) }
    ensures kept { take (length into.old.items) into.new.items ≡ into.old.items }
{
    put(b"box ", into)?;
    put_leaf(leaf, model, into)?;
    put_words(words, into)
}

/// Appends how a leaf is called.
fn put_leaf(leaf: u32, model: &Model, into: &mut Vec<u8>) -> Result<(), OutOfMemory>
    requires { IsLeafOf model.now leaf }
    ensures ok { OnOk result (Appends model.now leaf leaf_text into.old.items into.new.items) }
    ensures kept { take (length into.old.items) into.new.items ≡ into.old.items }
{
    model.leaf_text(leaf, into)
}
