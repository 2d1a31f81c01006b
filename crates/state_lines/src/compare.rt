// The line of a leaf, read: a state is read from its words, and its own line is compared with it.
ghost use Rattle.std.specs.Prelude.{◌≡◌, map, drop, IfOk, IfSome, IsTrue};
ghost use Rattle.std.specs.List.{list_all};
ghost use Rattle.std.specs.Option.{option_map};
ghost use Rattle.std.specs.Str.{bytes_eq};
ghost use Rattle.model_tree.specs.Tree.{Leaf};
ghost use Rattle.model_leaves.specs.Leaves.{AtLeaf, IsLeafOf};
ghost use Rattle.run_model.specs.Cycle.{cell_state};
ghost use Rattle.cell_table.specs.Saved.{cell_of_saved, port_of_saved};
ghost use Rattle.text_forms.specs.LeafStates.{is_port_state, rises};
ghost use Rattle.text_forms.specs.StateOf.{read_leaf, line_words};
ghost use Rattle.state_lines.specs.Left.{all_left};
ghost use Rattle.state_lines.specs.LeafLines.{box_in, has_numbers, IsCellWith};

use crate::leaf_line::{put_box, put_cell};
use crate::read::{Words, next_word, read_cell, read_numbers};
use cell_table::{CellState, PortState};
use model_leaves::Model;
use quantity::{MAX_TIME, OutOfMemory, Time, Value};
use std::alloc::Global;

/// The state of a cell that a line is the line of, if it is one: of a group with so many ports,
/// `out` among them, and so many variables, waiting for times after this one. What `scratch` holds
/// is lost.
pub fn cell_in_line(
    alloc: Global,
    model: &Model,
    leaf: u32,
    ports: usize,
    variables: usize,
    t: Time,
    line: &[u8],
    scratch: &mut Vec<u8>,
) -> Result<Option<CellState>, OutOfMemory>
    requires { IsLeafOf model.now leaf }
    ensures found { IfOk result (λ found. AtLeaf model.now leaf (λ (l : Leaf).
        IsCellWith ports variables l
        → read_leaf t l line.now ≡ option_map (λ c. cell_state (cell_of_saved c)) found)) }
    ensures numbers { IfOk result (λ found. IfSome found (λ c.
        IsTrue (has_numbers t ports variables (cell_of_saved c)))) }
{
    let mut words = state_words(line);
    let Some(state) = read_cell(alloc, ports, &mut words)? else {
        return Ok(None);
    };
    if !is_cell_state(t, ports, variables, &state) {
        return Ok(None);
    }
    scratch.clear();
    put_cell(leaf, model, &state, scratch)?;
    if same_bytes(scratch, line) {
        Ok(Some(state))
    } else {
        Ok(None)
    }
}

/// The numbers of a box that a line is the line of, if it is one. Whether they are a state of its
/// class, and when it moves next, is for the box to say. What `scratch` holds is lost.
pub fn numbers_in_line(
    alloc: Global,
    model: &Model,
    leaf: u32,
    line: &[u8],
    scratch: &mut Vec<u8>,
) -> Result<Option<Vec<i64>>, OutOfMemory>
    requires { IsLeafOf model.now leaf }
    ensures { IfOk result (λ found. AtLeaf model.now leaf (λ (l : Leaf).
        box_in l line.now ≡ option_map (λ v. v.items) found)) }
{
    let mut words = state_words(line);
    let Some(numbers) = read_numbers(alloc, &mut words)? else {
        return Ok(None);
    };
    scratch.clear();
    put_box(leaf, model, &numbers, scratch)?;
    if same_bytes(scratch, line) {
        Ok(Some(numbers))
    } else {
        Ok(None)
    }
}

/// Whether two texts are the same.
fn same_bytes(written: &[u8], line: &[u8]) -> bool
    ensures { result ≡ bytes_eq written.now line.now }
{
    written == line
}

/// The words of a leaf's line behind its first two, which say what it is and how it is called.
fn state_words(line: &[u8]) -> Words<'_>
    ensures { all_left result ≡ drop 2 (line_words line.now) }
{
    let mut words = Words { left: Some(line) };
    let _kind = next_word(&mut words);
    let _name = next_word(&mut words);
    words
}

/// Whether a cell's lists rise from behind a time, and it has so many ports and variables.
fn is_cell_state(t: Time, ports: usize, variables: usize, state: &CellState) -> bool
    ensures { result ≡ has_numbers t ports variables (cell_of_saved state.now) }
{
    are_port_states(t, &state.ports)
        && state.ports.len() == ports
        && state.variables.len() == variables
}

/// Whether the lists of all ports rise from behind a time.
fn are_port_states(t: Time, ports: &[PortState]) -> bool
    ensures { result ≡ list_all (is_port_state t) (map port_of_saved ports.now) }
{
    let mut left = ports;
    while let [port, behind @ ..] = left {
        if !rises(t, &port.pairs) {
            return false;
        }
        left = behind;
    }
    true
}

/// Whether times rise from behind this one.
fn rises(before: Time, pairs: &[(Time, Value)]) -> bool
    ensures { result ≡ rises before pairs.now }
{
    let mut last = before;
    let mut left = pairs;
    while let [pair, behind @ ..] = left {
        if pair.0.ms() <= last.ms() || MAX_TIME < pair.0.ms() {
            return false;
        }
        last = pair.0;
        left = behind;
    }
    true
}
