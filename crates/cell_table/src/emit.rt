// What a cell gives goes straight into a bag.
ghost use Rattle.std.specs.Prelude.{◌≡◌, ◌++◌, ◌<◌, length, OnOk};
ghost use Rattle.run_model.specs.CellStep.{cell_output, cell_emitted};
ghost use Rattle.cell_table.specs.Told.{bag_of_given, if_given, cell_at};
ghost use Rattle.cell_table.specs.Table.{changed_cell};

use crate::CellTable;
use atomic_face::PortNo;
use quantity::{OutOfMemory, Time, Value};
use rule_eval::Given;

impl CellTable {
    /// A cell gives, at each port that is due at this time, the value of its first pair, which
    /// leaves the list and is appended. Where memory is refused the cell has given too.
    #[inline(always)]
    pub fn emit_into(
        &mut self,
        i: u32,
        t: Time,
        into: &mut Vec<(PortNo, Value)>,
    ) -> Result<(), OutOfMemory>
        requires cell { i < length self.old.cells }
        ensures given { OnOk result (into.new.items
            ≡ into.old.items ++ cell_output t (cell_at self.old.cells i)) }
        ensures cell { self.new ≡ changed_cell i (cell_emitted t) self.old }
    {
        let width = self.width();
        if width == 1 {
            let only = self.emit_port(i, 0, t);
            return append_one(0, only, into);
        }
        self.emit_ports_into(i, t, into)
    }

    /// The same, port after port.
    #[inline(never)]
    fn emit_ports_into(
        &mut self,
        i: u32,
        t: Time,
        into: &mut Vec<(PortNo, Value)>,
    ) -> Result<(), OutOfMemory>
        requires cell { i < length self.old.cells }
        ensures given { OnOk result (into.new.items
            ≡ into.old.items ++ cell_output t (cell_at self.old.cells i)) }
        ensures cell { self.new ≡ changed_cell i (cell_emitted t) self.old }
    {
        let given = self.emit(i, t);
        append_given(given, into)
    }
}

/// Appends what is given port by port.
fn append_given(given: Given, into: &mut Vec<(PortNo, Value)>) -> Result<(), OutOfMemory>
    ensures { OnOk result (into.new.items ≡ into.old.items ++ bag_of_given given) }
{
    for port in 0..4u16 {
        append_one(port, given.values[usize::from(port)], into)?;
    }
    Ok(())
}

/// Appends a value at a port, where there is one.
#[inline(always)]
fn append_one(
    port: u16,
    value: Option<Value>,
    into: &mut Vec<(PortNo, Value)>,
) -> Result<(), OutOfMemory>
    ensures { OnOk result (into.new.items ≡ into.old.items ++ if_given (port, value)) }
{
    let Some(value) = value else {
        return Ok(());
    };
    let Ok(()) = into.push((PortNo(port), value)) else {
        return Err(OutOfMemory);
    };
    Ok(())
}
