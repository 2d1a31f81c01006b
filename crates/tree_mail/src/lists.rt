// The lists at ports: what the links into them bring, as the rows of a processor say.
ghost use Rattle.std.specs.Prelude.{◌≡◌, ◌++◌, ◌∷◌, [], map, IfOk, OnOk};
ghost use Rattle.std.specs.List.{flat_map};
ghost use Rattle.run_model.specs.Cycle.{at_port};
ghost use Rattle.tree_tables.specs.Stations.{ref_of, row_of};
ghost use Rattle.served_tree.specs.Service.{at_number};
ghost use Rattle.served_tree.specs.Rows.{values_at_ref, read_rows as rows_read};
ghost use Rattle.tree_mail.specs.Notes.{notes_of, all_heard};

use crate::kept::{Kept, given_by};
use atomic_face::PortNo;
use quantity::{OutOfMemory, Value};
use std::alloc::{AllocError, Global};
use tree_tables::Ref;

/// What the rows of ports read, where this bag stands at the own inputs.
pub fn read_rows(
    alloc: Global,
    bag: &[(PortNo, Value)],
    kept: &[Kept],
    rows: &[Vec<Ref>],
) -> Result<Vec<(PortNo, Value)>, OutOfMemory>
    ensures { IfOk result (λ values. values.items
        ≡ rows_read bag.now (all_heard (notes_of kept.now)) (map row_of rows.now)) }
{
    let mut values = Vec::new(alloc);
    for (i, row) in rows.iter().enumerate() {
        let port = u16::try_from(i).map_err(|_| OutOfMemory)?;
        read_row(PortNo(port), bag, kept, row, &mut values)?;
    }
    Ok(values)
}

/// What one row reads, at this port, behind what stands there.
fn read_row(
    port: PortNo,
    bag: &[(PortNo, Value)],
    kept: &[Kept],
    row: &[Ref],
    into: &mut Vec<(PortNo, Value)>,
) -> Result<(), OutOfMemory>
    ensures { OnOk result (into.new.items ≡ into.old.items
        ++ at_port (
          port.0,
          flat_map (values_at_ref bag.now (all_heard (notes_of kept.now)))
              (map ref_of row.now),
        )) }
{
    for begin in row {
        read_one(port, bag, kept, *begin, into)?;
    }
    Ok(())
}

/// What stands where one link begins.
fn read_one(
    port: PortNo,
    bag: &[(PortNo, Value)],
    kept: &[Kept],
    begin: Ref,
    into: &mut Vec<(PortNo, Value)>,
) -> Result<(), OutOfMemory>
    ensures { OnOk result (into.new.items ≡ into.old.items
        ++ at_port (port.0, values_at_ref bag.now (all_heard (notes_of kept.now)) (ref_of begin))) }
{
    match begin {
        Ref::OwnInput(number) => put_at(port, bag, number, into),
        Ref::OutputOf {
            processor,
            port: number,
        } => put_at(port, given_by(kept, processor), number, into),
    }
}

/// The values at a port's number, at another port.
fn put_at(
    port: PortNo,
    bag: &[(PortNo, Value)],
    number: u32,
    into: &mut Vec<(PortNo, Value)>,
) -> Result<(), OutOfMemory>
    ensures { OnOk result (into.new.items ≡ into.old.items
        ++ at_port (port.0, at_number bag.now number)) }
{
    for there in bag {
        put_one(port, there, number, into)?;
    }
    Ok(())
}

/// One value at another port, where it stands at this number.
fn put_one(
    port: PortNo,
    there: &(PortNo, Value),
    number: u32,
    into: &mut Vec<(PortNo, Value)>,
) -> Result<(), OutOfMemory>
    ensures { OnOk result (into.new.items ≡ into.old.items
        ++ at_port (port.0, at_number (there.now ∷ []) number)) }
{
    if u32::from(there.0.0) != number {
        return Ok(());
    }
    into.push((port, there.1)).map_err(AllocError::from)?;
    Ok(())
}
