// Spaces, their values and zones: each call that can want memory, with ample memory.
use crate::offsets::beside;
use cell_grid::{Border, Grid, Initial, Zones};
use quantity::{PackedValue, Value};
use std::test::Fail;

#[test]
fn watchers_in_place_of_what_was_there(rt: HostRuntime) -> Result<(), Fail> {
    let grid = Grid::new(1, 5, None, Border::NoWrapped).ok_or("no space")?;
    assert!(rt; 4 < grid.cells());
    let mut found = Vec::from_slice(rt.alloc(), &[77, 7, 7])?;
    grid.watchers(4, &[beside(1), beside(2)], &mut found)?;
    assert_eq!(rt; found.as_slice(), [2, 3].as_slice());
    Ok(())
}

#[test]
fn a_value_in_each_cell(rt: HostRuntime) -> Result<(), Fail> {
    let grid = Grid::new(1, 2, None, Border::NoWrapped).ok_or("no space")?;
    let initial = Initial::filled(rt.alloc(), &grid, Value::Undefined)?;
    let undefined = PackedValue::of(Value::Undefined);
    assert_eq!(rt; initial.values(), [undefined; 2].as_slice());
    Ok(())
}

#[test]
fn a_zone_is_added(rt: HostRuntime) -> Result<(), Fail> {
    let grid = Grid::new(1, 3, None, Border::NoWrapped).ok_or("no space")?;
    let mut zones = Zones::new(rt.alloc());
    let name = zones.add(rt.alloc(), b"r { (0,0)..(0,1) }", &grid)?;
    assert_eq!(rt; name.as_bytes(), b"r".as_slice());
    Ok(())
}
