// The state of a cell, taken from the flat lists and written into them.
ghost use Rattle.std.specs.Prelude.{◌≡◌, [], ◌∷◌, ◌++◌, ◌+◌, ◌<◌, ◌≤◌, length, map, take, OnOk, OnErr, IfOk};
ghost use Rattle.std.specs.List.{All, sum_by};
ghost use Rattle.quantity.specs.declared.value.Value.{Value as AnyValue};
ghost use Rattle.quantity.specs.Delay.{put_pair};
ghost use Rattle.delay_lines.specs.Lists.{list_of, ChangesList};
ghost use Rattle.run_model.specs.CellStep.{PortState as Port};
ghost use Rattle.run_model.specs.Waiting.{RisesFrom};
ghost use Rattle.cell_table.specs.Told.{cell_at};
ghost use Rattle.cell_table.specs.Saved.{port_of_saved, cell_of_saved, pair_number};
ghost use Rattle.cell_table.specs.Table.{port_at, changed_cell, with_piece};

use crate::table::{CellTable, value_at, write};
use crate::{CellState, PortState};
use delay_lines::Delays;
use quantity::{OutOfMemory, PackedValue, Time, Value};
use std::alloc::{AllocError, Global};

impl CellTable {
    /// The state of a cell.
    pub fn state(&self, alloc: Global, i: u32) -> Result<CellState, OutOfMemory>
        requires { i < length self.now.cells }
        ensures { IfOk result (λ c. cell_of_saved c ≡ cell_at self.now.cells i) }
    {
        let mut ports = Vec::new(alloc);
        for p in 0..self.width() {
            let port = self.port_state(alloc, i, p)?;
            add_port(&mut ports, port)?;
        }
        let mut variables = Vec::new(alloc);
        variables.extend_from_slice(self.variables_at(i))?;
        Ok(CellState { ports, variables })
    }

    /// The state of a port of a cell.
    fn port_state(&self, alloc: Global, i: u32, p: usize) -> Result<PortState, OutOfMemory>
        requires cell { i < length self.now.cells }
        requires port { p < self.now.width }
        ensures { IfOk result (λ port. port_of_saved port ≡ port_at self.now i p) }
    {
        let port = i * self.port_count as u32 + p as u32;
        let mut pairs = Vec::new(alloc);
        self.delays.pairs(port, &mut pairs)?;
        Ok(PortState {
            emitted: value_at(&self.emitted, port as usize),
            computed: value_at(&self.computed, port as usize),
            pairs,
        })
    }

    /// A cell has this state. Room for all its pairs is made first, so that without memory nothing
    /// changes.
    pub fn put(&mut self, i: u32, state: &CellState) -> Result<(), OutOfMemory>
        requires cell { i < length self.old.cells }
        requires ports { length state.now.ports.items ≡ self.old.width }
        requires variables { length state.now.variables.items ≡ self.old.variables }
        requires rising { All (λ (p : Port). RisesFrom 0 p.pairs) (cell_of_saved state.now).ports }
        ensures ok { OnOk result (self.new
            ≡ changed_cell i (λ _. cell_of_saved state.now) self.old) }
        ensures err { OnErr result (self.new ≡ self.old) }
    {
        let pairs = number_of_pairs(&state.ports)?;
        self.delays.reserve(pairs)?;
        let first = i as usize * self.port_count;
        write_lists(&mut self.delays, first, &state.ports);
        write_emitted(&mut self.emitted, first, &state.ports);
        write_computed(&mut self.computed, first, &state.ports);
        let variable = i as usize * self.variable_count;
        write(&mut self.variables, variable, &state.variables);
        Ok(())
    }
}

fn add_port(ports: &mut Vec<PortState>, port: PortState) -> Result<(), OutOfMemory>
    ensures { OnOk result (map port_of_saved ports.new.items
        ≡ map port_of_saved ports.old.items ++ port_of_saved port ∷ []) }
{
    ports.push(port).map_err(AllocError::from)?;
    Ok(())
}

/// How many pairs wait at all these ports.
#[tactic(auto, using(std::proofs::lemmas::List::Sums::sum_by_more))]
fn number_of_pairs(ports: &[PortState]) -> Result<usize, OutOfMemory>
    ensures { IfOk result (λ n. n ≡ sum_by pair_number ports.now) }
{
    let mut number: usize = 0;
    for port in ports {
        number = more(number, port.pairs.len())?;
    }
    Ok(number)
}

/// The sum of two numbers of pairs. One past all numbers has no room.
fn more(a: usize, b: usize) -> Result<usize, OutOfMemory>
    ensures { IfOk result (λ n. n ≡ a + b) }
{
    match a.checked_add(b) {
        Some(n) => Ok(n),
        None => Err(OutOfMemory),
    }
}

/// What the ports emitted, from a place on.
fn write_emitted(values: &mut [PackedValue], first: usize, ports: &[PortState])
    requires { first + length ports.now ≤ length values.old }
    ensures { values.new ≡ with_piece first (map (λ p. p.emitted) ports.now) values.old }
{
    for (p, port) in ports.iter().enumerate() {
        values[first + p] = PackedValue::of(port.emitted);
    }
}

/// What the ports computed, from a place on.
fn write_computed(values: &mut [PackedValue], first: usize, ports: &[PortState])
    requires { first + length ports.now ≤ length values.old }
    ensures { values.new ≡ with_piece first (map (λ p. p.computed) ports.now) values.old }
{
    for (p, port) in ports.iter().enumerate() {
        values[first + p] = PackedValue::of(port.computed);
    }
}

/// The lists of the ports, from a place on. There is room for all their pairs.
fn write_lists(delays: &mut Delays, first: usize, ports: &[PortState])
    requires within { first + length ports.now ≤ length delays.old.lists }
    requires places { length delays.old.lists ≤ 4194304 }
    requires rising { All (λ p. RisesFrom 0 p.pairs.items) ports.now }
    requires room { sum_by pair_number ports.now ≤ delays.old.spare }
    ensures { delays.new.lists ≡ with_piece first
        (map (λ p. p.pairs.items) ports.now) delays.old.lists }
{
    for (p, port) in ports.iter().enumerate() {
        write_list(delays, (first + p) as u32, &port.pairs);
    }
}

/// A list becomes these pairs, for which there is room.
fn write_list(delays: &mut Delays, port: u32, pairs: &[(Time, Value)])
    requires exists { port < length delays.old.lists }
    requires rising { RisesFrom 0 pairs.now }
    requires room { length pairs.now ≤ delays.old.spare }
    ensures list { ChangesList delays.old delays.new port pairs.now }
    ensures spare { delays.old.spare ≤ delays.new.spare + length pairs.now }
{
    clear(delays, port);
    for pair in pairs {
        add_pair(delays, port, pair.0, pair.1);
    }
}

/// All pairs leave a list.
fn clear(delays: &mut Delays, port: u32)
    requires exists { port < length delays.old.lists }
    ensures list { ChangesList delays.old delays.new port [] }
    ensures spare { delays.old.spare ≤ delays.new.spare }
{
    while delays.first(port).is_some() {
        delays.take_first(port);
    }
}

/// A value waits in a list, in a place that is spare.
fn add_pair(delays: &mut Delays, port: u32, at: Time, value: Value)
    requires exists { port < length delays.old.lists }
    requires room { 1 ≤ delays.old.spare }
    ensures list { ChangesList delays.old delays.new port
        (put_pair at value (list_of delays.old port)) }
    ensures spare { delays.old.spare ≤ delays.new.spare + 1 }
{
    match delays.transport(port, at, value) {
        Ok(()) => {}
        Err(_) => unreachable!(),
    }
}
