// All ports and variables of all cells, in flat lists.
ghost use Rattle.std.specs.Prelude.{◌≡◌, ℕ, [], ◌∷◌, ◌++◌, ◌+◌, ◌*◌, ◌<◌, ◌≤◌, take, drop, length, slice_index_or, None, Some, OnOk, OnErr, IfOk, map, replicate};
ghost use Rattle.std.specs.List.{flat_map, enumerate_from};
ghost use Rattle.quantity.specs.declared.bounds.TheConstants.{MAX_CELLS};
ghost use Rattle.quantity.specs.declared.value.Value.{Value as AnyValue};
ghost use Rattle.rule_tree.specs.Ports.{taken_at, taken_by_port};
ghost use Rattle.quantity.specs.Delay.{delay_list_after};
ghost use Rattle.run_model.specs.CellStep.{first_time, port_emitted, port_took, cell_next, cell_output, cell_emitted};
ghost use Rattle.cell_table.specs.Told.{Tells, bag_of_given, if_given, cell_at, values_emitted, values_computed, AreEmitted};
ghost use Rattle.quantity.specs.Times.{earlier};
ghost use Rattle.cell_table.specs.Told.{OnlyCell};
ghost use Rattle.delay_lines.specs.Lists.{list_of, ChangesList};
ghost use Rattle.cell_table.specs.Table.{TookFirst};
ghost use Rattle.cell_table.specs.Table.{table_at_start, waits_at_0, pair_at, IsTable, HasShape, with_variables, changed_cell, changed_port, changed_ports, port_at, given_by_port};

use crate::Cell;
use delay_lines::Delays;
use quantity::{DelayKind, OutOfMemory, PackedValue, Time, Value, earlier};
use rule_eval::Given;
use std::alloc::{AllocError, Global};
use std::marker::Model;

/// The cells of a group in flat lists. It is seen as their states, and the numbers of their ports
/// and variables.
#[derive(Drop)]
pub struct CellTable {
    // How many ports a cell has, `out` included, and how many variables.
    pub(crate) port_count: usize,
    pub(crate) variable_count: usize,
    cells: u32,
    // Port p of cell i stands at i * port_count + p, in these two lists and among the delay lists.
    pub(crate) emitted: Vec<PackedValue>,
    pub(crate) computed: Vec<PackedValue>,
    pub(crate) delays: Delays,
    // Variable k of cell i stands at i * variable_count + k.
    pub(crate) variables: Vec<Value>,
}

impl Model for CellTable {
    ghost use Rattle.cell_table.specs.Table.{Table, IsLaid, cells_in, port_in, variable_in};

    ghost Value = { Table };

    ghost view = { λ t. record {
      width = t.port_count;
      variables = t.variable_count;
      cells = cells_in (port_in t.emitted.items t.computed.items t.delays.lists)
          (variable_in t.variables.items) t.port_count t.variable_count t.cells;
    } };

    ghost invariant = { λ t. IsLaid t.cells t.port_count t.variable_count t.emitted.items
        t.computed.items t.delays.lists t.variables.items };
}

impl CellTable {
    /// Cells that each wait at 0 for their initial value, and at each further port for the value of
    /// that port.
    pub fn new(
        alloc: Global,
        outs: &[PackedValue],
        further: &[Value],
        variables: &[Value],
    ) -> Result<CellTable, OutOfMemory>
        requires cells { length outs.now ≤ MAX_CELLS }
        requires ports { length further.now ≤ 3 }
        requires variables { length variables.now ≤ 8 }
        ensures { IfOk result (λ t. t ≡ table_at_start outs.now further.now variables.now) }
    {
        let packed = all_packed(alloc, further)?;
        let computed = port_values(alloc, outs, &packed)?;
        let emitted = undefined(alloc, computed.len())?;
        let delays = waiting(alloc, &computed)?;
        Ok(CellTable {
            port_count: further.len() + 1,
            variable_count: variables.len(),
            cells: outs.len() as u32,
            emitted,
            computed,
            delays,
            variables: repeated(alloc, outs, variables)?,
        })
    }

    /// How many cells there are.
    pub fn cells(&self) -> u32
        ensures value { result ≡ length self.now.cells }
        ensures table { IsTable self.now }
    {
        self.cells
    }

    /// How many ports a cell has.
    pub fn width(&self) -> usize
        ensures value { result ≡ self.now.width }
        ensures table { IsTable self.now }
    {
        self.port_count
    }

    /// What a port has emitted, and `?` where the cell has no such port.
    pub fn emitted(&self, i: u32, p: usize) -> Value
        requires cell { i < length self.now.cells }
        ensures { result ≡ slice_index_or (values_emitted
            (cell_at self.now.cells i)) p AnyValue.Undefined }
    {
        if p < self.port_count {
            value_in(&self.emitted, i as usize * self.port_count + p)
        } else {
            Value::Undefined
        }
    }

    /// What a port has computed, and `?` where the cell has no such port.
    pub fn computed(&self, i: u32, p: usize) -> Value
        requires cell { i < length self.now.cells }
        ensures { result ≡ slice_index_or (values_computed
            (cell_at self.now.cells i)) p AnyValue.Undefined }
    {
        if p < self.port_count {
            value_in(&self.computed, i as usize * self.port_count + p)
        } else {
            Value::Undefined
        }
    }

    /// The time of the first pair of a port, if there are any.
    #[inline(always)]
    pub fn next(&self, i: u32, p: usize) -> Option<Time>
        requires cell { i < length self.now.cells }
        ensures { result ≡ first_time (port_at self.now i p).pairs }
    {
        if p < self.port_count {
            let port = i * self.port_count as u32 + p as u32;
            next_in(&self.delays, port)
        } else {
            None
        }
    }

    /// What all ports of all cells have emitted: port p of cell i stands at i * width + p.
    pub fn all_emitted(&self) -> &[PackedValue]
        ensures long { length result.now ≡ length self.now.cells * self.now.width }
        ensures values { AreEmitted self.now.width self.now.cells result.now }
    {
        &self.emitted
    }

    /// What all ports of a cell have emitted, `out` first.
    pub fn emitted_at(&self, i: u32) -> &[PackedValue]
        requires cell { i < length self.now.cells }
        ensures values { result.now ≡ values_emitted (cell_at self.now.cells i) }
        ensures width { length result.now ≡ self.now.width }
    {
        piece(&self.emitted, i as usize * self.port_count, self.port_count)
    }

    /// The variables of a cell.
    pub fn variables_at(&self, i: u32) -> &[Value]
        requires cell { i < length self.now.cells }
        ensures values { result.now ≡ (cell_at self.now.cells i).variables }
        ensures count { length result.now ≡ self.now.variables }
    {
        piece(
            &self.variables,
            i as usize * self.variable_count,
            self.variable_count,
        )
    }

    /// A port that is due at this time emits the value of its first pair, which leaves the list.
    #[inline(always)]
    pub(crate) fn emit_port(&mut self, i: u32, p: usize, t: Time) -> Option<Value>
        requires cell { i < length self.old.cells }
        ensures given { result ≡ given_by_port t (port_at self.old i p) }
        ensures port { self.new ≡ changed_cell i (changed_port p (port_emitted t)) self.old }
    {
        if p < self.port_count {
            let port = i * self.port_count as u32 + p as u32;
            match first_at(&self.delays, port, t) {
                Some(pair) => {
                    self.delays.take_first(port);
                    self.emitted[port as usize] = PackedValue::of(pair.1);
                    Some(pair.1)
                }
                None => None,
            }
        } else {
            None
        }
    }

    /// A cell gives, at each port that is due at this time, the value of its first pair, which
    /// leaves the list.
    pub fn emit(&mut self, i: u32, t: Time) -> Given
        requires cell { i < length self.old.cells }
        ensures given { bag_of_given result ≡ cell_output t (cell_at self.old.cells i) }
        ensures cell { self.new ≡ changed_cell i (cell_emitted t) self.old }
    {
        let width = self.width();
        if width == 1 {
            let only = self.emit_port(i, 0, t);
            return Given {
                values: [only, None, None, None],
            };
        }
        Given {
            values: self.emit_ports(i, t),
        }
    }

    /// The same, port after port.
    #[inline(never)]
    fn emit_ports(&mut self, i: u32, t: Time) -> [Option<Value>; 4]
        requires cell { i < length self.old.cells }
        ensures given { flat_map if_given (enumerate_from 0 result)
            ≡ cell_output t (cell_at self.old.cells i) }
        ensures cell { self.new ≡ changed_cell i (cell_emitted t) self.old }
    {
        // For the proof: each cell has `width` ports, at most 4, and at most 8 variables.
        let _width = self.width();
        let a = self.emit_port(i, 0, t);
        let b = self.emit_port(i, 1, t);
        let c = self.emit_port(i, 2, t);
        let d = self.emit_port(i, 3, t);
        [a, b, c, d]
    }

    /// The least time for which a value waits at a port.
    #[inline(always)]
    pub fn next_of(&self, i: u32) -> Option<Time>
        requires cell { i < length self.now.cells }
        ensures { result ≡ cell_next (cell_at self.now.cells i) }
    {
        let width = self.width();
        if width == 1 {
            return self.next(i, 0);
        }
        self.next_of_ports(i)
    }

    /// The same, over all ports.
    #[inline(never)]
    fn next_of_ports(&self, i: u32) -> Option<Time>
        requires cell { i < length self.now.cells }
        ensures { result ≡ cell_next (cell_at self.now.cells i) }
    {
        // For the proof: each cell has `width` ports, at most 4, and at most 8 variables.
        let _width = self.width();
        let a = self.next(i, 0);
        let b = self.next(i, 1);
        let c = self.next(i, 2);
        let d = self.next(i, 3);
        let last = earlier(c, d);
        let rest = earlier(b, last);
        earlier(a, rest)
    }

    /// What a cell gave and computed last at each port, and its next time.
    pub fn tell(&self, i: u32) -> Cell
        requires cell { i < length self.now.cells }
        ensures { Tells result (cell_at self.now.cells i) }
    {
        let next = self.next_of(i);
        Cell {
            emitted: [
                self.emitted(i, 0),
                self.emitted(i, 1),
                self.emitted(i, 2),
                self.emitted(i, 3),
            ],
            computed: [
                self.computed(i, 0),
                self.computed(i, 1),
                self.computed(i, 2),
                self.computed(i, 3),
            ],
            next,
        }
    }

    /// A port takes a value that waits for this time, unless it is the one that it computed last.
    #[inline(always)]
    fn take_port(
        &mut self,
        i: u32,
        p: usize,
        kind: DelayKind,
        at: Time,
        value: Value,
    ) -> Result<(), OutOfMemory>
        requires cell { i < length self.old.cells }
        requires port { p < self.old.width }
        ensures ok { OnOk result (self.new
            ≡ changed_cell i (changed_port p (port_took kind at value)) self.old) }
        ensures err { OnErr result (self.new ≡ self.old) }
    {
        let port = i * self.port_count as u32 + p as u32;
        if value.is_same(&value_in(&self.computed, port as usize)) {
            return Ok(());
        }
        put(&mut self.delays, kind, port, at, value)?;
        self.computed[port as usize] = PackedValue::of(value);
        Ok(())
    }

    /// The same where a value is given and the cell has such a port.
    #[inline(always)]
    #[tactic(auto, using(crate::proofs::Taking::taken_past))]
    fn take_given(
        &mut self,
        i: u32,
        p: usize,
        kind: DelayKind,
        at: Time,
        given: Option<Value>,
    ) -> Result<(), OutOfMemory>
        requires cell { i < length self.old.cells }
        ensures ok { OnOk result (self.new
            ≡ changed_cell i (changed_port p (taken_at (port_took kind at) given)) self.old) }
        ensures err { OnErr result (self.new ≡ self.old) }
        ensures only { OnlyCell i self.old.cells self.new.cells }
        ensures shape { HasShape self.old self.new }
    {
        match given {
            None => Ok(()),
            Some(value) if p < self.width() => self.take_port(i, p, kind, at, value),
            Some(_) => Ok(()),
        }
    }

    /// Each port of a cell takes what is given to it, port after port. Where memory is refused, the
    /// ports before the refused one have taken theirs, and no others.
    #[inline(always)]
    pub fn take(
        &mut self,
        i: u32,
        kind: DelayKind,
        at: Time,
        given: &Given,
    ) -> Result<(), OutOfMemory>
        requires cell { i < length self.old.cells }
        ensures ok { OnOk result (self.new
            ≡ changed_cell i (changed_ports (taken_by_port
            (port_took kind at) given.now.values)) self.old) }
        ensures err { OnErr result
            (TookFirst (port_took kind at) given.now.values i self.old self.new) }
        ensures only { OnlyCell i self.old.cells self.new.cells }
        ensures shape { HasShape self.old self.new }
    {
        let width = self.width();
        if width == 1 {
            return self.take_given(i, 0, kind, at, given_at(given, 0));
        }
        self.take_ports(i, kind, at, given)
    }

    /// The same, port after port.
    #[inline(never)]
    fn take_ports(
        &mut self,
        i: u32,
        kind: DelayKind,
        at: Time,
        given: &Given,
    ) -> Result<(), OutOfMemory>
        requires cell { i < length self.old.cells }
        ensures ok { OnOk result (self.new ≡ changed_cell i
            (changed_ports (taken_by_port (port_took kind at) given.now.values)) self.old) }
        ensures err { OnErr result
            (TookFirst (port_took kind at) given.now.values i self.old self.new) }
        ensures only { OnlyCell i self.old.cells self.new.cells }
        ensures shape { HasShape self.old self.new }
    {
        // For the proof: each cell has `width` ports, at most 4, and at most 8 variables.
        let _width = self.width();
        self.take_given(i, 0, kind, at, given_at(given, 0))?;
        self.take_given(i, 1, kind, at, given_at(given, 1))?;
        self.take_given(i, 2, kind, at, given_at(given, 2))?;
        self.take_given(i, 3, kind, at, given_at(given, 3))?;
        Ok(())
    }

    /// The port `out` of a cell takes a value, as `take` does where no other port is given one. Where
    /// memory is refused, nothing changes.
    #[inline(always)]
    pub fn take_out(
        &mut self,
        i: u32,
        kind: DelayKind,
        at: Time,
        value: Value,
    ) -> Result<(), OutOfMemory>
        requires cell { i < length self.old.cells }
        ensures ok { OnOk result (self.new ≡ changed_cell i (changed_ports (taken_by_port
            (port_took kind at) (Some value ∷ None ∷ None ∷ None ∷ []))) self.old) }
        ensures err { OnErr result (self.new ≡ self.old) }
        ensures only { OnlyCell i self.old.cells self.new.cells }
        ensures shape { HasShape self.old self.new }
    {
        // For the proof: a cell has at least one port.
        let _width = self.port_count;
        self.take_port(i, 0, kind, at, value)
    }

    /// The variables of a cell have these values.
    pub fn set_variables(&mut self, i: u32, values: &[Value])
        requires cell { i < length self.old.cells }
        requires count { length values.now ≡ self.old.variables }
        ensures { self.new ≡ changed_cell i (with_variables values.now) self.old }
    {
        // For the proof: each cell has `width` ports, at most 4, and at most 8 variables.
        let _cells = self.cells();
        if values.is_empty() {
            return;
        }
        let first = i as usize * self.variable_count;
        write(&mut self.variables, first, values);
    }
}

/// The same values.
fn all_packed(alloc: Global, values: &[Value]) -> Result<Vec<PackedValue>, OutOfMemory>
    ensures { IfOk result (λ packed. packed.items ≡ values.now) }
{
    let mut packed = Vec::new(alloc);
    for value in values {
        add_packed(&mut packed, *value)?;
    }
    Ok(packed)
}

fn add_packed(packed: &mut Vec<PackedValue>, value: Value) -> Result<(), OutOfMemory>
    ensures { OnOk result (packed.new.items ≡ packed.old.items ++ value ∷ []) }
{
    packed
        .push(PackedValue::of(value))
        .map_err(AllocError::from)?;
    Ok(())
}

/// The values of all ports of all cells at the start.
fn port_values(
    alloc: Global,
    outs: &[PackedValue],
    further: &[PackedValue],
) -> Result<Vec<PackedValue>, OutOfMemory>
    ensures { IfOk result (λ values. values.items ≡ flat_map (λ v. v ∷ further.now) outs.now) }
{
    let mut values = Vec::with_capacity(alloc, outs.len())?;
    if further.is_empty() {
        values.extend_from_slice(outs)?;
        return Ok(values);
    }
    for value in outs {
        add_ports(&mut values, value, further)?;
    }
    Ok(values)
}

fn add_ports(
    values: &mut Vec<PackedValue>,
    value: &PackedValue,
    further: &[PackedValue],
) -> Result<(), OutOfMemory>
    ensures { OnOk result (values.new.items ≡ values.old.items ++ value.now ∷ further.now) }
{
    values.push(*value).map_err(AllocError::from)?;
    values.extend_from_slice(further)?;
    Ok(())
}

/// The values of all variables of all cells at the start.
fn repeated(
    alloc: Global,
    outs: &[PackedValue],
    variables: &[Value],
) -> Result<Vec<Value>, OutOfMemory>
    ensures { IfOk result (λ values. values.items ≡ flat_map (λ _. variables.now) outs.now) }
{
    let mut values = Vec::new(alloc);
    if variables.is_empty() {
        return Ok(values);
    }
    for value in outs {
        // Their values don't matter: there is a piece for each.
        let _out = value;
        values.extend_from_slice(variables)?;
    }
    Ok(values)
}

/// So many times `?`.
fn undefined(alloc: Global, n: usize) -> Result<Vec<PackedValue>, OutOfMemory>
    ensures { IfOk result (λ values. values.items ≡ replicate n AnyValue.Undefined) }
{
    Ok(vec![in alloc; PackedValue::of(Value::Undefined); n]?)
}

/// A list for each value, which waits there for 0.
fn waiting(alloc: Global, values: &[PackedValue]) -> Result<Delays, OutOfMemory>
    ensures { IfOk result (λ delays. delays.lists ≡ map waits_at_0 values.now) }
{
    Delays::all_at(alloc, start(), values)
}

/// The time 0.
fn start() -> Time
    ensures { result ≡ 0 }
{
    match Time::new(0) {
        Some(time) => time,
        None => unreachable!(),
    }
}

/// A value waits in a list for a time, in the way of this kind. It is not lent: what is lent is laid
/// in memory, also where a cell takes the value that it has and nothing waits.
#[inline(always)]
fn put(
    delays: &mut Delays,
    kind: DelayKind,
    port: u32,
    at: Time,
    value: Value,
) -> Result<(), OutOfMemory>
    requires { port < length delays.old.lists }
    ensures ok { OnOk result (ChangesList delays.old delays.new port
        (delay_list_after kind (list_of delays.old port) at value)) }
    ensures err { OnErr result (delays.new.lists ≡ delays.old.lists) }
{
    match kind {
        DelayKind::Transport => delays.transport(port, at, value),
        DelayKind::Inertial => put_alone(delays, port, at, value),
    }
}

/// A value waits alone in a list. It takes memory only where the list was empty and nothing is
/// spare.
#[inline(never)]
fn put_alone(delays: &mut Delays, port: u32, at: Time, value: Value) -> Result<(), OutOfMemory>
    requires { port < length delays.old.lists }
    ensures ok { OnOk result (ChangesList delays.old delays.new port ((at, value) ∷ [])) }
    ensures err { OnErr result (delays.new.lists ≡ delays.old.lists) }
{
    match delays.first(port) {
        None => delays.transport(port, at, value),
        Some(_) => {
            delays.inertial(port, at, value);
            Ok(())
        }
    }
}

/// What is given at a port, if anything is.
#[inline(always)]
fn given_at(given: &Given, port: usize) -> Option<Value>
    ensures { result ≡ slice_index_or given.now.values port None }
{
    match given.values.get(port) {
        Some(value) => *value,
        None => None,
    }
}

/// The value that stands at this place, or `?`.
#[inline(always)]
pub(crate) fn value_at(values: &[PackedValue], k: usize) -> Value
    ensures { result ≡ slice_index_or values.now k AnyValue.Undefined }
{
    match values.get(k) {
        Some(value) => value.get(),
        None => Value::Undefined,
    }
}

/// The value that stands at this place, of which it is known that it is there.
#[inline(always)]
fn value_in(values: &[PackedValue], k: usize) -> Value
    requires { k < length values.now }
    ensures { result ≡ slice_index_or values.now k AnyValue.Undefined }
{
    values[k].get()
}

/// Writes values from a place on.
pub(crate) fn write(values: &mut [Value], first: usize, new: &[Value])
    requires { first + length new.now ≤ length values.old }
    ensures { values.new ≡ take first values.old ++ new.now
        ++ drop (first + length new.now) values.old }
{
    let part = &mut values[first..first + new.len()];
    part.copy_from_slice(new);
}

/// So many values from a place on.
fn piece<T>(values: &[T], first: usize, width: usize) -> &[T]
    requires { first + width ≤ length values.now }
    ensures values { result.now ≡ take width (drop first values.now) }
    ensures length { length result.now ≡ width }
{
    &values[first..first + width]
}

/// The time of the first pair of a list.
#[inline(always)]
fn next_in(delays: &Delays, port: u32) -> Option<Time>
    requires { port < length delays.now.lists }
    ensures { result ≡ first_time (list_of delays.now port) }
{
    let pair = delays.first(port)?;
    Some(pair.0)
}

/// The first pair of a list, where its time is this one.
fn first_at(delays: &Delays, port: u32, t: Time) -> Option<(Time, Value)>
    requires { port < length delays.now.lists }
    ensures { result ≡ pair_at t (list_of delays.now port) }
{
    let pair = delays.first(port)?;
    if pair.0.ms() == t.ms() {
        Some(pair)
    } else {
        None
    }
}
