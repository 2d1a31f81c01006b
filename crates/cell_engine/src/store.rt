// The cells of a group, and what one step makes of a cell.
ghost use Rattle.std.specs.Prelude.{◌≡◌, ℕ, ◌+◌, ◌<◌, ◌≤◌, [], ◌∷◌, ◌++◌, length, map, OnOk, OnErr, IfOk, IsTrue, Ok, Some, slice_get, slice_index_or};
ghost use Rattle.std.specs.List.{All};
ghost use Rattle.quantity.specs.declared.bounds.TheConstants.{MAX_CELLS, MAX_DELAY};
ghost use Rattle.quantity.specs.declared.value.Value.{Value as AnyValue};
ghost use Rattle.atomic_face.specs.declared.class.PortNo.{PortNo as Port};
ghost use Rattle.model_tree.specs.Tree.{Group};
ghost use Rattle.model_tree.specs.Pull.{cell_ports};
ghost use Rattle.model_tree.specs.Sound.{is_sound_group};
ghost use Rattle.model_tree.specs.Stands.{group_of};
ghost use Rattle.run_model.specs.CellStep.{initial_cell, cell_next, cell_emitted, cell_output};
ghost use Rattle.cell_engine.specs.Layout.{StandsFor};
ghost use Rattle.cell_table.specs.Table.{table_at_start};
ghost use Rattle.cell_table.specs.Told.{cell_at, values_emitted, values_computed, Tells, bag_of_given, OnlyCell};
ghost use Rattle.cell_table.specs.Saved.{cell_of_saved};
ghost use Rattle.cell_engine.specs.Cells.{Cells, with_cell_state, computed_at, Computes, CanBePut};

use crate::bag::{Turn, move_cell, take_if_woken};
use crate::desk::Desk;
use crate::make::{plan_of, table_of};
use crate::memo::Memo;
use crate::plan::Plan;
use crate::tallies::follow;
use crate::work::work_for;
use crate::{Cell, CellState, Computed, Steps};
use atomic_face::PortNo;
use cell_table::CellTable;
use model_tree::CellGroup;
use quantity::{Name, OutOfMemory, Time, Value};
use rule_eval::{Given, Tally};
use run_model::LeafStop;
use std::alloc::Global;
use std::marker::Model;
use std::sync::ledger::Ledger;

/// The cells of a group. It is seen as their states, and as what it keeps of the group.
#[derive(Drop)]
pub struct CellStore {
    plan: Plan,
    table: CellTable,
    desk: Desk,
    // For each cell what is counted among its neighbours; none where no rule counts.
    tallies: Vec<Tally>,
    // What rules gave for an own value and counts.
    memo: Memo,
}

impl Model for CellStore {
    ghost use Rattle.std.specs.Coded.{codes};
    ghost use Rattle.rule_forms.specs.Signs.{expr_code};
    ghost use Rattle.cell_engine.specs.Cells.{Cells};
    ghost use Rattle.cell_engine.specs.Step.{near};
    ghost use Rattle.cell_engine.specs.Store.{IsAtDesk};
    ghost use Rattle.cell_engine.specs.Tallied.{outs_of, AreKept};
    ghost use Rattle.cell_engine.specs.Known.{IsMemo};

    ghost Value = { Cells };

    ghost coded = { Prim.hlevel (codes, expr_code (Prim.hlevel codes)) };

    ghost view = { λ s. record { layout = s.plan; cells = s.table.cells } };

    ghost invariant = { λ s. IsAtDesk s.plan s.table s.desk
        × AreKept (near s.plan) (outs_of s.table) s.tallies.items
        × IsMemo s.plan s.memo.own s.memo.known.items };
}

impl CellStore {
    /// The cells of a group before the first cycle. Each waits for its initial values at 0.
    pub fn new(alloc: Global, group: &CellGroup) -> Result<CellStore, OutOfMemory>
        requires { IsTrue (is_sound_group (group_of group.now)) }
        ensures layout { IfOk result (λ s. StandsFor (group_of group.now) s.layout) }
        ensures cells { IfOk result (λ s. s.cells
            ≡ map (initial_cell (group_of group.now)) group.now.initial) }
    {
        let plan = plan_of(alloc, group)?;
        let table = table_of(alloc, group)?;
        CellStore::at_start(alloc, group, plan, table)
    }

    /// The store of a group's plan and of its cells at their start.
    fn at_start(
        alloc: Global,
        group: &CellGroup,
        plan: Plan,
        table: CellTable,
    ) -> Result<CellStore, OutOfMemory>
        requires sound { IsTrue (is_sound_group (group_of group.now)) }
        requires plan { StandsFor (group_of group.now) plan }
        requires table { table ≡ table_at_start group.now.initial group.now.port_values.items
            group.now.variable_values.items }
        ensures layout { IfOk result (λ s. s.layout ≡ plan) }
        ensures cells { IfOk result (λ s. s.cells ≡ table.cells) }
    {
        let work = work_for(alloc, &plan, &group.offsets)?;
        Ok(CellStore {
            plan,
            table,
            desk: work.desk,
            tallies: work.tallies,
            memo: work.memo,
        })
    }

    /// How many cells there are.
    pub fn cells(&self) -> u32
        ensures value { result ≡ length self.now.cells }
        ensures most { result ≤ MAX_CELLS }
    {
        self.table.cells()
    }

    /// What a cell gave and computed, and its next time. It takes no memory.
    pub fn cell<L: Ledger>(&self, i: u32, steps: &mut Steps<L>) -> Cell
        requires { i < length self.now.cells }
        ensures cell { Tells result (cell_at self.now.cells i) }
        ensures visits { steps.new ≡ steps.old + 1 }
    {
        steps.tick();
        self.table.tell(i)
    }

    /// The value that a cell computed last at its port `out`, and its next time. It takes no memory.
    #[inline(always)]
    pub fn computed<L: Ledger>(&self, i: u32, steps: &mut Steps<L>) -> Computed
        requires { i < length self.now.cells }
        ensures value { result.value
            ≡ slice_index_or (values_computed (cell_at self.now.cells i)) 0 AnyValue.Undefined }
        ensures next { result.next ≡ cell_next (cell_at self.now.cells i) }
        ensures visits { steps.new ≡ steps.old + 1 }
    {
        steps.tick();
        Computed {
            value: self.table.computed(i, 0),
            next: self.table.next_of(i),
        }
    }

    /// The value of a variable of a cell. It takes no memory.
    pub fn variable<L: Ledger>(&self, i: u32, k: u8, steps: &mut Steps<L>) -> Value
        requires cell { i < length self.now.cells }
        requires variable { k < self.now.layout.variables }
        ensures value { slice_get (cell_at self.now.cells i).variables k ≡ Some result }
        ensures visits { steps.new ≡ steps.old + 1 }
    {
        steps.tick();
        let variables = self.table.variables_at(i);
        variables[usize::from(k)]
    }

    /// A cell that is due gives, at each port that waits for this time, the value of its first
    /// pair, which leaves the list. It takes no memory.
    pub fn emit<L: Ledger>(&mut self, i: u32, t: Time, steps: &mut Steps<L>) -> Given
        requires within { i < length self.old.cells }
        requires due { cell_next (cell_at self.old.cells i) ≡ Some t }
        ensures value { bag_of_given result ≡ cell_output t (cell_at self.old.cells i) }
        ensures cells { self.new ≡ with_cell_state self.old i
            (cell_emitted t (cell_at self.old.cells i)) }
        ensures visits { steps.new ≡ steps.old + 1 }
    {
        steps.tick();
        let before = self.table.emitted(i, 0);
        let given = self.table.emit(i, t);
        follow(
            &self.plan,
            &self.table,
            i,
            &before,
            &mut self.desk,
            &mut self.tallies,
        );
        given
    }

    /// The same, appended to a bag. Where memory is refused the cell has given too.
    #[inline(always)]
    pub fn emit_into<L: Ledger>(
        &mut self,
        i: u32,
        t: Time,
        into: &mut Vec<(PortNo, Value)>,
        steps: &mut Steps<L>,
    ) -> Result<(), OutOfMemory>
        requires within { i < length self.old.cells }
        requires due { cell_next (cell_at self.old.cells i) ≡ Some t }
        ensures given { OnOk result (into.new.items
            ≡ into.old.items ++ cell_output t (cell_at self.old.cells i)) }
        ensures cells { self.new ≡ with_cell_state self.old i
            (cell_emitted t (cell_at self.old.cells i)) }
        ensures visits { steps.new ≡ steps.old + 1 }
    {
        steps.tick();
        let before = shown(&self.tallies, &self.table, i);
        let done = self.table.emit_into(i, t, into);
        follow(
            &self.plan,
            &self.table,
            i,
            &before,
            &mut self.desk,
            &mut self.tallies,
        );
        done
    }

    /// A cell after its emission moves: where it is woken its rules are evaluated over what the
    /// cells gave, and then each value of its bag is treated. `ports` are the names of the cell's
    /// input ports by number. One visit, and one for each offset. After a stop nothing is promised
    /// of this cell but what it has emitted.
    #[inline(never)]
    pub fn compute<L: Ledger>(
        &mut self,
        i: u32,
        t: Time,
        woken: bool,
        bag: &[(PortNo, Value)],
        ports: &[Name],
        steps: &mut Steps<L>,
    ) -> Result<(), LeafStop>
        requires within { i < length self.old.cells }
        requires time { t ≤ MAX_DELAY }
        requires ports { All (λ (o : Port × AnyValue). o.0.0 < length ports.now) bag.now }
        // For every group that the store stands for.
        ensures computed { (g : Group) → StandsFor g self.old.layout → IsTrue (is_sound_group g)
            → ports.now ≡ cell_ports g i
            → Computes i self.old.cells self.new.cells
            (computed_at t g self.old.cells i woken bag.now) result }
        ensures layout { self.new.layout ≡ self.old.layout }
        ensures only { OnlyCell i self.old.cells self.new.cells }
        ensures visits { steps.new ≡ steps.old + (1 + length self.old.layout.offsets) }
    {
        steps.tick();
        steps.count(self.desk.neighbours.len());
        let turn = Turn {
            cell: i,
            time: t,
            woken,
        };
        move_cell(
            &self.plan,
            turn,
            bag,
            ports,
            &self.tallies,
            &mut self.memo,
            &mut self.table,
            &mut self.desk,
        )
    }

    /// The same of a cell without a bag: its ports have no part in it.
    #[inline(always)]
    pub fn compute_alone<L: Ledger>(
        &mut self,
        i: u32,
        t: Time,
        woken: bool,
        steps: &mut Steps<L>,
    ) -> Result<(), LeafStop>
        requires within { i < length self.old.cells }
        requires time { t ≤ MAX_DELAY }
        // For every group that the store stands for.
        ensures computed { (g : Group) → StandsFor g self.old.layout → IsTrue (is_sound_group g)
            → Computes i self.old.cells self.new.cells
            (computed_at t g self.old.cells i woken []) result }
        ensures layout { self.new.layout ≡ self.old.layout }
        ensures only { OnlyCell i self.old.cells self.new.cells }
        ensures visits { steps.new ≡ steps.old + (1 + length self.old.layout.offsets) }
    {
        steps.tick();
        let places = self.desk.neighbours.len();
        steps.count(places);
        take_if_woken(
            &self.plan,
            i,
            t,
            woken,
            &self.tallies,
            &mut self.memo,
            &mut self.table,
            &mut self.desk,
        )
    }

    /// The state of a cell.
    pub fn state<L: Ledger>(
        &self,
        alloc: Global,
        i: u32,
        steps: &mut Steps<L>,
    ) -> Result<CellState, OutOfMemory>
        requires { i < length self.now.cells }
        ensures state { IfOk result (λ c. cell_of_saved c ≡ cell_at self.now.cells i) }
        ensures visits { steps.new ≡ steps.old + 1 }
    {
        steps.tick();
        self.table.state(alloc, i)
    }

    /// The cell has this state, and every other cell stays. Without memory nothing changes. It
    /// counts no visit.
    pub fn put(&mut self, i: u32, state: &CellState) -> Result<(), OutOfMemory>
        requires within { i < length self.old.cells }
        requires state { CanBePut self.old.layout (cell_of_saved state.now) }
        ensures ok { OnOk result (self.new ≡ with_cell_state self.old i (cell_of_saved state.now)) }
        ensures err { OnErr result (self.new ≡ self.old) }
    {
        let before = self.table.emitted(i, 0);
        let done = self.table.put(i, state);
        follow(
            &self.plan,
            &self.table,
            i,
            &before,
            &mut self.desk,
            &mut self.tallies,
        );
        done
    }
}

/// What a cell shows at its port `out`, where tallies are kept; else nobody asks.
#[inline(always)]
fn shown(tallies: &[Tally], table: &CellTable, i: u32) -> Value
    requires { i < length table.now.cells }
    ensures { 0 < length tallies.now → result ≡ slice_index_or (values_emitted
        (cell_at table.now.cells i)) 0 AnyValue.Undefined }
{
    if tallies.is_empty() {
        Value::Undefined
    } else {
        table.emitted(i, 0)
    }
}
