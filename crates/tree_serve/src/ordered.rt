// A run whose cycles are served in the order of a seed.
ghost use Rattle.std.specs.Prelude.{◌≡◌, ℕ, ◌*◌, ◌≤◌, ◌/◌, length, OnOk, OnErr, unwrap_or};
ghost use Rattle.run_model.specs.declared.stop.Stop.TheVariants.{Memory};
ghost use Rattle.run_leaves.specs.Steps.{Keeps};
ghost use Rattle.served_tree.specs.Processors.{size};
ghost use Rattle.served_tree.specs.Order as order_of;
ghost use Rattle.tree_mail.specs.Mail.{served_of};
ghost use Rattle.tree_serve.specs.Processing.{tree_on};
ghost use Rattle.tree_serve.specs.Calls.{HasStopped};
ghost use Rattle.tree_serve.specs.Ordered.{ServesOne, ServesSo, HasBegun};

use crate::run::TreeRun;
use atomic_face::AtomicModel;
use cell_engine::Steps;
use quantity::{OutOfMemory, Time};
use std::sync::ledger::Ledger;
use tree_mail::message::Served;

/// The seed that is left, and the mark.
#[derive(Clone, Copy, PartialEq, Eq)]
pub struct Order {
    pub seed: u32,
    pub mark: u32,
}

/// The seed behind a seed.
fn seed_behind(seed: u32) -> u32
    ensures { result ≡ order_of.next_seed seed }
{
    ((u64::from(seed) * 1103515245 + 12345) % 2147483648) as u32
}

/// The mark after a message.
fn mark_after(mark: u32, served: Served) -> u32
    ensures { result ≡ order_of.mark_after mark (served_of served) }
{
    let next = ms_of(served.next);
    ((31 * u64::from(mark) + u64::from(served.processor) + u64::from(next)) % 1000000) as u32
}

/// A time in milliseconds, 0 where there is none.
fn ms_of(time: Option<Time>) -> u32
    ensures { result ≡ unwrap_or time 0 }
{
    match time {
        Some(time) => time.ms(),
        None => 0,
    }
}

/// Serves the message that the seed chooses next.
fn serve_one<M: AtomicModel, L: Ledger>(
    run: &mut TreeRun<M>,
    order: &mut Order,
    steps: &mut Steps<L>,
) -> Result<(), OutOfMemory>
    requires waits { 1 ≤ length run.old.service.waiting }
    ensures serves { OnOk result (ServesOne run.old order.old run.new order.new) }
    ensures keeps { OnOk result (Keeps run.old.standing run.new.standing) }
    ensures stopped { OnErr result (HasStopped run.old Memory run.new) }
{
    order.seed = seed_behind(order.seed);
    let served = run.serve(order.seed / 65536, steps)?;
    order.mark = mark_after(order.mark, served);
    Ok(())
}

/// Serves all messages of a cycle that has begun: four for each processor.
pub(crate) fn serve_all<M: AtomicModel, L: Ledger>(
    run: &mut TreeRun<M>,
    order: &mut Order,
    steps: &mut Steps<L>,
) -> Result<(), OutOfMemory>
    requires begun { HasBegun run.old }
    ensures serves { OnOk result
        (ServesSo (4 * size (tree_on run.old)) run.old order.old run.new order.new) }
    ensures keeps { OnOk result (Keeps run.old.standing run.new.standing) }
    ensures stopped { OnErr result (HasStopped run.old Memory run.new) }
{
    served_tree::laws::any_order_serves();
    let mut left = 4 * u64::from(run.processors());
    'messages: while left > 0 {
        serve_one(run, order, steps)?;
        left -= 1;
    }
    Ok(())
}
