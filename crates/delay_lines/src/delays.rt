// The delay lists of the cells of a group.
ghost use Rattle.std.specs.Prelude.{◌≡◌, ◌+◌, ◌<◌, ◌≤◌, [], ◌∷◌, ◌++◌, length, drop, map, replicate, OnOk, OnErr, IfOk, IsOk};
ghost use Rattle.quantity.specs.Delay.{delay_list_after};
ghost use Rattle.quantity.specs.declared.delay.DelayKind.TheVariants.{Transport, Inertial};
ghost use Rattle.delay_lines.specs.Nodes.{AreAlone};
ghost use Rattle.delay_lines.specs.Places.{look_in};
ghost use Rattle.delay_lines.specs.Lists.{alone_at, list_of, first_pair, ChangesList, IsRising, KeepsPlaces};

use crate::link::Link;
use crate::nodes::{Node, Spot, append_from, last_left, last_with, place_of};
use crate::pool::Pool;
use quantity::{OutOfMemory, PackedValue, Time, Value};
use std::alloc::Global;
use std::marker::Model;

/// The delay lists of the cells of a group. It is seen as the list of each cell, which are pairs of
/// a time and a value by rising time, and the number `spare` of pairs that can be added with no
/// memory taken.
#[derive(Drop)]
pub struct Delays {
    // All lists share these nodes, so a pair that leaves one list makes room in every other.
    nodes: Pool,
    // The link to the first node of each cell's list.
    firsts: Vec<Link>,
    // The link to the last node of each cell's list.
    lasts: Vec<Link>,
}

impl Model for Delays {
    ghost use Rattle.delay_lines.specs.Lists.{DelayLists};

    ghost Value = { DelayLists };

    ghost use Rattle.delay_lines.specs.Nodes.{AreHeld, lists_from};
    ghost use Rattle.delay_lines.specs.Places.{look_in};

    ghost view = { λ d. record {
      lists = lists_from (look_in d.nodes) d.firsts.items;
      spare = d.nodes.spare;
    } };

    ghost invariant = { λ d.
        AreHeld (look_in d.nodes) d.firsts.items d.lasts.items
        (lists_from (look_in d.nodes) d.firsts.items) };
}

impl Delays {
    /// The empty lists of so many cells.
    pub fn new(alloc: Global, cells: u32) -> Result<Delays, OutOfMemory>
        ensures lists { IfOk result (λ d. d.lists ≡ replicate cells []) }
    {
        Ok(Delays {
            nodes: Pool::new(alloc),
            firsts: vec![in alloc; Link::none(); cells as usize]?,
            lasts: vec![in alloc; Link::none(); cells as usize]?,
        })
    }

    /// A list for each value, in which it waits alone for this time.
    pub fn all_at(alloc: Global, at: Time, values: &[PackedValue]) -> Result<Delays, OutOfMemory>
        ensures lists { IfOk result (λ d. d.lists ≡ map (alone_at at) values.now) }
    {
        let mut nodes = Pool::new(alloc);
        let firsts = links_to_new(alloc, at, values, &mut nodes)?;
        let lasts = copy_of(alloc, &firsts)?;
        Ok(Delays {
            nodes,
            firsts,
            lasts,
        })
    }

    /// Makes room for `n` pairs more. Where memory is refused, nothing changes.
    pub fn reserve(&mut self, n: usize) -> Result<(), OutOfMemory>
        ensures room { OnOk result (n ≤ self.new.spare) }
        ensures lists { self.new.lists ≡ self.old.lists }
        ensures spare { self.old.spare ≤ self.new.spare }
        ensures err { OnErr result (self.new ≡ self.old) }
    {
        self.nodes.reserve(n)?;
        Ok(())
    }

    /// The first pair of a cell's list, None where the list is empty. It visits one node.
    #[inline(always)]
    pub fn first(&self, cell: u32) -> Option<(Time, Value)>
        requires { cell < length self.now.lists }
        ensures pair { result ≡ first_pair (list_of self.now cell) }
        ensures rising { IsRising (list_of self.now cell) }
    {
        let key = self.firsts[cell as usize].key()?;
        Some(self.nodes[key].pair())
    }

    /// The first pair of a cell's list leaves it, if there is one, and makes room for another. It
    /// visits one node.
    pub fn take_first(&mut self, cell: u32)
        requires { cell < length self.old.lists }
        ensures list { ChangesList self.old self.new cell (drop 1 (list_of self.old cell)) }
        ensures places { KeepsPlaces self.old self.new cell }
        ensures spare { self.old.spare ≤ self.new.spare }
    {
        if let Some(key) = self.firsts[cell as usize].key() {
            let next = self.nodes.remove(key);
            self.firsts[cell as usize] = next;
            let last = self.lasts[cell as usize];
            self.lasts[cell as usize] = last_left(next, last);
        }
    }

    /// Puts a value into a cell's list at its time, in the place of a pair of that time. It visits
    /// the nodes of that list alone, and only the last one where that is earlier. It takes memory
    /// only where nothing is spare; where that is refused, nothing changes.
    pub fn transport(&mut self, cell: u32, at: Time, value: Value) -> Result<(), OutOfMemory>
        requires { cell < length self.old.lists }
        ensures ok { OnOk result (ChangesList self.old self.new cell
            (delay_list_after Transport (list_of self.old cell) at value)) }
        ensures rising { IsRising (list_of self.new cell) }
        ensures succeeds { 1 ≤ self.old.spare → IsOk result }
        ensures err { OnErr result (self.new.lists ≡ self.old.lists) }
        ensures kept { OnErr result (self.new ≡ self.old) }

        // A pair takes the place of one that is spare, and only a refusal and a replaced pair take
        // none.
        ensures places { self.old.spare + length (list_of self.old cell)
            ≤ self.new.spare + length (list_of self.new cell) }
        ensures had_room { 1 ≤ self.old.spare → KeepsPlaces self.old self.new cell }
        ensures spare { self.old.spare ≤ self.new.spare + 1 }
    {
        let last = self.lasts[cell as usize];
        match place_of(&self.nodes, self.firsts[cell as usize], last, at) {
            Spot::Taken(key) => self.nodes.set_pair(key, at, value),
            Spot::Free(before, next) => {
                let Ok(key) = self.nodes.insert(Node::new(at, value, next)) else {
                    return Err(OutOfMemory);
                };
                self.lasts[cell as usize] = last_with(next, key, last);
                match before.key() {
                    Some(before) => self.nodes.set_next(before, key),
                    None => self.firsts[cell as usize] = Link::to(key),
                }
            }
        }
        Ok(())
    }

    /// The list of a cell becomes this pair alone. It takes no memory.
    pub fn inertial(&mut self, cell: u32, at: Time, value: Value)
        requires exists { cell < length self.old.lists }
        requires room { 1 ≤ self.old.spare + length (list_of self.old cell) }
        ensures list { ChangesList self.old self.new cell
            (delay_list_after Inertial (list_of self.old cell) at value) }
        ensures places { KeepsPlaces self.old self.new cell }
        ensures spare { self.old.spare ≤ self.new.spare + 1 }
    {
        while self.first(cell).is_some() {
            self.take_first(cell);
        }
        self.start(cell, at, value);
    }

    /// Appends the pairs of a cell's list. Where memory is refused, `into` stays as it was.
    pub fn pairs(&self, cell: u32, into: &mut Vec<(Time, Value)>) -> Result<(), OutOfMemory>
        requires { cell < length self.now.lists }
        ensures ok { OnOk result (into.new.items ≡ into.old.items ++ list_of self.now cell) }
        ensures rising { IsRising (list_of self.now cell) }
        ensures err { OnErr result (into.new.items ≡ into.old.items) }
    {
        append_from(&self.nodes, self.firsts[cell as usize], into)
    }

    /// An empty list becomes this pair alone, in a place that is spare.
    fn start(&mut self, cell: u32, at: Time, value: Value)
        requires exists { cell < length self.old.lists }
        requires empty { list_of self.old cell ≡ [] }
        requires room { 1 ≤ self.old.spare }
        ensures list { ChangesList self.old self.new cell ((at, value) ∷ []) }
        ensures spare { self.new.spare + 1 ≡ self.old.spare }
    {
        let Ok(key) = self.nodes.insert(Node::new(at, value, Link::none())) else {
            unreachable!()
        };
        self.firsts[cell as usize] = Link::to(key);
        self.lasts[cell as usize] = Link::to(key);
    }
}

/// The links to new nodes, one for each value with this time.
fn links_to_new(
    alloc: Global,
    at: Time,
    values: &[PackedValue],
    nodes: &mut Pool,
) -> Result<Vec<Link>, OutOfMemory>
    ensures { IfOk result (λ links. AreAlone (look_in nodes.new) at links.items values.now) }
{
    let mut links = Vec::with_capacity(alloc, values.len())?;
    nodes.reserve(values.len())?;
    for value in values {
        let key = nodes.insert(Node::new(at, value.get(), Link::none()))?;
        let Ok(()) = links.push(Link::to(key)) else {
            return Err(OutOfMemory);
        };
    }
    Ok(links)
}

/// The same links.
fn copy_of(alloc: Global, links: &[Link]) -> Result<Vec<Link>, OutOfMemory>
    ensures { IfOk result (λ made. made.items ≡ links.now) }
{
    let mut made = Vec::with_capacity(alloc, links.len())?;
    made.extend_from_slice(links)?;
    Ok(made)
}
