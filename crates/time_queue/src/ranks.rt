// Leaves in an order, and the place of each.
ghost use Rattle.std.specs.Prelude.{◌≡◌, ◌<◌, length, IfOk};
ghost use Rattle.std.specs.List.{swap, range_with_len};
ghost use Rattle.time_queue.specs.Heap.{IsInverse};

use quantity::OutOfMemory;
use std::alloc::Global;

/// The leaves in some order, and the place of each in it.
#[derive(Drop)]
pub struct Ranks {
    pub order: Vec<u32>,
    pub places: Vec<u32>,
    ghost inverse: { IsInverse order.items places.items },
}

impl Ranks {
    /// So many leaves, each at the place of its number.
    pub fn new(alloc: Global, n: u32) -> Result<Ranks, OutOfMemory>
        ensures { IfOk result (λ r. r.order.items ≡ range_with_len 0 n) }
    {
        let mut order = Vec::with_capacity(alloc, n as usize)?;
        let mut places = Vec::with_capacity(alloc, n as usize)?;
        for leaf in 0..n {
            order.push_reserved(leaf);
            places.push_reserved(leaf);
        }
        Ok(Ranks { order, places })
    }

    /// Two leaves change places.
    pub fn swap(&mut self, i: usize, j: usize)
        requires first { i < length self.old.order.items }
        requires second { j < length self.old.order.items }
        ensures { self.new.order.items ≡ swap self.old.order.items i j }
    {
        let one = self.order[i] as usize;
        let other = self.order[j] as usize;
        self.places.swap(one, other);
        self.order.swap(i, j);
    }
}
