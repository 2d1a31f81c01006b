// Lists that each cycle uses again.
ghost use Rattle.std.specs.Prelude.{◌≡◌, []};

use atomic_face::PortNo;
use quantity::Value;
use std::alloc::Global;

/// Lists that each cycle uses again, so that it takes no memory where an earlier one has had as
/// much.
#[derive(Drop)]
pub struct Scratch {
    /// What one leaf gave, or what reaches it.
    pub bag: Vec<(PortNo, Value)>,
    /// The leaves that gave something.
    pub givers: Vec<u32>,
    /// The leaves that watch one leaf.
    pub near: Vec<u32>,
    /// The numbers of the paths that bring something.
    pub numbers: Vec<u32>,
}

impl Scratch {
    /// Empty lists.
    pub fn none(alloc: Global) -> Scratch
        ensures bag { result.bag.items ≡ [] }
        ensures givers { result.givers.items ≡ [] }
        ensures near { result.near.items ≡ [] }
        ensures numbers { result.numbers.items ≡ [] }
    {
        Scratch {
            bag: Vec::new(alloc),
            givers: Vec::new(alloc),
            near: Vec::new(alloc),
            numbers: Vec::new(alloc),
        }
    }

    /// Empties all lists.
    pub fn clear(&mut self)
        ensures bag { self.new.bag.items ≡ [] }
        ensures givers { self.new.givers.items ≡ [] }
        ensures near { self.new.near.items ≡ [] }
        ensures numbers { self.new.numbers.items ≡ [] }
    {
        self.bag.clear();
        self.givers.clear();
        self.near.clear();
        self.numbers.clear();
    }
}
