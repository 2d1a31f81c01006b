// A set of leaves, seen through its calls.
ghost use Rattle.std.specs.Prelude.{◌≡◌, ◌<◌, ◌≤◌, [], Bool, true, false, List, length, replicate, slice_set};
ghost use Rattle.std.specs.Vec.{vec_capacity};
ghost use Rattle.leaf_set.specs.Members.{is_in, members_of, IsUnion};

/// Which leaves are in. How many leaves there are is said when a set is made, and no call changes
/// it. No call takes memory.
pub trait LeafSet: Drop {
    /// For each leaf, by its number, whether it is in.
    ghost members: { Self → List Bool };

    /// Whether a leaf is in.
    fn has(&self, leaf: u32) -> bool
        requires { leaf < length (members self.now) }
        ensures { result ≡ is_in (members self.now) leaf };

    /// The leaf is in, and the others are as they were.
    fn insert(&mut self, leaf: u32)
        requires { leaf < length (members self.old) }
        ensures { members self.new ≡ slice_set (members self.old) leaf true };

    /// The leaf isn't in, and the others are as they were.
    fn remove(&mut self, leaf: u32)
        requires { leaf < length (members self.old) }
        ensures { members self.new ≡ slice_set (members self.old) leaf false };

    /// The members of another set of as many leaves are in as well.
    fn join(&mut self, other: &Self)
        requires { length (members other.now) ≡ length (members self.old) }
        ensures { IsUnion (members self.old) (members other.now) (members self.new) };

    /// Puts the members into an empty list, rising, and none is in any more.
    fn take_all(&mut self, into: &mut Vec<u32>)
        requires empty { into.old.items ≡ [] }
        requires room { length (members self.old) ≤ vec_capacity into.old }
        ensures taken { into.new.items ≡ members_of (members self.old) }
        ensures left { members self.new ≡ replicate (length (members self.old)) false }
        ensures capacity { vec_capacity into.new ≡ vec_capacity into.old };

    /// None is in any more.
    fn empty(&mut self)
        ensures { members self.new ≡ replicate (length (members self.old)) false };
}
