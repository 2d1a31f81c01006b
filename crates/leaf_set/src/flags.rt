// The set that has a flag for each leaf.
ghost use Rattle.std.specs.Prelude.{◌≡◌, ◌<◌, ◌≤◌, ◌++◌, [], false, length, replicate, slice_set, vec_len, IfOk};
ghost use Rattle.std.specs.Vec.{vec_capacity};
ghost use Rattle.leaf_set.specs.Members.{is_in, members_of, one_member, IsUnion, JoinsOne};

use crate::set::LeafSet;
use quantity::OutOfMemory;
use std::alloc::Global;
use std::marker::Model;

/// A set of leaves as a flag for each of them. All leaves are gone through when the members are
/// taken.
#[derive(Drop)]
pub struct FlagSet {
    members: Vec<bool>,
}

impl Model for FlagSet {
    ghost use Rattle.std.specs.Prelude.{Bool, List, ◌<◌, length};

    ghost Value = { List Bool };

    ghost view = { λ s. s.members.items };

    ghost invariant = { λ s. length s.members.items < 4294967296 };
}

impl FlagSet {
    /// The empty set of so many leaves.
    pub fn with_leaves(alloc: Global, n: u32) -> Result<FlagSet, OutOfMemory>
        ensures { IfOk result (λ s. s ≡ replicate n false) }
    {
        let members = vec![in alloc; false; n as usize]?;
        Ok(FlagSet { members })
    }
}

impl LeafSet for FlagSet {
    ghost members = { λ s. s };

    fn has(&self, leaf: u32) -> bool {
        self.members[leaf as usize]
    }

    fn insert(&mut self, leaf: u32) {
        self.members[leaf as usize] = true;
    }

    fn remove(&mut self, leaf: u32) {
        self.members[leaf as usize] = false;
    }

    fn join(&mut self, other: &FlagSet) {
        join_members(&mut self.members, &other.members);
    }

    fn take_all(&mut self, into: &mut Vec<u32>) {
        take_members(&mut self.members, into);
    }

    fn empty(&mut self) {
        self.members.fill(false);
    }
}

fn take_members(members: &mut Vec<bool>, into: &mut Vec<u32>)
    requires few { length members.old.items < 4294967296 }
    requires empty { into.old.items ≡ [] }
    requires room { length members.old.items ≤ vec_capacity into.old }
    ensures taken { into.new.items ≡ members_of members.old.items }
    ensures left { members.new.items ≡ replicate (length members.old.items) false }
    ensures capacity { vec_capacity into.new ≡ vec_capacity into.old }
{
    let count = members.len() as u32;
    for leaf in 0..count {
        take_member(members, leaf, into);
    }
}

fn take_member(members: &mut Vec<bool>, leaf: u32, into: &mut Vec<u32>)
    requires within { leaf < length members.old.items }
    requires room { vec_len into.old < vec_capacity into.old }
    ensures taken { into.new.items ≡ into.old.items
        ++ one_member (is_in members.old.items leaf) leaf }
    ensures left { members.new.items ≡ slice_set members.old.items leaf false }
    ensures capacity { vec_capacity into.new ≡ vec_capacity into.old }
{
    if members[leaf as usize] {
        into.push_reserved(leaf);
    }
    members[leaf as usize] = false;
}

fn join_members(members: &mut [bool], more: &[bool])
    requires { length more.now ≡ length members.old }
    ensures { IsUnion members.old more.now members.new }
{
    let leaves = members.len();
    for leaf in 0..leaves {
        join_member(members, leaf, more[leaf]);
    }
}

fn join_member(members: &mut [bool], leaf: usize, more: bool)
    requires { leaf < length members.old }
    ensures { JoinsOne members.old members.new leaf more }
{
    if more {
        members[leaf] = true;
    }
}
