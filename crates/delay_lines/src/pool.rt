// Nodes under numbers of 32 bits.
ghost use Rattle.std.specs.Prelude.{◌≡◌, ◌+◌, ◌<◌, ◌≤◌, [], None, Some, IfOk, IfSome, IsOk, IsSome, OnErr, OnOk};
ghost use Rattle.slab.specs.Slab.{get, slab_len, HasRoomFor, Updates};
ghost use Rattle.delay_lines.specs.Nodes.{node_of};
ghost use Rattle.delay_lines.specs.Places.{look_in, Rewrites, Writes};

use crate::link::Link;
use crate::nodes::Node;
use quantity::{OutOfMemory, Time, Value};
use slab::Slab;
use std::alloc::Global;
use std::marker::Model;
use std::ops::Index;

/// How many nodes have a number that is less than that of no node.
const MOST: usize = 4_294_967_295;

/// Nodes, each under a number that the slab picks: of 32 bits, so that links are short. It is seen
/// as the node or nothing at each number, and how many more can be added with no memory taken.
#[derive(Drop)]
pub struct Pool {
    // It never has room for more nodes than there are numbers of 32 bits: a slab picks each of its
    // numbers below its capacity.
    nodes: Slab<Node>,
}

impl Model for Pool {
    ghost use Rattle.std.specs.Prelude.{◌-◌, ◌≤◌};
    ghost use Rattle.slab.specs.Slab.{slab_len};
    ghost use Rattle.delay_lines.specs.Places.{Places};

    ghost Value = { Places };

    ghost use Rattle.std.specs.Coded.{codes};
    ghost use Rattle.delay_lines.specs.contracts.nodes.Node as node;

    ghost coded = { Prim.hlevel (codes, node.the_row.coded) };

    ghost view = { λ p. record {
      slots = p.nodes.slots;
      spare = p.nodes.capacity - slab_len p.nodes;
    } };

    ghost invariant = { λ p. p.nodes.capacity ≤ 4294967295 };
}

impl Pool {
    /// A pool with no nodes.
    pub fn new(alloc: Global) -> Pool
        ensures { result.slots ≡ [] }
    {
        Pool {
            nodes: Slab::new(alloc),
        }
    }

    /// Makes room for `n` nodes more. A refusal changes nothing.
    #[inline(always)]
    pub fn reserve(&mut self, n: usize) -> Result<(), OutOfMemory>
        ensures room { OnOk result (n ≤ self.new.spare) }
        ensures look { look_in self.new ≡ look_in self.old }
        ensures spare { self.old.spare ≤ self.new.spare }
        ensures had_room { n ≤ self.old.spare → IsOk result × (self.new ≡ self.old) }
        ensures err { OnErr result (self.new ≡ self.old) }
    {
        if self.nodes.capacity() - self.nodes.len() < n {
            return self.grow(n);
        }
        Ok(())
    }

    /// Stores a node where none is. It takes memory only where nothing is spare; a refusal changes
    /// nothing.
    #[inline(always)]
    pub fn insert(&mut self, node: Node) -> Result<u32, OutOfMemory>
        ensures below { IfOk result (λ key. key < 4294967295) }
        ensures was_vacant { IfOk result (λ key. look_in self.old key ≡ None) }
        ensures updates { IfOk result
            (λ key. Writes (look_in self.old) (look_in self.new) key (Some node)) }
        ensures succeeds { 1 ≤ self.old.spare → IsOk result }
        ensures err { OnErr result (look_in self.new ≡ look_in self.old) }
        ensures kept { OnErr result (self.new ≡ self.old) }
        ensures had_room { 1 ≤ self.old.spare → self.new.spare + 1 ≡ self.old.spare }
        ensures spare { self.old.spare ≤ self.new.spare + 1 }
    {
        self.reserve(1)?;
        Ok(put(&mut self.nodes, node))
    }

    /// A node leaves, and makes room for another. Answers its link.
    pub fn remove(&mut self, key: u32) -> Link
        requires { IsSome (look_in self.old key) }
        ensures taken { Rewrites (look_in self.old) (look_in self.new) key (λ _. None) }
        ensures next { IfSome (look_in self.old key) (λ node. result ≡ node.next) }
        ensures spare { self.new.spare ≡ self.old.spare + 1 }
    {
        self.nodes.remove(key as usize).next()
    }

    /// A node gets another pair.
    pub fn set_pair(&mut self, key: u32, at: Time, value: Value)
        requires { IsSome (look_in self.old key) }
        ensures pair { Rewrites (look_in self.old) (look_in self.new) key
            (λ n. Some (node_of (at, value) n.next)) }
        ensures spare { self.new.spare ≡ self.old.spare }
    {
        self.nodes[key as usize].set_pair(at, value);
    }

    /// A node leads to another one.
    pub fn set_next(&mut self, key: u32, next: u32)
        requires exists { IsSome (look_in self.old key) }
        requires below { next < 4294967295 }
        ensures link { Rewrites (look_in self.old) (look_in self.new) key
            (λ n. Some (node_of n.pair (Some next))) }
        ensures spare { self.new.spare ≡ self.old.spare }
    {
        self.nodes[key as usize].set_next(Link::to(next));
    }

    // Makes room for `n` nodes more, where there is less. A slab may take more than it is asked for,
    // so a copy grows, and takes the place of the nodes only if its numbers have 32 bits.
    #[cold]
    fn grow(&mut self, n: usize) -> Result<(), OutOfMemory>
        requires { self.old.spare < n }
        ensures room { OnOk result (n ≤ self.new.spare) }
        ensures look { look_in self.new ≡ look_in self.old }
        ensures spare { self.old.spare ≤ self.new.spare }
        ensures err { OnErr result (self.new ≡ self.old) }
    {
        let mut grown = self.nodes.clone()?;
        grown.reserve(n)?;
        if grown.capacity() > MOST {
            return Err(OutOfMemory);
        }
        self.nodes = grown;
        Ok(())
    }
}

// Stores a node where none is.
#[inline(always)]
fn put(nodes: &mut Slab<Node>, node: Node) -> u32
    requires room { HasRoomFor nodes.old 1 }
    requires few { nodes.old.capacity ≤ 4294967295 }
    ensures below { result < 4294967295 }
    ensures was_vacant { get nodes.old result ≡ None }
    ensures updates { Updates nodes.old nodes.new result (Some node) }
    ensures len { slab_len nodes.new ≡ slab_len nodes.old + 1 }
    ensures capacity { nodes.new.capacity ≡ nodes.old.capacity }
{
    nodes.insert_reserved(node) as u32
}

impl Index<u32> for Pool {
    type Output = Node;

    ghost can_index = { λ p key. IsSome (look_in p key) };

    ghost index_gives = { λ p key node. look_in p key ≡ Some node };

    fn index(&self, key: u32) -> &Node {
        &self.nodes[key as usize]
    }
}
