// The rows of leaves, as far as they are made.
ghost use Rattle.std.specs.Prelude.{◌≡◌, [], ◌∷◌, OnOk, IfOk, List};
ghost use Rattle.model_tree.specs.Tree.{Word};
ghost use Rattle.model_tree.specs.Pull.{Source as AnySource};

use crate::net::Node;
use crate::span::Span;
use quantity::{OutOfMemory, counted};
use std::alloc::AllocError;

/// The nodes, the nodes at the ports of leaves, and which of these belong to each leaf.
#[derive(Drop)]
pub(crate) struct Growing {
    pub(crate) nodes: Vec<Node>,
    pub(crate) ports: Vec<u32>,
    pub(crate) leaves: Vec<Span>,
}

impl Growing {
    ghost use Rattle.port_net.specs.Shown.{AllGive};
    ghost use Rattle.port_net.specs.Rows.{Grows};

    /// One more leaf, with these nodes at its ports.
    pub(crate) fn put(&mut self, row: &[u32]) -> Result<(), OutOfMemory>
        ensures ok { OnOk result
            ((ins : List Word) (lists : List (List AnySource))
            → AllGive ins self.old.nodes.items row.now lists
            → Grows ins self.old self.new (lists ∷ [])) }
        ensures nodes { self.new.nodes.items ≡ self.old.nodes.items }
    {
        let first = counted(self.ports.len())?;
        let count = counted(row.len())?;
        self.ports.extend_from_slice(row)?;
        self.leaves
            .push(Span { first, count })
            .map_err(AllocError::from)?;
        Ok(())
    }
}
