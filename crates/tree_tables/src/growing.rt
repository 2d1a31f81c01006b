// The tables as far as they are made.
ghost use Rattle.std.specs.Prelude.{◌≡◌, ◌+◌, [], ◌∷◌, length, map, IfOk, OnOk};
ghost use Rattle.tree_tables.specs.Stations.{row_of};

use crate::entry::{Entry, Ref};
use crate::sizes::behind;
use quantity::{OutOfMemory, counted};
use std::alloc::{AllocError, Global};

/// The processors so far, and how many of them are leaves.
#[derive(Drop)]
pub(crate) struct Growing {
    pub(crate) entries: Vec<Entry>,
    pub(crate) leaves: u32,
}

impl Growing {
    ghost use Rattle.tree_tables.specs.Walk.{PutsBehind, inner_station, leaf_station};

    /// None, with room for so many.
    pub(crate) fn new(alloc: Global, count: u32) -> Result<Growing, OutOfMemory>
        ensures entries { IfOk result (λ t. t.entries.items ≡ []) }
        ensures leaves { IfOk result (λ t. t.leaves ≡ 0) }
    {
        Ok(Growing {
            entries: Vec::with_capacity(alloc, count as usize)?,
            leaves: 0,
        })
    }

    /// The number of the next processor.
    pub(crate) fn number(&self) -> Result<u32, OutOfMemory>
        ensures { IfOk result (λ n. n ≡ length self.now.entries.items) }
    {
        counted(self.entries.len())
    }

    /// One more processor, with children.
    pub(crate) fn component(
        &mut self,
        parent: u32,
        children: Vec<u32>,
        outs: Vec<Vec<Ref>>,
        ins: Vec<Vec<Ref>>,
    ) -> Result<(), OutOfMemory>
        ensures entries { OnOk result (PutsBehind self.old self.new
            (inner_station parent children.items (map row_of outs.items) (map row_of ins.items)
            ∷ [])) }
        ensures leaves { self.new.leaves ≡ self.old.leaves }
    {
        let entry = Entry {
            parent,
            children,
            leaf: None,
            outs,
            ins,
        };
        self.entries.push(entry).map_err(AllocError::from)?;
        Ok(())
    }

    /// One more leaf.
    pub(crate) fn leaf(
        &mut self,
        alloc: Global,
        parent: u32,
        ins: Vec<Vec<Ref>>,
    ) -> Result<(), OutOfMemory>
        ensures entries { OnOk result (PutsBehind self.old self.new
            (leaf_station parent self.old.leaves (map row_of ins.items) ∷ [])) }
        ensures leaves { OnOk result (self.new.leaves ≡ self.old.leaves + 1) }
    {
        let leaves = behind(self.leaves, 1)?;
        let children = Vec::new(alloc);
        let outs = Vec::new(alloc);
        let entry = Entry {
            parent,
            children,
            leaf: Some(self.leaves),
            outs,
            ins,
        };
        self.entries.push(entry).map_err(AllocError::from)?;
        self.leaves = leaves;
        Ok(())
    }
}
