// Where leaves stand, kept by stretches.
ghost use Rattle.std.specs.Prelude.{◌≡◌, ℕ, ◌+◌, ◌-◌, ◌<◌, ◌≤◌, ◌^◌, Some, [], ◌∷◌, ◌++◌, length, slice_get, IsTrue, OnOk, OnErr};
ghost use Rattle.model_leaves.specs.declared.leaves.LeafAt.TheVariants.{Atomic, Cell};
ghost use Rattle.run_leaves.specs.Anchored.{IsCellWithin};

use crate::repeats::Repeats;
use atomic_face::BoxNo;
use model_leaves::LeafAt;
use quantity::OutOfMemory;
use std::alloc::{AllocError, Global};
use std::marker::Model;

/// What is the same for the leaves of a stretch: of boxes, how many leaves before them are no boxes;
/// of cells, their group and the leaf that is its first cell.
#[derive(Clone, Copy)]
enum Anchor {
    Boxes { skipped: u32 },
    Cells { group: u32, first: u32 },
}

/// Where each leaf stands. Boxes have a number each, and cells nothing of their own: a cell is told
/// by its leaf and the stretch. It is seen as the places.
#[derive(Drop)]
pub(crate) struct Seats {
    anchors: Repeats<Anchor>,
    boxes: Vec<BoxNo>,
}

impl Model for Seats {
    ghost use Rattle.std.specs.Prelude.{List};
    ghost use Rattle.model_leaves.specs.declared.leaves.LeafAt.{LeafAt as AnyPlace};
    ghost use Rattle.run_leaves.specs.Anchored.{places_from, AreThere};

    ghost Value = { List AnyPlace };

    ghost view = { λ s. places_from s.boxes.items 0 s.anchors };

    ghost invariant = { λ s. AreThere s.boxes.items s.anchors };
}

impl Seats {
    /// No leaf.
    pub(crate) fn new(alloc: Global) -> Seats
        ensures { result ≡ [] }
    {
        Seats {
            anchors: Repeats::new(alloc),
            boxes: Vec::new(alloc),
        }
    }

    /// A further leaf stands at this place.
    #[inline(always)]
    pub(crate) fn push(&mut self, place: LeafAt) -> Result<(), OutOfMemory>
        requires few { length self.old + 1 < 2 ^ 32 }
        requires cell { IsCellWithin (length self.old) place }
        ensures { OnOk result (self.new ≡ self.old ++ place ∷ []) }
    {
        match place {
            LeafAt::Atomic(at) => self.push_box(at),
            LeafAt::Cell { group, cell } => self.push_cell(group, cell),
        }
    }

    #[inline(never)]
    fn push_box(&mut self, at: BoxNo) -> Result<(), OutOfMemory>
        requires { length self.old + 1 < 2 ^ 32 }
        ensures { OnOk result (self.new ≡ self.old ++ Atomic at ∷ []) }
    {
        let skipped = self.anchors.leaves() - self.boxes.len() as u32;
        self.boxes.reserve(1)?;
        add_anchor(&mut self.anchors, Anchor::Boxes { skipped })?;
        self.boxes.push_reserved(at);
        Ok(())
    }

    #[inline(always)]
    fn push_cell(&mut self, group: u32, cell: u32) -> Result<(), OutOfMemory>
        requires few { length self.old + 1 < 2 ^ 32 }
        requires cell { cell ≤ length self.old }
        ensures { OnOk result (self.new ≡ self.old ++ Cell group cell ∷ []) }
    {
        let first = self.anchors.leaves() - cell;
        add_anchor(&mut self.anchors, Anchor::Cells { group, first })
    }

    /// Where a leaf stands.
    #[inline(always)]
    pub(crate) fn at(&self, leaf: u32) -> LeafAt
        requires { leaf < length self.now }
        ensures { slice_get self.now leaf ≡ Some result }
    {
        match self.anchors.at(leaf) {
            Anchor::Boxes { skipped } => LeafAt::Atomic(self.boxes[(leaf - skipped) as usize]),
            Anchor::Cells { group, first } => LeafAt::Cell {
                group,
                cell: leaf - first,
            },
        }
    }
}

/// A further leaf has this anchor.
#[inline(always)]
fn add_anchor(anchors: &mut Repeats<Anchor>, anchor: Anchor) -> Result<(), OutOfMemory>
    requires { length anchors.old + 1 < 2 ^ 32 }
    ensures ok { OnOk result (anchors.new ≡ anchors.old ++ anchor ∷ []) }
    ensures err { OnErr result (anchors.new ≡ anchors.old) }
{
    let again = is_last(anchors, anchor);
    anchors.push(anchor, again)
}

/// Whether the last leaf has this anchor.
#[inline(always)]
fn is_last(anchors: &Repeats<Anchor>, anchor: Anchor) -> bool
    ensures some { IsTrue result → 0 < length anchors.now }
    ensures last { IsTrue result → slice_get anchors.now (length anchors.now - 1) ≡ Some anchor }
{
    let count = anchors.leaves();
    if count == 0 {
        return false;
    }
    is_same(anchors.at(count - 1), anchor)
}

#[inline(always)]
fn is_same(one: Anchor, other: Anchor) -> bool
    ensures { IsTrue result → one ≡ other }
{
    match one {
        Anchor::Boxes { skipped } => match other {
            Anchor::Boxes { skipped: before } => skipped == before,
            Anchor::Cells { group: _, first: _ } => false,
        },
        Anchor::Cells { group, first } => match other {
            Anchor::Boxes { skipped: _ } => false,
            Anchor::Cells { group: g, first: f } => (group == g) & (first == f),
        },
    }
}
