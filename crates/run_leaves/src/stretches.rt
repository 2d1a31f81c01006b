// Stretches of leaves that stand one behind another.
ghost use Rattle.std.specs.Prelude.{◌≡◌, ℕ, ◌+◌, ◌<◌, ◌^◌, Some, length, slice_get, OnOk, OnErr};
ghost use Rattle.run_leaves.specs.Stretched.{Rising, number_at, no_stretch, with_leaf, with_stretch};

use quantity::OutOfMemory;
use std::alloc::{AllocError, Global};
use std::marker::Model;

/// Which stretch each leaf is in. Of a stretch only its first leaf is kept, and of the first one
/// also its end, since most leaves that are asked for are there. It is seen as the number of each
/// leaf's stretch, and how many stretches there are.
#[derive(Drop)]
pub(crate) struct Stretches {
    starts: Vec<u32>,
    near: u32,
    leaves: u32,
}

impl Model for Stretches {
    ghost use Rattle.std.specs.Prelude.{length};
    ghost use Rattle.run_leaves.specs.Stretched.{Stretched, AreStretches, numbers_of};

    ghost Value = { Stretched };

    ghost view = { λ s. record {
      numbers = numbers_of s.starts.items s.leaves;
      many = length s.starts.items;
    } };

    ghost invariant = { λ s. AreStretches s.starts.items s.near s.leaves };
}

impl Stretches {
    /// No stretch.
    pub(crate) fn new(alloc: Global) -> Stretches
        ensures { result ≡ no_stretch }
    {
        Stretches {
            starts: Vec::new(alloc),
            near: 0,
            leaves: 0,
        }
    }

    /// The number of leaves.
    #[inline(always)]
    pub(crate) fn leaves(&self) -> u32
        ensures { result ≡ length self.now.numbers }
    {
        self.leaves
    }

    /// A further leaf begins a stretch.
    pub(crate) fn begin(&mut self) -> Result<(), OutOfMemory>
        requires { length self.old.numbers + 1 < 2 ^ 32 }
        ensures ok { OnOk result (self.new ≡ with_stretch self.old) }
        ensures err { OnErr result (self.new ≡ self.old) }
    {
        self.starts.push(self.leaves).map_err(AllocError::from)?;
        self.leaves += 1;
        self.near = near_end(self.starts.len(), self.near, self.leaves);
        Ok(())
    }

    /// A further leaf is in the last stretch.
    #[inline(always)]
    pub(crate) fn go_on(&mut self)
        requires begun { 0 < self.old.many }
        requires few { length self.old.numbers + 1 < 2 ^ 32 }
        ensures { self.new ≡ with_leaf self.old }
    {
        self.leaves += 1;
        self.near = near_end(self.starts.len(), self.near, self.leaves);
    }

    /// The number of a leaf's stretch.
    #[inline(always)]
    pub(crate) fn at(&self, leaf: u32) -> usize
        requires { leaf < length self.now.numbers }
        ensures { slice_get self.now.numbers leaf ≡ Some result }
    {
        if leaf < self.near {
            0
        } else {
            further(&self.starts, leaf)
        }
    }
}

/// The end of the first stretch: as long as there is no other, that of all leaves.
#[inline(always)]
fn near_end(stretches: usize, near: u32, leaves: u32) -> u32
    ensures one { stretches ≡ 1 → result ≡ leaves }
    ensures more { 1 < stretches → result ≡ near }
{
    if stretches == 1 { leaves } else { near }
}

/// The number of a leaf's stretch, by halving.
#[inline(never)]
fn further(starts: &[u32], leaf: u32) -> usize
    requires some { 0 < length starts.now }
    requires rising { Rising starts.now }
    ensures { result ≡ number_at starts.now leaf }
{
    let mut low = 0;
    let mut high = starts.len();
    'halves: while high - low > 1 {
        let middle = low + (high - low) / 2;
        if starts[middle] <= leaf {
            low = middle;
        } else {
            high = middle;
        }
    }
    low
}
