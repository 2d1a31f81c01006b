// Lists in which an element that stands many times behind itself is kept once.
ghost use Rattle.std.specs.Prelude.{◌≡◌, ℕ, ◌+◌, ◌-◌, ◌<◌, ◌^◌, Some, [], ◌∷◌, ◌++◌, length, slice_get, IsTrue, OnOk, OnErr};

use crate::stretches::Stretches;
use quantity::OutOfMemory;
use std::alloc::Global;
use std::marker::Model;

/// An element for each leaf, kept once for each stretch in which it stays the same. It is seen as
/// the list of all of them.
#[derive(Drop)]
pub(crate) struct Repeats<T: Copy> {
    stretches: Stretches,
    each: Vec<T>,
}

impl<T: Copy> Model for Repeats<T> {
    ghost use Rattle.std.specs.Prelude.{List};
    ghost use Rattle.run_leaves.specs.Repeated.{AreRepeated, elements_at};

    ghost Value = { List T };

    ghost view = { λ r. elements_at r.each.items r.stretches.numbers };

    ghost invariant = { λ r. AreRepeated r.each.items r.stretches.numbers r.stretches.many };
}

impl<T: Copy> Repeats<T> {
    /// No leaf.
    pub(crate) fn new(alloc: Global) -> Repeats<T>
        ensures { result ≡ [] }
    {
        Repeats {
            stretches: Stretches::new(alloc),
            each: Vec::new(alloc),
        }
    }

    /// The number of leaves.
    #[inline(always)]
    pub(crate) fn leaves(&self) -> u32
        ensures { result ≡ length self.now }
    {
        self.stretches.leaves()
    }

    /// A further leaf has this element: that of the leaf before it again, or maybe another.
    #[inline(always)]
    pub(crate) fn push(&mut self, item: T, again: bool) -> Result<(), OutOfMemory>
        requires few { length self.old + 1 < 2 ^ 32 }
        requires some { IsTrue again → 0 < length self.old }
        requires again { IsTrue again → slice_get self.old (length self.old - 1) ≡ Some item }
        ensures ok { OnOk result (self.new ≡ self.old ++ item ∷ []) }
        ensures err { OnErr result (self.new ≡ self.old) }
    {
        if again {
            self.stretches.go_on();
            return Ok(());
        }
        self.each.reserve(1)?;
        self.stretches.begin()?;
        self.each.push_reserved(item);
        Ok(())
    }

    /// The element of a leaf.
    #[inline(always)]
    pub(crate) fn at(&self, leaf: u32) -> T
        requires { leaf < length self.now }
        ensures { slice_get self.now leaf ≡ Some result }
    {
        self.each[self.stretches.at(leaf)]
    }
}
