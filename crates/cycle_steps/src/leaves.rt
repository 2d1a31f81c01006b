// Leaves that are asked one at a time.
use crate::told::Told;
use atomic_face::PortNo;
use quantity::{OutOfMemory, Time, Value};
use run_model::LeafStop;

/// Leaves of which one at a time can be asked for its output, and then to move. `C` counts visits.
pub trait Leaves<C> {
    ghost use Rattle.std.specs.Prelude.{◌≡◌, ◌<◌, ◌≤◌, ◌+◌, [], ℕ, Some, List, OnOk, OnErr, length, slice_set};
    ghost use Rattle.std.specs.List.{All};
    ghost use Rattle.quantity.specs.declared.bounds.TheConstants.{MAX_DELAY};
    ghost use Rattle.quantity.specs.declared.value.Value.{Value as AnyValue};
    ghost use Rattle.atomic_face.specs.declared.class.PortNo.{PortNo as AnyPort};
    ghost use Rattle.model_tree.specs.Tree.{Tree};
    ghost use Rattle.run_model.specs.Cycle.{LeafState, leaf_next, leaf_emitted, collected_of};
    ghost use Rattle.sparse_cycle.specs.Sparse.{leaf_of};
    ghost use Rattle.cycle_steps.specs.Keeping.{Kept};
    ghost use Rattle.cycle_steps.specs.Moving.{Moves, move_of};

    /// How all leaves stand.
    ghost states: { Self → List LeafState };

    /// Whether they are the leaves of a model.
    ghost stands_for: { Self → Tree → Type 0 };

    /// What no call changes, also where memory ends or a leaf stops.
    ghost kept: { Self → Kept };

    /// How many input ports a leaf has.
    ghost ports: { Self → ℕ → ℕ };

    /// How many visits a leaf's move takes at most.
    ghost most: { Self → ℕ → ℕ };

    /// How many visits are counted.
    ghost visits: { C → ℕ };

    /// A due leaf gives its output, and every other leaf stays. It takes no more visits than values
    /// are given. Where memory is refused, it has given too, and the list stays empty.
    fn emit(
        &mut self,
        leaf: u32,
        t: Time,
        into: &mut Vec<(PortNo, Value)>,
        steps: &mut C,
    ) -> Result<(), OutOfMemory>
        requires empty { into.old.items ≡ [] }
        requires due { leaf_next (leaf_of (states self.old) leaf) ≡ Some t }
        ensures given { OnOk result (into.new.items
            ≡ collected_of t (leaf_of (states self.old) leaf)) }
        ensures err { OnErr result (into.new.items ≡ into.old.items) }
        ensures leaves { states self.new
            ≡ slice_set (states self.old) leaf (leaf_emitted t (leaf_of (states self.old) leaf)) }
        ensures stands { (tree : Tree) → stands_for self.old tree
            → OnOk result (stands_for self.new tree) }
        ensures kept { kept self.new ≡ kept self.old }
        ensures ports { OnOk result (ports self.new ≡ ports self.old) }
        ensures most { OnOk result (most self.new ≡ most self.old) }
        ensures visits { visits steps.new
            ≤ visits steps.old + length (collected_of t (leaf_of (states self.old) leaf)) };

    /// A leaf after its emission moves over the states as they stand. Without memory, and after a
    /// stop, nothing more is known of the leaves.
    fn make_move(
        &mut self,
        leaf: u32,
        t: Time,
        woken: bool,
        bag: &[(PortNo, Value)],
        steps: &mut C,
    ) -> Result<Told, LeafStop>
        requires within { leaf < length (states self.old) }
        requires time { t ≤ MAX_DELAY }
        requires ports { All (λ (o : AnyPort × AnyValue). o.0.0 < ports self.old leaf) bag.now }
        ensures moves { (tree : Tree) → stands_for self.old tree → Moves (states self.old)
            (states self.new) leaf (move_of tree t (states self.old) woken bag.now leaf) result }
        ensures stands { (tree : Tree) → stands_for self.old tree
            → OnOk result (stands_for self.new tree) }
        ensures kept { kept self.new ≡ kept self.old }
        ensures long { OnOk result (length (states self.new) ≡ length (states self.old)) }
        ensures ports { OnOk result (ports self.new ≡ ports self.old) }
        ensures most { OnOk result (most self.new ≡ most self.old) }
        ensures visits { visits steps.new ≤ visits steps.old + most self.old leaf };
}
