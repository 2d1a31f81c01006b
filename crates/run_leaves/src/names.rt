// The names of a leaf's ports.
ghost use Rattle.model_leaves.specs.Leaves.{AtLeaf, IsLeafOf};
ghost use Rattle.model_leaves.specs.LeafTexts.{in_ports};
ghost use Rattle.run_leaves.specs.Moving.{AreNamesFor};

use atomic_face::PortNo;
use model_leaves::Model;
use quantity::{Name, Value};

/// The names of a leaf's input ports, where there is a bag; they are looked up only then.
#[inline(always)]
pub(crate) fn names_for<'a>(model: &'a Model, leaf: u32, bag: &[(PortNo, Value)]) -> &'a [Name]
    requires { IsLeafOf model.now leaf }
    ensures { AtLeaf model.now leaf (λ l. AreNamesFor bag.now result.now (in_ports l)) }
{
    if bag.is_empty() {
        &[]
    } else {
        model.ports_at(leaf)
    }
}
