// How many leaves a model has.
ghost use Rattle.std.specs.Prelude.{◌≡◌, ◌<◌, ◌^◌};
ghost use Rattle.model_tree.specs.Tree.{leaf_count};
ghost use Rattle.model_leaves.specs.Counted.{leaves_in, leaves_in_all};

use model_tree::component::Component;

/// The number of leaves.
#[cycle(count)]
pub fn leaves(component: &Component) -> u64
    requires { leaves_in component.now < 2 ^ 32 }
    ensures { result ≡ leaves_in component.now }
{
    match component {
        Component::Coupled(c) => leaves_of_all(&c.children),
        Component::Cells(g) => u64::from(g.grid.cells()),
        Component::Atomic(_) => 1,
    }
}

#[cycle(count)]
fn leaves_of_all(children: &[Component]) -> u64
    requires { leaves_in_all children.now < 2 ^ 32 }
    ensures { result ≡ leaves_in_all children.now }
{
    let mut total = 0;
    for child in children {
        total += leaves(child);
    }
    total
}
