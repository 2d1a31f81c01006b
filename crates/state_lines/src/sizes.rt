// How many ports and variables the cells of a model have, group by group.
ghost use Rattle.std.specs.Prelude.{◌≡◌, IfOk};
ghost use Rattle.model_tree.specs.Stands.{group_of};
ghost use Rattle.state_lines.specs.Sizes.{AreSizesOf, size_of};

use model_leaves::Model;
use model_tree::CellGroup;
use quantity::OutOfMemory;
use std::alloc::Global;

/// How many ports, `out` among them, and variables each cell of a group has.
#[derive(Clone, Copy)]
pub struct CellSize {
    pub ports: usize,
    pub variables: usize,
}

/// The sizes of all groups, by their numbers.
pub fn cell_sizes(alloc: Global, model: &Model) -> Result<Vec<CellSize>, OutOfMemory>
    ensures { IfOk result (λ sizes. AreSizesOf model.now sizes.items) }
{
    let groups = model.all_groups(alloc)?;
    let mut sizes = Vec::new(alloc);
    for group in &groups {
        let Ok(()) = sizes.push(size_of(group)) else {
            return Err(OutOfMemory);
        };
    }
    Ok(sizes)
}

fn size_of(group: &CellGroup) -> CellSize
    ensures { result ≡ size_of (group_of group.now) }
{
    CellSize {
        ports: group.ports.len() + 1,
        variables: group.variables.len(),
    }
}
