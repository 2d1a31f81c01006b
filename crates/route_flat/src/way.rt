// Paths, as a port knows them.
use model_leaves::Path;

/// A path, and its place among the sources of the port where it leads.
#[derive(Clone, Copy)]
pub struct Way {
    pub path: Path,
    pub rank: u32,
}
