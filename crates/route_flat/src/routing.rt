// Routes are numbered paths, which are found by their sources.
use crate::routes::Routes;
use model_leaves::{Path, Routing, Source, Target};

impl Routing for Routes {
    ghost use Rattle.route_flat.specs.Ways.{paths_of};

    ghost paths = { λ r. paths_of r };

    fn path(&self, number: u32) -> Path {
        Routes::path(self, number)
    }

    fn targets(&self, from: Source) -> &[Target] {
        Routes::targets(self, from)
    }
}
