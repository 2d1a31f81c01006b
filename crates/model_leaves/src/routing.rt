// Paths by their numbers, found by their sources.
ghost use Rattle.std.specs.Prelude.{◌≡◌, ◌<◌, length};

use crate::path::{Path, Source, Target};

/// Numbered paths, which are found by their sources.
pub trait Routing {
    ghost use Rattle.std.specs.Prelude.{List, map};
    ghost use Rattle.model_leaves.specs.declared.path.Path.{Path as AnyPath};
    ghost use Rattle.model_leaves.specs.declared.path.Target.{Target as AnyTarget};
    ghost use Rattle.model_leaves.specs.Numbered.{is_from, numbers, path_at};

    /// The paths by their numbers.
    ghost paths: { Self → List AnyPath };

    /// The path of a number.
    fn path(&self, number: u32) -> Path
        requires { number < length (paths self.now) }
        ensures { result ≡ path_at (paths self.now) number };

    /// The targets of the paths that begin at a source, by their rising numbers.
    fn targets(&self, from: Source) -> &[Target]
        ensures { map (λ (t : AnyTarget). t.path) result.now
            ≡ numbers (is_from from) (paths self.now) };
}
