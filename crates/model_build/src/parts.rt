// What the phases read, as it is taken from the front.
ghost use Rattle.std.specs.Prelude.{◌≡◌, ◌<◌, length};
ghost use Rattle.model_build.specs.Ahead.{TakesLinks, TakesAtomic};

use model_tree::{Atomic, Link};
use model_walk::{GroupRules, PlacedGroup};
use std::vec::IntoIter;

/// What is left, each list in the order of the walk.
#[derive(Drop)]
pub(crate) struct Parts<'a> {
    pub(crate) groups: IntoIter<PlacedGroup<'a>>,
    pub(crate) rules: IntoIter<GroupRules>,
    pub(crate) atomics: IntoIter<Atomic>,
    pub(crate) links: IntoIter<Vec<Link>>,
}

/// The next links.
pub(crate) fn next_links(parts: &mut Parts<'_>) -> Vec<Link>
    requires { 0 < length parts.old.links.rest.items }
    ensures { TakesLinks parts.old result.items parts.new }
{
    let Some(links) = parts.links.next() else {
        unreachable!()
    };
    links
}

/// The next atomic component.
pub(crate) fn next_atomic(parts: &mut Parts<'_>) -> Atomic
    requires { 0 < length parts.old.atomics.rest.items }
    ensures { TakesAtomic parts.old result parts.new }
{
    let Some(atomic) = parts.atomics.next() else {
        unreachable!()
    };
    atomic
}
