// Children, looked up by their names.
ghost use Rattle.std.specs.Prelude.{◌≡◌, ◌<◌, ℕ, ℤ, List, length, IfOk, IfSome, OnOk};
ghost use Rattle.model_tree.specs.Tree.{name_of};
ghost use Rattle.model_tree.specs.Causes.{OfComponent};
ghost use Rattle.port_net.specs.Named.{place_from, LeadToFirst, AddsPlace};

use indexmap::IndexMap;
use model_tree::Component;
use quantity::{Name, OutOfMemory};
use std::alloc::Global;

/// The children of a component, with the place of the first child of each name.
#[derive(Drop)]
pub struct Children<'c> {
    pub list: &'c [Component],
    pub(crate) places: IndexMap<&'c [u8], usize>,
    ghost first: { LeadToFirst places.entries list.now },
}

impl<'c> Children<'c> {
    /// These children.
    pub fn new(alloc: Global, list: &'c [Component]) -> Result<Children<'c>, OutOfMemory>
        ensures { IfOk result (λ children. children.list.now ≡ list.now) }
    {
        let places = places_of(alloc, list)?;
        Ok(Children { list, places })
    }

    /// The place of the first child of a name.
    pub fn place(&self, name: &Name) -> Option<usize>
        ensures place { (settings : ℕ → List ℤ)
            → result ≡ place_from self.now.list.now settings name.now 0 }
        ensures within { IfSome result (λ place. place < length self.now.list.now) }
    {
        self.places.get(name.as_bytes()).copied()
    }
}

/// The place of the first child of each name.
fn places_of<'c>(
    alloc: Global,
    children: &'c [Component],
) -> Result<IndexMap<&'c [u8], usize>, OutOfMemory>
    ensures { IfOk result (λ places. LeadToFirst places.entries children.now) }
{
    let mut places = IndexMap::new(alloc);
    for (i, child) in children.iter().enumerate() {
        add(&mut places, name_of(child).as_bytes(), i)?;
    }
    Ok(places)
}

/// Keeps a place for a name, unless there is one for it.
fn add<'c>(
    places: &mut IndexMap<&'c [u8], usize>,
    name: &'c [u8],
    place: usize,
) -> Result<(), OutOfMemory>
    ensures { OnOk result (AddsPlace places.old.entries places.new.entries name.now place) }
{
    if places.contains_key(name) {
        return Ok(());
    }
    let Ok(_absent) = places.insert(name, place) else {
        return Err(OutOfMemory);
    };
    Ok(())
}

/// The name of a component.
pub fn name_of(component: &Component) -> &Name
    ensures { OfComponent component.now (λ t. result.now ≡ name_of t) }
{
    match component {
        Component::Coupled(c) => &c.name,
        Component::Cells(g) => &g.name,
        Component::Atomic(a) => &a.name,
    }
}
