// The ports of components, by name.
ghost use Rattle.std.specs.Prelude.{◌≡◌, Some, MatchOption};
ghost use Rattle.std.specs.List.{list_any};
ghost use Rattle.std.specs.Str.{bytes_eq};
ghost use Rattle.quantity.specs.Bytes.{is_among};
ghost use Rattle.model_tree.specs.Tree.{name_of};
ghost use Rattle.model_tree.specs.Pull.{class_ports};
ghost use Rattle.model_tree.specs.Faces.{inputs_of, outputs_of};
ghost use Rattle.model_tree.specs.Causes.{OfComponent, FirstNamed, NoneNamed};

use crate::component::Component;
use atomic_face::Class;
use quantity::Name;

/// The first child of a name.
pub(crate) fn child_named<'a>(children: &'a [Component], name: &Name) -> Option<&'a Component>
    ensures { MatchOption result (NoneNamed children.now name.now)
        (λ child. FirstNamed children.now name.now child.now) }
{
    for child in children {
        if name_of(child) == name.as_bytes() {
            return Some(child);
        }
    }
    None
}

fn name_of(component: &Component) -> &[u8]
    ensures { OfComponent component.now (λ t. result.now ≡ name_of t) }
{
    match component {
        Component::Coupled(c) => c.name.as_bytes(),
        Component::Cells(g) => g.name.as_bytes(),
        Component::Atomic(a) => a.name.as_bytes(),
    }
}

/// Whether a component has an output port of this name.
pub(crate) fn gives(component: &Component, port: &Name) -> bool
    ensures { OfComponent component.now (λ t. result ≡ is_among (outputs_of (Some t)) port.now) }
{
    match component {
        Component::Coupled(c) => is_among(&c.outs, port),
        Component::Cells(g) => is_among(&g.outs, port),
        Component::Atomic(_) => is_one_of(&[b"out"], port),
    }
}

/// Whether a component has an input port of this name.
pub(crate) fn takes(component: &Component, port: &Name) -> bool
    ensures { OfComponent component.now (λ t. result ≡ is_among (inputs_of (Some t)) port.now) }
{
    match component {
        Component::Coupled(c) => is_among(&c.ins, port),
        Component::Cells(g) => is_among(&g.ins, port),
        Component::Atomic(a) => is_port_of_class(a.class, port),
    }
}

fn is_port_of_class(class: Class, port: &Name) -> bool
    ensures { result ≡ is_among (class_ports class) port.now }
{
    is_one_of(class.in_ports(), port)
}

fn is_one_of(texts: &[&[u8]], name: &Name) -> bool
    ensures { result ≡ list_any (λ text. bytes_eq name.now text.now) texts.now }
{
    texts.iter().any(|text| name.as_bytes() == *text)
}

/// Whether a name is one of these.
pub(crate) fn is_among(names: &[Name], name: &Name) -> bool
    ensures { result ≡ is_among names.now name.now }
{
    names
        .iter()
        .any(|other| name.as_bytes() == other.as_bytes())
}
