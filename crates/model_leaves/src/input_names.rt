// The names of the input ports of a class.
ghost use Rattle.std.specs.Prelude.{◌≡◌, ◌∷◌, ◌++◌, [], map, IfOk, OnOk};
ghost use Rattle.model_tree.specs.Pull.{class_ports};

use atomic_face::Class;
use quantity::{Name, OutOfMemory};
use std::alloc::{AllocError, Global};

/// The names of the input ports of a class, in the order of their numbers.
pub fn inputs_of_class(alloc: Global, class: Class) -> Result<Vec<Name>, OutOfMemory>
    ensures { IfOk result (λ names. names.items ≡ class_ports class) }
{
    names_of(alloc, class.in_ports())
}

/// The names that are written so.
fn names_of(alloc: Global, texts: &[&[u8]]) -> Result<Vec<Name>, OutOfMemory>
    ensures { IfOk result (λ names. names.items ≡ map (λ text. text.now) texts.now) }
{
    let mut names = Vec::new(alloc);
    for text in texts {
        put_name(alloc, text, &mut names)?;
    }
    Ok(names)
}

/// Appends the name that is written so. Each port of a class has a name, so only memory can lack.
fn put_name(alloc: Global, text: &[u8], into: &mut Vec<Name>) -> Result<(), OutOfMemory>
    ensures { OnOk result (into.new.items ≡ into.old.items ++ text.now ∷ []) }
{
    let name = Name::parse(alloc, text).map_err(|_| OutOfMemory)?;
    into.push(name).map_err(AllocError::from)?;
    Ok(())
}
