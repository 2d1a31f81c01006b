// Names that are copied.
ghost use Rattle.std.specs.Prelude.{◌≡◌, ◌++◌, [], ◌∷◌, IfOk, OnOk};

use quantity::{Name, OutOfMemory};
use std::alloc::{AllocError, Global};

/// Appends the same name once more.
pub(crate) fn put_copy(name: &Name, into: &mut Vec<Name>) -> Result<(), OutOfMemory>
    ensures { OnOk result (into.new.items ≡ into.old.items ++ name.now ∷ []) }
{
    let copy = name.clone()?;
    into.push(copy).map_err(AllocError::from)?;
    Ok(())
}

/// Appends the same names once more.
pub fn put_copies(names: &[Name], into: &mut Vec<Name>) -> Result<(), OutOfMemory>
    ensures { OnOk result (into.new.items ≡ into.old.items ++ names.now) }
{
    for name in names {
        put_copy(name, into)?;
    }
    Ok(())
}

/// The same names once more.
pub fn all_copied(alloc: Global, names: &[Name]) -> Result<Vec<Name>, OutOfMemory>
    ensures { IfOk result (λ copies. copies.items ≡ names.now) }
{
    let mut copies = Vec::new(alloc);
    put_copies(names, &mut copies)?;
    Ok(copies)
}
