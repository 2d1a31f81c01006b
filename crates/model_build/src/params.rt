// The parameters of an atomic component.
ghost use Rattle.std.specs.Prelude.{◌≡◌, map, IfOk};
ghost use Rattle.model_text.specs.Stock.{param_of, params_of};
ghost use Rattle.model_walk.specs.Shown.{item_of};

use atomic_face::{Param, Params};
use ma_lines::{Entry, Sections};
use model_walk::Item;
use model_walk::entries::section_named;
use model_walk::item::name_of;
use quantity::{OutOfMemory, Text};
use std::alloc::{AllocError, Global};

/// The entries of the section of the component's name, where there is one.
pub(crate) fn params_of(
    alloc: Global,
    sections: &Sections,
    item: &Item<'_>,
) -> Result<Params, OutOfMemory>
    ensures { IfOk result (λ params. params.entries.items
        ≡ params_of sections.now (item_of item.now)) }
{
    let Some(section) = section_named(sections, name_of(item)) else {
        return Ok(Params {
            entries: Vec::new(alloc),
        });
    };
    let entries = copied(alloc, &section.entries)?;
    Ok(Params { entries })
}

/// Entries as parameters.
fn copied(alloc: Global, entries: &[Entry]) -> Result<Vec<Param>, OutOfMemory>
    ensures { IfOk result (λ params. params.items ≡ map param_of entries.now) }
{
    let mut params = Vec::new(alloc);
    for entry in entries {
        let param = param_of(alloc, entry)?;
        params.push(param).map_err(AllocError::from)?;
    }
    Ok(params)
}

/// An entry as a parameter.
fn param_of(alloc: Global, entry: &Entry) -> Result<Param, OutOfMemory>
    ensures { IfOk result (λ param. param ≡ param_of entry.now) }
{
    Ok(Param {
        line: entry.line,
        key: Text::copy(alloc, entry.key.as_bytes())?,
        value: Text::copy(alloc, entry.value.as_bytes())?,
    })
}
