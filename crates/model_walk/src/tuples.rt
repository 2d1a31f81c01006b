// Tuples behind the name of a group.
ghost use Rattle.std.specs.Prelude.{◌≡◌, map, IfOk};
ghost use Rattle.std.specs.Option.{option_map};
ghost use Rattle.quantity.specs.Bytes.{is_empty, without_outer_blanks};
ghost use Rattle.source_text.specs.Shown.{named_of};
ghost use Rattle.model_text.specs.Forms as F;
ghost use Rattle.model_walk.specs.TupleParts.{tuple_in};

use quantity::OutOfMemory;
use source_text::NamedTuple;
use source_text::cut::part_before;
use source_text::line::trimmed;
use source_text::tuples::named_tuple;
use std::alloc::{AllocError, Global};

/// The tuples of a text, each behind the group's name or behind nothing; None where it has another
/// form.
pub fn tuples_of<'a>(
    alloc: Global,
    group: &[u8],
    text: &'a [u8],
) -> Result<Option<Vec<NamedTuple<'a>>>, OutOfMemory>
    ensures { IfOk result (λ found. option_map (λ list. map named_of list.items) found
        ≡ F.tuples_of group.now text.now) }
{
    let mut found = Vec::new(alloc);
    let mut rest = text;
    while let Some((part, behind)) = part_before(b')', rest) {
        let Some(named) = tuple_in(group, part) else {
            return Ok(None);
        };
        found.push(named).map_err(AllocError::from)?;
        rest = behind;
    }
    if trimmed(rest).is_empty() {
        Ok(Some(found))
    } else {
        Ok(None)
    }
}

/// The tuple in one part, with blanks around it.
fn tuple_in<'a>(group: &[u8], part: &'a [u8]) -> Option<NamedTuple<'a>>
    ensures { option_map named_of result ≡ tuple_in group.now part.now }
{
    let named = named_tuple(trimmed(part))?;
    if named.name.is_empty() || named.name == group {
        Some(named)
    } else {
        None
    }
}
