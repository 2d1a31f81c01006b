// The frames that a run begins with.
ghost use Rattle.std.specs.Prelude.{◌≡◌, None, IfOk};
ghost use Rattle.model_leaves.specs.Leaves.{OfTree};
ghost use Rattle.asked_words.specs.Shown.{asked_of};
ghost use Rattle.run_loop.specs.Groups.{IsFoundIn, CanShowIn, showing_at_start};

use crate::drawn::Drawn;
use asked_words::{Asked, GroupAt};
use model_leaves::Model;
use quantity::OutOfMemory;
use std::alloc::Global;

/// The frames that a run from the start begins with, where there are to be such, of this group of the
/// model. No value of a cell is known.
pub(crate) fn drawn_at_start(
    alloc: Global,
    model: &Model,
    asked: &Asked<'_>,
    group: Option<GroupAt>,
) -> Result<Option<Drawn>, OutOfMemory>
    requires found { IsFoundIn model.now (asked_of asked.now).frames group }
    requires shows { CanShowIn model.now (asked_of asked.now).frames }
    ensures { IfOk result (λ d. OfTree model.now
        (λ tree. d ≡ showing_at_start tree None (asked_of asked.now).frames)) }
{
    let Some(frames) = &asked.frames else {
        return Ok(None);
    };
    let Some(group) = group else {
        return Ok(None);
    };
    let drawn = Drawn::new(
        alloc,
        group.first,
        &model.group(group.number).grid,
        frames.plane,
        frames.width,
        frames.decimals,
    )?;
    Ok(Some(drawn))
}
