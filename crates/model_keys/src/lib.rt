//! The phase of keys: which keys must stand in a section, which may stand once, and the form of
//! their values; and which parameters of atomic components stand twice and may not.
//!
//! - `keys_refused` takes the sections and the walk, and gives the least refusal, or none.
//! - The tables of keys stand in `model_text` (`key`). `again` has what stands twice, `form` the
//!   values off their form, `wanted` how many values go with the words of another key.
//! - Values are tested by what was read in them (`ReadEntry` of `model_walk`), each by the form of
//!   its key (`form`); `names` has the tests of names and words.
//! - Definitions: `model_text/specs/Keys.antt` (`keys_refused`), `Forms.antt` and `Links.antt`. It
//!   rests on `Class` of `atomic_face` for the keys of classes.
#![tactic(auto)]

ghost use Rattle.std.specs.Prelude.{◌≡◌, IfOk};
ghost use Rattle.std.specs.Option.{option_map};
ghost use Rattle.model_text.specs.Keys as K;
ghost use Rattle.model_walk.specs.Met.{IsWalk};
ghost use Rattle.model_walk.specs.Shown.{refusal_of};

mod again;
mod form;
mod names;
mod sections;
mod wanted;

use crate::again::of_atomics;
use crate::sections::of_sections;
use ma_lines::Sections;
use model_walk::least::least;
use model_walk::{Refused, Walked};
use quantity::OutOfMemory;
use std::alloc::Global;

/// The least refusal of the keys of the sections that the walk met, and of the parameters of its
/// atomic components.
#[tactic(auto, using(crate::proofs::Parts::joined))]
pub fn keys_refused(
    alloc: Global,
    sections: &Sections,
    walked: &Walked<'_, '_>,
) -> Result<Option<Refused>, OutOfMemory>
    requires { IsWalk sections.now walked.now }
    ensures { IfOk result (λ why. option_map refusal_of why ≡ K.keys_refused sections.now) }
{
    let first = of_sections(alloc, &walked.sections)?;
    let second = of_atomics(alloc, sections, &walked.items)?;
    Ok(least(first, second))
}
