// What words ask for, and that of the simulator.
ghost use Rattle.std.specs.Prelude.{◌≡◌, ◌≤◌, IfOk, IfSome, map};
ghost use Rattle.std.specs.Option.{option_map};
ghost use Rattle.std.specs.String.{string_bytes};
ghost use Rattle.answer_model.specs.Asked as A;
ghost use Rattle.asked_words.specs.Shown.{text_of_name, source_of, frames_file_of, asked_of};
ghost use Rattle.asked_words.specs.Shown.{IsOfSize, CanBeShown, IsInBounds};
ghost use Rattle.asked_words.specs.Drafts.{draft_of, IsBounded, MadeDiffer};

use crate::draft::Draft;
use crate::read::cdpp_draft;
use crate::values::group_in;
use cell_grid::Grid;
use quantity::{Name, OutOfMemory, Time};
use std::alloc::Global;

/// Where a model comes from: a file, or a game of life with so many rows and columns, 5 to 1000.
#[derive(Clone, Copy)]
pub enum Source<'a> {
    File(&'a str),
    Made(u32),
}

/// A file of frames, the group that they show, its plane, the width of a cell, 1 to 20, and its
/// decimals, 0 to 5.
#[derive(Drop)]
pub struct FramesFile<'a> {
    pub name: &'a str,
    pub group: Name,
    pub plane: u32,
    pub width: u8,
    pub decimals: u8,
}

/// What the words of the simulator ask for: the model, the last instant, the file of frames, where
/// there is to be one, and all that is given, of which the options that stand alone are read.
#[derive(Drop)]
pub struct Asked<'a> {
    pub source: Source<'a>,
    pub end: Time,
    pub frames: Option<FramesFile<'a>>,
    pub given: Draft<'a>,
}

/// What the words of the drawing program ask for: a log, a group in it with its space, the plane
/// that is drawn, which the space has, the width of a cell, 1 to 20, and its decimals, 0 to 5.
#[derive(Drop)]
pub struct AskedDrawing<'a> {
    pub log: &'a str,
    pub group: Name,
    pub space: Grid,
    pub plane: u32,
    pub width: u8,
    pub decimals: u8,
}

/// A model's file, or the size of a made one, and not both.
fn source_in<'a>(model: Option<&'a str>, size: Option<u32>) -> Option<Source<'a>>
    requires size { IfSome size (λ n. (5 ≤ n) × (n ≤ 1000)) }
    ensures source { option_map source_of result ≡ A.source_in (text_of_name model.entry) size }
    ensures size { IfSome result IsOfSize }
{
    match (model, size) {
        (Some(name), None) => Some(Source::File(name)),
        (None, Some(size)) => Some(Source::Made(size)),
        _ => None,
    }
}

/// A file of frames with its group, where both are given; neither is none.
fn frames_in<'a>(
    alloc: Global,
    draft: &Draft<'a>,
) -> Result<Option<Option<FramesFile<'a>>>, OutOfMemory>
    requires { IsBounded draft.now }
    ensures frames { IfOk result (λ f. option_map (option_map frames_file_of) f
        ≡ A.frames_in (text_of_name draft.now.drawn) (text_of_name draft.now.group)
        draft.now.width draft.now.decimals draft.now.plane) }
    ensures bounds { IfOk result (λ f. IfSome f (λ f. IfSome f CanBeShown)) }
    ensures named { IfOk result (λ f. IfSome f
        (λ f. option_map (λ f. f.name.now) f ≡ text_of_name draft.now.drawn)) }
{
    match (draft.drawn, draft.group) {
        (None, None) => Ok(Some(None)),
        (Some(name), Some(group)) => match group_in(alloc, group)? {
            None => Ok(None),
            Some(group) => Ok(Some(Some(FramesFile {
                name,
                group,
                plane: draft.plane,
                width: draft.width,
                decimals: draft.decimals,
            }))),
        },
        _ => Ok(None),
    }
}

/// Whether no state is saved or read of a made model or of a run that is served in an order.
fn may_save(draft: &Draft<'_>) -> bool
    ensures { result ≡ A.may_save (draft_of draft.now) }
{
    (draft.save.is_none() & draft.state.is_none()) | (draft.seed.is_none() & draft.size.is_none())
}

/// What a draft asks for, where it has a model and an end.
fn asked_of<'a>(alloc: Global, draft: &Draft<'a>) -> Result<Option<Asked<'a>>, OutOfMemory>
    requires bounds { IsBounded draft.now }
    requires made { MadeDiffer draft.now }
    ensures value { IfOk result
        (λ a. option_map asked_of a ≡ A.asked_in_draft (draft_of draft.now)) }
    ensures bounds { IfOk result (λ a. IfSome a IsInBounds) }
{
    let Some(source) = source_in(draft.model, draft.size) else {
        return Ok(None);
    };
    let Some(end) = draft.end else {
        return Ok(None);
    };
    let Some(frames) = frames_in(alloc, draft)? else {
        return Ok(None);
    };
    if !may_save(draft) {
        return Ok(None);
    }
    Ok(Some(Asked {
        source,
        end,
        frames,
        given: Draft { ..*draft },
    }))
}

/// What the words ask for, of which the first is the program's name; None where they are refused.
pub fn read_words<'a>(alloc: Global, words: &'a [String]) -> Result<Option<Asked<'a>>, OutOfMemory>
    ensures value { IfOk result (λ a. option_map asked_of a
        ≡ A.asked_by_words (map string_bytes words.entry.now)) }
    ensures bounds { IfOk result (λ a. IfSome a IsInBounds) }
{
    match cdpp_draft(alloc, words) {
        Ok(Some(draft)) => asked_of(alloc, &draft),
        Ok(None) => Ok(None),
        Err(OutOfMemory) => Err(OutOfMemory),
    }
}
