// The phases behind the limit of links: routes, files and the drawing.
ghost use Rattle.std.specs.Prelude.{◌≡◌, map, length};
ghost use Rattle.std.specs.List.{All, find};
ghost use Rattle.std.specs.Str.{bytes_eq};
ghost use Rattle.ma_lines.specs.Laws.{IsPlainSection};
ghost use Rattle.cell_grid.specs.Space.{cell_count};
ghost use Rattle.model_leaves.specs.Laid.{tree_with_values};
ghost use Rattle.model_leaves.specs.Leaves.{Settings};
ghost use Rattle.model_leaves.specs.Models.{tree_of};
ghost use Rattle.model_text.specs.Spaces.{space_of};
ghost use Rattle.model_text.specs.Walk as W;
ghost use Rattle.model_walk.specs.Placed.{values_before_files};
ghost use Rattle.model_build.specs.Built.{PassesSome, IsBuilt};
ghost use Rattle.model_read.specs.Spaces as spaces;
ghost use Rattle.model_read.specs.Read.{drawing_of};
ghost use Rattle.model_read.specs.Whole.{ReadsBehind};
ghost use Rattle.model_read.specs.Ends.{can_draw, has_plane, IsBlank, RoutesGive};

use crate::found::ReadModel;
use crate::group::drawn_in;
use crate::group_space::GroupSpace;
use crate::initial::initial_values;
use crate::phases::Judged;
use crate::refusal::ModelRefusal;
use asked_words::FramesFile;
use cell_grid::Initial;
use ma_lines::Sections;
use model_build::laws::{
    blanks_are_laid, boxes_are_standing, groups_are_alike, groups_are_met, laid_models_are_sound,
    links_stay,
};
use model_leaves::Model;
use model_text::Kind;
use model_text::building::{files_are_laid, totals_are_within_limits};
use room_edge::Room;
use route_flat::{RouteRefusal, Routes};
use std::alloc::Global;

/// The model and its routes, from what the phases up to the limit of links gave: the paths are
/// counted, the files of initial values are read, and then the drawing is looked at.
pub(crate) fn finish<R: Room>(
    alloc: Global,
    room: &mut R,
    sections: &Sections,
    judged: Judged<'_>,
    frames: Option<&FramesFile<'_>>,
) -> Result<ReadModel, ModelRefusal>
    requires plain { All IsPlainSection sections.now }
    requires passed { PassesSome sections.now }
    requires built { (settings : Settings) × IsBuilt sections.now settings judged.top }
    requires groups { map spaces.kept_space judged.groups.items
        ≡ map spaces.said_space (W.groups sections.now) }
    requires values { judged.values.items ≡ map values_before_files (W.groups sections.now) }
    ensures { ReadsBehind sections.now judged.entry.top (drawing_of frames.entry)
        (R.outside room.old) (R.outside room.new) result }
{
    groups_are_met();
    blanks_are_laid();
    links_stay();
    laid_models_are_sound();
    boxes_are_standing();
    totals_are_within_limits();
    files_are_laid();
    let Judged {
        top,
        groups,
        values,
    } = judged;
    let mut model = Model::new(alloc, top)?;
    let routes = routes_of(alloc, &model)?;
    let is_there = can_draw(frames, &groups);
    let values = match initial_values(alloc, room, sections, &groups, values) {
        Ok(values) => values,
        Err(why) => {
            release(model, routes);
            return Err(why);
        }
    };
    if !is_there {
        release(model, routes);
        return Err(no_such_plane());
    }
    lay_values(sections, &mut model, values);
    let drawn = drawn_in(&model, frames);
    Ok(ReadModel {
        model,
        routes,
        drawn,
    })
}

/// Gives back the memory of a model of which nothing is made. How all its parts are let go is proved
/// here, once for both calls.
fn release(_model: Model, _routes: Routes) {}

/// The routes of a model, or the refusal of too many paths.
fn routes_of(alloc: Global, model: &Model) -> Result<Routes, ModelRefusal>
    ensures { RoutesGive model.now result }
{
    match Routes::build(alloc, model) {
        Ok(routes) => Ok(routes),
        Err(RouteRefusal::TooManyRoutes) => Err(ModelRefusal::Refused {
            line: 0,
            kind: Kind::TooManyRoutes,
        }),
        Err(RouteRefusal::Memory) => Err(ModelRefusal::Memory),
    }
}

/// What is answered where there is no plane that could be drawn.
fn no_such_plane() -> ModelRefusal
    ensures { result ≡ ModelRefusal.Refused 0 Kind.NoSuchPlane }
{
    ModelRefusal::Refused {
        line: 0,
        kind: Kind::NoSuchPlane,
    }
}

/// Whether nothing is drawn, or a plane that there is.
fn can_draw(frames: Option<&FramesFile<'_>>, groups: &[GroupSpace<'_>]) -> bool
    ensures { result ≡ can_draw (drawing_of frames.entry) groups.now }
{
    match frames {
        None => true,
        Some(frames) => has_plane(frames, groups),
    }
}

/// Whether a group of this name has the plane.
fn has_plane(frames: &FramesFile<'_>, groups: &[GroupSpace<'_>]) -> bool
    ensures { result ≡ has_plane frames.now.plane
        (find (λ g. bytes_eq g.section.now.name frames.now.group) groups.now) }
{
    for group in groups {
        if group.section.name.as_bytes() == frames.group.as_bytes() {
            return frames.plane < group.grid.planes();
        }
    }
    false
}

/// Gives the groups of a model with `?` in each cell their values.
fn lay_values(sections: &Sections, model: &mut Model, values: Vec<Initial>)
    requires passed { PassesSome sections.now }
    requires blank { IsBlank sections.now model.old }
    requires sizes { map (λ v. length v) values.items
        ≡ map (λ s. cell_count (space_of s)) (W.groups sections.now) }
    ensures { (settings : Settings)
        → tree_of model.new settings ≡ tree_with_values values.items (tree_of model.old settings) }
{
    // For the proof: only the clauses speak of it.
    let _sections = sections;
    groups_are_met();
    groups_are_alike();
    blanks_are_laid();
    model.lay(values);
}
