// How frames come of what is shown, instant by instant.
ghost use Rattle.frame_draw.specs.Instants.{OneFrame};
ghost use Rattle.frame_draw.specs.Turns.{DrawsAllFrames};

/// What is shown at one instant gives one frame, of the values after it.
pub fn an_instant_is_one_frame()
    ensures { OneFrame }
{}

/// Where all that is shown is taken in turn, and a frame is drawn as each instant ends, all frames
/// are drawn.
pub fn frames_are_drawn_in_turn()
    ensures { DrawsAllFrames }
{}
