// The files of a run, and why one isn't written.
ghost use Rattle.std.specs.Prelude.{◌≡◌};
ghost use Rattle.std.specs.Option.{option_map};
ghost use Rattle.asked_words.specs.Shown.{text_of_name, frames_file_of};
ghost use Rattle.run_loop.specs.AskedFiles.{names_of, frames_name, name_at};

use asked_words::{Asked, FramesFile};

/// One of the files that a run makes: its log, its output, its frames, or the state at its end.
#[derive(Clone, Copy)]
pub enum Output {
    Log,
    Out,
    Frames,
    State,
}

/// Why not all was written: a file could not be, or there is no memory.
#[derive(Clone, Copy)]
pub enum Unwritten {
    Fault(Output),
    Memory,
}

/// The name of one of the files, where there is to be one.
pub(crate) fn name_of<'a>(asked: &Asked<'a>, file: Output) -> Option<&'a str>
    ensures { text_of_name result ≡ name_at (names_of asked.now) file }
{
    match file {
        Output::Log => asked.given.log,
        Output::Out => asked.given.out,
        Output::Frames => frames_named(&asked.frames),
        Output::State => asked.given.save,
    }
}

/// The name of the file of frames, where there is to be one.
fn frames_named<'a>(frames: &Option<FramesFile<'a>>) -> Option<&'a str>
    ensures { text_of_name result ≡ frames_name (option_map frames_file_of frames.now) }
{
    match frames {
        None => None,
        Some(frames) => Some(frames.name),
    }
}
