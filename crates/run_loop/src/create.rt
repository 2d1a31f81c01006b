// Files are made.
ghost use Rattle.run_loop.specs.AskedFiles.{names_of};
ghost use Rattle.run_loop.specs.Written.{MakesOne, MakesFiles};

use crate::outputs::{Output, Unwritten, name_of};
use asked_words::Asked;
use room_edge::{Room, WriteError};

/// Makes the log, then the output, then the file of frames, then that of the state at the end, where
/// there are to be such.
pub(crate) fn create_files<R: Room>(room: &mut R, asked: &Asked<'_>) -> Result<(), Unwritten>
    ensures { MakesFiles (names_of asked.now) (R.outside room.old) (R.outside room.new) result }
{
    create(room, asked, Output::Log)?;
    create(room, asked, Output::Out)?;
    create(room, asked, Output::Frames)?;
    create(room, asked, Output::State)
}

/// Makes one of the files, where there is to be one.
fn create<R: Room>(room: &mut R, asked: &Asked<'_>, file: Output) -> Result<(), Unwritten>
    ensures { MakesOne (names_of asked.now) file (R.outside room.old) (R.outside room.new) result }
{
    let Some(name) = name_of(asked, file) else {
        return Ok(());
    };
    match room.create(name) {
        Ok(()) => Ok(()),
        Err(WriteError::Failed) => Err(Unwritten::Fault(file)),
        Err(WriteError::Memory) => Err(Unwritten::Memory),
    }
}
