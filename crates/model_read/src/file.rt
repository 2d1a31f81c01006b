// A file that is read whole, and what stops that.
ghost use Rattle.std.specs.Prelude.{◌≡◌, ◌≤◌, [], ◌∷◌, Some, IfSome, IfOk, length};
ghost use Rattle.quantity.specs.declared.bounds.TheConstants.{MAX_FILE_BYTES};
ghost use Rattle.ma_lines.specs.Laws.{IsPlain};
ghost use Rattle.model_read.specs.Reading.{ReadsFiles};
ghost use Rattle.model_read.specs.WholeFile.{any_file, answer_to_read};

use crate::refusal::ModelRefusal;
use model_text::Kind;
use quantity::Text;
use quantity::bounds::MAX_FILE_BYTES;
use room_edge::{ReadWhole, Room, read_whole};
use std::alloc::Global;
use std::str;

/// The most bytes of a file that is read.
const MOST_BYTES: u32 = MAX_FILE_BYTES as u32;

/// The bytes of a file that is named on this line, 0 for a file that no line names. It is missing,
/// can't be read, or is too long; only where memory ran out it may not have been looked for.
pub(crate) fn read_file<R: Room>(
    alloc: Global,
    room: &mut R,
    name: &str,
    line: u32,
) -> Result<Vec<u8>, ModelRefusal>
    ensures read { ReadsFiles (any_file line name.now ∷ []) result
        (R.outside room.old) (R.outside room.new) }
    ensures bytes { IfSome (R.outside room.old).files
        (λ files. IfOk result (λ b. files name.now ≡ Some b.items)) }
    ensures short { IfOk result (λ bytes. length bytes.items ≤ MAX_FILE_BYTES) }
{
    // Kept first: a miss that was counted is answered as one.
    let kept = Text::copy(alloc, name.as_bytes())?;
    let read = read_whole(alloc, room, name, MOST_BYTES);
    answer(line, kept, read)
}

/// What is answered to a whole read.
fn answer(line: u32, name: Text, read: Result<Vec<u8>, ReadWhole>) -> Result<Vec<u8>, ModelRefusal>
    ensures { result ≡ answer_to_read line name read }
{
    match read {
        Ok(bytes) => Ok(bytes),
        Err(ReadWhole::Missing) => Err(ModelRefusal::Missing(name)),
        Err(ReadWhole::ReadFault) => Err(ModelRefusal::ReadFault(name)),
        Err(ReadWhole::TooLong(_)) => Err(ModelRefusal::Refused {
            line,
            kind: Kind::TooLong,
        }),
        Err(ReadWhole::Memory) => Err(ModelRefusal::Memory),
    }
}

/// A plain text, which is ASCII, as a name.
pub(crate) fn plain_text(text: &[u8]) -> &str
    requires { IsPlain text.now }
    ensures { result.now ≡ text.now }
{
    match str::from_utf8(text) {
        Ok(name) => name,
        Err(_) => unreachable!(),
    }
}
