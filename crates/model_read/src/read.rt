// The reading of a model, phase after phase.
ghost use Rattle.std.specs.Prelude.{◌≡◌, ◌≤◌, IfSome, IfOk, not, IsTrue, length};
ghost use Rattle.std.specs.List.{All, list_all};
ghost use Rattle.quantity.specs.declared.bounds.TheConstants.{MAX_FILE_BYTES};
ghost use Rattle.ma_lines.specs.Laws.{IsPlainSection};
ghost use Rattle.room_edge.specs.Only.{OnlyInput};
ghost use Rattle.room_edge.specs.FaultCounts.{KeepsMisses, KeepsReadFaults};
ghost use Rattle.model_leaves.specs.Leaves.{OfTree};
ghost use Rattle.model_text.specs.ModelOf.{model_in, model_of};
ghost use Rattle.model_build.specs.Settled.{classes_of};
ghost use Rattle.model_read.specs.Reading.{Tried, IsLastTried, Counted};
ghost use Rattle.asked_words.specs.Group.{IsDrawn};
ghost use Rattle.model_read.specs.Read.{drawing_of, ModelGives, IsReady, CanBeDrawn, Reads};
ghost use Rattle.model_read.specs.Stops.{refusal_of_stop};
ghost use Rattle.model_read.specs.Whole.{found_of, looked_of, of_name, refusal_of_lines};

use crate::ends::finish;
use crate::file::read_file;
use crate::found::ReadModel;
use crate::phases::judge;
use crate::refusal::ModelRefusal;
use asked_words::FramesFile;
use atomic_face::{AtomicModel, Stock};
use ma_lines::laws::texts_are_plain;
use ma_lines::{LineRefusal, Lines, Sections};
use model_text::Kind;
use model_text::accepted::first_phase_decides;
use model_walk::Stop;
use room_edge::Room;
use std::alloc::Global;

/// The model of the bytes of a model file, its routes, and the group that is drawn.
///
/// The lines are read, and then the phases follow; the first that refuses decides. After a refusal,
/// or where there is no memory, boxes of the stock may be taken.
pub fn read_model_bytes<R: Room, M: AtomicModel>(
    alloc: Global,
    room: &mut R,
    bytes: &[u8],
    stock: &mut Stock<M>,
    frames: Option<&FramesFile<'_>>,
) -> Result<ReadModel, ModelRefusal>
    requires short { length bytes.now ≤ MAX_FILE_BYTES }
    requires free { IsTrue (list_all (λ s. not s.taken) stock.old) }
    // Where the files are told: just what the definition finds, and the names that it looks for.
    ensures found { IfSome (R.outside room.old).files (λ files. ModelGives
        (model_of bytes.now files (classes_of stock.old) (drawing_of frames.entry)).found
        stock.new result) }
    ensures tried { IfSome (R.outside room.old).files (λ files. Tried result
        (model_of bytes.now files (classes_of stock.old) (drawing_of frames.entry)).looked
        (R.outside room.old).tried (R.outside room.new).tried) }
    // Over every room: a model that can be run and drawn, and each cause where it is counted.
    ensures ready { IfOk result (λ read. IsReady stock.new read.model read.routes) }
    ensures drawn { IfOk result (λ read. CanBeDrawn (drawing_of frames.entry) stock.new
        read.model) }
    ensures group { IfOk result (λ read. OfTree read.model
        (λ t. IsDrawn (drawing_of frames.entry) read.drawn t)) }
    ensures last { IsLastTried result (R.outside room.new).tried }
    ensures counted { Counted result (R.outside room.old) (R.outside room.new) }
    ensures misses { KeepsMisses (R.outside room.old) (R.outside room.new) }
    ensures faults { KeepsReadFaults (R.outside room.old) (R.outside room.new) }
    ensures only { OnlyInput (R.outside room.old) (R.outside room.new) }
{
    read_bytes(alloc, room, bytes, stock, frames)
}

/// The model of the file of this name, its routes, and the group that is drawn.
///
/// `Missing` is the model file's name or that of an initial file, and `ReadFault` too. A model file
/// of more than `MAX_FILE_BYTES` bytes is refused at line 0.
pub fn read_model<R: Room, M: AtomicModel>(
    alloc: Global,
    room: &mut R,
    name: &str,
    stock: &mut Stock<M>,
    frames: Option<&FramesFile<'_>>,
) -> Result<ReadModel, ModelRefusal>
    requires free { IsTrue (list_all (λ s. not s.taken) stock.old) }
    // Where the files are told: just what the definition finds, and the names that it looks for.
    ensures found { IfSome (R.outside room.old).files (λ files. ModelGives
        (found_of files name.now (classes_of stock.old) (drawing_of frames.entry))
        stock.new result) }
    ensures tried { IfSome (R.outside room.old).files (λ files. Tried result
        (looked_of files name.now (classes_of stock.old) (drawing_of frames.entry))
        (R.outside room.old).tried (R.outside room.new).tried) }
    // Over every room: a model that can be run and drawn, and each cause where it is counted.
    ensures ready { IfOk result (λ read. IsReady stock.new read.model read.routes) }
    ensures drawn { IfOk result (λ read. CanBeDrawn (drawing_of frames.entry) stock.new
        read.model) }
    ensures group { IfOk result (λ read. OfTree read.model
        (λ t. IsDrawn (drawing_of frames.entry) read.drawn t)) }
    ensures last { IsLastTried result (R.outside room.new).tried }
    ensures counted { Counted result (R.outside room.old) (R.outside room.new) }
    ensures misses { KeepsMisses (R.outside room.old) (R.outside room.new) }
    ensures faults { KeepsReadFaults (R.outside room.old) (R.outside room.new) }
    ensures only { OnlyInput (R.outside room.old) (R.outside room.new) }
{
    read_named(alloc, room, name, stock, frames)
}

/// The file, and then its bytes.
fn read_named<R: Room, M: AtomicModel>(
    alloc: Global,
    room: &mut R,
    name: &str,
    stock: &mut Stock<M>,
    frames: Option<&FramesFile<'_>>,
) -> Result<ReadModel, ModelRefusal>
    requires { IsTrue (list_all (λ s. not s.taken) stock.old) }
    ensures { Reads (of_name name.now (classes_of stock.old) (drawing_of frames.entry))
        (drawing_of frames.entry) stock.new result (R.outside room.old) (R.outside room.new) }
{
    let bytes = read_file(alloc, room, name, 0)?;
    read_bytes(alloc, room, &bytes, stock, frames)
}

/// The lines, and then the sections.
fn read_bytes<R: Room, M: AtomicModel>(
    alloc: Global,
    room: &mut R,
    bytes: &[u8],
    stock: &mut Stock<M>,
    frames: Option<&FramesFile<'_>>,
) -> Result<ReadModel, ModelRefusal>
    requires short { length bytes.now ≤ MAX_FILE_BYTES }
    requires free { IsTrue (list_all (λ s. not s.taken) stock.old) }
    ensures { Reads
        (λ files. model_of bytes.now files (classes_of stock.old) (drawing_of frames.entry))
        (drawing_of frames.entry) stock.new result (R.outside room.old) (R.outside room.new) }
{
    texts_are_plain();
    match Lines::read(alloc, bytes) {
        Ok(sections) => read_sections(alloc, room, &sections, stock, frames),
        Err(why) => Err(line_refusal(why)),
    }
}

/// The phases up to the limit of links, and then those behind it.
fn read_sections<R: Room, M: AtomicModel>(
    alloc: Global,
    room: &mut R,
    sections: &Sections,
    stock: &mut Stock<M>,
    frames: Option<&FramesFile<'_>>,
) -> Result<ReadModel, ModelRefusal>
    requires plain { All IsPlainSection sections.now }
    requires free { IsTrue (list_all (λ s. not s.taken) stock.old) }
    ensures { Reads
        (λ files. model_in sections.now files (classes_of stock.old) (drawing_of frames.entry))
        (drawing_of frames.entry) stock.new result (R.outside room.old) (R.outside room.new) }
{
    first_phase_decides();
    match judge(alloc, sections, stock) {
        Ok(judged) => finish(alloc, room, sections, judged, frames),
        Err(stop) => Err(stop_refusal(stop)),
    }
}

/// What is answered where a phase stops.
fn stop_refusal(stop: Stop) -> ModelRefusal
    ensures { result ≡ refusal_of_stop stop }
{
    match stop {
        Stop::Refused(why) => ModelRefusal::Refused {
            line: why.line,
            kind: why.kind,
        },
        Stop::Memory => ModelRefusal::Memory,
    }
}

/// What is answered to a line that is refused.
fn line_refusal(why: LineRefusal) -> ModelRefusal
    ensures { result ≡ refusal_of_lines why }
{
    match why {
        LineRefusal::BadLine(line) => ModelRefusal::Refused {
            line,
            kind: Kind::BadLine,
        },
        LineRefusal::DuplicateSection(line) => ModelRefusal::Refused {
            line,
            kind: Kind::DuplicateSection,
        },
        LineRefusal::Memory => ModelRefusal::Memory,
    }
}
