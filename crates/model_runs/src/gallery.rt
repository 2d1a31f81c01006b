// Each model of the gallery is read, over two boxes of each class.
ghost use Rattle.std.specs.Prelude.{◌<◌, ◌^◌, length, IfOk};

use crate::gallery_texts::{FILES, MODELS};
use atomic_face::{AtomicModel, Class, Stock};
use atomic_kinds::{CounterModel, CpuModel, GeneratorModel, QueueModel};
use model_read::{ModelRefusal, ReadModel, read_model};
use room_edge::MemoryRoom;
use state_tables::TableModel;
use std::alloc::Global;
use std::process::Abort;
use std::test::Fail;

/// Whether there is a model.
fn is_model(read: Result<ReadModel, ModelRefusal>) -> bool {
    read.is_ok()
}

/// Whether the model of a file is read over these boxes.
fn is_read_over<M: AtomicModel>(
    alloc: Global,
    room: &mut MemoryRoom,
    name: &str,
    boxes: Vec<M>,
) -> Result<bool, Fail>
    requires { length boxes.items < 2 ^ 32 }
{
    let mut stock = Stock::new(alloc, boxes)?;
    let read = is_model(read_model(alloc, room, name, &mut stock, None));
    Ok(read)
}

/// A box of a class.
fn box_of(alloc: Global, class: Class) -> Result<Box<dyn AtomicModel>, Fail> {
    let model: Box<dyn AtomicModel> = match class {
        Class::Queue => Box::new(alloc, QueueModel::new(alloc))?,
        Class::Generator => Box::new(alloc, GeneratorModel::new())?,
        Class::Cpu => Box::new(alloc, CpuModel::new(alloc))?,
        Class::Counter => Box::new(alloc, CounterModel::new())?,
        Class::Table => Box::new(alloc, TableModel::new(alloc)?)?,
    };
    Ok(model)
}

/// Two of each class.
const CLASSES: [Class; 10] = [
    Class::Queue,
    Class::Generator,
    Class::Cpu,
    Class::Counter,
    Class::Table,
    Class::Queue,
    Class::Generator,
    Class::Cpu,
    Class::Counter,
    Class::Table,
];

/// Puts two boxes of each class behind the others.
fn push_boxes(alloc: Global, boxes: &mut Vec<Box<dyn AtomicModel>>) -> Result<(), Fail> {
    for class in &CLASSES {
        boxes.push(box_of(alloc, *class)?)?;
    }
    Ok(())
}

/// Two boxes of each class.
fn boxes_of(alloc: Global) -> Result<Vec<Box<dyn AtomicModel>>, Fail>
    ensures { IfOk result (λ boxes. length boxes.items < 2 ^ 32) }
{
    let mut boxes: Vec<Box<dyn AtomicModel>> = Vec::new(alloc);
    push_boxes(alloc, &mut boxes)?;
    if boxes.len() > CLASSES.len() {
        return Err(Fail::new("many boxes"));
    }
    Ok(boxes)
}

/// Whether the model of a file is read.
fn is_read(alloc: Global, room: &mut MemoryRoom, name: &str) -> Result<bool, Fail> {
    let boxes = boxes_of(alloc)?;
    is_read_over(alloc, room, name, boxes)
}

/// Puts the files into the room that models name.
fn put_files(room: &mut MemoryRoom) -> Result<(), Fail> {
    for (name, text) in &FILES {
        room.put_file(name, text.as_bytes())?;
    }
    Ok(())
}

/// Reads each model over the files.
fn all_are_read(rt: &(impl Abort + AllocGlobal), room: &mut MemoryRoom) -> Result<(), Fail> {
    put_files(room)?;
    for (name, text) in &MODELS {
        room.put_file(name, text.as_bytes())?;
        assert!(rt; is_read(rt.alloc(), room, name)?, "{name}");
    }
    Ok(())
}

#[test]
fn models_of_the_gallery_are_read(rt: HostRuntime) -> Result<(), Fail> {
    let mut room = MemoryRoom::new(rt.alloc(), 4096);
    all_are_read(&rt, &mut room)
}
