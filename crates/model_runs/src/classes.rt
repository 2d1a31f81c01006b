// The classes through boxes in a stock: each call is run once with ample memory, at values worked
// out by hand.
ghost use Rattle.std.specs.Prelude.{◌≡◌, ◌<◌, ◌^◌, length, IfOk};

use crate::moves::{Moves, goes};
use crate::tables::param;
use atomic_face::{AtomicModel, BoxNo, Class, Params, Stock};
use atomic_kinds::{CounterModel, CpuModel, GeneratorModel, QueueModel};
use std::alloc::Global;
use std::process::Abort;
use std::test::Fail;

// What a box is led through: a parameter, and how it moves then.
#[derive(Clone, Copy)]
struct Course<'a> {
    class: Class,
    key: &'a [u8],
    value: &'a [u8],
    moves: Moves<'a>,
}

fn taken<M: AtomicModel>(stock: &mut Stock<M>, class: Class) -> Result<BoxNo, Fail>
    ensures { IfOk result (λ at. at.0 < length stock.new) }
{
    Ok(stock.take(class)?)
}

fn settle<M: AtomicModel>(
    stock: &mut Stock<M>,
    no: BoxNo,
    alloc: Global,
    course: &Course<'_>,
) -> Result<(), Fail>
    requires { no.0 < length stock.old }
    ensures { length stock.new ≡ length stock.old }
{
    let mut entries = Vec::new(alloc);
    entries.push(param(alloc, 4, course.key, course.value)?)?;
    stock.settle(alloc, no, &Params { entries })?;
    Ok(())
}

fn leads<M: AtomicModel>(
    rt: &impl Abort,
    alloc: Global,
    stock: &mut Stock<M>,
    course: &Course<'_>,
) -> Result<(), Fail> {
    let no = taken(stock, course.class)?;
    settle(stock, no, alloc, course)?;
    goes(rt, alloc, stock, no, &course.moves)
}

fn lead<M: AtomicModel>(
    rt: &impl Abort,
    alloc: Global,
    boxes: Vec<M>,
    courses: &[Course<'_>],
) -> Result<(), Fail>
    requires { length boxes.items < 2 ^ 32 }
{
    let mut stock = Stock::new(alloc, boxes)?;
    for course in courses {
        leads(rt, alloc, &mut stock, course)?;
    }
    Ok(())
}

fn one_of_each(alloc: Global) -> Result<Vec<Box<dyn AtomicModel>>, Fail>
    ensures { IfOk result (λ boxes. length boxes.items ≡ 4) }
{
    let queue: Box<dyn AtomicModel> = Box::new(alloc, QueueModel::new(alloc))?;
    let generator: Box<dyn AtomicModel> = Box::new(alloc, GeneratorModel::new())?;
    let cpu: Box<dyn AtomicModel> = Box::new(alloc, CpuModel::new(alloc))?;
    let counter: Box<dyn AtomicModel> = Box::new(alloc, CounterModel::new())?;
    Ok(vec![in alloc; queue, generator, cpu, counter]?)
}

// A course of each class.
const COURSES: [Course<'static>; 4] = [
    Course {
        class: Class::Queue,
        key: b"preparation",
        value: b"00:00:00:010",
        moves: Moves {
            start: 5,
            bag: &[(0, 7)],
            due: 15,
            values: &[(0, 7)],
            state: &[1, 15, 700_000],
        },
    },
    Course {
        class: Class::Generator,
        key: b"period",
        value: b"00:00:00:010",
        moves: Moves {
            start: 0,
            bag: &[],
            due: 10,
            values: &[(0, 1)],
            state: &[10, 100_000, -1],
        },
    },
    Course {
        class: Class::Cpu,
        key: b"delay",
        value: b"00:00:00:010",
        moves: Moves {
            start: 5,
            bag: &[(0, 1), (0, 2)],
            due: 15,
            values: &[(0, 1), (0, 2)],
            state: &[15, 100_000, 15, 200_000],
        },
    },
    Course {
        class: Class::Counter,
        key: b"delay",
        value: b"00:00:00:000",
        moves: Moves {
            start: 3,
            bag: &[(0, 9), (1, 9)],
            due: 3,
            values: &[(0, 0)],
            state: &[0, 3],
        },
    },
];

#[test]
fn boxes_are_led(rt: HostRuntime) -> Result<(), Fail> {
    lead(&rt, rt.alloc(), one_of_each(rt.alloc())?, &COURSES)
}
