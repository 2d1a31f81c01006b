// The records of a cycle.
use crate::Letter;
use atomic_face::PortNo;
use quantity::{MaybeTime, MaybeValueBytes, Time, ValueBytes};
use std::alloc::Global;

/// The letters of the log's lines that are written.
#[derive(Clone, Copy)]
pub struct Letters {
    pub y: bool,
    pub n: bool,
    pub x: bool,
    pub s: bool,
}

impl Letters {
    ghost use Rattle.std.specs.Prelude.{◌≡◌};
    ghost use Rattle.text_forms.specs.declared.letter.Letter.{Letter};
    ghost use Rattle.text_forms.specs.Letters.{has_letter};
    ghost use Rattle.text_forms.specs.Chosen.{is_chosen};

    /// The letters that are written among these bytes.
    pub fn among(bytes: &[u8]) -> Letters
        ensures { (letter : Letter) → is_chosen result letter ≡ has_letter bytes.now letter }
    {
        Letters {
            y: Letter::Y.is_among(bytes),
            n: Letter::N.is_among(bytes),
            x: Letter::X.is_among(bytes),
            s: Letter::S.is_among(bytes),
        }
    }
}

/// A value that a leaf gave: at its port `out`, or at a further port.
#[derive(Clone, Copy, PartialEq, Eq, Debug)]
pub struct YRecord {
    pub time: Time,
    pub leaf: u32,
    pub port: PortNo,
    pub value: ValueBytes,
}

/// A value that reached an input port of a leaf.
#[derive(Clone, Copy)]
pub struct XRecord {
    pub time: Time,
    pub leaf: u32,
    pub port: PortNo,
    pub value: ValueBytes,
}

/// A leaf that moved: its computed value, where it is a cell, and its next time, where it has one.
#[derive(Clone, Copy, PartialEq, Eq)]
pub struct SRecord {
    pub time: Time,
    pub leaf: u32,
    pub value: MaybeValueBytes,
    pub next: MaybeTime,
}

/// A value at an output of top, by the output's number.
#[derive(Clone, Copy)]
pub struct OutRecord {
    pub time: Time,
    pub port: u16,
    pub value: ValueBytes,
}

/// The records of one cycle: values given at ports `out` and at further ports, values that reached
/// a leaf, leaves that moved, and values at outputs of top. A caller keeps them, so that their room
/// is used again.
#[derive(Drop)]
pub struct Records {
    /// Values given at ports `out`.
    pub y: Vec<YRecord>,
    /// Values given at further ports.
    pub n: Vec<YRecord>,
    pub x: Vec<XRecord>,
    pub s: Vec<SRecord>,
    pub out: Vec<OutRecord>,
}

impl Records {
    ghost use Rattle.text_forms.specs.Held.{AreEmpty};

    /// No records.
    pub fn none(alloc: Global) -> Records
        ensures { AreEmpty result }
    {
        Records {
            y: Vec::new(alloc),
            n: Vec::new(alloc),
            x: Vec::new(alloc),
            s: Vec::new(alloc),
            out: Vec::new(alloc),
        }
    }

    /// No records any more, and the room that they had.
    pub fn clear(&mut self)
        ensures { AreEmpty self.new }
    {
        self.y.clear();
        self.n.clear();
        self.x.clear();
        self.s.clear();
        self.out.clear();
    }
}
