// What is told of a served message; messages as they wait.
use atomic_face::PortNo;
use quantity::{Time, Value};
use rule_tree::RuleStop;

/// The kinds of messages.
#[derive(Clone, Copy, PartialEq, Eq)]
pub enum MessageKind {
    /// A processor is asked for its output.
    Collect,
    /// A processor gave its output, which its parent serves.
    Output,
    /// A processor has to move.
    Transition,
    /// A processor is done, which its parent serves.
    Done,
}

/// Who served a message, of what kind it was, and the next time that it carried: that of a done
/// message, where it has one.
#[derive(Clone, Copy, PartialEq, Eq)]
pub struct Served {
    pub processor: u32,
    pub kind: MessageKind,
    pub next: Option<Time>,
}

/// A message that waits: a collect and a transition go to a processor, an output and a done come
/// from one. A transition has the bag that the processor takes, and whether it is woken.
#[derive(Drop)]
pub enum Message {
    Collect(u32),
    Output(u32, Vec<(PortNo, Value)>),
    Transition(u32, Vec<(PortNo, Value)>, bool),
    Done(u32, Answer),
}

/// What a transition message brings: the bag that its processor takes, and whether it is woken.
#[derive(Drop)]
pub struct Brought {
    pub bag: Vec<(PortNo, Value)>,
    pub woken: bool,
}

/// What a processor answers when it is done: its next time, and the first leaf that stopped.
#[derive(Clone, Copy)]
pub struct Answer {
    pub next: Option<Time>,
    pub stop: Option<(u32, RuleStop)>,
}
