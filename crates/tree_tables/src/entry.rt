// The processors of a model as the tables have them.

/// Where a link begins: at an own input of the component that has the link, by its number, or at
/// an output port of a processor.
#[derive(Clone, Copy, PartialEq, Eq)]
pub enum Ref {
    OwnInput(u32),
    OutputOf { processor: u32, port: u32 },
}

/// A processor of a model's tree: a component, or a cell of a group.
#[derive(Drop)]
pub struct Entry {
    /// The number of its parent. That of top is behind the last.
    pub parent: u32,
    /// The numbers of its children, in declared order.
    pub children: Vec<u32>,
    /// The number of the leaf that it is, if it is one.
    pub leaf: Option<u32>,
    /// At each of its output ports, where the links into it begin.
    pub outs: Vec<Vec<Ref>>,
    /// At each of its input ports, where the links of its parent into it begin. Top has none.
    pub ins: Vec<Vec<Ref>>,
}
