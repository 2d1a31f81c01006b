// What each cycle works over and uses again.
use crate::scratch::Scratch;
use leaf_set::LeafSet;
use quantity::Value;

/// What a cycle works over, and what the next one uses again, so that it takes no memory where an
/// earlier one has had as much.
#[derive(Drop)]
pub struct Workspace<S: LeafSet> {
    /// The leaves that are woken. They stay marked at the end of a cycle.
    pub woken: S,
    /// The leaves that move, while they are looked for.
    pub touched: S,
    /// The leaves that are due, which were taken from the queue.
    pub due: Vec<u32>,
    /// The leaves that move, rising.
    pub moving: Vec<u32>,
    /// The inputs of the instant, by their numbers, with their values.
    pub inputs: Vec<(u16, Value)>,
    /// Lists of a single leaf, or of a single part of a cycle.
    pub scratch: Scratch,
}
