// Ports as numbered nodes: each is a source, or joins nodes before it in the order of its links.
use crate::span::Span;
use model_leaves::Source;

/// What a port gives: one source, or what the nodes before it of these numbers give, one after
/// another.
#[derive(Drop)]
pub enum Node {
    Given(Source),
    Joins(Vec<u32>),
}

/// The ports of a model as nodes.
#[derive(Drop)]
pub struct Net {
    /// Each joins none but older ones.
    pub nodes: Vec<Node>,
    /// The nodes at the input ports of all leaves, leaf after leaf.
    pub ports: Vec<u32>,
    /// For each leaf its part of these.
    pub leaves: Vec<Span>,
    /// The nodes at the outputs of top.
    pub outputs: Vec<u32>,
}
