//! The ports of a model as a net of numbered nodes: a node is one source (an output of a leaf, or
//! an input of top), or joins older nodes. So links are followed once, however many paths lead over
//! them.
//!
//! - `net_of` takes a `Model` and gives its `Net`: the nodes, and which of them stand at the input
//!   ports of leaves and at the outputs of top. `Span` is a type of what it gives; `Source` is
//!   that of `model_tree`.
//! - Below it: what components give, from the leaves up (`outputs`), what reaches leaves, from top
//!   down (`rows`), the nodes of links (`sources`), which are looked up by where they lead
//!   (`Arrivals`), and children by their names (`Children`).
//! - Definitions: `specs/Nets.antt` (`IsNetOf`: what stands at the nodes is what reaches the
//!   ports), over `model_tree/specs/Pull.antt`. Paths are made of the net in `route_flat`.
#![tactic(auto)]

pub mod arrivals;
pub mod children;
mod growing;
pub mod making;
pub mod net;
mod nodes;
mod outputs;
pub mod ports;
mod rows;
mod sources;
pub mod span;

pub use arrivals::Arrivals;
pub use children::Children;
pub use making::net_of;
pub use net::{Net, Node};
pub use ports::At;
pub use span::Span;
