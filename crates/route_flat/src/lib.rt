//! Routes: the paths of a model's links from sources to ports, worked out once for a whole run.
//!
//! - `Routes::build` takes a `Model`, and gives its routes, or `RouteRefusal`: `TooManyRoutes`
//!   where there are more than `MAX_PATHS` paths, which are counted before any list is made. Then
//!   `sources` and `top_sources` answer what leads to a port, `targets` where a source leads,
//!   `path` the path of a number.
//! - Types: `Way`; `Source`, `Path`, `Target` and `TargetPort` are those of `model_tree`. Routes
//!   are numbered paths that a cycle can ask for (`Routing` there). All is made over the net of
//!   `port_net`.
//! - Definitions: what reaches a port is in `model_tree/specs/Pull.antt`, paths by their numbers in
//!   `Numbered.antt` there; `specs/Ways.antt` numbers the paths, `TreePaths.antt` says which they
//!   are in the tree, `Ports.antt` that each port has its list.
//! - Laws (`laws`): the paths are those of the tree, in its order; each leads to a port that there
//!   is.
#![tactic(auto)]

mod by_source;
mod counts;
mod follow;
pub mod laws;
mod leaf_spans;
mod lists;
mod port_lists;
pub mod refusal;
pub mod routes;
mod routing;
pub mod way;
mod ways;

pub use port_net::{Net, Node, Span, net_of};
pub use refusal::RouteRefusal;
pub use routes::Routes;
pub use way::Way;
