// What the reading of a model gives.
use asked_words::GroupAt;
use model_leaves::Model;
use route_flat::Routes;

/// A model that was read, its routes, and the group that is drawn, where one is.
#[derive(Drop)]
pub struct ReadModel {
    pub model: Model,
    pub routes: Routes,
    pub drawn: Option<GroupAt>,
}
