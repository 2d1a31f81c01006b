// The ways in which a run is made.

/// A run in one of two ways: flat, or with messages that are served in the order of a seed.
#[derive(Drop)]
pub enum Way<F, S> {
    Flat(F),
    Served(S),
}
