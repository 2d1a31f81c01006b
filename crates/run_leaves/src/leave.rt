// Leaves and runs that are let go.
use crate::FlatLeaves;
use atomic_face::AtomicModel;
use std::mem::forget;

/// What is let go by a call. So none but the crate of its type proves how all that it holds is let
/// go: each crate that lets it go at the end of a scope would prove that once more.
pub trait Leave {
    /// The run is over, and the program ends behind it, and all that this holds with it.
    fn leave(self);
}

impl<M: AtomicModel> Leave for FlatLeaves<M> {
    fn leave(self) {
        forget(self);
    }
}

impl<M: AtomicModel> FlatLeaves<M> {
    /// Gives back the memory that they hold, where there is no run.
    pub fn release(self) {}
}
