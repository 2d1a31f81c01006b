// How results wait.

/// How a result waits for its delay to pass.
#[derive(Clone, Copy)]
pub enum DelayKind {
    /// Beside those that wait already, in the place of one of the same time.
    Transport,
    /// In the place of all that wait already.
    Inertial,
}
