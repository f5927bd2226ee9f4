//! What a sandbox may still do.
use rv_step::Cause;

/// What a sandbox may still do.
#[derive(Clone, Copy, Debug, PartialEq, Eq)]
pub enum Status {
    /// It runs when it gets a turn.
    Ready,
    /// It asked to stop, with this number.
    Exited(u32),
    /// It trapped: why, and the pc or the address of the access.
    Trapped(Cause, u32),
    /// The host stopped it, by `World::stop`.
    Stopped,
}
