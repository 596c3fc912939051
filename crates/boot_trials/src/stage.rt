//! How far trials are.

/// How far a trial is.
#[derive(Clone, Copy, Debug, PartialEq, Eq, Hash)]
pub enum Stage {
    /// It has begun, and isn't decided.
    Open,
    /// The machine came up by its entry, and BootOrder is about to be changed, or was.
    Confirming,
}
