//! What is told of an edit that is done.

/// What came of an edit.
#[derive(Clone, Copy, Debug, PartialEq, Eq, Hash)]
pub enum EditAnswer {
    /// The variables are as they were to be.
    Done,
    /// The entry is added, under this number.
    Added(u16),
    /// Nothing is changed: a load option with the same description and the same paths is there already, and this is the
    /// lowest number of an entry that is one.
    Present(u16),
}
