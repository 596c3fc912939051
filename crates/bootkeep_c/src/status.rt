//! The statuses of calls.

/// The call did what it says.
pub const DONE: u32 = 0;

/// What was handed in isn't what it has to be.
pub const REFUSED: u32 = 1;

/// A buffer is too short for the answer.
pub const NO_ROOM: u32 = 2;

/// There is no variable of the name.
pub const ABSENT: u32 = 3;

/// Memory was refused.
pub const NO_MEMORY: u32 = 4;

/// The keeper isn't open.
pub const CLOSED: u32 = 5;

/// The size that a struct of the caller states is too small, or that of its items is another one.
pub const BAD_SIZE: u32 = 6;
