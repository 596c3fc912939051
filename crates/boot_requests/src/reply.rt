//! What a keeper answers to an event.

use crate::fault::FrameFault;
use crate::outcome::Outcome;
use uefi_vars::BootPlan;

/// What is answered to an event.
#[derive(Debug, PartialEq, Eq, Drop)]
pub enum Reply {
    /// What was delivered isn't a frame.
    Malformed(FrameFault),
    /// The request of this number was applied before, with this outcome.
    Repeat(Outcome),
    /// The request of this number was applied, so long ago that its outcome isn't kept any more.
    Old,
    /// The number is too far ahead of the next one, which is this.
    Ahead(u32),
    /// Another request of this number waits.
    Conflict,
    /// The request waits for those before it. The next number is this.
    Waiting(u32),
    /// The request was applied, with this outcome. The next number is this.
    Applied(Outcome, u32),
    /// A plan of this many options is prepared, and BootNext is deleted.
    Prepared(usize),
    /// A plan was prepared before, and stays.
    AlreadyPrepared,
    /// The plan that was prepared.
    Plan(BootPlan),
    /// No plan is prepared.
    NothingPrepared,
    /// What waited and what was prepared is forgotten. The next number is this.
    Restarted(u32),
}
