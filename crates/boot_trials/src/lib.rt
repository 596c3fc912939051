//! Starts on trial: an entry is tried by one start, and kept only if the machine came up by it (UEFI specification, version
//! 2.10, chapter 3).
//!
//! A [`Trial`] is what is kept of one: the entry, the SHA-256 of its data, the identity of the start in which it began, and
//! BootOrder as it was then. [`TryRun`] begins one, and sets BootNext, by which the next start tries the entry once;
//! [`BeginRun`] can add the entry first.
//! [`outcome_of`] tells from a trial and what is seen after it what came of it, and [`ConfirmRun`] makes what follows: if the
//! machine came up by that entry, and its data is what it was, the entry is made active and comes first in BootOrder; nothing
//! else changes a variable. [`read_trial`] reads a trial from the bytes of its file, all of them, and [`write_trial`] gives
//! their one spelling.
//!
//! BootOrder is changed at most once for a trial: before that the file is replaced by one whose stage is
//! [`Stage::Confirming`], and a trial in that stage changes nothing.
#![tactic(auto)]

mod adding;
mod beginning;
mod confirmation;
mod confirming;
mod current;
mod fault;
mod file;
pub mod laws;
mod outcome;
mod reading;
mod stage;
mod trial;

pub use adding::{BeginRun, BegunTrial, TrialTarget};
pub use beginning::TryRun;
pub use confirming::ConfirmRun;
pub use current::boot_current;
pub use fault::TrialFault;
pub use file::{read_trial, write_trial};
pub use outcome::{Facts, Outcome, outcome_of};
pub use stage::Stage;
pub use trial::{DIGEST_LEN, Trial};
