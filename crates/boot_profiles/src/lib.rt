//! What machines are to have, said once (UEFI specification, version 2.10, chapter 3).
//!
//! A [`Profile`] says by their descriptions which entries a machine is to have, and which it isn't to have, which of
//! them come first in BootOrder or are all of it, which one the next boot tries, and for how long the boot manager
//! waits. What it doesn't name isn't touched. [`apply`] gives what becomes of a machine's variables, or says by a
//! [`ProfileFault`] why nothing does. [`ProfileRun`] is a profile over what a machine keeps, which
//! [`command`](boot_journal::command) makes as a whole.
#![tactic(auto)]

mod applying;
mod described;
mod description;
mod entries;
mod entry;
mod fault;
pub mod laws;
mod names;
mod next;
mod order;
mod profile;
mod run;
mod timeout;

pub use applying::apply;
pub use description::Description;
pub use fault::{EntryFault, NameFault, ProfileFault};
pub use profile::{
    EntryState, PresentEntry, Profile, ProfileEntry, ProfileNext, ProfileOrder, ProfileTimeout,
};
pub use run::{AppliedProfile, ProfileRun, ProfileRunFault};
