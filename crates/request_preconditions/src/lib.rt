//! What the sender of requests expects of a machine before they are applied, so that a message which comes late, or again, or
//! to a machine that was installed anew, does nothing.
//!
//! A [`Precondition`] is of the journal's identity, of the number of the next request, of the bytes of an entry, or of
//! BootOrder (UEFI specification, version 2.10, 3.3). [`first_unmet`] finds the first one that isn't so, and
//! [`Precondition::actual`] tells what is so instead. [`read_precondition`] reads one from a word, such as
//! `next=7`, and [`Precondition::words`] gives the word again.
#![tactic(auto)]

mod fault;
mod precondition;
mod words;

pub use fault::PreconditionFault;
pub use precondition::{DIGEST_LEN, IDENTITY_LEN, MachineState, Precondition, first_unmet};
pub use words::read_precondition;
