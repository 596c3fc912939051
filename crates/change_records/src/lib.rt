//! What was there before a change of a machine's boot variables, and after it, so that the change can be undone.
//!
//! A [`Record`] is of one change: the machine, the time, the words of the command, and the boot manager's variables before
//! and after it (UEFI specification, version 2.10, chapter 3). [`standing_of`] tells whether a change can be undone: what is
//! there now is what was after it, or before it, or something else; a start that only used BootNext up changes nothing of
//! that. [`wanted_back`] gives what undoing it brings back. [`read_record`] reads a record from the bytes of its file, all of
//! them, and [`write_record`] gives its one spelling; [`owner_of`] tells by the first bytes whose it is, and [`words_of`] reads
//! the words of a command.
#![tactic(auto)]

mod back;
mod boot_part;
mod fault;
mod fields;
pub mod laws;
mod owner;
mod reader;
mod record;
mod stands;
mod timeout;
mod writer;

pub use back::wanted_back;
pub use fault::{RecordFault, WriteFault};
pub use owner::{HEAD_MAX, Owner, owner_of};
pub use reader::{read_record, words_of};
pub use record::Record;
pub use stands::{Standing, as_used, standing_of};
pub use timeout::or_timeout_of;
pub use writer::write_record;
