//! Updates of a machine's boot variables that are whole whatever is cut off when (UEFI specification, version 2.10,
//! chapter 3).
//!
//! Firmware stores one variable at a time, and power may fail between two of them. So a [`Machine`] has a [`Journal`] beside
//! its variables: [`update`] first writes there what it is about to change, and [`settle`] does what a journal is left with,
//! or takes it back if the machine refuses a move. [`command`] settles, runs something over the variables, a [`Run`], and
//! updates. [`Recorded`] makes a machine of a [`Storage`]. [`read_journal`] reads a journal, and the
//! [`MachineName`](machine_names::MachineName) of the machine that it is of, from the bytes of a file, all of them, and
//! [`write_journal`] writes them.
//!
//! What a machine keeps under the name of a variable of the boot manager, Boot####, BootOrder, BootNext or Timeout, is the
//! variable's attributes, in [`ATTRIBUTES_LEN`](uefi_vars::ATTRIBUTES_LEN) bytes, and then its data, as a file of Linux's
//! efivarfs has the two. So the changes of a journal have attributes too, and what is taken back has those that it had.
//! Under every other name a machine keeps data alone, and so does a journal of BootKeepState. [`with_attributes`] makes
//! of a set what a machine keeps, and [`without_attributes`] the set again.
#![tactic(auto)]

mod attributes;
mod boot_id;
mod change;
mod commanding;
mod fault;
mod journal;
mod journal_file;
pub mod laws;
mod machine;
mod reader;
mod recorded;
mod updating;
mod work;
mod writer;

pub use attributes::{
    AttributesFault, with_attributes, with_attributes_or, without_attributes, without_attributes_or,
};
pub use boot_id::BootId;
pub use change::Change;
pub use commanding::{Run, command};
pub use fault::JournalFault;
pub use journal::Journal;
pub use journal_file::JournalFile;
pub use machine::{CallError, CommandError, Machine, UpdateError};
pub use reader::read_journal;
pub use recorded::{Recorded, Storage};
pub use updating::{settle, update};
pub use writer::write_journal;
