//! What `efibootmgr` does, over any runtime: boot entries are changed by the calls by which `bootvars` changes them, and the
//! variables of a machine are listed (UEFI specification, version 2.10, chapter 3).
//!
//! [`run`] does what the words of a command line ask for, and returns the status to end with. The words and the lines are
//! those of `efibootmgr_words`; docs/efibootmgr.md says what is done in another way than by `efibootmgr`.
#![tactic(auto)]

mod edit_of;
mod fault_words;
mod machine;
mod new_entry;
mod planned;
mod program;
mod steps;
mod stopped;
mod told_once;

pub use program::run;
