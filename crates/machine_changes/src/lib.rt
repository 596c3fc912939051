//! Changes of a machine's boot variables where they are: in a folder as Linux shows them, or in an emulator's variable file
//! (UEFI specification, version 2.10, chapter 3).
//!
//! All go one way, [`change_machine`]: it opens and locks the place, does what an earlier change has left to do, runs what is
//! [`Wanted`](wanted_changes::Wanted) over the variables, makes what is told of it, keeps what is there so that the change can be
//! undone, and makes the change, as a whole, whatever is cut off when: by `boot_journal`'s [`command`](boot_journal::command) over
//! the storage of `machine_storage`.
#![tactic(auto)]

mod changing;
mod file_changes;
mod history;
mod kept_run;
mod state_use;

pub use changing::change_machine;
