//! The command `bootvars`, over any runtime: it reads a machine's boot variables from where they are, shows and compares
//! them, changes and writes them, and makes load options and the frames of requests (UEFI specification, version 2.10, chapters 3
//! and 10).
//!
//! [`run`] does what the words of a command line ask for, and returns the status to end with. Where variables are is a
//! place, which the library `var_places` reads and changes; the messages and the statuses of what goes wrong are in the
//! library `messages`. What is printed of variables is in `boot_texts`, of requests in `request_texts`, and what the words of the
//! command line ask for in `bootvars_actions`; here is what is done for each.
#![tactic(auto)]

mod changing;
mod making;
mod profiles;
mod program;
mod refusals;
mod trials;
mod undo_list;
mod undoing;
mod updates;
mod writing;

pub use profiles::Profiles;
pub use program::{OtherProgram, run};
pub use trials::Trials;
