//! Records of the changes of a machine's boot variables, kept in its state folder so that each change can be undone.
//!
//! [`push`] keeps a [`Record`](change_records::Record) before its change is made, and the last sixteen of each machine stay;
//! [`newest`], [`kept_record`] and [`records_to_undo`] read them, and [`remove`] takes one away. [`make_state_folder`] makes
//! the folder, and [`family_state`] tells where in it that of a family of entries is.
#![tactic(auto)]

mod file_names;
mod folder;
mod history;
pub mod laws;
mod numbers;
mod time;
mod written;

pub use folder::{DEFAULT_STATE, family_state, make_state_folder};
pub use history::{KeptRecord, kept_numbers, kept_record, newest, push, records_to_undo, remove};
pub use numbers::KEPT_MAX;
pub use time::{time_now, time_text};
