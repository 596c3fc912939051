//! Machines made as a file says (UEFI specification, version 2.10, chapter 3).
//!
//! [`apply_profile`] makes a machine's boot variables what a file of `profile_files` says, as a whole, by
//! `boot_profiles`, and [`show_profile`] prints the file that a machine has now.
#![tactic(auto)]

mod commands;
mod fault_words;
mod making;
mod named_entries;
mod showing;
mod telling;
mod toml_words;
mod wanted_profile;

pub use commands::{apply_profile, show_profile};
pub use showing::{ShownProfile, shown_profile};
