//! Checks of the boot entries of a place: which of them can be started on this machine, and what is wrong with the
//! others (UEFI specification, version 2.10, chapters 3 and 10).
//!
//! [`check_place`] reads a place, looks where the path of each entry leads, by the partitions that the system has and
//! by the files on those that are mounted, whose headers `efi_images` checks, and of which it tells what Secure Boot
//! answers, and prints what is found, as lines for a person or as JSON. What is found is said by `entry_checks`;
//! docs/formats.md has each line and each member. [`note_of_file`] and [`note_of_path`] are what is told of a loader
//! before an entry is made of it. What goes wrong is a `Failure` of `messages`.
#![tactic(auto)]

mod buffer;
mod check;
mod checked;
mod disk;
mod entry;
mod image;
mod loader;
mod machine;
mod place;
mod secure_boot;
mod stored_secure_boot;
mod view;
mod whole_disk;

pub use check::{CheckWords, Verdict, check_place};
pub use loader::{LoaderNote, note_of_file, note_of_path};
