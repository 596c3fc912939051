//! Starts on trial of a machine whose variables are in a folder as Linux shows them (UEFI specification, version 2.10,
//! chapter 3).
//!
//! [`begin_trial`] begins a trial, which `boot_trials` has, and keeps it in the machine's state folder before a variable is
//! changed; [`confirm_trial`] makes what follows from the trial that is kept there, and [`end_trial`] ends it without a change.
//! [`trial_view`] is what there is to tell of it. What is wanted of the machine is made so by
//! [`Machines`](wanted_changes::Machines), whatever is cut off when.
#![tactic(auto)]

mod commands;
mod ending;
mod shown;
mod telling;
mod trial_file;
mod wanted_confirm;
mod wanted_try;

pub use commands::{begin_trial, confirm_trial, end_trial};
pub use shown::trial_view;
pub use telling::TrialForm;
