//! Names of machines, by which files tell whose they are.
//!
//! A [`MachineName`] is some bytes: a machine's journal has it, and so has each record of a change.
#![tactic(auto)]

pub mod laws;
mod machine_name;

pub use machine_name::{MACHINE_NAME_MAX, MachineName};
