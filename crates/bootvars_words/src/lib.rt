//! The words of the command `bootvars`: its commands and their arguments, with their help, for `clap`.
//!
//! [`program`] makes them of tables, one of them for each kind of command. What the words ask for is found in the library
//! `bootvars_actions`.
#![tactic(auto)]

mod arg_rows;
mod commands;
mod entry_rows;
mod frame_rows;
mod profile_rows;
mod table;
mod trial_rows;
mod update_rows;

pub use commands::program;
