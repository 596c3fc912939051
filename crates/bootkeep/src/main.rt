//! The command `bootkeep`, which shows what firmware keeps about how a machine starts, and changes it by numbered
//! requests.
//!
//! `bootkeep path HEX` shows the device path at the start of some bytes, `bootkeep text TEXT` the bytes of the device
//! path that a text stands for, `bootkeep option FILE` the load option that a file holds, and `bootkeep show SET` the
//! boot variables of a set file. `bootkeep run SET SCRIPT --out FILE` runs the events of a script over the variables of
//! a set file, shows the reply to each, and writes the new set file; with `--stream` the script is a stream of frames,
//! each of which is delivered. The program ends with status 0 if it did what it was asked to, and otherwise with the
//! status and the line on standard error of its [`Failure`].
//!
//! Here are the words of the command line, the statuses and the run of the program. What its subcommands show, run,
//! read and write is in the library `boot_commands`.
//!
//! [`Failure`]: failure::Failure
#![tactic(auto)]

mod command_line;
mod failure;
mod program;

use std::process::ExitCode;

fn main(rt: HostRuntime) -> ExitCode {
    ExitCode::from(program::run(&rt))
}
