//! The command `update` and its arguments.

use crate::arg_rows::{ADOPT, BOOT_ID, FORCE, MACHINE, PLACE, STATE};
use crate::table::{ArgKind, ArgRow, CommandRow};
use clap::ArgAction;

/// What the help of `update` says.
const UPDATE: &str = "\
Runs the requests of a script over the boot variables of a machine, and changes the machine by what they lead to, as a \
whole: if power fails in between, the next update goes on with it. Prints the replies. FOLDER keeps which requests were \
applied, so each takes effect exactly once, however often it comes.

The status is 0 if each request was applied or had been before, 6 if one of them wasn't or couldn't be carried out, 9 if \
something isn't as it is expected, 1 if the script is refused, 7 if another update is at work, and another one if the \
machine can't be read or changed.";

/// The command that runs requests.
pub(crate) static UPDATE_COMMANDS: [CommandRow; 1] = [CommandRow {
    name: "update",
    about: "Runs requests over a machine's boot variables, each exactly once",
    long_about: Some(UPDATE),
    after_help: "Example:\n  bootvars update --state /var/lib/bootkeep /sys/firmware/efi/efivars script",
    args: &[
        ArgRow {
            help: "The folder or the variable file of the machine",
            ..PLACE
        },
        ArgRow {
            name: "SCRIPT",
            help: "The script of requests",
            is_required: false,
            required_without: &["next", "settle", "look"],
            excludes: &INSTEAD_OF_SCRIPT,
            ..ArgRow::VALUE
        },
        ArgRow {
            help: "The folder that keeps which requests were applied, and what is left to do",
            is_required: true,
            ..STATE
        },
        ArgRow {
            name: "stream",
            help: "SCRIPT is a stream of frames",
            ..SCRIPT_FLAG
        },
        ArgRow {
            name: "dry-run",
            help: "Prints the replies and the changes, and makes none",
            ..SCRIPT_FLAG
        },
        ArgRow {
            name: "json",
            help: "Prints JSON",
            ..SCRIPT_FLAG
        },
        ArgRow {
            name: "look",
            help: "Prints the replies, the next number and what there is then, as one object of JSON",
            excludes: &["next", "settle", "dry-run", "json"],
            ..ArgRow::FLAG
        },
        ArgRow {
            name: "expect",
            help: "What is expected, as journal=ID, next=5, 0003=SHA256 or order=0003,0001; again for more: if something isn't so, nothing is changed",
            kind: ArgKind::Option("WHAT"),
            action: ArgAction::Append,
            excludes: &INSTEAD_OF_SCRIPT,
            ..ArgRow::OPTION
        },
        ArgRow {
            name: "next",
            help: "Prints the number of the next request",
            excludes: &["settle"],
            ..ArgRow::FLAG
        },
        ArgRow {
            name: "settle",
            help: "Does what an update that was cut off has left to do",
            ..ArgRow::FLAG
        },
        ArgRow {
            help: "The identity of the machine's start; needed for a variable file",
            ..BOOT_ID
        },
        MACHINE,
        ADOPT,
        FORCE,
    ],
    ..CommandRow::EMPTY
}];

/// The flags that are given in the place of a script.
const INSTEAD_OF_SCRIPT: [&str; 2] = ["next", "settle"];

/// A flag of `update` that goes with a script alone. The conflicts have to be named here, since `clap` no longer asks for
/// the script if a flag excludes it.
const SCRIPT_FLAG: ArgRow = ArgRow {
    needs: &["SCRIPT"],
    excludes: &INSTEAD_OF_SCRIPT,
    ..ArgRow::FLAG
};
