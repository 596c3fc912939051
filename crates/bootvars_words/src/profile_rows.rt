//! The command that makes a place what a file says.

use crate::arg_rows::{ADOPT, BOOT_ID, CHANGED, DRY_RUN, FILE, FORCE, JSON, MACHINE, ROOT, STATE};
use crate::table::{ArgRow, CommandRow};

/// The command `apply`.
pub(crate) static PROFILE_COMMANDS: [CommandRow; 1] = [CommandRow {
    name: "apply",
    about: "Makes the boot entries, their order, BootNext and Timeout what a file says",
    long_about: Some(
        "Makes the boot entries of a place what a file says, and the order, BootNext and Timeout, and prints the changes: all of \
        them are made, or none. Entries are known by their descriptions. What the file doesn't name stays. Applied again, it \
        changes nothing.\n\n\
        The file is TOML, or JSON if it begins with a brace. --of prints the file that a place has now.\n\n\
        The status is 0 if the place is as the file says then; with --exit-code it is 12 if something was changed for that.",
    ),
    after_help: "Example:\n  bootvars apply --dry-run /sys/firmware/efi/efivars machine.toml",
    args: &[
        CHANGED,
        ArgRow {
            help: "The file that says what is to be there",
            is_required: false,
            required_without: &["of"],
            excludes: &["of"],
            ..FILE
        },
        ArgRow {
            name: "of",
            help: "Prints the file that says what PLACE has now, and changes nothing",
            excludes: &[
                "dry-run",
                "json",
                "exit-code",
                "root",
                "state",
                "boot-id",
                "machine",
                "adopt",
                "force",
            ],
            ..ArgRow::FLAG
        },
        DRY_RUN,
        JSON,
        ArgRow {
            name: "exit-code",
            help: "Ends with 12 if something is changed, or would be",
            ..ArgRow::FLAG
        },
        ArgRow {
            help: "The folder below which the system is whose files are loaders",
            needs: &[],
            excludes: &[],
            ..ROOT
        },
        STATE,
        BOOT_ID,
        MACHINE,
        ADOPT,
        ArgRow {
            help: "Takes a loader that firmware doesn't start, and writes a variable file that is damaged",
            ..FORCE
        },
    ],
    ..CommandRow::EMPTY
}];
