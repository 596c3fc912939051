//! The commands that change entries that are there, and the order in which they are tried.

use crate::arg_rows::{
    ADOPT, BOOT_ID, CHANGED, DRY_RUN, EMPTY, ENTRIES, ENTRIES_OF_ORDER, ENTRY, FORCE, JSON,
    MACHINE, SETS_NEXT, SETS_ORDER, STATE,
};
use crate::table::{ArgRow, CommandRow};

/// The commands that change a list of entries.
pub(crate) static LIST_COMMANDS: [CommandRow; 2] = [
    CommandRow {
        name: "remove",
        about: "Takes entries out, and out of the order",
        after_help: "Example:\n  bootvars remove /sys/firmware/efi/efivars 0003",
        args: &[
            CHANGED, ENTRIES, DRY_RUN, JSON, STATE, BOOT_ID, MACHINE, ADOPT, FORCE,
        ],
        ..CommandRow::EMPTY
    },
    CommandRow {
        name: "first",
        about: "Puts entries in front of the order, and leaves the rest of it as it is",
        after_help: "Example:\n  bootvars first /sys/firmware/efi/efivars 0003",
        args: &[
            CHANGED, ENTRIES, DRY_RUN, JSON, STATE, BOOT_ID, MACHINE, ADOPT, FORCE,
        ],
        ..CommandRow::EMPTY
    },
];

/// The commands that set BootOrder, BootNext and Timeout.
pub(crate) static ORDER_COMMANDS: [CommandRow; 3] = [
    CommandRow {
        name: "order",
        about: SETS_ORDER,
        long_about: Some(
            "Sets the order in which entries are tried: those that are given, and after them the others of the order so \
            far, but for numbers without an entry.",
        ),
        after_help: "Example:\n  bootvars order /sys/firmware/efi/efivars 0001 0000",
        args: &[
            CHANGED,
            ArgRow {
                required_without: &["empty"],
                excludes: &["empty"],
                ..ENTRIES_OF_ORDER
            },
            EMPTY,
            ArgRow {
                name: "stale",
                help: "Takes an ENTRY that isn't there",
                ..ArgRow::FLAG
            },
            ArgRow {
                name: "only",
                help: "Leaves all others out of the order",
                ..ArgRow::FLAG
            },
            DRY_RUN,
            JSON,
            STATE,
            BOOT_ID,
            MACHINE,
            ADOPT,
            FORCE,
        ],
        ..CommandRow::EMPTY
    },
    CommandRow {
        name: "next",
        about: SETS_NEXT,
        after_help: "Example:\n  bootvars next /sys/firmware/efi/efivars 0003",
        args: &[
            CHANGED,
            ArgRow {
                is_required: false,
                required_without: &["none"],
                excludes: &["none"],
                ..ENTRY
            },
            ArgRow {
                name: "none",
                help: "Takes BootNext out",
                ..ArgRow::FLAG
            },
            DRY_RUN,
            JSON,
            STATE,
            BOOT_ID,
            MACHINE,
            ADOPT,
            FORCE,
        ],
        ..CommandRow::EMPTY
    },
    CommandRow {
        name: "timeout",
        about: "Sets for how many seconds the boot manager waits before it boots by itself, or prints it",
        long_about: Some(
            "Sets Timeout, the seconds for which the firmware's boot manager waits before it boots by itself. Without SECONDS \
            and --none it is printed.",
        ),
        after_help: "Example:\n  bootvars timeout /sys/firmware/efi/efivars 5",
        args: &[
            CHANGED,
            ArgRow {
                name: "SECONDS",
                help: "The seconds, in decimal: none at all is 0, and 65535 waits until somebody chooses",
                is_required: false,
                excludes: &["none"],
                ..ArgRow::VALUE
            },
            ArgRow {
                name: "none",
                help: "Takes Timeout out, so that firmware waits as it does by itself",
                ..ArgRow::FLAG
            },
            DRY_RUN,
            JSON,
            STATE,
            BOOT_ID,
            MACHINE,
            ADOPT,
            FORCE,
        ],
        ..CommandRow::EMPTY
    },
];

/// The commands that switch entries on and off.
pub(crate) static SWITCH_COMMANDS: [CommandRow; 2] = [
    CommandRow {
        name: "activate",
        about: "Makes entries active, so that a boot tries them",
        after_help: "Example:\n  bootvars activate /sys/firmware/efi/efivars 0003",
        args: &[
            CHANGED, ENTRIES, DRY_RUN, JSON, STATE, BOOT_ID, MACHINE, ADOPT, FORCE,
        ],
        ..CommandRow::EMPTY
    },
    CommandRow {
        name: "deactivate",
        about: "Makes entries inactive, so that no boot tries them by itself",
        after_help: "Example:\n  bootvars deactivate /sys/firmware/efi/efivars 0003",
        args: &[
            CHANGED, ENTRIES, DRY_RUN, JSON, STATE, BOOT_ID, MACHINE, ADOPT, FORCE,
        ],
        ..CommandRow::EMPTY
    },
];
