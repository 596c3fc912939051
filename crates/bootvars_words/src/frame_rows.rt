//! The command `frame` and its requests.

use crate::arg_rows::{EMPTY, ENTRIES_OF_ORDER, ENTRY, FILE, SETS_NEXT, SETS_ORDER};
use crate::table::{ArgRow, CommandRow, GroupRow};

/// The command that makes the frames of the requests below.
pub(crate) static FRAME: CommandRow = CommandRow {
    name: "frame",
    about: "Makes the frame of a request: a line of a script for `bootvars update`",
    after_help: "An ENTRY is one to four hexadecimal digits, as in Boot####.\n\n\
        Example:\n  bootvars frame 5 order 0001 0000 >> script",
    args: &[
        ArgRow {
            name: "NUMBER",
            help: "The number of the request, in decimal",
            ..ArgRow::VALUE
        },
        ArgRow {
            name: "raw",
            help: "Prints the bytes of the frame, as a stream has them",
            is_global: true,
            ..ArgRow::FLAG
        },
    ],
    ..CommandRow::EMPTY
};

/// The requests that `frame` makes frames of.
pub(crate) static REQUESTS: [CommandRow; 8] = [
    CommandRow {
        name: "add",
        about: "Stores a load option as a new entry",
        after_help: "Example:\n  bootvars frame 5 add 0003 option",
        args: &[ENTRY, FILE],
        ..CommandRow::EMPTY
    },
    CommandRow {
        name: "replace",
        about: "Stores a load option in the place of that of an entry",
        after_help: "Example:\n  bootvars frame 5 replace 0003 option",
        args: &[ENTRY, FILE],
        ..CommandRow::EMPTY
    },
    CommandRow {
        name: "add-free",
        about: "Stores a load option as a new entry under the lowest free number",
        after_help: "Example:\n  bootvars frame 5 add-free option",
        args: &[FILE],
        ..CommandRow::EMPTY
    },
    CommandRow {
        name: "add-first",
        about: "Stores a load option as a new entry, and puts it first in the order",
        after_help: "Example:\n  bootvars frame 5 add-first option",
        args: &[FILE],
        ..CommandRow::EMPTY
    },
    CommandRow {
        name: "remove",
        about: "Takes an entry out",
        after_help: "Example:\n  bootvars frame 5 remove 0003",
        args: &[ENTRY],
        ..CommandRow::EMPTY
    },
    CommandRow {
        name: "order",
        about: SETS_ORDER,
        after_help: "Example:\n  bootvars frame 5 order 0001 0000",
        args: &[ENTRIES_OF_ORDER, EMPTY],
        groups: &[GroupRow {
            name: "order",
            args: &["ENTRY", "empty"],
            is_required: true,
        }],
        ..CommandRow::EMPTY
    },
    CommandRow {
        name: "next",
        about: SETS_NEXT,
        after_help: "Example:\n  bootvars frame 5 next 0003",
        args: &[ENTRY],
        ..CommandRow::EMPTY
    },
    CommandRow {
        name: "first",
        about: "Puts an entry first in the order",
        after_help: "Example:\n  bootvars frame 5 first 0003",
        args: &[ENTRY],
        ..CommandRow::EMPTY
    },
];
