//! The commands of starts on trial.

use crate::arg_rows::{ADOPT, BOOT_ID, CHANGED, DRY_RUN, ENTRY, JSON, MACHINE, STATE};
use crate::table::{ArgRow, CommandRow};

/// The identity of a start, which is needed of each machine.
const START: ArgRow = ArgRow {
    help: "The identity of the machine's start, in place of that which Linux tells",
    ..BOOT_ID
};

/// The folder with the journal and the trial.
const TRIAL_STATE: ArgRow = ArgRow {
    help: "The folder that keeps the trial, what is left to do and what was there before, in place of /var/lib/bootkeep",
    ..STATE
};

/// The folder with the trial, of a command that only tells of it.
pub(crate) const KEPT: ArgRow = ArgRow {
    help: "The folder that keeps a start on trial; of this system's own variables /var/lib/bootkeep",
    ..STATE
};

/// The identity of a start, for a command that only tells of a trial.
pub(crate) const KEPT_START: ArgRow = ArgRow {
    help: "The identity of the machine's start, in place of that which Linux tells, by which a start on trial is judged",
    ..BOOT_ID
};

/// The commands that begin trials and make what follows from them.
pub(crate) static TRIAL_COMMANDS: [CommandRow; 2] = [
    CommandRow {
        name: "try",
        about: "Puts an entry on trial: the next start tries it once, and `confirm` keeps it if the machine came up by it",
        long_about: Some(
            "Puts an entry on trial: BootNext is set, so that the next start tries it once, before the others. BootOrder stays. \
            After that start `confirm` puts the entry first, if the machine came up by it.\n\n\
            A trial is there until it is confirmed, or ended by --forget. There is one at a time.",
        ),
        after_help: "Example:\n  bootvars try /sys/firmware/efi/efivars 0003",
        args: &[
            CHANGED,
            ArgRow {
                is_required: false,
                required_without: &["forget"],
                excludes: &["forget"],
                ..ENTRY
            },
            ArgRow {
                name: "forget",
                help: "Ends the trial, also a failed one, and changes nothing else",
                excludes: &["dry-run"],
                ..ArgRow::FLAG
            },
            DRY_RUN,
            JSON,
            TRIAL_STATE,
            START,
            MACHINE,
            ADOPT,
        ],
        ..CommandRow::EMPTY
    },
    CommandRow {
        name: "confirm",
        about: "Keeps the entry that is on trial, if the machine came up by it",
        long_about: Some(
            "Puts the entry that is on trial first in the order, and makes it active, if the machine came up by it and its data \
            is what was tried. In every other case nothing is changed, and it is printed what came of the trial.\n\n\
            The status is 0 if the entry is confirmed or there is no trial, 10 if the trial failed, and 11 if the machine wasn't \
            started since the trial began.",
        ),
        after_help: "Example:\n  bootvars confirm /sys/firmware/efi/efivars",
        args: &[CHANGED, DRY_RUN, JSON, TRIAL_STATE, START, MACHINE, ADOPT],
        ..CommandRow::EMPTY
    },
];
