//! The commands of the program: their words and their help.

use crate::arg_rows::{
    ADOPT, APP, ATTRIBUTES, BOOT_ID, CHANGED, DESCRIPTION, DISK, DRY_RUN, ENTRY, FILE, FORCE,
    HIDDEN, INACTIVE, JSON, LOADER, MACHINE, OPTIONAL, OPTIONAL_FILE, OPTIONAL_HEX, OPTIONAL_TEXT,
    OUT, PART, PATH, PATHS, PLACE, RECONNECT, ROOT, STATE,
};
use crate::entry_rows::{LIST_COMMANDS, ORDER_COMMANDS, SWITCH_COMMANDS};
use crate::frame_rows::{FRAME, REQUESTS};
use crate::profile_rows::PROFILE_COMMANDS;
use crate::table::{ArgKind, ArgRow, CommandRow, GroupRow, add_commands, command};
use crate::trial_rows::{KEPT, KEPT_START, TRIAL_COMMANDS};
use crate::update_rows::UPDATE_COMMANDS;
use clap::Command;
use std::alloc::{AllocError, Global};

/// The version that `--version` tells.
const VERSION: &str = "0.2.0";

/// What the help of the program says of places.
const PLACES: &str = "\
A PLACE is where a machine's variables are. Each command tells by itself which it is:
  a folder         as Linux shows variables: /sys/firmware/efi/efivars
  a variable file  of an emulator, as edk2 writes it: OVMF_VARS.fd
  a set file       as `bootvars read` and `bootkeep run` make it

A file that is named `-` is standard input, or standard output after --out.

Example:
  bootvars show /sys/firmware/efi/efivars";

/// The program with its commands, in the order in which its help lists them.
///
/// # Errors
///
/// Memory is refused.
pub fn program<'a>(alloc: Global) -> Result<Command<'a>, AllocError> {
    bare_program(alloc).subcommands(commands(alloc)?)
}

fn bare_program<'a>(alloc: Global) -> Command<'a> {
    Command::new(alloc, "bootvars")
        .version(VERSION)
        .propagate_version(true)
        .about("Shows, checks and changes the UEFI boot entries of a machine")
        .after_help(PLACES)
        .subcommand_required(true)
}

/// The commands. They are in several tables, since what a static refers to is proved to be there in a time that grows by the
/// square of the number of its slices.
fn commands<'a>(alloc: Global) -> Result<Vec<Command<'a>>, AllocError> {
    let mut commands = Vec::new(alloc);
    add_commands(alloc, &mut commands, &CHECK_COMMANDS)?;
    add_commands(alloc, &mut commands, &PLACE_COMMANDS)?;
    add_commands(alloc, &mut commands, &ADD_COMMANDS)?;
    add_commands(alloc, &mut commands, &LIST_COMMANDS)?;
    add_commands(alloc, &mut commands, &ORDER_COMMANDS)?;
    add_commands(alloc, &mut commands, &SWITCH_COMMANDS)?;
    add_commands(alloc, &mut commands, &TRIAL_COMMANDS)?;
    add_commands(alloc, &mut commands, &PROFILE_COMMANDS)?;
    add_commands(alloc, &mut commands, &UNDO_COMMANDS)?;
    add_commands(alloc, &mut commands, &WRITE_COMMANDS)?;
    add_commands(alloc, &mut commands, &UPDATE_COMMANDS)?;
    add_commands(alloc, &mut commands, &OPTION_COMMANDS)?;
    add_frame(alloc, &mut commands)?;
    add_commands(alloc, &mut commands, &EXPLAIN_COMMANDS)?;
    add_commands(alloc, &mut commands, &EFIBOOTMGR_COMMANDS)?;
    Ok(commands)
}

/// Adds the command `frame`, which one of the requests follows.
fn add_frame<'a>(alloc: Global, commands: &mut Vec<Command<'a>>) -> Result<(), AllocError> {
    commands.push(frame(alloc)?)?;
    Ok(())
}

fn frame<'a>(alloc: Global) -> Result<Command<'a>, AllocError> {
    let mut requests = Vec::new(alloc);
    add_commands(alloc, &mut requests, &REQUESTS)?;
    command(alloc, &FRAME)?
        .subcommand_required(true)
        .subcommands(requests)
}

/// The command that checks entries.
static CHECK_COMMANDS: [CommandRow; 1] = [CommandRow {
    name: "check",
    about: "Tells which boot entries can be started, and what is wrong with the others",
    long_about: Some(
        "Tells which boot entries can be started on this machine, and what is wrong with the others: first those that the \
        next boot tries, in its order. Each is looked for by its partition and its file, if that is mounted, \
        and the file's headers are read.\n\n\
        The status is 0 if nothing is wrong with the first one, 1 if something is or there is none, and above 1 if it \
        could not be told.",
    ),
    after_help: "Example:\n  bootvars check /sys/firmware/efi/efivars",
    args: &[
        PLACE,
        JSON,
        ArgRow {
            help: "The folder below which the system is whose disks and files are looked at",
            needs: &[],
            ..ROOT
        },
        KEPT,
        KEPT_START,
    ],
    ..CommandRow::EMPTY
}];

/// The commands that read, show and compare places.
static PLACE_COMMANDS: [CommandRow; 4] = [
    CommandRow {
        name: "read",
        about: "Makes a set file of a machine's variables",
        after_help: "Example:\n  bootvars read /sys/firmware/efi/efivars --out set",
        args: &[
            PLACE,
            ArgRow {
                help: "The set file that is made",
                kind: ArgKind::Option("SET"),
                ..OUT
            },
            ArgRow {
                name: "boot-only",
                help: "Leaves out all but Boot####, BootOrder, BootNext and Timeout",
                ..ArgRow::FLAG
            },
        ],
        ..CommandRow::EMPTY
    },
    CommandRow {
        name: "show",
        about: "Shows the boot entries, their order and what the next boot tries",
        after_help: "Example:\n  bootvars show OVMF_VARS.fd",
        args: &[PLACE, JSON, KEPT, KEPT_START],
        ..CommandRow::EMPTY
    },
    CommandRow {
        name: "diff",
        about: "Shows how the boot variables of two places differ",
        long_about: Some(
            "Shows how the boot variables of two places differ.\n\n\
            The status is 0 if they are equal, 1 if they differ, and above 1 if it could not be told.",
        ),
        after_help: "Example:\n  bootvars diff set /sys/firmware/efi/efivars",
        args: &[
            ArgRow {
                name: "FROM",
                help: "The place with the variables before",
                ..ArgRow::VALUE
            },
            ArgRow {
                name: "TO",
                help: "The place with the variables after",
                ..ArgRow::VALUE
            },
            JSON,
        ],
        ..CommandRow::EMPTY
    },
    CommandRow {
        name: "get",
        about: "Makes a file of an entry's load option, as `option` does",
        after_help: "Example:\n  bootvars get /sys/firmware/efi/efivars 0003 --out option",
        args: &[PLACE, ENTRY, OUT],
        ..CommandRow::EMPTY
    },
];

/// The command that adds an entry.
static ADD_COMMANDS: [CommandRow; 1] = [CommandRow {
    name: "add",
    about: "Adds an entry, and prints its name",
    long_about: Some(
        "Adds an entry that starts a file, and prints its name, and then each change. The entry is put at the end of the \
        order. If an entry with the same description and the same paths is there already, its name is printed, and nothing \
        is changed. A file that firmware doesn't start is refused without --force, if it is there to be looked at.",
    ),
    after_help: "Example:\n  bootvars add /sys/firmware/efi/efivars --description debian \\\n    \
        --loader /boot/efi/EFI/debian/shimx64.efi",
    args: &[
        CHANGED,
        DESCRIPTION,
        LOADER,
        DISK,
        PART,
        ROOT,
        PATH,
        ArgRow {
            name: "first",
            help: "Puts it in front of the order",
            ..ArgRow::FLAG
        },
        ArgRow {
            name: "last",
            help: "Puts it at the end of the order, as without this",
            ..ArgRow::FLAG
        },
        ArgRow {
            name: "no-order",
            help: "Leaves the order as it is",
            ..ArgRow::FLAG
        },
        ArgRow {
            name: "entry",
            help: "Its number, as 0003, in place of the lowest that is free",
            kind: ArgKind::Option("ENTRY"),
            ..ArgRow::OPTION
        },
        ArgRow {
            name: "again",
            help: "Adds it although the same entry is there",
            ..ArgRow::FLAG
        },
        ArgRow {
            name: "try",
            help: "Puts it on trial: inactive and last, it is tried once by the next start, and `confirm` keeps it if the machine came up by it",
            excludes: &["first", "no-order", "attributes"],
            ..ArgRow::FLAG
        },
        INACTIVE,
        HIDDEN,
        APP,
        RECONNECT,
        ATTRIBUTES,
        OPTIONAL_HEX,
        OPTIONAL_FILE,
        OPTIONAL_TEXT,
        DRY_RUN,
        JSON,
        STATE,
        BOOT_ID,
        MACHINE,
        ADOPT,
        ArgRow {
            help: "Adds a file that firmware doesn't start, and writes a variable file that is damaged",
            ..FORCE
        },
    ],
    groups: &[
        PATHS,
        OPTIONAL,
        GroupRow {
            name: "position",
            args: &["first", "last", "no-order"],
            is_required: false,
        },
    ],
    ..CommandRow::EMPTY
}];

/// The command that undoes changes.
static UNDO_COMMANDS: [CommandRow; 1] = [CommandRow {
    name: "undo",
    about: "Brings back what was there before the last change",
    long_about: Some(
        "Brings back what was there before the last change of a machine, and prints the changes. FOLDER keeps that of the last \
        sixteen changes of each machine.\n\n\
        If something else has changed since, it is printed, and nothing is undone without --force.",
    ),
    after_help: "Example:\n  bootvars undo /sys/firmware/efi/efivars --dry-run",
    args: &[
        CHANGED,
        ArgRow {
            name: "list",
            help: "Lists the changes that can be undone, the newest first",
            excludes: &["dry-run", "force"],
            ..ArgRow::FLAG
        },
        DRY_RUN,
        JSON,
        STATE,
        BOOT_ID,
        MACHINE,
        ADOPT,
        ArgRow {
            help: "Undoes the last change although something else has changed since, or a variable file is damaged",
            ..FORCE
        },
    ],
    ..CommandRow::EMPTY
}];

/// The command that writes places.
static WRITE_COMMANDS: [CommandRow; 1] = [CommandRow {
    name: "write",
    about: "Makes the boot variables of a place those of a set",
    long_about: Some(
        "Makes Boot####, BootOrder, BootNext and Timeout of a place those of a set, and prints each change. A Timeout \
            stays if the set has none, and so does every other variable.",
    ),
    after_help: "Example:\n  bootvars write --dry-run set /sys/firmware/efi/efivars",
    args: &[
        ArgRow {
            name: "SET",
            help: "The set file",
            ..ArgRow::VALUE
        },
        ArgRow {
            help: "The place that is written",
            ..PLACE
        },
        DRY_RUN,
        JSON,
        ArgRow {
            name: "empty",
            help: "Takes a set without any entry, which takes out all entries of the place",
            ..ArgRow::FLAG
        },
        ArgRow {
            help: "The folder that keeps what is left to do and what was there before, in place of /var/lib/bootkeep if that is there",
            ..STATE
        },
        BOOT_ID,
        MACHINE,
        FORCE,
    ],
    ..CommandRow::EMPTY
}];

/// The command that makes load options.
static OPTION_COMMANDS: [CommandRow; 1] = [CommandRow {
    name: "option",
    about: "Makes a load option, the value of a variable Boot####",
    after_help: "Example:\n  bootvars option --description debian --loader /boot/efi/EFI/debian/shimx64.efi --out option",
    args: &[
        DESCRIPTION,
        LOADER,
        DISK,
        PART,
        ROOT,
        PATH,
        INACTIVE,
        HIDDEN,
        APP,
        RECONNECT,
        ATTRIBUTES,
        OPTIONAL_HEX,
        OPTIONAL_FILE,
        OPTIONAL_TEXT,
        OUT,
    ],
    groups: &[PATHS, OPTIONAL],
    ..CommandRow::EMPTY
}];

/// The command that shows frames.
static EXPLAIN_COMMANDS: [CommandRow; 1] = [CommandRow {
    name: "explain",
    about: "Shows what the frames of a script or a stream ask for",
    after_help: "Example:\n  bootvars explain script",
    args: &[
        ArgRow {
            help: "The script or the stream",
            ..FILE
        },
        ArgRow {
            name: "stream",
            help: "FILE is a stream of frames, whatever it begins with",
            ..ArgRow::FLAG
        },
        JSON,
    ],
    ..CommandRow::EMPTY
}];

/// The command whose words are those of `efibootmgr`: they aren't read by this table, which has it for the help alone.
static EFIBOOTMGR_COMMANDS: [CommandRow; 1] = [CommandRow {
    name: "efibootmgr",
    about: "Takes the words of efibootmgr, and prints its lines",
    after_help: "Example:\n  bootvars efibootmgr -v\n\n`bootvars efibootmgr -h` prints its words.",
    ..CommandRow::EMPTY
}];
