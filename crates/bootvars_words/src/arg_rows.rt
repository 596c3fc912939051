//! Arguments that several commands have.

use crate::table::{ArgKind, ArgRow, GroupRow};
use clap::ArgAction;

/// The place that a command reads.
pub(crate) const PLACE: ArgRow = ArgRow {
    name: "PLACE",
    help: "The place that is read",
    ..ArgRow::VALUE
};

/// An entry.
pub(crate) const ENTRY: ArgRow = ArgRow {
    name: "ENTRY",
    help: "The entry, as 0003",
    ..ArgRow::VALUE
};

/// A file with a load option.
pub(crate) const FILE: ArgRow = ArgRow {
    name: "FILE",
    help: "The file with the load option",
    ..ArgRow::VALUE
};

/// The place that a command changes.
pub(crate) const CHANGED: ArgRow = ArgRow {
    help: "The place that is changed",
    ..PLACE
};

/// Several entries.
pub(crate) const ENTRIES: ArgRow = ArgRow {
    help: "The entries, each as 0003",
    action: ArgAction::Append,
    ..ENTRY
};

/// The file that a command makes.
pub(crate) const OUT: ArgRow = ArgRow {
    name: "out",
    help: "The file that is made",
    kind: ArgKind::Option("FILE"),
    is_required: true,
    ..ArgRow::OPTION
};

/// The flag to write what is damaged.
pub(crate) const FORCE: ArgRow = ArgRow {
    name: "force",
    help: "Writes a variable file that is damaged",
    ..ArgRow::FLAG
};

/// The flag for JSON.
pub(crate) const JSON: ArgRow = ArgRow {
    name: "json",
    help: "Prints JSON",
    ..ArgRow::FLAG
};

/// The flag to change nothing.
pub(crate) const DRY_RUN: ArgRow = ArgRow {
    name: "dry-run",
    help: "Prints the changes and makes none",
    ..ArgRow::FLAG
};

/// The folder with the journal.
pub(crate) const STATE: ArgRow = ArgRow {
    name: "state",
    help: "The folder that keeps what is left to do and what was there before, in place of /var/lib/bootkeep",
    kind: ArgKind::Option("FOLDER"),
    ..ArgRow::OPTION
};

/// The identity of a start.
pub(crate) const BOOT_ID: ArgRow = ArgRow {
    name: "boot-id",
    help: "The identity of the machine's start, if an update of a variable file has something left to do",
    kind: ArgKind::Option("ID"),
    ..ArgRow::OPTION
};

/// The name of a machine.
pub(crate) const MACHINE: ArgRow = ArgRow {
    name: "machine",
    help: "What the machine is called, in place of its UUID or the path of PLACE",
    kind: ArgKind::Option("ID"),
    ..ArgRow::OPTION
};

/// The flag to take over a journal.
pub(crate) const ADOPT: ArgRow = ArgRow {
    name: "adopt",
    help: "Takes over what another machine's updates left in FOLDER, unless there is something left to do",
    ..ArgRow::FLAG
};

// Those that say a load option.

pub(crate) const DESCRIPTION: ArgRow = ArgRow {
    name: "description",
    help: "The name that menus show",
    is_required: true,
    ..ArgRow::OPTION
};

pub(crate) const LOADER: ArgRow = ArgRow {
    name: "loader",
    help: "The file that is started, in a mounted file system, as /boot/efi/EFI/debian/shimx64.efi",
    kind: ArgKind::Option("FILE"),
    ..ArgRow::OPTION
};

pub(crate) const DISK: ArgRow = ArgRow {
    name: "disk",
    help: "The disk or the partition that FILE is on, as /dev/nvme0n1; FILE is then its name there, as \\EFI\\debian\\shimx64.efi",
    kind: ArgKind::Option("DEVICE"),
    ..OF_LOADER
};

pub(crate) const PART: ArgRow = ArgRow {
    name: "part",
    help: "The number of the partition of the disk, in place of 1",
    kind: ArgKind::Option("N"),
    needs: &["disk"],
    ..OF_LOADER
};

pub(crate) const ROOT: ArgRow = ArgRow {
    name: "root",
    help: "The folder below which the system is whose disks are meant",
    kind: ArgKind::Option("FOLDER"),
    ..OF_LOADER
};

/// An option that goes with a file alone. The conflict has to be named here, since `clap` no longer asks for the file where a
/// path excludes it.
pub(crate) const OF_LOADER: ArgRow = ArgRow {
    needs: &["loader"],
    excludes: &["path"],
    ..ArgRow::OPTION
};

pub(crate) const PATH: ArgRow = ArgRow {
    name: "path",
    help: "The device path as text, in place of a FILE; again for each path of the list",
    action: ArgAction::Append,
    is_required: false,
    ..ArgRow::OPTION
};

/// What says the paths.
pub(crate) const PATHS: GroupRow = GroupRow {
    name: "paths",
    args: &["loader", "path"],
    is_required: true,
};

pub(crate) const INACTIVE: ArgRow = ArgRow {
    name: "inactive",
    help: "The entry isn't tried",
    ..ArgRow::FLAG
};

pub(crate) const HIDDEN: ArgRow = ArgRow {
    name: "hidden",
    help: "The firmware's menu doesn't show the entry",
    ..ArgRow::FLAG
};

pub(crate) const APP: ArgRow = ArgRow {
    name: "app",
    help: "The entry is an application, and not tried by a normal boot",
    ..ArgRow::FLAG
};

pub(crate) const RECONNECT: ArgRow = ArgRow {
    name: "reconnect",
    help: "Drivers are connected anew after a driver's entry",
    ..ArgRow::FLAG
};

pub(crate) const ATTRIBUTES: ArgRow = ArgRow {
    name: "attributes",
    help: "All attributes as one number, as 1 or 0x101",
    kind: ArgKind::Option("N"),
    excludes: &["inactive", "hidden", "app", "reconnect"],
    ..ArgRow::OPTION
};

pub(crate) const OPTIONAL_HEX: ArgRow = ArgRow {
    name: "optional-hex",
    help: "The optional data in hexadecimal digits",
    kind: ArgKind::Option("HEX"),
    ..ArgRow::OPTION
};

pub(crate) const OPTIONAL_FILE: ArgRow = ArgRow {
    name: "optional-file",
    help: "A file with the optional data",
    kind: ArgKind::Option("FILE"),
    ..ArgRow::OPTION
};

pub(crate) const OPTIONAL_TEXT: ArgRow = ArgRow {
    name: "optional-text",
    help: "The optional data as text, stored in UTF-16 without a zero unit, as `efibootmgr -u` does",
    ..ArgRow::OPTION
};

/// The forms of the optional data.
pub(crate) const OPTIONAL: GroupRow = GroupRow {
    name: "optional",
    args: &["optional-hex", "optional-file", "optional-text"],
    is_required: false,
};

// What a command of places and a request of the same name have both.

/// What `order` does, of a place and in a frame.
pub(crate) const SETS_ORDER: &str = "Sets the order in which entries are tried";

/// What `next` does, of a place and in a frame.
pub(crate) const SETS_NEXT: &str = "Sets the entry that the next boot tries first, once";

/// The flag of `order` for no entry at all, of a place and in a frame.
pub(crate) const EMPTY: ArgRow = ArgRow {
    name: "empty",
    help: "Sets an order without entries",
    ..ArgRow::FLAG
};

/// The entries of `order`, which may be none.
pub(crate) const ENTRIES_OF_ORDER: ArgRow = ArgRow {
    is_required: false,
    ..ENTRIES
};
