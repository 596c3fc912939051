//! The options, as rows of a table.

ghost use Rattle.std.specs.Prelude.{◌≡◌, map};
ghost use Rattle.efibootmgr_words.specs.Options.{row_parts, option_rows};

/// What an option is.
#[derive(Clone, Copy, Debug, PartialEq, Eq)]
pub enum Choice {
    /// The entry is made active.
    Activate,
    /// The entry is made inactive.
    Deactivate,
    /// The entry that the others are about.
    Entry,
    /// The entry is taken out.
    Delete,
    /// An entry is made, and put first in BootOrder.
    Create,
    /// An entry is made, and BootOrder stays as it is.
    CreateOnly,
    /// The disk of the loader.
    Disk,
    /// Repeated numbers are taken out of BootOrder.
    RemoveRepeats,
    /// The form of the disk's path.
    Edd,
    /// The number of the disk in a form that isn't made here.
    EddDevice,
    /// A disk counts as one with a GUID partition table.
    Gpt,
    /// An entry that starts from a network.
    Interface,
    /// What BootOrder had stays in it when it is set.
    Keep,
    /// The name of the loader's file.
    Loader,
    /// The description of the entry that is made.
    Label,
    /// Whether memory is mirrored below 4 GB.
    MirrorBelow,
    /// How much memory is mirrored above 4 GB.
    MirrorAbove,
    /// BootNext is set.
    Next,
    /// BootNext is taken out.
    DeleteNext,
    /// BootOrder is set.
    Order,
    /// BootOrder is taken out.
    DeleteOrder,
    /// The number of the loader's partition.
    Part,
    /// Nothing is listed.
    Quiet,
    /// Driver#### in the place of Boot####.
    Driver,
    /// Timeout is set.
    Timeout,
    /// Timeout is taken out.
    DeleteTimeout,
    /// The optional data are units of UTF-16.
    Unicode,
    /// More is listed.
    Verbose,
    /// The version is printed.
    Version,
    /// The disk gets a signature if it has none.
    WriteSignature,
    /// SysPrep#### in the place of Boot####.
    SysPrep,
    /// A file with optional data.
    BinaryArguments,
    /// The help is printed.
    Help,
}

/// Whether a value belongs to an option.
#[derive(Clone, Copy, Debug, PartialEq, Eq)]
pub enum Takes {
    /// None does.
    Nothing,
    /// One does: the rest of its word, or the next word.
    Value,
    /// The rest of its word does, if there is some.
    Perhaps,
}

/// An option.
#[derive(Clone, Copy, Debug)]
pub struct OptionRow {
    /// Its letter, which follows one hyphen, or a blank if it has none.
    pub letter: char,
    /// Its name, which follows two hyphens.
    pub name: &'static str,
    /// Whether a value belongs to it.
    pub takes: Takes,
    /// What it is.
    pub choice: Choice,
}

/// A row of the table.
macro_rules! row {
    ($letter:literal, $name:literal, $takes:ident, $choice:ident) => {
        OptionRow {
            letter: $letter,
            name: $name,
            takes: Takes::$takes,
            choice: Choice::$choice,
        }
    };
}

/// The options of `efibootmgr`.
pub fn options() -> &'static [OptionRow]
    ensures { map row_parts result.now ≡ option_rows }
{
    &OPTIONS
}

/// The options.
static OPTIONS: [OptionRow; 34] = [
    row!('a', "active", Nothing, Activate),
    row!('A', "inactive", Nothing, Deactivate),
    row!('b', "bootnum", Value, Entry),
    row!('B', "delete-bootnum", Nothing, Delete),
    row!('c', "create", Nothing, Create),
    row!('C', "create-only", Nothing, CreateOnly),
    row!('D', "remove-dups", Nothing, RemoveRepeats),
    row!('d', "disk", Value, Disk),
    row!('i', "iface", Value, Interface),
    row!('E', "edd-device", Value, EddDevice),
    row!('e', "edd30", Value, Edd),
    row!('g', "gpt", Nothing, Gpt),
    row!(' ', "keep", Nothing, Keep),
    row!('l', "loader", Value, Loader),
    row!('L', "label", Value, Label),
    row!('m', "mirror-below-4G", Value, MirrorBelow),
    row!('M', "mirror-above-4G", Value, MirrorAbove),
    row!('n', "bootnext", Value, Next),
    row!('N', "delete-bootnext", Nothing, DeleteNext),
    row!('o', "bootorder", Value, Order),
    row!('O', "delete-bootorder", Nothing, DeleteOrder),
    row!('p', "part", Value, Part),
    row!('q', "quiet", Nothing, Quiet),
    row!('r', "driver", Nothing, Driver),
    row!('t', "timeout", Value, Timeout),
    row!('T', "delete-timeout", Nothing, DeleteTimeout),
    row!('u', "unicode", Nothing, Unicode),
    row!(' ', "UCS-2", Nothing, Unicode),
    row!('v', "verbose", Perhaps, Verbose),
    row!('V', "version", Nothing, Version),
    row!('w', "write-signature", Nothing, WriteSignature),
    row!('y', "sysprep", Nothing, SysPrep),
    row!('@', "append-binary-args", Value, BinaryArguments),
    row!('h', "help", Nothing, Help),
];
