//! How changes of machines are to be made.

use crate::machine_words::MachineWords;

/// How a change is to be made.
#[derive(Clone, Copy, Debug)]
pub struct ChangeOptions<'a> {
    /// The machine.
    pub machine: MachineWords<'a>,
    /// The words of the command, by which what was there before is kept: `None` if it isn't kept.
    pub command: Option<&'a [String]>,
    /// Whether nothing is changed, and what would be is told.
    pub dry_run: bool,
    /// What is done about the state folder.
    pub state: StateUse,
}

/// What is done about a state folder that isn't there.
#[derive(Clone, Copy, Debug, PartialEq, Eq)]
pub enum StateUse {
    /// Nothing is changed then.
    Needed,
    /// It is made. If that can't be, the change of a variable file is made without it, which is told.
    Made,
    /// The change of a variable file is made without it. For a folder it is made.
    IfThere,
}

/// What a place is.
#[derive(Clone, Copy, Debug, PartialEq, Eq)]
pub enum PlaceKind {
    /// A folder as Linux shows variables.
    Folder,
    /// An emulator's variable file.
    VariableFile,
    /// A set file.
    Set,
}
