//! What names a machine's place, and the folder with its journal.

use uefi_vars::EntryFamily;

/// Where a machine's variables are, and its journal.
#[derive(Clone, Copy, Debug)]
pub struct MachineWords<'a> {
    /// The path of the folder with the journal.
    pub state: &'a str,
    /// The path of the place.
    pub place: &'a str,
    /// The identity of the machine's start, if it is given.
    pub boot_id: Option<&'a str>,
    /// What the machine is called, if it is given.
    pub machine: Option<&'a str>,
    /// Whether another machine's journal is taken over, if it has nothing left to do.
    pub adopt: bool,
    /// Whether a variable file is written that is damaged.
    pub force: bool,
    /// Which load options of a folder are meant. Those of another family than the boot manager's are seen under its names, as
    /// if there were no other variables, and have a journal of their own.
    pub family: EntryFamily,
}
