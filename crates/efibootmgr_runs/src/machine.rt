//! The machine whose variables are changed and listed.

use boot_history::{DEFAULT_STATE, family_state};
use messages::Failure;
use std::alloc::{AllocError, Global};
use std::env::{self, VarError};
use std::rt::{Env, Files};
use uefi_vars::EntryFamily;
use var_places::{Folder, read_folder};
use wanted_changes::MachineWords;

/// The variable of the environment with the path of the folder of variables.
const PLACE_NAME: &str = "EFIVARFS_PATH";

/// Where Linux shows variables.
const PLACE: &str = "/sys/firmware/efi/efivars";

/// The path of the folder of variables: the one that the environment names, or where Linux shows them.
///
/// # Errors
///
/// [`Failure::Words`] if the environment names one that isn't UTF-8, and [`Failure::Memory`] if memory was refused.
pub(crate) fn place<R: Env + AllocGlobal>(rt: &R) -> Result<String, Failure> {
    match env::var(rt, PLACE_NAME) {
        Ok(path) => Ok(path),
        Err(VarError::NotPresent) => Ok(String::from_str(rt.alloc(), PLACE)?),
        Err(VarError::NotUnicode) => Err(Failure::from_word(
            rt.alloc(),
            "EFIVARFS_PATH isn't UTF-8",
        )),
        Err(_) => Err(Failure::Memory),
    }
}

/// The path of the folder with the journal of changes of entries of a family: of another one than the boot manager's it is in
/// the folder of that. This fails only when out of memory.
pub(crate) fn state_of(alloc: Global, family: EntryFamily) -> Result<String, AllocError> {
    family_state(alloc, DEFAULT_STATE, family)
}

/// A machine, and the words of the command that is run over it.
#[derive(Clone, Copy, Debug)]
pub(crate) struct Machine<'a> {
    /// The path of its folder of variables.
    pub(crate) place: &'a str,
    /// The words of the command.
    pub(crate) command: &'a [String],
    /// Whose entries are meant.
    pub(crate) family: EntryFamily,
    /// The path of the folder with the journal of their changes.
    pub(crate) state: &'a str,
}

impl<'a> Machine<'a> {
    /// The machine as what changes its entries takes it.
    pub(crate) fn words(&self) -> MachineWords<'a> {
        MachineWords {
            state: self.state,
            place: self.place,
            boot_id: None,
            machine: None,
            adopt: false,
            force: false,
            family: self.family,
        }
    }

    /// The words by which a change can be undone: none of another family than the boot manager's, of which nothing is kept.
    pub(crate) fn kept_command(&self) -> Option<&'a [String]> {
        if self.family == EntryFamily::Boot {
            Some(self.command)
        } else {
            None
        }
    }

    /// What the folder shows.
    ///
    /// # Errors
    ///
    /// Those of [`read_folder`].
    pub(crate) fn read<R: Files + Eprint + AllocGlobal>(&self, rt: &R) -> Result<Folder, Failure> {
        read_folder(rt, self.place, self.family)
    }
}
