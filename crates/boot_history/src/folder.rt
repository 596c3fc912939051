//! The folders that records are in.

use crate::file_names::file_name;
use messages::Failure;
use std::alloc::{AllocError, Global};
use std::fs::DirBuilder;
use std::io::{self, ErrorKind};
use std::os::unix::fs::DirBuilderExt;
use std::path::{Path, PathBuf};
use std::rt::Files;
use uefi_vars::EntryFamily;
use whole_files::{folder_of, sync_folder};

/// The state folder, unless another is given.
pub const DEFAULT_STATE: &str = "/var/lib/bootkeep";

/// The path of the folder with the journal of changes of entries of a family, for a machine with this state folder: that one
/// itself of the boot manager's, and a folder in it of another family.
///
/// # Errors
///
/// [`AllocError`] if memory was refused.
pub fn family_state(alloc: Global, state: &str, family: EntryFamily) -> Result<String, AllocError> {
    match family {
        EntryFamily::Boot => String::from_str(alloc, state),
        EntryFamily::Driver => format!(in alloc; "{state}/driver"),
        EntryFamily::SysPrep => format!(in alloc; "{state}/sysprep"),
    }
}

/// The name of the folder of the records in a state folder.
const HISTORY: &str = "history";

/// The rights of a folder that is made: it is its owner's alone.
const MODE: u32 = 0o700;

// Nobody else has a right, and the owner has each.
const _: () = prove!(MODE & 0o077 == 0 && MODE & 0o700 == 0o700);

/// Makes the state folder at this path, for its owner alone, if nothing is there and its own folder is. What is there stays
/// as it is.
///
/// # Errors
///
/// [`Failure::Write`] if it can't be made, and [`Failure::Memory`] if memory was refused.
pub fn make_state_folder<R: Files + AllocGlobal>(rt: &R, state: &str) -> Result<(), Failure> {
    make_folder(rt, state, folder_of(Path::new(state)).as_str())
}

/// Makes the folder of the records in the state folder at this path, if nothing is there, and gives its path.
///
/// # Errors
///
/// As of [`make_state_folder`].
pub(crate) fn make_history<R: Files + AllocGlobal>(
    rt: &R,
    state: &str,
) -> Result<PathBuf, Failure> {
    let folder = history_path(rt.alloc(), state)?;
    make_folder(rt, folder.as_path().as_str(), state)?;
    Ok(folder)
}

/// The path of the folder of the records in the state folder at this path.
pub(crate) fn history_path(alloc: Global, state: &str) -> Result<PathBuf, AllocError> {
    Path::new(state).join(alloc, HISTORY)
}

/// Makes the folder at this path, whose name is in the folder at the other one, unless something is there.
fn make_folder<R: Files + AllocGlobal>(rt: &R, path: &str, parent: &str) -> Result<(), Failure> {
    match create(rt, path, parent) {
        Err(error) if error.kind() != ErrorKind::AlreadyExists => {
            Err(Failure::from_write(rt.alloc(), path, error))
        }
        _ => Ok(()),
    }
}

/// Makes the folder at this path, and brings its name to the disk.
fn create<R: Files>(rt: &R, path: &str, parent: &str) -> io::Result<()> {
    DirBuilder::new().mode(MODE).create(rt, path)?;
    sync_folder(rt, parent)
}

/// The path of the file of the record of this number in the folder at this path.
pub(crate) fn file_path(
    alloc: Global,
    folder: Path<'_>,
    number: u64,
) -> Result<PathBuf, AllocError> {
    let name = file_name(alloc, number)?;
    folder.join(alloc, name.as_str())
}
