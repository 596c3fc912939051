//! Places, which is where the variables of a machine are.

use crate::file_place::file_vars;
use crate::folder::read_folder;
use crate::input::{STANDARD, name_of, read_variables};
use messages::Failure;
use std::fs;
use std::rt::Files;
use uefi_vars::{EntryFamily, Vars};

/// Whether a folder is at this path. The path `-` is that of standard input, and of no folder.
///
/// # Errors
///
/// [`Failure::Read`] if nothing is there, or the system doesn't say what, and [`Failure::Memory`] if memory was refused.
pub fn is_folder<R: Files + AllocGlobal>(rt: &R, path: &str) -> Result<bool, Failure> {
    if path == STANDARD {
        return Ok(false);
    }
    match fs::metadata(rt, path) {
        Ok(found) => Ok(found.is_dir()),
        Err(error) => Err(Failure::from_read(rt.alloc(), path, error)),
    }
}

/// The variables of the place at this path: of a folder as Linux shows them, of an emulator's variable file, or of a set
/// file. Tells on standard error what is left out of them.
///
/// # Errors
///
/// [`Failure::Read`] if it can't be read, [`Failure::Refused`] if it is none of the three, or is damaged, and
/// [`Failure::Memory`] if memory was refused.
pub fn read_place<R: Files + Input + Eprint + AllocGlobal>(
    rt: &R,
    path: &str,
) -> Result<Vars, Failure> {
    if is_folder(rt, path)? {
        return Ok(read_folder(rt, path, EntryFamily::Boot)?.found.vars);
    }
    let bytes = read_variables(rt, path)?;
    file_vars(rt, name_of(path), &bytes)
}
