//! What a place that is to be changed is.

use messages::{Failure, Reason};
use std::fs;
use std::rt::Files;
use var_places::{FileKind, STANDARD, file_kind, name_of, no_place, read};
use wanted_changes::PlaceKind;

/// What the place at this path is, which is to be changed.
///
/// # Errors
///
/// [`Failure::Read`] if it can't be read, [`Failure::Refused`] if it is none, or can't be changed, and [`Failure::Memory`] if
/// memory was refused.
pub fn kind_of_place<R: Files + Input + AllocGlobal>(
    rt: &R,
    path: &str,
) -> Result<PlaceKind, Failure> {
    let alloc = rt.alloc();
    if path == STANDARD {
        return Err(Failure::refused(alloc, name_of(path), Reason::Standard));
    }
    let found = fs::metadata(rt, path).map_err(|error| Failure::from_read(alloc, path, error))?;
    if found.is_dir() {
        return Ok(PlaceKind::Folder);
    }
    if !found.is_file() {
        return Err(Failure::refused(alloc, path, Reason::Irregular));
    }
    let bytes = read(rt, path)?;
    match file_kind(&bytes) {
        FileKind::VariableFile => Ok(PlaceKind::VariableFile),
        FileKind::Set => Ok(PlaceKind::Set),
        FileKind::Other => Err(no_place(alloc, path, &bytes)),
    }
}
