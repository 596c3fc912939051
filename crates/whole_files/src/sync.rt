//! What brings files and folders to the disk.

use std::fs::{File, OpenFile};
use std::io::{self, ErrorKind};
use std::rt::Files;

/// Brings what was written to the disk, if there is one: for a pipe, or a file system that has none, as efivarfs, this
/// does nothing.
///
/// # Errors
///
/// The system's, if it can't be brought there.
pub fn sync_file<F: OpenFile>(file: &F) -> io::Result<()> {
    match file.sync_all() {
        Err(error)
            if matches!(
                error.kind(),
                ErrorKind::InvalidInput | ErrorKind::Unsupported
            ) => { Ok(()) }
        done => done,
    }
}

/// Brings the names in the folder at this path to the disk, as [`sync_file`] does: without that a file may come back
/// that was removed, and a new one be lost. A folder that may not be read is passed over.
///
/// # Errors
///
/// The system's, if the folder can't be opened for another reason, or its names can't be brought there.
pub fn sync_folder<R: Files>(rt: &R, folder: &str) -> io::Result<()> {
    match File::open(rt, folder) {
        Ok(folder) => sync_file(&folder),
        // A folder may be written by someone who may not read it.
        Err(error) if error.kind() == ErrorKind::PermissionDenied => Ok(()),
        Err(error) => Err(error),
    }
}
