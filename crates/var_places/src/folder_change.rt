//! Changes of the variables that a folder shows.

ghost use Rattle.std.specs.Prelude.{◌↔◌, IsTrue};
ghost use Rattle.std.specs.Option.{option_map};
ghost use Rattle.var_places.specs.Folder.{IsAsWanted};

use crate::folder::Folder;
use std::alloc::AllocError;
use std::fs::{self, File, OpenFile, OpenOptions};
use std::io::{self, ErrorKind, Write};
use std::path::Path;
use std::rt::Files;
use uefi_vars::{ATTRIBUTES_LEN, DATA_MAX};
use whole_files::{RegularFile, read_regular, sync_file, sync_folder};

/// What is to be kept of a variable, and what was: its attributes in four bytes and then its value, or nothing if it isn't
/// there.
#[derive(Clone, Copy, Debug)]
pub struct KeptChange<'a> {
    /// Its name, which has no slash.
    pub name: &'a str,
    /// What was kept of it when it was read.
    pub before: Option<&'a [u8]>,
    /// What is to be kept of it.
    pub after: Option<&'a [u8]>,
}

/// Why a variable isn't changed.
#[derive(Debug, Drop)]
pub enum ChangeFault {
    /// It isn't what was read of it any more: something else has changed it, made it or taken it out.
    Changed,
    /// What shows it is a link, a pipe, a device or a socket, and nothing is written through it.
    Irregular,
    /// The system's reason, also that memory was refused.
    System(io::Error),
}

impl From<io::Error> for ChangeFault {
    fn from(error: io::Error) -> ChangeFault {
        ChangeFault::System(error)
    }
}

impl From<AllocError> for ChangeFault {
    fn from(refusal: AllocError) -> ChangeFault {
        ChangeFault::System(io::Error::from(refusal))
    }
}

/// Makes one change in the folder at this path, of which this was read, if the variable is what was read of it: what
/// something else has made of it meanwhile stays, and is refused. That is one write of the attributes and the value, as
/// efivarfs wants it, to a file that isn't cut before, or the file is removed. Nothing is written if it is what it is to be
/// already. Either way it is brought to the disk, if the folder is on one: firmware keeps what efivarfs has.
///
/// # Errors
///
/// [`ChangeFault::Changed`] and [`ChangeFault::Irregular`], and nothing was written then; and otherwise as of
/// [`set_variable`].
pub fn change_variable<R: Files + AllocGlobal>(
    rt: &R,
    folder: &Folder,
    path: &str,
    change: &KeptChange<'_>,
) -> Result<(), ChangeFault> {
    let file = folder.path_of(rt.alloc(), path, change.name)?;
    change_file(rt, path, file.as_path(), change.before, change.after)
}

/// The same for the file of a variable in the folder at this path.
fn change_file<R: Files + AllocGlobal>(
    rt: &R,
    path: &str,
    file: Path<'_>,
    before: Option<&[u8]>,
    after: Option<&[u8]>,
) -> Result<(), ChangeFault> {
    let found = find(rt, file)?;
    if found.is(after) {
        // Whoever wrote it may have been killed before it was on the disk.
        return Ok(sync_found(rt, path, file, &found)?);
    }
    if !found.is(before) {
        return Err(ChangeFault::Changed);
    }
    match put(rt, file, after, &found) {
        Ok(()) => Ok(sync_folder(rt, path)?),
        // Somebody else has made it since it was looked at, or has taken it out.
        Err(error) if is_elses(&error) => Err(ChangeFault::Changed),
        Err(error) => Err(ChangeFault::System(error)),
    }
}

/// Whether a file couldn't be made since it is there, or couldn't be opened or removed since it isn't.
fn is_elses(error: &io::Error) -> bool {
    matches!(error.kind(), ErrorKind::AlreadyExists | ErrorKind::NotFound)
}

/// Sets the variable of this name to what is to be kept of it, which is its attributes in four bytes and then its
/// value, or takes it out if that is `None`, whatever is there, unless what shows it is no regular file. Nothing is written
/// if it is so already. Either way it is brought to the disk, as by [`change_variable`]. The folder is what was read of this
/// path, and the name has no slash.
///
/// # Errors
///
/// [`ChangeFault::Irregular`]; and [`ChangeFault::System`] if the file can't be opened, read, written or removed, and if memory
/// was refused: the variable is as it was then, and a file that was to be made is gone, if it can be removed. It is that too
/// if the change can't be brought to the disk: it is made then, and a cut may undo it.
pub fn set_variable<R: Files + AllocGlobal>(
    rt: &R,
    folder: &Folder,
    path: &str,
    name: &str,
    kept: Option<&[u8]>,
) -> Result<(), ChangeFault> {
    let file = folder.path_of(rt.alloc(), path, name)?;
    let file = file.as_path();
    let found = find(rt, file)?;
    if found.is(kept) {
        return Ok(sync_found(rt, path, file, &found)?);
    }
    put(rt, file, kept, &found)?;
    Ok(sync_folder(rt, path)?)
}

/// Brings what was found of a variable to the disk.
fn sync_found<R: Files>(rt: &R, path: &str, file: Path<'_>, found: &Found) -> io::Result<()> {
    if !matches!(found, Found::Nothing) {
        sync_file(&File::open(rt, file)?)?;
    }
    sync_folder(rt, path)
}

/// Stores what is to be kept in the file at this path, where this was found, or removes it.
fn put<R: Files>(rt: &R, file: Path<'_>, kept: Option<&[u8]>, found: &Found) -> io::Result<()> {
    match kept {
        Some(bytes) => store(rt, file, bytes, matches!(found, Found::Nothing)),
        None => fs::remove_file(rt, file),
    }
}

/// Whether this is kept of the variable of this name, its attributes in four bytes and then its value, or it isn't
/// there if that is `None`. Of a variable with more than [`DATA_MAX`] bytes something else is kept, whatever is asked
/// for, and so is where what shows it is no regular file. The folder is what was read of this path, and the name has no
/// slash.
///
/// # Errors
///
/// The system's, if the file is there and can't be opened or read, and that memory was refused.
pub fn has_value<R: Files + AllocGlobal>(
    rt: &R,
    folder: &Folder,
    path: &str,
    name: &str,
    kept: Option<&[u8]>,
) -> io::Result<bool> {
    let file = folder.path_of(rt.alloc(), path, name)?;
    match find(rt, file.as_path()) {
        Ok(found) => Ok(found.is(kept)),
        Err(ChangeFault::System(error)) => Err(error),
        Err(ChangeFault::Changed | ChangeFault::Irregular) => Ok(false),
    }
}

/// What is at the path of a variable's file.
#[derive(Drop)]
enum Found {
    /// No file.
    Nothing,
    /// A file with these bytes.
    Bytes(Vec<u8>),
    /// A file with more bytes than a value of a set can have.
    TooMuch,
}

impl Found {
    /// Whether it is what is to be kept of the variable: a file with these bytes, or no file if there are none.
    fn is(&self, kept: Option<&[u8]>) -> bool
        ensures { IsTrue result ↔ IsAsWanted self.now (option_map (λ bytes. bytes.now) kept.entry) }
    {
        match (self, kept) {
            (Found::Nothing, None) => true,
            (Found::Bytes(bytes), Some(kept)) => bytes.as_slice() == kept,
            _ => false,
        }
    }
}

/// Looks at the path of a variable's file. A link isn't followed: what is found is going to be written.
fn find<R: Files + AllocGlobal>(rt: &R, path: Path<'_>) -> Result<Found, ChangeFault> {
    match fs::symlink_metadata(rt, path) {
        Ok(found) if found.is_symlink() => return Err(ChangeFault::Irregular),
        Ok(_) => {}
        Err(error) if error.kind() == ErrorKind::NotFound => return Ok(Found::Nothing),
        Err(error) => return Err(ChangeFault::System(error)),
    }
    match read_regular(rt, path.as_str(), ATTRIBUTES_LEN + DATA_MAX) {
        Ok(RegularFile::Bytes(bytes)) => Ok(Found::Bytes(bytes)),
        Ok(RegularFile::TooMuch) => Ok(Found::TooMuch),
        Ok(RegularFile::Irregular) => Err(ChangeFault::Irregular),
        Err(error) if error.kind() == ErrorKind::NotFound => Ok(Found::Nothing),
        Err(error) => Err(ChangeFault::System(error)),
    }
}

/// Stores the bytes in the file at this path, which is made if it is new, and brings it to the disk. If it is new and
/// nothing is written, it is removed again.
fn store<R: Files>(rt: &R, path: Path<'_>, bytes: &[u8], is_new: bool) -> io::Result<()> {
    let mut how = OpenOptions::new();
    let mut file = how.write(true).create_new(is_new).open(rt, path)?;
    let written = write_once(&mut file, bytes);
    if written.is_err() && is_new && file.metadata().is_ok_and(|made| made.len() == 0) {
        // If that fails too, the write's own reason tells more.
        let _ = fs::remove_file(rt, path);
    }
    written?;
    sync_file(&file)
}

/// Writes all of the bytes at once.
fn write_once<F: Write + OpenFile>(file: &mut F, bytes: &[u8]) -> io::Result<()> {
    if file.write(bytes)? < bytes.len() {
        return Err(io::Error::from(ErrorKind::WriteZero));
    }
    // In a folder that isn't efivarfs, the file may have had more bytes.
    let len = bytes.len() as u64;
    if file.metadata()?.len() > len {
        file.set_len(len)?;
    }
    Ok(())
}
