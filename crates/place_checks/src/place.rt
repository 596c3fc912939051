//! The place of a check, and what it says of its machine besides the entries.

use messages::Failure;
use std::alloc::AllocError;
use std::io::ErrorKind;
use std::rt::Files;
use uefi_vars::{EntryFamily, Vars};
use var_places::{
    FileKind, STANDARD, file_kind, file_vars, is_folder, name_of, read_folder, read_variables,
};
use whole_files::{LIMIT, RegularFile, read_regular};

/// Where the variables of a machine are.
#[derive(Drop)]
pub(crate) enum Source<'a> {
    /// In the folder at this path, in which Linux shows those of the firmware.
    Folder(&'a str),
    /// In an emulator's variable file with these bytes.
    File(Vec<u8>),
    /// In a set file, which has those alone by which entries are chosen, or in nothing that can be read.
    Set,
}

/// A place that was read.
#[derive(Drop)]
pub(crate) struct ReadPlace<'a> {
    /// Its variables, as a set.
    pub(crate) vars: Vars,
    /// Where they are.
    pub(crate) source: Source<'a>,
}

/// The place at this path, which is read once. Tells on standard error what is left out of its variables.
///
/// # Errors
///
/// Those of [`read_place`](var_places::read_place).
pub(crate) fn read_with_source<'a, R: Files + Input + Eprint + AllocGlobal>(
    rt: &R,
    path: &'a str,
) -> Result<ReadPlace<'a>, Failure> {
    if is_folder(rt, path)? {
        return Ok(ReadPlace {
            vars: read_folder(rt, path, EntryFamily::Boot)?.found.vars,
            source: Source::Folder(path),
        });
    }
    let bytes = read_variables(rt, path)?;
    let vars = file_vars(rt, name_of(path), &bytes)?;
    Ok(ReadPlace {
        vars,
        source: source_of(bytes),
    })
}

/// Where the variables of the place at this path are. Standard input isn't read.
///
/// # Errors
///
/// [`AllocError`] if memory was refused: of what can't be read nothing is said.
pub(crate) fn source_at<'a, R: Files + AllocGlobal>(
    rt: &R,
    path: &'a str,
) -> Result<Source<'a>, AllocError> {
    if path == STANDARD {
        return Ok(Source::Set);
    }
    if is_folder(rt, path).unwrap_or(false) {
        return Ok(Source::Folder(path));
    }
    match read_regular(rt, path, LIMIT) {
        Ok(RegularFile::Bytes(bytes)) => Ok(source_of(bytes)),
        Ok(RegularFile::TooMuch | RegularFile::Irregular) => Ok(Source::Set),
        Err(error) if error.kind() == ErrorKind::OutOfMemory => Err(AllocError),
        Err(_) => Ok(Source::Set),
    }
}

/// Where the variables of a file with these bytes are.
fn source_of<'a>(bytes: Vec<u8>) -> Source<'a> {
    match file_kind(&bytes) {
        FileKind::VariableFile => Source::File(bytes),
        FileKind::Set | FileKind::Other => Source::Set,
    }
}
