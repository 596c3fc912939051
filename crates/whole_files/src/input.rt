//! Inputs that are read whole, up to a limit.

ghost use Rattle.std.specs.Prelude.{◌≡◌, ◌<◌, ◌≤◌, length, vec_len, Ok, None, IfOk, IfSome};
ghost use Rattle.whole_files.specs.Input.{IsWithin};

use std::alloc::Global;
use std::fs::{self, Metadata, OpenFile};
use std::io::{self, Read};
use std::rt::Files;

/// The most bytes that are read of a file whose length nothing else limits.
pub const LIMIT: usize = 67_108_864;

/// The bytes of the file at this path, which may be anything that can be read: a file, a pipe, a device. `None` if
/// there are more than the limit.
///
/// # Errors
///
/// Those of [`read_input`], and the system's if the file can't be opened.
pub fn read_file<R: Files + AllocGlobal>(
    rt: &R,
    path: &str,
    limit: usize,
) -> io::Result<Option<Vec<u8>>>
    // What is there can't be said: the system's files are no value.
    ensures { IfOk result (λ found. IfSome found (λ bytes. vec_len bytes ≤ limit)) }
{
    let file = fs::open(rt, path)?;
    read_input(rt.alloc(), file, limit)
}

/// What is at a path where a regular file is to be.
#[derive(Debug, PartialEq, Eq, Drop)]
pub enum RegularFile {
    /// A file with these bytes.
    Bytes(Vec<u8>),
    /// A file with more bytes than the limit.
    TooMuch,
    /// A pipe, a device or a socket, of which nothing is read.
    Irregular,
}

/// What is at this path, where a regular file is to be: somebody else may have put something else there. A pipe would be
/// waited for when it is opened, and a device may do something, so neither is opened. A link is followed.
///
/// What is there is looked at before it is opened and once more before it is read, since there is no call that opens only
/// regular files: who changes the folder in between can still have something else opened.
///
/// # Errors
///
/// Those of [`read_input`], and the system's if there is nothing, or a folder, or it can't be opened.
pub fn read_regular<R: Files + AllocGlobal>(
    rt: &R,
    path: &str,
    limit: usize,
) -> io::Result<RegularFile>
    ensures { IfOk result (IsWithin limit) }
{
    let Some(file) = open_regular(rt, path)? else {
        return Ok(RegularFile::Irregular);
    };
    match read_input(rt.alloc(), file, limit)? {
        Some(bytes) => Ok(RegularFile::Bytes(bytes)),
        None => Ok(RegularFile::TooMuch),
    }
}

/// The regular file at this path, open for reading: `None` if it is something else, as of [`read_regular`].
///
/// # Errors
///
/// The system's, if there is nothing, or it can't be opened. A folder is opened: to read it is an error.
pub fn open_regular<R: Files>(rt: &R, path: &str) -> io::Result<Option<R::File>> {
    if is_irregular(&fs::metadata(rt, path)?) {
        return Ok(None);
    }
    let file = fs::open(rt, path)?;
    if is_irregular(&file.metadata()?) {
        return Ok(None);
    }
    Ok(Some(file))
}

/// Whether it is neither a regular file nor a folder. To read a folder fails at once.
fn is_irregular(found: &Metadata) -> bool {
    !found.is_file() && !found.is_dir()
}

/// The bytes of an input, up to its end: `None` if there are more than the limit, of which at most one past it is read.
///
/// # Errors
///
/// The reader's, if a read fails before that, or [`OutOfMemory`](io::ErrorKind::OutOfMemory) if memory was refused.
pub fn read_input<R: Read + Drop>(
    alloc: Global,
    reader: R,
    limit: usize,
) -> io::Result<Option<Vec<u8>>>
    ensures all { IfOk result (λ found. IfSome found (λ bytes.
        IfSome (R.remaining reader) (λ rest. bytes.items ≡ rest))) }
    ensures few { IfOk result (λ found. IfSome found (λ bytes. vec_len bytes ≤ limit)) }
    ensures too_much { result ≡ Ok None → IfSome (R.remaining reader) (λ rest. limit < length rest) }
{
    let mut bytes = Vec::new(alloc);
    let most = (limit as u64).saturating_add(1);
    reader.take(most).read_to_end(&mut bytes)?;
    if bytes.len() > limit {
        return Ok(None);
    }
    Ok(Some(bytes))
}
