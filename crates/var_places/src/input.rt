//! Files that are read whole.

ghost use Rattle.std.specs.Prelude.{◌↔◌, IsTrue};
ghost use Rattle.std.specs.Io.{StartsWith};
ghost use Rattle.var_places.specs.Input.{IsGivenOpen};

use messages::{Failure, Reason};
use std::rt::Files;
use whole_files::{LIMIT, RegularFile, read_file, read_input, read_regular};

/// The path that stands for standard input, or for standard output where a file is made.
pub const STANDARD: &str = "-";

/// What the file at a path is called in messages.
pub fn name_of(path: &str) -> &str {
    if path == STANDARD {
        "standard input"
    } else {
        path
    }
}

/// The bytes of the file at this path, or of standard input if the path is `-`. A pipe or a device is read too: it is a
/// stream that the user names.
///
/// # Errors
///
/// [`Failure::Read`] if it can't be opened or read, [`Failure::Refused`] if it has more than [`LIMIT`] bytes, and
/// [`Failure::Memory`] if memory was refused.
pub fn read<R: Files + Input + AllocGlobal>(rt: &R, path: &str) -> Result<Vec<u8>, Failure> {
    let alloc = rt.alloc();
    let read = if path == STANDARD {
        read_input(alloc, rt.reader(), LIMIT)
    } else {
        read_file(rt, path, LIMIT)
    };
    match read {
        Ok(Some(bytes)) => Ok(bytes),
        Ok(None) => Err(Failure::refused(alloc, name_of(path), Reason::TooMuch(LIMIT))),
        Err(error) => Err(Failure::from_read(alloc, name_of(path), error)),
    }
}

/// The bytes of the file of variables at this path, a variable file or a set file, or of standard input if the path is `-`.
/// A pipe, a device or a socket isn't read, unless it is one that the program was given open, as `/dev/stdin` or what a
/// shell makes of `<(..)`.
///
/// # Errors
///
/// Those of [`read`], and [`Failure::Refused`] if something else than a regular file is there.
pub fn read_variables<R: Files + Input + AllocGlobal>(
    rt: &R,
    path: &str,
) -> Result<Vec<u8>, Failure> {
    let alloc = rt.alloc();
    if path == STANDARD || is_given_open(path) {
        return read(rt, path);
    }
    match read_regular(rt, path, LIMIT) {
        Ok(RegularFile::Bytes(bytes)) => Ok(bytes),
        Ok(RegularFile::TooMuch) => Err(Failure::refused(alloc, path, Reason::TooMuch(LIMIT))),
        Ok(RegularFile::Irregular) => Err(Failure::refused(alloc, path, Reason::NoPlaceFile)),
        Err(error) => Err(Failure::from_read(alloc, path, error)),
    }
}

/// Whether the path is one of those by which Linux shows a program what it was given open: to open that waits for nobody
/// whom the user didn't name.
fn is_given_open(path: &str) -> bool
    ensures { IsTrue result ↔ IsGivenOpen path.now }
{
    let path = path.as_bytes();
    path == b"/dev/stdin".as_slice() || begins(path, b"/dev/fd/") || begins(path, b"/proc/self/fd/")
}

/// Whether the path begins with these bytes.
fn begins(path: &[u8], front: &[u8]) -> bool
    ensures { IsTrue result ↔ StartsWith path.now front.now }
{
    path.starts_with(front)
}
