//! Files that are made.

use crate::input::STANDARD;
use messages::{Failure, print};
use std::fs::{self, File};
use std::io;
use std::os::unix::fs::MetadataExt;
use std::rt::Files;
use whole_files::{FileLock, OutputFile, lock_file, try_lock_file, write_file};

/// Where the bytes of a file that is made go.
#[derive(Drop)]
pub enum Output<'a, F> {
    /// To standard output.
    Standard,
    /// To the file at this path, which is locked.
    File(&'a str, FileLock<F>),
}

/// Locks the file at this path, so that nobody else replaces it meanwhile. The path `-` is standard output.
///
/// # Errors
///
/// [`Failure::Write`] if it can't be locked, and [`Failure::Memory`] if memory was refused.
pub fn lock<'a, R: Files<File: OutputFile> + AllocGlobal>(
    rt: &R,
    path: &'a str,
) -> Result<Output<'a, R::File>, Failure> {
    if path == STANDARD {
        return Ok(Output::Standard);
    }
    match lock_file(rt, path) {
        Ok(lock) => Ok(Output::File(path, lock)),
        Err(error) => Err(Failure::from_write(rt.alloc(), path, error)),
    }
}

/// The same of a file that is a place, whose lock isn't waited for: it may be held by anybody who can read the file.
///
/// # Errors
///
/// As of [`lock()`], and [`Failure::Held`] if somebody else has the lock.
pub fn lock_place<'a, R: Files<File: OutputFile> + AllocGlobal>(
    rt: &R,
    path: &'a str,
) -> Result<Output<'a, R::File>, Failure> {
    Ok(Output::File(path, lock_place_file(rt, path)?))
}

/// The lock of the file at this path, which is a place, as [`lock_place`] takes it.
///
/// # Errors
///
/// As of [`lock_place`].
pub fn lock_place_file<R: Files<File: OutputFile> + AllocGlobal>(
    rt: &R,
    path: &str,
) -> Result<FileLock<R::File>, Failure> {
    match try_lock_file(rt, path) {
        Ok(Some(lock)) => Ok(lock),
        Ok(None) => Err(Failure::held(rt.alloc(), path)),
        Err(error) => Err(Failure::from_write(rt.alloc(), path, error)),
    }
}

/// The folder at this path, which is a place, open and locked until it is dropped, without waiting.
///
/// # Errors
///
/// [`Failure::Read`] if it can't be opened or locked, [`Failure::Held`] if somebody else has the lock, and
/// [`Failure::Memory`] if memory was refused.
pub fn lock_place_folder<R: Files<File: OutputFile> + AllocGlobal>(
    rt: &R,
    path: &str,
) -> Result<R::File, Failure> {
    match try_lock_folder(rt, path) {
        Ok(Some(folder)) => Ok(folder),
        Ok(None) => Err(Failure::held(rt.alloc(), path)),
        Err(error) => Err(Failure::from_read(rt.alloc(), path, error)),
    }
}

/// The folder at this path, open and locked: `None` if somebody else has the lock.
fn try_lock_folder<R: Files<File: OutputFile>>(rt: &R, path: &str) -> io::Result<Option<R::File>> {
    let folder = File::open(rt, path)?;
    Ok(if folder.try_lock()? {
        Some(folder)
    } else {
        None
    })
}

/// Refuses an output that is the file from which an input is read: that would be lost.
///
/// # Errors
///
/// [`Failure::Refused`] if both paths lead to one file, and [`Failure::Memory`] if memory was refused.
pub fn check_output<R: Files + AllocGlobal>(rt: &R, out: &str, input: &str) -> Result<(), Failure> {
    if is_same_file(rt, out, input) {
        return Err(Failure::from_fault(
            rt.alloc(),
            out,
            "it is what is read, and would be replaced: name another file",
        ));
    }
    Ok(())
}

/// Whether both paths lead to one regular file, by its device and its number there. The input `-` is standard input.
pub fn is_same_file<R: Files>(rt: &R, out: &str, input: &str) -> bool {
    let input = if input == STANDARD {
        "/dev/stdin"
    } else {
        input
    };
    match (fs::metadata(rt, out), fs::metadata(rt, input)) {
        (Ok(out), Ok(input)) => out.is_file()
            && out.dev() == input.dev()
            && out.ino() == input.ino(),
        _ => false,
    }
}

/// Replaces the file with these bytes, or writes them to standard output.
///
/// # Errors
///
/// [`Failure::Write`] if it can't be written, and [`Failure::Memory`] if memory was refused.
pub fn write<R: Files<File: OutputFile> + Print + AllocGlobal>(
    rt: &R,
    output: Output<'_, R::File>,
    bytes: &[u8],
) -> Result<(), Failure> {
    match output {
        Output::Standard => print(rt, bytes),
        Output::File(path, lock) => write_file(rt, lock, bytes).map_err(|error| Failure::from_write(
            rt.alloc(),
            path,
            error,
        )),
    }
}
