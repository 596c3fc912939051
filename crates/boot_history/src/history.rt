//! Records that are kept in a state folder: of each machine the last sixteen.

ghost use Rattle.std.specs.Prelude.{◌≡◌, IfOk, reverse};
ghost use Rattle.std.specs.List.Sorted.{IsNonDecreasing};
ghost use Rattle.boot_history.specs.Counted.{counted};

use crate::folder::{file_path, history_path, make_history};
use crate::numbers::{next_number, numbers_of, oldest};
use crate::written::Written;
use change_records::{
    HEAD_MAX, Owner, Record, RecordFault, Standing, owner_of, read_record, standing_of,
};
use machine_names::MachineName;
use messages::{Failure, Reason};
use std::alloc::Global;
use std::fs;
use std::io::{self, ErrorKind, Read};
use std::path::Path;
use std::rt::Files;
use uefi_vars::Vars;
use whole_files::{LIMIT, OutputFile, RegularFile, open_regular, read_regular, sync_folder};

/// A record that is kept.
#[derive(Debug, Drop)]
pub struct KeptRecord {
    /// Its number: a later record has a greater one.
    pub number: u64,
    /// The record.
    pub record: Record,
}

/// Keeps a record in the state folder at this path, and gives its number. It has a file of its own in the folder `history`
/// there, which is made if it isn't there, for its owner alone. Once that file is on the disk, of the other records of the
/// machine only the last fifteen stay: but for those that can't be read or removed, which keep no change from being made.
/// The caller keeps others from the state folder, as by its lock, and makes the change afterwards.
///
/// # Errors
///
/// [`Failure::Read`] and [`Failure::Write`] if the folder can't be read, or the record can't be written, [`Failure::Refused`]
/// if it would have more than [`LIMIT`] bytes, or there is no number after those of the files that are there, and
/// [`Failure::Memory`] if memory was refused.
pub fn push<R: Files<File: OutputFile> + AllocGlobal>(
    rt: &R,
    state: &str,
    record: &Record,
) -> Result<u64, Failure> {
    let folder = make_history(rt, state)?;
    let folder = folder.as_path();
    let kept = read_numbers(rt, folder)?;
    let Some(number) = next_number(&kept) else {
        let fault = "no number is left for a record";
        return Err(Failure::from_fault(rt.alloc(), folder.as_str(), fault));
    };
    let written = Written::new(rt, folder, number, record)?;
    remove_oldest(rt, folder, &kept, &record.machine, &written)?;
    Ok(number)
}

/// Takes the record of this number out of the state folder at this path: its change wasn't made, or is undone. The caller
/// keeps others from the state folder.
///
/// # Errors
///
/// [`Failure::Write`] if its file can't be removed, and [`Failure::Memory`] if memory was refused.
pub fn remove<R: Files<File: OutputFile> + AllocGlobal>(
    rt: &R,
    state: &str,
    number: u64,
) -> Result<(), Failure> {
    let folder = history_path(rt.alloc(), state)?;
    remove_file(rt, folder.as_path(), number)
}

/// The last record of the machine of this name in the state folder at this path: `None` if it has none there. The caller
/// keeps others from the state folder.
///
/// # Errors
///
/// [`Failure::Read`] if the folder or a file can't be read, [`Failure::Refused`] if the file is damaged or has more than
/// [`LIMIT`] bytes, or if a later one is so damaged that it doesn't tell whose it is, and [`Failure::Memory`] if memory was
/// refused.
pub fn newest<R: Files<File: OutputFile> + AllocGlobal>(
    rt: &R,
    state: &str,
    machine: &MachineName,
) -> Result<Option<KeptRecord>, Failure> {
    for number in &kept_numbers(rt, state)? {
        let kept = kept_record(rt, state, *number, machine)?;
        if kept.is_some() {
            return Ok(kept);
        }
    }
    Ok(None)
}

/// The numbers of the records that are kept in the state folder at this path, of whatever machine, the last one first.
///
/// # Errors
///
/// [`Failure::Read`] if the folder can't be read, and [`Failure::Memory`] if memory was refused.
pub fn kept_numbers<R: Files + AllocGlobal>(rt: &R, state: &str) -> Result<Vec<u64>, Failure>
    ensures { IfOk result (λ numbers. IsNonDecreasing (reverse numbers.items)) }
{
    let folder = history_path(rt.alloc(), state)?;
    let mut kept = read_numbers(rt, folder.as_path())?;
    kept.reverse();
    Ok(kept)
}

/// The record of this number in the state folder at this path: `None` if it is another machine's.
///
/// # Errors
///
/// As of [`newest`], for its file.
pub fn kept_record<R: Files<File: OutputFile> + AllocGlobal>(
    rt: &R,
    state: &str,
    number: u64,
    machine: &MachineName,
) -> Result<Option<KeptRecord>, Failure> {
    let folder = history_path(rt.alloc(), state)?;
    match own_record(rt, folder.as_path(), number, machine)? {
        Some(record) => Ok(Some(KeptRecord { number, record })),
        None => Ok(None),
    }
}

/// The records that an undoing may need of the machine, which keeps these variables now: those down to the last one whose
/// change stands, the last one first. Earlier ones aren't read. One that says nothing of Timeout has the one that is there now.
///
/// # Errors
///
/// As of [`newest`], for each file that is read.
pub fn records_to_undo<R: Files<File: OutputFile> + AllocGlobal>(
    rt: &R,
    state: &str,
    machine: &MachineName,
    now: &Vars,
) -> Result<Vec<KeptRecord>, Failure> {
    let alloc = rt.alloc();
    let mut found = Vec::new(alloc);
    for number in &kept_numbers(rt, state)? {
        if let Some(KeptRecord { number, record }) = kept_record(rt, state, *number, machine)? {
            let record = record.with_timeout_of(now)?;
            let stands = standing_of(alloc, &record, now)? == Standing::Unchanged;
            found.push(KeptRecord { number, record })?;
            if stands {
                break;
            }
        }
    }
    Ok(found)
}

/// The numbers of the records in the folder at this path, which rise. There are none if it isn't there.
fn read_numbers<R: Files + AllocGlobal>(rt: &R, folder: Path<'_>) -> Result<Vec<u64>, Failure>
    ensures { IfOk result (λ numbers. IsNonDecreasing numbers.items) }
{
    let names = match read_names(rt, folder) {
        Ok(names) => names,
        Err(error) if error.kind() == ErrorKind::NotFound => Vec::new(rt.alloc()),
        Err(error) => return Err(Failure::from_read(rt.alloc(), folder.as_str(), error)),
    };
    let numbers = numbers_of(rt.alloc(), &names)?;
    Ok(numbers)
}

/// The names of the files in the folder at this path, in its own order: of those whose names are UTF-8, as a record's is.
fn read_names<R: Files + AllocGlobal>(rt: &R, folder: Path<'_>) -> io::Result<Vec<String>> {
    let alloc = rt.alloc();
    let mut names = Vec::new(alloc);
    for entry in fs::read_dir(&(rt, alloc), folder)? {
        match entry {
            Ok(entry) => names.push(String::from_str(alloc, entry.file_name())?)?,
            Err(error) if error.kind() == ErrorKind::InvalidFilename => {}
            Err(error) => return Err(error),
        }
    }
    Ok(names)
}

/// Removes the oldest records of the machine of this name, of these numbers, which rise, so that with the new one, which is
/// written, as many as are kept are left. One that can't be read or removed stays, and the next time it is tried again.
/// This fails only if memory is refused.
fn remove_oldest<R: Files<File: OutputFile> + AllocGlobal>(
    rt: &R,
    folder: Path<'_>,
    numbers: &[u64],
    machine: &MachineName,
    _written: &Written,
) -> Result<(), Failure> {
    let mut own = Vec::new(rt.alloc());
    for number in numbers {
        if counted(owner(rt, folder, *number, machine))? {
            own.push(*number)?;
        }
    }
    for number in oldest(&own) {
        if let Err(Failure::Memory) = remove_file(rt, folder, *number) {
            return Err(Failure::Memory);
        }
    }
    Ok(())
}

/// Whether a record counts among the machine's own, of which this was told: one that can't be read doesn't.
fn counted(told: Result<Owner, Failure>) -> Result<bool, Failure>
    ensures { result ≡ counted told }
{
    match told {
        Ok(owner) => Ok(owner == Owner::Own),
        Err(Failure::Memory) => Err(Failure::Memory),
        Err(_) => Ok(false),
    }
}

/// Removes the file of a record, and brings that to the disk.
fn remove_file<R: Files<File: OutputFile> + AllocGlobal>(
    rt: &R,
    folder: Path<'_>,
    number: u64,
) -> Result<(), Failure> {
    let path = file_path(rt.alloc(), folder, number)?;
    fs::remove_file(rt, path.as_path())
        .and_then(|_| sync_folder(rt, folder.as_str()))
        .map_err(|error| Failure::from_write(rt.alloc(), path.as_path().as_str(), error))
}

/// Whose record of this number is, for the machine of this name.
fn owner<R: Files + AllocGlobal>(
    rt: &R,
    folder: Path<'_>,
    number: u64,
    machine: &MachineName,
) -> Result<Owner, Failure> {
    let alloc = rt.alloc();
    let path = file_path(alloc, folder, number)?;
    let path = path.as_path().as_str();
    match read_head(rt, path) {
        Ok(Some(head)) => Ok(owner_of(&head, machine)),
        Ok(None) => Err(Failure::refused(alloc, path, Reason::NoRegularFile)),
        Err(error) => Err(Failure::from_read(alloc, path, error)),
    }
}

/// The first bytes of the file at this path, in which the name of a machine is: `None` if it is no regular file.
fn read_head<R: Files + AllocGlobal>(rt: &R, path: &str) -> io::Result<Option<Vec<u8>>> {
    let Some(file) = open_regular(rt, path)? else {
        return Ok(None);
    };
    let mut head = Vec::new(rt.alloc());
    file.take(HEAD_MAX as u64).read_to_end(&mut head)?;
    Ok(Some(head))
}

/// The record of this number, if it is of the machine of this name.
fn own_record<R: Files + AllocGlobal>(
    rt: &R,
    folder: Path<'_>,
    number: u64,
    machine: &MachineName,
) -> Result<Option<Record>, Failure> {
    if owner(rt, folder, number, machine)?.is_passed_over() {
        return Ok(None);
    }
    let alloc = rt.alloc();
    let path = file_path(alloc, folder, number)?;
    let path = path.as_path().as_str();
    match read_regular(rt, path, LIMIT) {
        Ok(RegularFile::Bytes(bytes)) => Ok(Some(record_of(alloc, path, &bytes)?)),
        Ok(RegularFile::TooMuch) => Err(Failure::refused(alloc, path, Reason::TooMuch(LIMIT))),
        Ok(RegularFile::Irregular) => { Err(Failure::refused(alloc, path, Reason::NoRegularFile)) }
        Err(error) => Err(Failure::from_read(alloc, path, error)),
    }
}

/// The record of these bytes of the file at this path.
fn record_of(alloc: Global, path: &str, bytes: &[u8]) -> Result<Record, Failure> {
    match read_record(alloc, bytes) {
        Ok(record) => Ok(record),
        Err(RecordFault::OutOfMemory) => Err(Failure::Memory),
        Err(fault) => {
            let words = format!(in alloc; "the record is damaged: {fault}")?;
            Err(Failure::refused(alloc, path, Reason::Fault(words)))
        }
    }
}
