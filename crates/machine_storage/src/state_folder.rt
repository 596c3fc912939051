//! The folder that has the journal of a machine.

ghost use Rattle.std.specs.Prelude.{◌≡◌};
ghost use Rattle.machine_storage.specs.StateAccess.{access_fault};

use boot_journal::{JournalFault, JournalFile, read_journal};
use boot_notes::{Notes, NotesFault, SplitNotes, split_notes};
use messages::{Failure, Reason, shown};
use std::alloc::{AllocError, Global};
use std::fs::{self, File, Metadata, OpenFile};
use std::io::{self, ErrorKind};
use std::os::unix::fs::MetadataExt;
use std::path::{Path, PathBuf};
use std::rt::Files;
use whole_files::{LIMIT, OutputFile, RegularFile, read_regular};

/// The name of the journal's file.
const JOURNAL: &str = "journal";

/// What belongs, where Linux shows it, to the user as whom this program runs.
const OWN_PROCESS: &str = "/proc/self";

/// The user who may write everything anyway.
const ROOT: u32 = 0;

/// The rights of a folder's group and of others to write it.
const OTHERS_WRITE: u32 = 0o022;

/// A folder with a journal, of which the lock is held. It ends when this is dropped.
#[derive(Drop)]
pub struct StateFolder<F> {
    /// The path of the journal.
    journal: PathBuf,
    /// The folder, which is open and locked.
    _lock: F,
}

/// Locks the folder at this path, so that no other update has its journal.
///
/// # Errors
///
/// [`Failure::Read`] if it can't be opened or locked, [`Failure::Refused`] if it is no folder, or somebody else than root and
/// the user may write it, who then could have anything done to the machine; [`Failure::Busy`] if another update has the lock,
/// and [`Failure::Memory`] if memory was refused.
pub fn lock_folder<R: Files<File: OutputFile> + AllocGlobal>(
    rt: &R,
    path: &str,
) -> Result<StateFolder<R::File>, Failure> {
    let alloc = rt.alloc();
    match try_lock_folder(rt, path) {
        Ok(Taken::Locked(lock)) => Ok(StateFolder {
            journal: journal_path(alloc, path)?,
            _lock: lock,
        }),
        Ok(Taken::Busy) => Err(Failure::Busy(shown(alloc, path)?)),
        Ok(Taken::Refused(AccessFault::Shared)) => {
            Err(Failure::refused(alloc, path, Reason::SharedState))
        }
        Ok(Taken::Refused(AccessFault::Foreign)) => {
            Err(Failure::refused(alloc, path, Reason::ForeignState))
        }
        Err(error) if error.kind() == ErrorKind::NotADirectory => {
            Err(Failure::refused(alloc, path, Reason::NoFolder))
        }
        Err(error) => Err(Failure::from_read(alloc, path, error)),
    }
}

/// What came of locking a folder.
#[derive(Drop)]
enum Taken<F> {
    /// It is open and locked.
    Locked(F),
    /// Somebody else has the lock.
    Busy,
    /// Somebody else may write it.
    Refused(AccessFault),
}

/// Opens the folder at this path, and locks it.
fn try_lock_folder<R: Files<File: OutputFile>>(rt: &R, path: &str) -> io::Result<Taken<R::File>> {
    let folder = File::open(rt, path)?;
    let found = folder.metadata()?;
    if !found.is_dir() {
        return Err(io::Error::from(ErrorKind::NotADirectory));
    }
    if let Some(fault) = fault_of(rt, &found) {
        return Ok(Taken::Refused(fault));
    }
    Ok(if folder.try_lock()? {
        Taken::Locked(folder)
    } else {
        Taken::Busy
    })
}

/// Why a folder isn't kept from others.
#[derive(Clone, Copy, Debug, PartialEq, Eq)]
enum AccessFault {
    /// Its group or others may write it.
    Shared,
    /// Its owner is neither root nor the user.
    Foreign,
}

/// Why this folder isn't kept from others, if that is so. Which user this is, is told by what belongs to this process; where
/// that isn't shown, only root's folder counts as kept from others.
fn fault_of<R: Files>(rt: &R, folder: &Metadata) -> Option<AccessFault> {
    let user = fs::metadata(rt, OWN_PROCESS).map_or(ROOT, |process| process.uid());
    access_fault(folder.mode(), folder.uid(), user)
}

/// Why a folder with these rights and this owner isn't kept from others than this user and root, if that is so.
fn access_fault(mode: u32, owner: u32, user: u32) -> Option<AccessFault>
    ensures { result ≡ access_fault mode owner user }
{
    if owner != ROOT && owner != user {
        return Some(AccessFault::Foreign);
    }
    if mode & OTHERS_WRITE == 0 {
        None
    } else {
        Some(AccessFault::Shared)
    }
}

impl<F> StateFolder<F> {
    /// The path of the journal.
    pub fn journal(&self) -> &str {
        self.journal.as_path().as_str()
    }
}

/// The path of the journal in the folder at this path. This fails only when out of memory.
pub fn journal_path(alloc: Global, folder: &str) -> Result<PathBuf, AllocError> {
    Path::new(folder).join(alloc, JOURNAL)
}

/// A journal that is stored, with what is kept beside it.
#[derive(Drop)]
pub struct StoredJournal {
    /// What is kept beside it: `None` if nothing is.
    pub notes: Option<Notes>,
    /// The journal, and whose it is.
    pub file: JournalFile,
}

/// The journal that is stored at this path, if there is one.
///
/// # Errors
///
/// [`Failure::Read`] if it can't be read, [`Failure::Refused`] if it is damaged, and [`Failure::Memory`] if memory was
/// refused.
pub(crate) fn stored_journal<R: Files + AllocGlobal>(
    rt: &R,
    path: &str,
) -> Result<Option<JournalFile>, Failure> {
    match stored_with_notes(rt, path)? {
        Some(StoredJournal { file, .. }) => Ok(Some(file)),
        None => Ok(None),
    }
}

/// The same, with what is kept beside it.
///
/// # Errors
///
/// As of [`stored_journal`].
pub fn stored_with_notes<R: Files + AllocGlobal>(
    rt: &R,
    path: &str,
) -> Result<Option<StoredJournal>, Failure> {
    let alloc = rt.alloc();
    match read_regular(rt, path, LIMIT) {
        Ok(RegularFile::Bytes(bytes)) => Ok(Some(journal_of(alloc, path, &bytes)?)),
        Ok(RegularFile::TooMuch) => Err(Failure::refused(alloc, path, Reason::TooMuch(LIMIT))),
        Ok(RegularFile::Irregular) => Err(Failure::refused(alloc, path, Reason::NoRegularFile)),
        Err(error) if error.kind() == ErrorKind::NotFound => Ok(None),
        Err(error) => Err(Failure::from_read(alloc, path, error)),
    }
}

/// The journal of these bytes of the file at this path.
fn journal_of(alloc: Global, path: &str, bytes: &[u8]) -> Result<StoredJournal, Failure> {
    match split_notes(alloc, bytes) {
        Ok(Some(SplitNotes { notes, file })) => Ok(StoredJournal {
            file: file_of(alloc, path, bytes.len().saturating_sub(file.len()), file)?,
            notes: Some(notes),
        }),
        Ok(None) => Ok(StoredJournal {
            notes: None,
            file: file_of(alloc, path, 0, bytes)?,
        }),
        Err(NotesFault::OutOfMemory) => Err(Failure::Memory),
        Err(fault) => {
            let text = format!(in alloc; "{fault}: {}", notes_reason(&fault))?;
            Err(Failure::refused(alloc, path, Reason::DamagedJournal(text)))
        }
    }
}

/// The journal of these bytes, which come after as many others in the file at this path.
fn file_of(alloc: Global, path: &str, before: usize, bytes: &[u8]) -> Result<JournalFile, Failure> {
    match read_journal(alloc, bytes) {
        Ok(journal) => Ok(journal),
        Err(JournalFault::OutOfMemory) => Err(Failure::Memory),
        Err(fault) => {
            let fault = behind(fault, before);
            let words = fault.words(alloc)?;
            let text = format!(in alloc; "{words}: {}", journal_reason(&fault))?;
            Err(Failure::refused(alloc, path, Reason::DamagedJournal(text)))
        }
    }
}

/// The fault of bytes that come after as many others, with its place among all of them.
fn behind(fault: JournalFault, before: usize) -> JournalFault {
    let at = |place: usize| place.saturating_add(before);
    match fault {
        JournalFault::BadMachine(place) => JournalFault::BadMachine(at(place)),
        JournalFault::Truncated(place) => JournalFault::Truncated(at(place)),
        JournalFault::ValueTooLong(place) => JournalFault::ValueTooLong(at(place)),
        JournalFault::BadCourse(place) => JournalFault::BadCourse(at(place)),
        JournalFault::BadIdentity(place) => JournalFault::BadIdentity(at(place)),
        JournalFault::BadName(place) => JournalFault::BadName(at(place)),
        JournalFault::BadMagic => JournalFault::BadMagic,
        JournalFault::OutOfMemory => JournalFault::OutOfMemory,
    }
}

/// Why bytes are no notes, after the words of the fault.
fn notes_reason(fault: &NotesFault) -> &'static str {
    match fault {
        NotesFault::Truncated(_) => "it is cut, and ends in what is kept beside the journal",
        NotesFault::TooMany(_) => "more than 128 digests are to be kept beside the journal",
        NotesFault::OutOfMemory => "out of memory",
    }
}

/// Why bytes are no journal, after the words of the fault, which have its place.
fn journal_reason(fault: &JournalFault) -> &'static str {
    match fault {
        JournalFault::BadMagic => "it begins with none of BKJ1, BKJ2 and BKJ3",
        JournalFault::BadMachine(_) => "the name of its machine has no byte, or more than 4096",
        JournalFault::Truncated(_) => "it is cut, and ends in the field at that byte",
        JournalFault::ValueTooLong(_) =>
            "the value at that byte is to have more than 1048576 bytes",
        JournalFault::BadCourse(_) => "that byte is neither 1 nor 2",
        JournalFault::BadIdentity(_) => "no identity of a start is at that byte",
        JournalFault::BadName(_) => "no name of a boot variable is at that byte",
        JournalFault::OutOfMemory => "out of memory",
    }
}
