//! Locks on files that are to be replaced.

use std::fs::{self, File, Metadata, OpenFile, OpenOptions, TryLockError};
use std::io::{self, ErrorKind};
use std::os::unix::fs::{MetadataExt, fchown};
use std::path::{Path, PathBuf};
use std::rt::Files;

/// How many links, each the target of the one before, lead to a file at most, as Linux follows them.
const LINKS_MAX: u8 = 40;

/// How often a path is looked at, if it leads to another file after each wait for a lock.
const TURNS: u16 = 10_000;

/// An open file with what it takes to replace a file, besides what [`OpenFile`] has.
pub trait OutputFile: OpenFile {
    /// Waits as long as another open file has a lock on what is open here, and takes it. It ends when this is closed.
    fn lock(&self) -> io::Result<()>;

    /// Takes the lock unless another open file has it, and tells whether it was taken.
    fn try_lock(&self) -> io::Result<bool>;

    /// Gives the file to this user and this group; `None` leaves it as it is.
    fn chown(&self, uid: Option<u32>, gid: Option<u32>) -> io::Result<()>;
}

impl OutputFile for File {
    fn lock(&self) -> io::Result<()> {
        File::lock(self)
    }

    fn try_lock(&self) -> io::Result<bool> {
        match File::try_lock(self) {
            Ok(()) => Ok(true),
            Err(TryLockError::WouldBlock) => Ok(false),
            Err(TryLockError::Error(error)) => Err(error),
        }
    }

    fn chown(&self, uid: Option<u32>, gid: Option<u32>) -> io::Result<()> {
        fchown(self, uid, gid)
    }
}

/// A path whose file is to be replaced, of which [`lock_file`] has the lock. It ends when this is dropped.
#[derive(Drop)]
pub struct FileLock<F> {
    /// Where the path's links end.
    pub(crate) path: PathBuf,
    /// What was found there.
    pub(crate) found: Found<F>,
}

/// What a path leads to.
#[derive(Drop)]
pub(crate) enum Found<F> {
    /// A regular file, which is open for writing, and locked.
    Regular(F),
    /// Nothing. The folder is open and locked.
    Nothing(F),
    /// Something else, which is neither open nor locked.
    Other,
}

/// Waits until no other holder of such a lock replaces the file at this path, and keeps others from it until the lock
/// is given to [`write_file`](crate::write_file) or dropped. What is read of the file meanwhile is what is replaced.
///
/// A link is followed: the file that it leads to is locked. If there is no file, the folder in which it is to be made
/// is locked, and has to be readable. What isn't a regular file, like a pipe or a device, is neither locked nor opened.
/// The lock is that of the system's `flock`, which keeps out those who take it, and nobody else: not a program that
/// writes the file without asking. A program that has the lock and takes it once more waits for itself, without end.
///
/// # Errors
///
/// The system's, if the file can't be opened for writing, the folder can't be opened for reading, the system gives no
/// lock, or memory was refused, and [`ErrorKind::ResourceBusy`] if the path leads to another file after each of 10,000
/// waits.
pub fn lock_file<R: Files<File: OutputFile> + AllocGlobal>(
    rt: &R,
    path: &str,
) -> io::Result<FileLock<R::File>> {
    match lock_in_turns(rt, path, Patience::Waits)? {
        Some(lock) => Ok(lock),
        None => Err(io::Error::from(ErrorKind::ResourceBusy)),
    }
}

/// The same without waiting: `None` if somebody else has the lock, who may be anybody that can read what is to be locked.
///
/// # Errors
///
/// As of [`lock_file`].
pub fn try_lock_file<R: Files<File: OutputFile> + AllocGlobal>(
    rt: &R,
    path: &str,
) -> io::Result<Option<FileLock<R::File>>> {
    lock_in_turns(rt, path, Patience::Leaves)
}

/// What is done if somebody else has a lock.
#[derive(Clone, Copy)]
enum Patience {
    /// It is waited for.
    Waits,
    /// The lock isn't taken.
    Leaves,
}

impl Patience {
    /// Locks what is open here, and tells whether it is locked.
    fn lock<F: OutputFile>(self, file: &F) -> io::Result<bool> {
        match self {
            Patience::Waits => {
                file.lock()?;
                Ok(true)
            }
            Patience::Leaves => file.try_lock(),
        }
    }
}

/// What came of one try to lock what a path leads to.
#[derive(Drop)]
enum Turn<F> {
    /// It is locked.
    Locked(FileLock<F>),
    /// Somebody else has the lock.
    Held,
    /// The path leads to something else by now.
    Elsewhere,
}

/// Locks what the path leads to, as often as that is another file once the lock is there: `None` if somebody else has the
/// lock, and that isn't waited for.
fn lock_in_turns<R: Files<File: OutputFile> + AllocGlobal>(
    rt: &R,
    path: &str,
    patience: Patience,
) -> io::Result<Option<FileLock<R::File>>> {
    for _ in 0..TURNS {
        match lock_once(rt, path, patience)? {
            Turn::Locked(lock) => return Ok(Some(lock)),
            Turn::Held => return Ok(None),
            Turn::Elsewhere => {}
        }
    }
    Err(io::Error::from(ErrorKind::ResourceBusy))
}

/// Locks what the path leads to.
fn lock_once<R: Files<File: OutputFile> + AllocGlobal>(
    rt: &R,
    path: &str,
    patience: Patience,
) -> io::Result<Turn<R::File>> {
    match fs::metadata(rt, path) {
        Ok(found) if found.is_file() => lock_regular(rt, path, patience),
        Ok(_) => Ok(Turn::Locked(FileLock {
            path: PathBuf::from_str(rt.alloc(), path)?,
            found: Found::Other,
        })),
        Err(error) if error.kind() == ErrorKind::NotFound => lock_nothing(rt, path, patience),
        Err(error) => Err(error),
    }
}

/// Locks the file that the path leads to.
fn lock_regular<R: Files<File: OutputFile> + AllocGlobal>(
    rt: &R,
    path: &str,
    patience: Patience,
) -> io::Result<Turn<R::File>> {
    let file = match OpenOptions::new().write(true).open(rt, path) {
        Ok(file) => file,
        // It has been removed since it was looked at.
        Err(error) if error.kind() == ErrorKind::NotFound => return Ok(Turn::Elsewhere),
        Err(error) => return Err(error),
    };
    if !patience.lock(&file)? {
        return Ok(Turn::Held);
    }
    let locked = file.metadata()?;
    let path = end_of_links(rt, path)?;
    if !locked.is_file() || !leads_to(rt, path.as_path(), Some(&locked))? {
        return Ok(Turn::Elsewhere);
    }
    Ok(Turn::Locked(FileLock {
        path,
        found: Found::Regular(file),
    }))
}

/// Locks the folder in which the path leads to nothing.
fn lock_nothing<R: Files<File: OutputFile> + AllocGlobal>(
    rt: &R,
    path: &str,
    patience: Patience,
) -> io::Result<Turn<R::File>> {
    let path = end_of_links(rt, path)?;
    let folder = File::open(rt, folder_of(path.as_path()))?;
    if !patience.lock(&folder)? {
        return Ok(Turn::Held);
    }
    if !leads_to(rt, path.as_path(), None)? {
        return Ok(Turn::Elsewhere);
    }
    Ok(Turn::Locked(FileLock {
        path,
        found: Found::Nothing(folder),
    }))
}

/// Where the links that begin with this path end: at the path itself, if it isn't a link.
fn end_of_links<R: Files + AllocGlobal>(rt: &R, path: &str) -> io::Result<PathBuf> {
    let mut end = PathBuf::from_str(rt.alloc(), path)?;
    for _ in 0..=LINKS_MAX {
        match fs::read_link(rt, end.as_path()) {
            Ok(target) => end.set_file_name(target.as_path().as_str())?,
            // There is something else than a link, or nothing.
            Err(error) if matches!(error.kind(), ErrorKind::InvalidInput | ErrorKind::NotFound) => {
                return Ok(end);
            }
            Err(error) => return Err(error),
        }
    }
    Err(io::Error::from(ErrorKind::FilesystemLoop))
}

/// Whether this path, which isn't a link, leads to the known file, or to nothing if none is known.
pub(crate) fn leads_to<R: Files>(
    rt: &R,
    path: Path<'_>,
    known: Option<&Metadata>,
) -> io::Result<bool> {
    match fs::symlink_metadata(rt, path) {
        Ok(found) => Ok(known.is_some_and(|known| is_same(known, &found))),
        Err(error) if error.kind() == ErrorKind::NotFound => Ok(known.is_none()),
        Err(error) => Err(error),
    }
}

/// Whether both are of one file.
fn is_same(one: &Metadata, other: &Metadata) -> bool {
    one.dev() == other.dev() && one.ino() == other.ino()
}

/// The folder that the path's last name is in: `.` if the path is that name alone.
pub fn folder_of<'a>(path: Path<'a>) -> Path<'a> {
    match path.parent() {
        Some(folder) if !folder.as_str().is_empty() => folder,
        _ => Path::new("."),
    }
}
