//! Files that are replaced whole.

ghost use Rattle.std.specs.Prelude.{◌≡◌, IfOk, IfSome, OnOk, MatchOption, bit_and};
ghost use Rattle.std.specs.Io.KnownBytes.{Appends};
ghost use Rattle.std.specs.Path.{path_bytes, path_buf_bytes, path_file_name};
ghost use Rattle.std.specs.String.{string_bytes};
ghost use Rattle.whole_files.specs.Output.{IsNewName, IsBeside, kept_bits};

use crate::lock::{FileLock, Found, OutputFile, folder_of, leads_to};
use crate::sync::{sync_file, sync_folder};
use std::alloc::{AllocError, Global};
use std::fs::{self, Metadata, OpenFile, OpenOptions, Permissions};
use std::io::{self, ErrorKind, Write};
use std::os::unix::fs::{MetadataExt, OpenOptionsExt, PermissionsExt};
use std::path::{Path, PathBuf};
use std::rt::Files;

/// How many bytes a file's name has at most.
const NAME_MAX: usize = 255;

/// The rights of a new file that replaces no other, of which the system takes away those that the user's mask names.
const MODE: u32 = 0o666;

/// The rights of a new file that is its owner's alone, or is to replace another one, whose rights it gets before a byte is
/// in it.
const PRIVATE_MODE: u32 = 0o600;

/// What a file of the program's own keeps of the rights of the one that it replaces: nobody but its owner may write it.
const OWN_MODE: u32 = 0o755;

/// Whose a file is.
#[derive(Clone, Copy)]
enum Kind {
    /// The user's: a new one has the rights that the user's mask leaves.
    Users,
    /// The program's own: a new one is for its owner alone.
    Own,
}

impl Kind {
    /// The rights with which a new file is made that replaces another one, or none.
    fn first_mode(self, replaces: bool) -> u32 {
        match self {
            Kind::Users if !replaces => MODE,
            _ => PRIVATE_MODE,
        }
    }

    /// What it keeps of these rights of the file that it replaces.
    fn of_old(self, mode: u32) -> u32 {
        match self {
            Kind::Users => mode,
            Kind::Own => mode & OWN_MODE,
        }
    }
}

/// Makes these bytes the file of a lock, so that it is never left half written: they are written to a new file beside
/// it, which then takes its name. So the path leads to the old file or to the new one, whatever happens meanwhile, and
/// if writing fails the new file is removed. The lock is held until the path leads to the new file, and ends with the
/// call.
///
/// Until then the new file's name is `.bootkeep-` followed by the name of the file, of both together as many characters
/// as fit in 255 bytes. **What has that name is removed**, since a call that was killed may have left it.
///
/// The new file has the rights of the old one, and its owner and group if the user may give them away; what others would
/// have in the place of a group or an owner that is lost, they don't get. Access lists and extended attributes aren't
/// kept. What isn't a regular file, like a pipe or a device, can't be replaced this way, and
/// the bytes are written straight to it.
///
/// # Errors
///
/// That of the step that failed, or [`ErrorKind::ResourceBusy`] if the path or the name of the new file no longer leads
/// to what it led to. The last step is that the system brings the new name to the disk; if that fails, the file is the
/// new one.
pub fn write_file<R: Files<File: OutputFile> + AllocGlobal>(
    rt: &R,
    lock: FileLock<R::File>,
    bytes: &[u8],
) -> io::Result<()> {
    let path = lock.path.as_path();
    match &lock.found {
        Found::Regular(file) => place(rt, Kind::Users, path, Some(&file.metadata()?), bytes),
        Found::Nothing(_) => place(rt, Kind::Users, path, None, bytes),
        Found::Other => overwrite(rt, path, bytes),
    }
}

/// Does what [`write_file`] does, and keeps the lock: afterwards it is of the new file, which is locked before the
/// path leads to it, so that nobody who waits or comes gets in between. What isn't a regular file is written straight
/// to, and isn't locked afterwards either.
///
/// # Errors
///
/// Those of [`write_file`], [`ErrorKind::ResourceBusy`] also if somebody else has locked the new file under the
/// name that it has at first, and the system's if it gives no lock. The lock is then as it was, and can be used again;
/// if only the last step failed, by which the new name is brought to the disk, it is of the new file.
pub fn rewrite_file<R: Files<File: OutputFile> + AllocGlobal>(
    rt: &R,
    lock: &mut FileLock<R::File>,
    bytes: &[u8],
) -> io::Result<()> {
    let path = lock.path.as_path();
    let file = match &lock.found {
        Found::Regular(file) => place_locked(rt, path, Some(&file.metadata()?), bytes)?,
        Found::Nothing(_) => place_locked(rt, path, None, bytes)?,
        Found::Other => return overwrite(rt, path, bytes),
    };
    lock.found = Found::Regular(file);
    sync_folder(rt, folder_of(lock.path.as_path()).as_str())
}

/// Replaces the file at this path as [`write_file`] does, or makes it, without a lock: the caller keeps others from it
/// by other means, as by the lock of its folder, which it has already. A link isn't followed. It is a file of the program's
/// own: a new one is for its owner alone, whatever the user's mask is, and of the rights of an old one those of others to
/// write it aren't kept.
///
/// # Errors
///
/// That of the step that failed, [`ErrorKind::AlreadyExists`] if something else than a regular file is there, or
/// [`ErrorKind::ResourceBusy`] if the path or the name of the new file no longer leads to what it led to.
pub fn replace_file<R: Files<File: OutputFile> + AllocGlobal>(
    rt: &R,
    path: &str,
    bytes: &[u8],
) -> io::Result<()> {
    let path = Path::new(path);
    match fs::symlink_metadata(rt, path) {
        Ok(old) if old.is_file() => place(rt, Kind::Own, path, Some(&old), bytes),
        Ok(_) => Err(io::Error::from(ErrorKind::AlreadyExists)),
        Err(error) if error.kind() == ErrorKind::NotFound => place(
            rt,
            Kind::Own,
            path,
            None,
            bytes,
        ),
        Err(error) => Err(error),
    }
}

/// Writes these bytes straight to what isn't locked.
fn overwrite<R: Files>(rt: &R, path: Path<'_>, bytes: &[u8]) -> io::Result<()> {
    let mut file = OpenOptions::new().write(true).open(rt, path)?;
    // By now a regular file is there, which would have to be locked.
    if file.metadata()?.is_file() {
        return Err(io::Error::from(ErrorKind::AlreadyExists));
    }
    fill(&mut file, bytes)
}

/// Puts a new file with these bytes at the path, in the place of the old one if there is one. No link is there.
fn place<R: Files<File: OutputFile> + AllocGlobal>(
    rt: &R,
    kind: Kind,
    path: Path<'_>,
    old: Option<&Metadata>,
    bytes: &[u8],
) -> io::Result<()> {
    let (new, mut file) = create_beside(rt, kind, path, old)?;
    complete_or_discard(rt, new.as_path(), &mut file, (path, old), bytes)?;
    sync_folder(rt, folder_of(path).as_str())
}

/// Puts a new file of the user's with these bytes at the path as [`place`] does, locked, but for bringing its name to the
/// disk.
fn place_locked<R: Files<File: OutputFile> + AllocGlobal>(
    rt: &R,
    path: Path<'_>,
    old: Option<&Metadata>,
    bytes: &[u8],
) -> io::Result<R::File> {
    let (new, mut file) = create_beside(rt, Kind::Users, path, old)?;
    if let Err(error) = lock_at_once(&file) {
        let _ = discard(rt, new.as_path(), &file);
        return Err(error);
    }
    complete_or_discard(rt, new.as_path(), &mut file, (path, old), bytes)?;
    Ok(file)
}

/// Locks the new file, which nobody else should have, without waiting.
fn lock_at_once<F: OutputFile>(file: &F) -> io::Result<()> {
    if file.try_lock()? {
        Ok(())
    } else {
        Err(io::Error::from(ErrorKind::ResourceBusy))
    }
}

/// Makes a new file in the folder of the path, in the place of one of the same name that is left there.
fn create_beside<R: Files<File: OutputFile> + AllocGlobal>(
    rt: &R,
    kind: Kind,
    path: Path<'_>,
    old: Option<&Metadata>,
) -> io::Result<(PathBuf, R::File)>
    ensures { IfOk result (λ made. IsBeside (path_bytes path.entry) (path_buf_bytes made.0)) }
{
    let Some(new) = path_beside(rt.alloc(), path)? else {
        return Err(io::Error::from(ErrorKind::InvalidFilename));
    };
    match fs::remove_file(rt, new.as_path()) {
        Err(error) if error.kind() == ErrorKind::IsADirectory => return Err(in_the_way(error)),
        Err(error) if error.kind() != ErrorKind::NotFound => return Err(error),
        _ => {}
    }
    let mode = kind.first_mode(old.is_some());
    let mut how = OpenOptions::new();
    let file = how
        .write(true)
        .create_new(true)
        .mode(mode)
        .open(rt, new.as_path())?;
    if let Some(old) = old {
        keep_access(&file, kind, old);
    }
    Ok((new, file))
}

/// What it is that the new file's name is that of a folder.
fn in_the_way(error: io::Error) -> io::Error {
    io::Error::new(
        error.kind(),
        "a folder has the name of the new file, .bootkeep- and its own: take it away",
    )
}

/// The path of the new file, in the folder of the path. There is none if it is that path itself, which isn't to be half
/// written either, or if that path has no name.
fn path_beside(alloc: Global, path: Path<'_>) -> Result<Option<PathBuf>, AllocError>
    ensures { IfOk result (λ new. MatchOption new
        (IfSome (path_file_name (path_bytes path.entry)) (λ name. IsNewName name name))
        (λ new. IsBeside (path_bytes path.entry) (path_buf_bytes new))) }
{
    let Some(own) = path.file_name() else {
        return Ok(None);
    };
    let name = new_name(alloc, own)?;
    if name.as_str() == own {
        return Ok(None);
    }
    Ok(Some(path.with_file_name(alloc, name.as_str())?))
}

/// The name of the new file for a file of this name.
fn new_name(alloc: Global, own: &str) -> Result<String, AllocError>
    ensures { IfOk result (λ name. IsNewName own.now (string_bytes name)) }
{
    let mut name = format!(in alloc; ".bootkeep-{own}")?;
    let end = name.as_str().floor_char_boundary(NAME_MAX);
    name.truncate(end);
    Ok(name)
}

/// Gives the new file the group, the owner and the rights of the old one, each if the user may and the file system has
/// them. The rights come last, since a change of the owner takes some of them away. Who has the right owner and group
/// already isn't asked to be given them: a sandbox may end a program that asks.
fn keep_access<F: OutputFile>(file: &F, kind: Kind, old: &Metadata) {
    let new = file.metadata().ok();
    let has_group = new.as_ref().is_some_and(|new| new.gid() == old.gid());
    let has_owner = new.as_ref().is_some_and(|new| new.uid() == old.uid());
    let keeps_group = has_group || file.chown(None, Some(old.gid())).is_ok();
    let keeps_owner = has_owner || file.chown(Some(old.uid()), None).is_ok();
    let mode = kept_mode(kind.of_old(old.mode()), keeps_owner, keeps_group);
    let _ = file.set_permissions(Permissions::from_mode(mode));
}

/// What a new file has of the rights of an old one, of which it may have lost the owner or the group: what they had isn't
/// given to those who have taken their place, as `cp -p` does.
fn kept_mode(mode: u32, keeps_owner: bool, keeps_group: bool) -> u32
    ensures { result ≡ bit_and mode (kept_bits keeps_owner keeps_group) }
{
    match (keeps_owner, keeps_group) {
        (true, true) => mode & 0o7777,
        (false, true) => mode & 0o3777,
        (true, false) => mode & 0o5707,
        (false, false) => mode & 0o1707,
    }
}

/// Completes the new file, or removes it if that fails.
fn complete_or_discard<R: Files>(
    rt: &R,
    new: Path<'_>,
    file: &mut R::File,
    (path, old): (Path<'_>, Option<&Metadata>),
    bytes: &[u8],
) -> io::Result<()> {
    let completed = complete(rt, new, file, (path, old), bytes);
    if completed.is_err() {
        // If it can't be removed either, the first failure tells why.
        let _ = discard(rt, new, file);
    }
    completed
}

/// Writes the bytes to the new file, and gives it the name of the old one, if both still have theirs.
fn complete<R: Files>(
    rt: &R,
    new: Path<'_>,
    file: &mut R::File,
    (path, old): (Path<'_>, Option<&Metadata>),
    bytes: &[u8],
) -> io::Result<()> {
    fill(file, bytes)?;
    if !leads_to(rt, new, Some(&file.metadata()?))? || !leads_to(rt, path, old)? {
        return Err(io::Error::from(ErrorKind::ResourceBusy));
    }
    fs::rename(rt, new, path)
}

/// Removes the new file, if it still has its name.
fn discard<R: Files>(rt: &R, new: Path<'_>, file: &R::File) -> io::Result<()> {
    if leads_to(rt, new, Some(&file.metadata()?))? {
        fs::remove_file(rt, new)?;
    }
    Ok(())
}

/// Writes all of the bytes, and brings them to the disk.
fn fill<F: Write + OpenFile>(file: &mut F, bytes: &[u8]) -> io::Result<()>
    ensures { OnOk result (Appends (F.contents file.old) (F.contents file.new) bytes.now) }
{
    file.write_all(bytes)?;
    sync_file(file)
}
