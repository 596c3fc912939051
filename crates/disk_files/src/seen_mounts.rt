//! What is mounted, and where in a system that is seen from outside.

use crate::fault::DiskFault;
use crate::system::System;
use messages::Failure;
use partitions::{DeviceNumber, Mount, MountsFault, leading_mount, read_mounts};
use std::alloc::{AllocError, Global};
use std::io::ErrorKind;
use std::rt::Files;
use whole_files::LIMIT;

/// The folder in which Linux tells of processes.
const PROCESSES: &str = "/proc";

/// The file in which it tells what is mounted.
const MOUNTS: &str = "/proc/self/mountinfo";

/// The type of the file system that is mounted there.
const PROCESSES_KIND: &[u8] = b"proc";

/// What is mounted, as a machine told it once.
#[derive(Debug, Drop)]
pub struct SeenMounts {
    /// The mounts, in the order in which Linux tells of them.
    pub(crate) mounts: Vec<Mount>,
    /// Whether they are those of the system that this runs on, also if it is seen through another root, into which its
    /// /proc is mounted. Then mount points are told from its own root on, and devices are those that files have.
    pub(crate) are_own: bool,
    /// Nothing, or the path of the folder that stands for the root, without a slash at its end.
    root: String,
}

/// A folder at which a file system is mounted.
#[derive(Debug, Drop)]
pub struct MountedFolder {
    /// The path of the folder, by which it can be opened.
    pub path: String,
    /// The path, in the file system, of what is mounted there: `/`, or that of one of its folders, as in a bind mount.
    pub top: String,
    /// The type of the file system.
    pub kind: String,
}

/// What is mounted on a machine, for [`mounted_folders`].
///
/// `root` is nothing, or the path of a folder that stands for the root of the system: what is read of /proc is read below
/// it.
///
/// # Errors
///
/// [`Failure::Read`] and [`Failure::Refused`] if what the system tells can't be read, and [`Failure::Memory`] if memory was
/// refused.
pub fn machine_mounts<R: Files + AllocGlobal>(rt: &R, root: &str) -> Result<SeenMounts, Failure> {
    System {
        rt,
        root,
        name: PROCESSES,
    }
    .seen_mounts()
}

/// The folders at which what is on a device is mounted, in the order in which the system tells of them, but for those at
/// which another file system was mounted later. Their paths lead below the folder that stands for the root.
///
/// # Errors
///
/// [`AllocError`] if memory was refused.
pub fn mounted_folders(
    alloc: Global,
    seen: &SeenMounts,
    device: DeviceNumber,
) -> Result<Vec<MountedFolder>, AllocError> {
    let mut folders = Vec::new(alloc);
    for mount in &seen.mounts {
        if mount.device == device
            && leading_mount(&seen.mounts, &mount.point) == Some(mount)
            && let Some(folder) = seen.folder_of(alloc, mount)?
        {
            folders.push(folder)?;
        }
    }
    Ok(folders)
}

impl SeenMounts {
    /// The folder at which this is mounted, if its paths are UTF-8.
    fn folder_of(&self, alloc: Global, mount: &Mount) -> Result<Option<MountedFolder>, AllocError> {
        let (Ok(point), Ok(top)) = (str::from_utf8(&mount.point), str::from_utf8(&mount.root))
        else {
            return Ok(None);
        };
        let root = if self.are_own { "" } else { self.root.as_str() };
        Ok(Some(MountedFolder {
            path: format!(in alloc; "{root}{point}")?,
            top: String::from_str(alloc, top)?,
            kind: String::from_utf8_lossy(alloc, &mount.kind)?,
        }))
    }
}

impl<R: Files + AllocGlobal> System<'_, R> {
    /// What is mounted.
    pub(crate) fn seen_mounts(&self) -> Result<SeenMounts, Failure> {
        let mounts = self.mounts()?;
        let are_own = self.root.is_empty() || self.are_own(&mounts)?;
        Ok(SeenMounts {
            mounts,
            are_own,
            root: self.path("")?,
        })
    }

    /// The mounts that the system tells of.
    fn mounts(&self) -> Result<Vec<Mount>, Failure> {
        let path = self.path(MOUNTS)?;
        let Some(text) = self.read_if_there(&path, LIMIT)? else {
            return Err(Failure::from_read(self.alloc(), &path, ErrorKind::NotFound.into()));
        };
        match read_mounts(self.alloc(), &text) {
            Ok(mounts) => Ok(mounts),
            Err(MountsFault::OutOfMemory) => Err(Failure::Memory),
            Err(fault) => {
                Err(Failure::from_fault(self.alloc(), &path, DiskFault::Mounts(fault)))
            }
        }
    }

    /// Whether these are the mounts of the system that this runs on: by them a /proc is mounted where they were read.
    fn are_own(&self, mounts: &[Mount]) -> Result<bool, Failure> {
        let path = self.path(PROCESSES)?;
        let Some(whole) = self.resolved_if_there(&path)? else {
            return Ok(false);
        };
        match leading_mount(mounts, whole.as_path().as_str().as_bytes()) {
            Some(mount) => Ok(mount.kind.as_slice() == PROCESSES_KIND),
            None => Ok(false),
        }
    }

    /// A path as the mounts have it, of one without links.
    pub(crate) fn path_by(&self, seen: &SeenMounts, path: &str) -> Result<String, Failure> {
        if seen.are_own {
            return Ok(String::from_str(self.alloc(), path)?);
        }
        let front = self.front()?;
        match path.strip_prefix(front.as_str()) {
            Some(rest) if rest.starts_with('/') => Ok(String::from_str(self.alloc(), rest)?),
            _ => {
                let root = self.shown(self.root)?;
                Err(self.refused(DiskFault::Outside(root)))
            }
        }
    }
}
