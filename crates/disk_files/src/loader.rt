//! The path of a file in a mounted file system.

ghost use Rattle.std.specs.Prelude.{ℕ, List, IfOk};
ghost use Rattle.partitions.specs.declared.partition.Partition.{Partition};
ghost use Rattle.disk_files.specs.FilePath.{IsFilePath};

use crate::fault::DiskFault;
use crate::seen_mounts::SeenMounts;
use crate::short_form::file_path;
use crate::system::System;
use messages::Failure;
use partitions::{DeviceNumber, Mount, Partition, leading_mount};
use std::fs::{self, Metadata};
use std::os::unix::fs::MetadataExt;
use std::rt::Files;
use uefi_path::Path;
use whole_files::resolved;

/// The device path of the file at this path, which is in a mounted file system: its partition and its name there, the
/// short form that firmware completes (UEFI 2.10, 3.1.2). Links are followed.
///
/// `root` is nothing, or the path of a folder that stands for the root of the system: what is read of /proc, /sys and
/// /dev is read below it, and so is the file.
///
/// # Errors
///
/// [`Failure::Read`] if the file or what the system tells can't be read; [`Failure::Refused`], with the words of a
/// [`DiskFault`], if the file isn't a regular one, isn't on a partition that the system tells of, or has a name that
/// firmware can't read; and [`Failure::Memory`] if memory was refused.
pub fn loader_path<R: Files + AllocGlobal>(rt: &R, root: &str, file: &str) -> Result<Path, Failure>
    // Which partition and which name can't be said: the system's files are no value.
    ensures { IfOk result (λ path. (partition : Partition) × (name : List ℕ) × IsFilePath partition name path) }
{
    let system = System {
        rt,
        root,
        name: file,
    };
    let there = system.file()?;
    let (partition, name) = system.place_of(&there)?;
    match file_path(rt.alloc(), &partition, &name) {
        Ok(path) => Ok(path),
        Err(fault) => Err(system.refused(fault)),
    }
}

/// A file that is there.
#[derive(Drop)]
struct FoundFile {
    /// Its path without links, from the root on.
    path: String,
    /// What the system tells of it.
    metadata: Metadata,
}

impl<R: Files + AllocGlobal> System<'_, R> {
    /// The file, which has to be a regular one. What is mounted there only once somebody looks is mounted by this.
    fn file(&self) -> Result<FoundFile, Failure> {
        let from_read = |error| Failure::from_read(self.alloc(), self.name, error);
        let path = self.path_of_name()?;
        let metadata = fs::metadata(self.rt, path.as_str()).map_err(from_read)?;
        if metadata.is_dir() {
            return Err(self.refused(DiskFault::Folder));
        }
        if !metadata.is_file() {
            return Err(self.refused(DiskFault::Irregular));
        }
        let whole = resolved(self.rt, &path).map_err(from_read)?;
        Ok(FoundFile {
            path: String::from_str(self.alloc(), whole.as_path().as_str())?,
            metadata,
        })
    }

    /// The partition that the file is on, and its name there.
    fn place_of(&self, file: &FoundFile) -> Result<(Partition, Vec<u8>), Failure> {
        let seen = self.seen_mounts()?;
        let path = self.path_by(&seen, &file.path)?;
        let Some(mount) = leading_mount(&seen.mounts, path.as_bytes()) else {
            return Err(self.refused(DiskFault::NotMounted));
        };
        let partition = self.partition_of(mount)?;
        self.check_device(&seen, file, mount)?;
        match mount.name_of(self.alloc(), path.as_bytes())? {
            Some(name) => Ok((partition, name)),
            None => Err(self.refused(DiskFault::NotMounted)),
        }
    }

    /// Tests whether the file is on the device of the mount, if that can be told.
    fn check_device(
        &self,
        seen: &SeenMounts,
        file: &FoundFile,
        mount: &Mount,
    ) -> Result<(), Failure> {
        if !seen.are_own || DeviceNumber::from_stat(file.metadata.dev()) == mount.device {
            return Ok(());
        }
        let point = String::from_utf8_lossy(self.alloc(), &mount.point)?;
        let point = self.shown(&point)?;
        Err(self.refused(DiskFault::Covered(point)))
    }

    /// The partition on which the mount's file system is.
    fn partition_of(&self, mount: &Mount) -> Result<Partition, Failure> {
        let DeviceNumber { major, minor } = mount.device;
        let link = self.path(format!(in self.alloc(); "/sys/dev/block/{major}:{minor}")?.as_str())?;
        let kind = String::from_utf8_lossy(self.alloc(), &mount.kind)?;
        let kind = self.shown(&kind)?;
        let Some(whole) = self.resolved_if_there(&link)? else {
            return Err(self.refused(DiskFault::NoDisk(kind)));
        };
        let folder = whole.as_path().as_str();
        match self.partition_folder(folder)? {
            Some(folder) => self.partition(&folder),
            None => match self.uevent(folder, "DEVNAME")? {
                Some(device) => {
                    let device = self.shown(&device)?;
                    Err(self.refused(DiskFault::NoPartition { kind, device }))
                }
                None => Err(self.refused(DiskFault::NoDisk(kind))),
            },
        }
    }
}
