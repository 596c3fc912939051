//! Why no path leads to a file.

ghost use Rattle.std.specs.Prelude.{◌≡◌};
ghost use Rattle.disk_files.specs.declared.fault.DiskFault.TheVariants as disk;

use crate::words::{MountsWords, NameWords};
use messages::Reason;
use partitions::{LoaderNameFault, MountsFault, PartitionFault};
use std::alloc::{AllocError, AllocFailed};
use thiserror::Error;

/// Why there is no path of a file. Its `Display` goes on from what the file or the device is called. Its texts are as
/// messages show them, since those that the system tells may be anybody's.
#[derive(Debug, Drop, Error)]
pub enum DiskFault {
    /// A folder is there.
    #[error("it is a folder, and no loader")]
    Folder,
    /// What is there is neither a file nor a folder.
    #[error("it is no regular file")]
    Irregular,
    /// Its links lead elsewhere.
    #[error("it leads out of {0}")]
    Outside(String),
    /// The system tells of no mount that has it.
    #[error("no file system is mounted where it is, by /proc/self/mountinfo")]
    NotMounted,
    /// The file is on another device than the mount.
    #[error("it isn't on the file system that is mounted at {0}, by /proc/self/mountinfo")]
    Covered(String),
    /// The file system isn't on a disk.
    #[error("its file system, {0}, isn't on a disk, and firmware reads only from partitions")]
    NoDisk(String),
    /// The file system is on something else than a partition.
    #[error("its file system, {kind}, is on {device}, which is no partition of a disk")]
    NoPartition {
        /// The type of the file system.
        kind: String,
        /// The name of the device.
        device: String,
    },
    /// What is named as a device is none.
    #[error("it is no block device: a disk or a partition of this machine is wanted, as /dev/sda")]
    NoBlockDevice,
    /// The device that is named isn't the one that the system knows by its name.
    #[error("it isn't the device that the system knows by this name: name the one in /dev")]
    OtherDevice,
    /// A device that is named isn't there.
    #[error("the system has no disk or partition of this name")]
    NoDevice,
    /// A disk has no partition of the number.
    #[error("it has no partition {0}")]
    NoSuchPartition(u32),
    /// A partition is named, and the number of another one.
    #[error("it is partition {0}, and --part names another one")]
    OtherPartition(u32),
    /// The system tells no identity of a partition.
    #[error("of its partition, {0}, the system doesn't tell what it is known by (PARTUUID)")]
    NoIdentity(String),
    /// A file of /sys has no number.
    #[error("it has no number")]
    NoNumber,
    /// A file has more than is read of it.
    #[error("{}", Reason::TooMuch(*.0))]
    TooMuch(usize),
    /// The text of mounts has a fault.
    #[error("it isn't what Linux tells of mounts: {words}", words = MountsWords(.0))]
    Mounts(MountsFault),
    /// A partition has no node.
    #[error("its partition can't be in a path: {words}", words = .0.words())]
    Partition(PartitionFault),
    /// A name can't be one in an EFI System Partition.
    #[error("its name can't be one that firmware reads: {words}", words = NameWords(.0))]
    Name(LoaderNameFault),
    /// Memory was refused.
    #[error("out of memory")]
    OutOfMemory,
}

impl From<AllocError> for DiskFault {
    ghost from_gives = { λ _ made. made ≡ disk.OutOfMemory };

    fn from(_refusal: AllocError) -> DiskFault {
        DiskFault::OutOfMemory
    }
}

impl<T: Drop> From<AllocFailed<T>> for DiskFault {
    ghost from_gives = { λ _ made. made ≡ disk.OutOfMemory };

    fn from(_refusal: AllocFailed<T>) -> DiskFault {
        DiskFault::OutOfMemory
    }
}
