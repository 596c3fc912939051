//! What a call refuses.

ghost use Rattle.std.specs.Prelude.{◌≡◌};
ghost use Rattle.partitions.specs.declared.fault.MountFault.TheVariants as mount;
ghost use Rattle.partitions.specs.declared.fault.MountsFault.TheVariants as mounts;
ghost use Rattle.partitions.specs.declared.fault.LoaderNameFault.TheVariants as name;

use std::alloc::{AllocError, AllocFailed};
use thiserror::Error;

/// Why a line isn't one of /proc/self/mountinfo: what is wrong with which of its fields.
#[derive(Clone, Copy, Debug, PartialEq, Eq, Hash, Error)]
pub enum MountFault {
    /// The line ends too early: it has no blank behind each of its first five fields, no ` - ` after those, or behind
    /// that no type, source and options of a file system, with blanks between them.
    #[error("Cut")]
    Cut,
    /// The first field, the mount's number, isn't a decimal number of at most 32 bits.
    #[error("BadId")]
    BadId,
    /// The second field, the number of the mount that it is on, isn't a decimal number of at most 32 bits.
    #[error("BadParent")]
    BadParent,
    /// The third field isn't the number of a device.
    #[error("BadDevice")]
    BadDevice,
    /// In the fourth field, the folder that is mounted, a backslash isn't followed by the three octal digits of a byte.
    #[error("BadRoot")]
    BadRoot,
    /// In the fifth field, the mount point, a backslash isn't followed by the three octal digits of a byte.
    #[error("BadPoint")]
    BadPoint,
    /// In the type of the file system, a backslash isn't followed by the three octal digits of a byte.
    #[error("BadKind")]
    BadKind,
    /// Memory was refused.
    #[error("OutOfMemory")]
    OutOfMemory,
}

/// Why a text isn't one of /proc/self/mountinfo.
#[derive(Clone, Copy, Debug, PartialEq, Eq, Hash, Error)]
pub enum MountsFault {
    /// A line isn't one of it: its number, counted from 1, and why, which is never [`MountFault::OutOfMemory`].
    #[error("BadLine {0} {1}")]
    BadLine(usize, MountFault),
    /// Memory was refused.
    #[error("OutOfMemory")]
    OutOfMemory,
}

/// Why a file's name can't be one in an EFI System Partition.
#[derive(Clone, Copy, Debug, PartialEq, Eq, Hash, Error)]
pub enum LoaderNameFault {
    /// The name isn't UTF-8, from the byte at this offset on.
    #[error("NotUtf8 {0}")]
    NotUtf8(usize),
    /// The character at this offset, in bytes, is zero, a backslash, or one that a unit of UCS-2 can't hold.
    #[error("BadCharacter {0}")]
    BadCharacter(usize),
    /// The name has more than [`PATH_NAME_MAX`](uefi_path::PATH_NAME_MAX) characters.
    #[error("TooLong")]
    TooLong,
    /// Memory was refused.
    #[error("OutOfMemory")]
    OutOfMemory,
}

/// Why there is no node of a partition.
#[derive(Clone, Copy, Debug, PartialEq, Eq, Hash, Error)]
pub enum PartitionFault {
    /// Its number is zero, which stands for a whole disk.
    #[error("NoNumber")]
    NoNumber,
    /// The disk's logical blocks are of no bytes, or of a number that isn't a multiple of 512.
    #[error("BadBlockSize")]
    BadBlockSize,
    /// It doesn't begin where a logical block does.
    #[error("UnevenStart")]
    UnevenStart,
    /// It doesn't end where a logical block does.
    #[error("UnevenSize")]
    UnevenSize,
    /// The number that it is known by isn't its own.
    #[error("OtherNumber")]
    OtherNumber,
    /// It is in a master boot record without a signature: firmware can't tell its disk from others.
    #[error("NoSignature")]
    NoSignature,
    /// It is in a master boot record, and its number is above 4: firmware has no node for it.
    #[error("NotPrimary")]
    NotPrimary,
}

impl MountFault {
    /// What is wrong, in words for a person that go on from what the line is called.
    pub fn words(self) -> &'static str {
        match self {
            MountFault::Cut => "it ends too early",
            MountFault::BadId => "its first field is no number of 32 bits",
            MountFault::BadParent => "its second field is no number of 32 bits",
            MountFault::BadDevice => "its third field isn't MAJOR:MINOR",
            MountFault::BadRoot =>
                "a backslash in its fourth field isn't before three octal digits of a byte",
            MountFault::BadPoint =>
                "a backslash in its fifth field isn't before three octal digits of a byte",
            MountFault::BadKind =>
                "a backslash in the type of its file system isn't before three octal digits of a byte",
            MountFault::OutOfMemory => "out of memory",
        }
    }
}

impl PartitionFault {
    /// What is wrong, in words for a person that go on from what the partition is called.
    pub fn words(self) -> &'static str {
        match self {
            PartitionFault::NoNumber => "its number is 0, which stands for a whole disk",
            PartitionFault::BadBlockSize => "a block of its disk isn't a multiple of 512 bytes",
            PartitionFault::UnevenStart => "it doesn't begin where a block of its disk does",
            PartitionFault::UnevenSize => "it doesn't end where a block of its disk does",
            PartitionFault::OtherNumber => "its PARTUUID has the number of another partition",
            PartitionFault::NoSignature => {
                "the master boot record of its disk has no signature, by which firmware finds the disk: give it one, as by \
                 `sfdisk --disk-id`"
            }
            PartitionFault::NotPrimary => {
                "in a master boot record firmware finds the partitions 1 to 4 alone: use one of these, or a GUID partition table"
            }
        }
    }
}

impl From<AllocError> for MountFault {
    ghost from_gives = { λ _ made. made ≡ mount.OutOfMemory };

    fn from(_refusal: AllocError) -> MountFault {
        MountFault::OutOfMemory
    }
}

impl<T: Drop> From<AllocFailed<T>> for MountsFault {
    ghost from_gives = { λ _ made. made ≡ mounts.OutOfMemory };

    fn from(_refusal: AllocFailed<T>) -> MountsFault {
        MountsFault::OutOfMemory
    }
}

impl From<AllocError> for LoaderNameFault {
    ghost from_gives = { λ _ made. made ≡ name.OutOfMemory };

    fn from(_refusal: AllocError) -> LoaderNameFault {
        LoaderNameFault::OutOfMemory
    }
}

impl<T: Drop> From<AllocFailed<T>> for LoaderNameFault {
    ghost from_gives = { λ _ made. made ≡ name.OutOfMemory };

    fn from(_refusal: AllocFailed<T>) -> LoaderNameFault {
        LoaderNameFault::OutOfMemory
    }
}
