//! Where an entry leads, as far as that is known.

/// What is known of where the first path of an entry leads.
#[derive(Clone, Copy, Debug, PartialEq, Eq)]
pub enum Lead {
    /// The partition is this machine's, and the file is there.
    File,
    /// The partition is this machine's, and no file of the name is there.
    NoFile,
    /// The partition is this machine's, and a folder of the name is there.
    Folder,
    /// The partition is this machine's, and isn't mounted.
    Unmounted,
    /// The partition is this machine's, and one of its folders can't be read.
    Closed,
    /// The partition is this machine's, and the path names no file there.
    Partition,
    /// No partition of this machine is known by what the path has.
    NoPartition,
    /// Several partitions of this machine are known by what the path has.
    Several,
    /// This machine doesn't tell what its partitions are known by.
    Untold,
    /// The path's partition is known by nothing.
    Unsigned,
    /// Behind the partition the path goes on, and not by one file.
    Onward,
    /// The path has several instances.
    Instances,
    /// The path is a file without a partition.
    FileAlone,
    /// The path leads over a network.
    Network,
    /// The path leads into the firmware's own memory.
    Firmware,
    /// The path is one for the BIOS of before UEFI.
    Legacy,
    /// The path leads to a disk, and names neither a partition nor a file there; and it isn't sought.
    Disk,
    /// The path leads to a disk of this machine, and it isn't known which file firmware seeks there.
    WholeDisk,
    /// The path leads to a disk, and no disk of this machine is known to be there.
    NoDisk,
    /// The path leads to a disk, and several disks of this machine are there.
    SeveralDisks,
    /// The path leads to a disk of this machine, and no partition of it has the file that firmware seeks.
    NoFileOnDisk,
    /// The path leads to a disk of this machine, and several partitions of it have the file that firmware seeks.
    SeveralFiles,
    /// The path leads to a disk of this machine, and a partition of it that couldn't be looked at may have the file that
    /// firmware seeks.
    PartUnseen,
    /// The path leads to something else.
    Device,
}
