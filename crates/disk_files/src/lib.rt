//! Device paths of files that a system has on its disks (UEFI 2.10, 10.3.5), and partitions by their nodes.
//!
//! [`loader_path`] gives the path of a file by where it is in a mounted file system, and [`disk_path`] that of a file by
//! the name of its disk or its partition and by its name there. [`machine_partitions`] and [`machine_mounts`] read what
//! Linux tells of disks and of mounts, below a folder that stands for the root of the system; over that [`find_partition`]
//! finds the partition that a node is of, and [`mounted_folders`] where it is mounted. [`machine_disks`] reads where disks
//! are, and [`find_disk`] finds the one to which a path leads. What they make of the texts is said by `partitions`. What
//! goes wrong is a `Failure` of `messages`, which has the words of a [`DiskFault`] if something is refused.
#![tactic(auto)]

mod device;
mod device_links;
mod disk;
mod disk_folders;
mod disk_place;
mod fault;
mod found;
mod loader;
mod seen_mounts;
mod short_form;
mod system;
mod told;
mod words;

pub use device::disk_path;
pub use disk::{DiskPart, DiskSearch, DiskStep, FoundDisk, SeenDisks, find_disk, machine_disks};
pub use fault::DiskFault;
pub use found::{
    FoundPartition, PartitionSearch, SeenPartitions, find_partition, machine_partitions,
};
pub use loader::loader_path;
pub use seen_mounts::{MountedFolder, SeenMounts, machine_mounts, mounted_folders};
