//! Partitions as Linux tells of them, and the nodes of a device path (UEFI 2.10, 10.3.5) that lead to a file on one.
//!
//! [`read_mounts`] reads what is mounted, from the lines of /proc/self/mountinfo, and [`leading_mount`] tells which of
//! it a path leads to; [`Mount::name_of`] is the file's name there, and [`loader_name`] that name in an EFI System
//! Partition. [`read_partition_id`] reads what a partition is known by, and [`uevent_value`], [`read_number`] and
//! [`read_device`] the texts that /sys has of it; [`Partition::node`] is its node. No file is read here: the caller has
//! the texts.
#![tactic(auto)]

mod cut;
mod device;
mod fault;
mod file_name;
mod leading;
mod mount;
mod number;
mod partition;
mod partition_id;
mod uevent;

pub use device::{DeviceNumber, read_device};
pub use fault::{LoaderNameFault, MountFault, MountsFault, PartitionFault};
pub use file_name::loader_name;
pub use leading::leading_mount;
pub use mount::{Mount, read_mount, read_mounts};
pub use number::read_number;
pub use partition::{Partition, SECTOR_LEN};
pub use partition_id::{PartitionId, read_partition_id};
pub use uevent::uevent_value;
