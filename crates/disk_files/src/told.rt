//! What /sys tells of a partition, each in a folder of its own.

ghost use Rattle.std.specs.Prelude.{◌≡◌, IfOk};

use crate::device_links::linked_identity;
use crate::fault::DiskFault;
use crate::system::System;
use messages::Failure;
use partitions::{DeviceNumber, Partition, PartitionId, read_device, read_partition_id};
use std::path::Path;
use std::rt::Files;

/// The file that only the folder of a partition has: its number.
const NUMBER: &str = "partition";

/// The file that only the folder of a device has: the device's number.
const DEVICE: &str = "dev";

/// The file that tells how large the blocks of a disk are, in the folder of the disk.
const BLOCK_SIZE: &str = "queue/logical_block_size";

/// A folder of /sys that is of a partition.
#[derive(Debug, Drop)]
pub(crate) struct PartitionFolder {
    /// The path of the folder.
    pub(crate) path: String,
    /// The number of the partition, as a file of the folder tells it.
    pub(crate) number: u32,
}

/// The partition that is known by this and has this number, with the start and the size that were read for it, in units of
/// [`SECTOR_LEN`](partitions::SECTOR_LEN) bytes, and the size in bytes that was read for a block of its disk.
fn partition_of(id: PartitionId, number: u32, start: u64, size: u64, block_size: u64) -> Partition
    ensures id { result.id ≡ id }
    ensures number { result.number ≡ number }
    ensures start { result.start ≡ start }
    ensures size { result.size ≡ size }
    ensures block_size { result.block_size ≡ block_size }
{
    Partition {
        id,
        number,
        start,
        size,
        block_size,
    }
}

impl<R: Files + AllocGlobal> System<'_, R> {
    /// The folder at this path, if it is of a partition: with the number that it tells.
    pub(crate) fn partition_folder(&self, path: &str) -> Result<Option<PartitionFolder>, Failure> {
        let Some(number) = self.number_if_there(path, NUMBER)? else {
            return Ok(None);
        };
        match u32::try_from(number) {
            Ok(number) => Ok(Some(PartitionFolder {
                path: String::from_str(self.alloc(), path)?,
                number,
            })),
            Err(_) => Err(self.without_number(path, NUMBER)),
        }
    }

    /// The partition that a folder is of.
    pub(crate) fn partition(&self, folder: &PartitionFolder) -> Result<Partition, Failure>
        ensures { IfOk result (λ partition. partition.number ≡ folder.now.number) }
    {
        match self.identity(&folder.path)? {
            Some(id) => self.identified(folder, id),
            None => {
                let name = self.device_name(&folder.path)?;
                let name = self.shown(&name)?;
                Err(self.refused(DiskFault::NoIdentity(name)))
            }
        }
    }

    /// The partition that a folder is of, which is known by this. The folder of its disk is the one above.
    pub(crate) fn identified(
        &self,
        folder: &PartitionFolder,
        id: PartitionId,
    ) -> Result<Partition, Failure>
        ensures { IfOk result (λ partition. partition.number ≡ folder.now.number) }
    {
        let path = folder.path.as_str();
        let disk = Path::new(path).parent().unwrap_or(Path::new("/"));
        let start = self.number(path, "start")?;
        let size = self.number(path, "size")?;
        let block_size = self.number(disk.as_str(), BLOCK_SIZE)?;
        Ok(partition_of(id, folder.number, start, size, block_size))
    }

    /// The number of the device that a folder of /sys is of.
    pub(crate) fn device_number(&self, folder: &str) -> Result<DeviceNumber, Failure> {
        match self.device_number_if_there(folder)? {
            Some(number) => Ok(number),
            None => Err(self.without_number(folder, DEVICE)),
        }
    }

    /// The number of the device that a folder of /sys is of: `None` if it is of none.
    pub(crate) fn device_number_if_there(
        &self,
        folder: &str,
    ) -> Result<Option<DeviceNumber>, Failure> {
        let Some(text) = self.text_if_there(folder, DEVICE)? else {
            return Ok(None);
        };
        match read_device(text.trim_ascii_end()) {
            Some(number) => Ok(Some(number)),
            None => Err(self.without_number(folder, DEVICE)),
        }
    }

    /// The name that the kernel has for the device that a folder of /sys is of.
    pub(crate) fn device_name(&self, folder: &str) -> Result<String, Failure> {
        match self.uevent(folder, "DEVNAME")? {
            Some(name) => Ok(name),
            None => {
                let name = Path::new(folder).file_name().unwrap_or(folder);
                Ok(String::from_str(self.alloc(), name)?)
            }
        }
    }

    /// What the partition that a folder of /sys is of is known by: as the kernel tells it, or else by the links of udev.
    fn identity(&self, folder: &str) -> Result<Option<PartitionId>, Failure> {
        if let Some(id) = self.told_identity(folder)? {
            return Ok(Some(id));
        }
        let Some(links) = self.device_links()? else {
            return Ok(None);
        };
        let device = self.device_name(folder)?;
        Ok(linked_identity(&links, &device))
    }

    /// What the kernel tells that the partition is known by that a folder of /sys is of.
    pub(crate) fn told_identity(&self, folder: &str) -> Result<Option<PartitionId>, Failure> {
        match self.uevent(folder, "PARTUUID")? {
            Some(text) => Ok(read_partition_id(&text)),
            None => Ok(None),
        }
    }
}
