//! The links that udev makes to partitions, named by what they are known by.

ghost use Rattle.std.specs.Prelude.{◌≡◌, IfSome, IfNone};
ghost use Rattle.disk_files.specs.DeviceLinks.{LeadsTo, NoneLeadsTo, IsLinked};

use crate::system::System;
use messages::Failure;
use partitions::{PartitionId, read_partition_id};
use std::fs;
use std::io::ErrorKind;
use std::rt::Files;

/// The folder that has them.
const BY_PARTUUID: &str = "/dev/disk/by-partuuid";

/// A link to a partition.
#[derive(Debug, Drop)]
pub(crate) struct DeviceLink {
    /// What the partition is known by, as the name of the link says.
    pub(crate) id: PartitionId,
    /// The name of the device to which it leads.
    pub(crate) device: String,
}

/// What the partition with this name of a device is known by, by the first link that leads to it.
pub(crate) fn linked_identity(links: &[DeviceLink], device: &str) -> Option<PartitionId>
    ensures some { IfSome result (λ id. IsLinked links.now device.now id) }
    ensures none { IfNone result (NoneLeadsTo links.now device.now) }
{
    for link in links {
        if link.device.as_str() == device {
            return Some(link.id);
        }
    }
    None
}

impl<R: Files + AllocGlobal> System<'_, R> {
    /// The links: `None` if there is no folder of them, as where no udev runs.
    pub(crate) fn device_links(&self) -> Result<Option<Vec<DeviceLink>>, Failure> {
        let folder = self.path(BY_PARTUUID)?;
        let names = match fs::read_dir(&(self.rt, self.alloc()), folder.as_str()) {
            Ok(names) => names,
            Err(error) if error.kind() == ErrorKind::NotFound => return Ok(None),
            Err(error) => return Err(Failure::from_read(self.alloc(), &folder, error)),
        };
        let mut links = Vec::new(self.alloc());
        for name in names {
            let name = name.map_err(|error| Failure::from_read(self.alloc(), &folder, error))?;
            if let Some(id) = read_partition_id(name.file_name())
                && let Some(device) = self.device_behind(&folder, name.file_name())?
            {
                links.push(DeviceLink { id, device })?;
            }
        }
        Ok(Some(links))
    }

    /// The name of the device to which a link in a folder leads.
    fn device_behind(&self, folder: &str, link: &str) -> Result<Option<String>, Failure> {
        let path = format!(in self.alloc(); "{folder}/{link}")?;
        let target = match fs::read_link(self.rt, path.as_str()) {
            Ok(target) => target,
            Err(error) if error.kind() == ErrorKind::OutOfMemory => return Err(Failure::Memory),
            Err(_) => return Ok(None),
        };
        match target.as_path().file_name() {
            Some(device) => Ok(Some(String::from_str(self.alloc(), device)?)),
            None => Ok(None),
        }
    }
}
