//! The path of a file on a disk that is named.

ghost use Rattle.std.specs.Prelude.{◌≡◌, IfOk, IfSome};
ghost use Rattle.partitions.specs.declared.partition.Partition.{Partition};
ghost use Rattle.disk_files.specs.FilePath.{IsFilePath, slashed};
ghost use Rattle.disk_files.specs.Device.{device_fault};

use crate::fault::DiskFault;
use crate::short_form::{file_path, slashed};
use crate::system::System;
use messages::Failure;
use partitions::{DeviceNumber, Partition};
use std::alloc::{AllocError, Global};
use std::fs::{self, FileType};
use std::io::{self, ErrorKind};
use std::os::unix::fs::{FileTypeExt, MetadataExt};
use std::path::Path;
use std::rt::Files;
use uefi_path::Path as DevicePath;
use whole_files::resolved;

/// The partition that is meant if a disk is named and no partition of it.
const FIRST: u32 = 1;

/// The device path of a file of this name on a partition (UEFI 2.10, 10.3.5), the short form that firmware completes
/// (3.1.2). The partition is the one of the number `part`, or else the first, of the disk that is at the path `device`,
/// as `/dev/vda`, or a partition that is there itself, as `/dev/vda1`. The name is that of the file from the root of its
/// file system on, with backslashes or slashes; whether it is there isn't looked at, nor does the file system have to be
/// mounted.
///
/// What is at the path has to be the block device that the system knows by this name. `root` is nothing, or the path of a
/// folder that stands for the root of the system: what is read of /sys and /dev is read below it, and a file below its /dev
/// may stand for a device.
///
/// # Errors
///
/// [`Failure::Read`] if what the system tells can't be read; [`Failure::Refused`], with the words of a [`DiskFault`], if it
/// tells of no such disk or partition, if firmware has no node for the partition, or if the name can't be one that firmware
/// reads; and [`Failure::Memory`] if memory was refused.
pub fn disk_path<R: Files + AllocGlobal>(
    rt: &R,
    root: &str,
    device: &str,
    part: Option<u32>,
    loader: &str,
) -> Result<DevicePath, Failure>
    // What the partition has beside its number can't be said: the system's files are no value.
    ensures { IfOk result (λ path. (partition : Partition) × IsFilePath partition (slashed loader.now) path
        × IfSome part (λ number. partition.number ≡ number)) }
{
    let system = System {
        rt,
        root,
        name: device,
    };
    let partition = system.partition_named(part)?;
    let name = slashed(rt.alloc(), loader)?;
    match file_path(rt.alloc(), &partition, &name) {
        Ok(path) => Ok(path),
        Err(fault) => Err(system.refused(fault)),
    }
}

/// What is at the path of a device.
#[derive(Clone, Copy, Debug, PartialEq, Eq)]
enum DeviceNode {
    /// A block device of this number.
    Block(DeviceNumber),
    /// Something else, which stands for a device in the system that a folder stands for: only root can make devices.
    StandIn,
    /// Something else.
    Other,
}

/// Why what is at the path of a device isn't the device that the system knows by the name and this number, if it isn't.
fn device_fault(node: DeviceNode, told: DeviceNumber) -> Option<DiskFault>
    ensures { result ≡ device_fault node told }
{
    match node {
        DeviceNode::Block(number) if number == told => None,
        DeviceNode::Block(_) => Some(DiskFault::OtherDevice),
        DeviceNode::StandIn => None,
        DeviceNode::Other => Some(DiskFault::NoBlockDevice),
    }
}

/// Whether this is the type of a block device: no other type is left, as links are followed.
fn is_block_device(kind: FileType) -> bool {
    let is_file = kind.is_file() || kind.is_dir();
    !is_file && !kind.is_char_device() && !kind.is_fifo() && !kind.is_socket()
}

/// What the kernel calls the device at a path in /dev or elsewhere: it has an exclamation mark for a slash.
fn kernel_name(alloc: Global, in_dev: Option<&str>, path: &str) -> Result<String, AllocError> {
    match in_dev {
        Some(name) => name.replace(alloc, '/', "!"),
        None => String::from_str(alloc, Path::new(path).file_name().unwrap_or("")),
    }
}

impl<R: Files + AllocGlobal> System<'_, R> {
    /// The partition that is at the path of the device, or the one of this number of the disk that is there.
    fn partition_named(&self, part: Option<u32>) -> Result<Partition, Failure>
        ensures { IfOk result (λ partition. IfSome part (λ number. partition.number ≡ number)) }
    {
        let path = self.folder_of_device()?;
        let Some(folder) = self.partition_folder(&path)? else {
            return self.partition_of_disk(&path, part.unwrap_or(FIRST));
        };
        match part {
            Some(part) if part != folder.number => {
                Err(self.refused(DiskFault::OtherPartition(folder.number)))
            }
            _ => self.partition(&folder),
        }
    }

    /// The folder of /sys that is of the device.
    fn folder_of_device(&self) -> Result<String, Failure> {
        let from_read = |error| Failure::from_read(self.alloc(), self.name, error);
        let path = self.path_of_name()?;
        let metadata = fs::metadata(self.rt, path.as_str()).map_err(from_read)?;
        let whole = resolved(self.rt, &path).map_err(from_read)?;
        let whole = whole.as_path().as_str();
        let front = self.front()?;
        let in_dev = in_dev(&front, whole);
        let name = kernel_name(self.alloc(), in_dev, whole)?;
        let node = if is_block_device(metadata.file_type()) {
            DeviceNode::Block(DeviceNumber::from_stat(metadata.rdev()))
        } else if in_dev.is_some() && !self.root.is_empty() {
            DeviceNode::StandIn
        } else {
            DeviceNode::Other
        };
        self.folder_of_node(&name, node)
    }

    /// The folder of /sys that is of the device of this name, at whose path this is.
    fn folder_of_node(&self, name: &str, node: DeviceNode) -> Result<String, Failure> {
        if node == DeviceNode::Other {
            return Err(self.refused(DiskFault::NoBlockDevice));
        }
        let link = self.path(format!(in self.alloc(); "/sys/class/block/{name}")?.as_str())?;
        let Some(folder) = self.resolved_if_there(&link)? else {
            return Err(self.refused(DiskFault::NoDevice));
        };
        let folder = folder.as_path().as_str();
        let Some(told) = self.device_number_if_there(folder)? else {
            return Err(self.refused(DiskFault::NoDevice));
        };
        match device_fault(node, told) {
            Some(fault) => Err(self.refused(fault)),
            None => Ok(String::from_str(self.alloc(), folder)?),
        }
    }

    /// The partition of this number of the disk that a folder of /sys is of, in which each partition has a folder.
    fn partition_of_disk(&self, disk: &str, part: u32) -> Result<Partition, Failure>
        ensures { IfOk result (λ partition. partition.number ≡ part) }
    {
        let from_read = |error: io::Error| Failure::from_read(self.alloc(), disk, error);
        let entries = match fs::read_dir(&(self.rt, self.alloc()), disk) {
            Ok(entries) => entries,
            Err(error) if error.kind() == ErrorKind::NotFound => {
                return Err(self.refused(DiskFault::NoDevice));
            }
            Err(error) => return Err(from_read(error)),
        };
        for entry in entries {
            let entry = entry.map_err(from_read)?;
            let path = format!(in self.alloc(); "{disk}/{}", entry.file_name())?;
            let Some(folder) = self.partition_folder(&path)? else {
                continue;
            };
            if folder.number == part {
                return self.partition(&folder);
            }
        }
        Err(self.refused(DiskFault::NoSuchPartition(part)))
    }
}

/// The path from /dev on, if this one without links leads there: in the system whose root has this path.
fn in_dev<'a>(front: &str, path: &'a str) -> Option<&'a str> {
    path.strip_prefix(front)?.strip_prefix("/dev/")
}
