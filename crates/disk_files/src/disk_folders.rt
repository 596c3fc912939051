//! The disks, as folders of /sys tell of them.

use crate::disk::{DiskPart, FoundDisk, SeenDisks, may_be_fat};
use crate::system::System;
use messages::Failure;
use partitions::{DeviceNumber, read_device, uevent_value};
use std::fs;
use std::io::ErrorKind;
use std::rt::Files;

/// The folder with a link to each disk and each partition, by its name.
const DEVICES: &str = "/sys/class/block";

/// The file that only the folder of a partition has.
const PARTITION: &str = "partition";

/// How many bytes a file of udev's has at most that is read.
const UDEV_MAX: usize = 0x10000;

/// What is read, or nothing if the system's reason is another than that memory was refused.
pub(crate) fn unless_unread<T: Drop>(read: Result<T, Failure>) -> Result<Option<T>, Failure> {
    match read {
        Ok(value) => Ok(Some(value)),
        Err(Failure::Memory) => Err(Failure::Memory),
        Err(_) => Ok(None),
    }
}

impl<R: Files + AllocGlobal> System<'_, R> {
    /// The disks of which the system tells where they are.
    pub(crate) fn seen_disks(&self) -> Result<SeenDisks, Failure> {
        let mut disks = Vec::new(self.alloc());
        let devices = self.path(DEVICES)?;
        let front = unless_unread(self.front())?;
        let names = self.names_in(&devices)?;
        if let (Some(front), Some(names)) = (front, names) {
            for name in &names {
                let link = format!(in self.alloc(); "{devices}/{name}")?;
                if let Some(Some(folder)) = unless_unread(self.resolved_if_there(&link))?
                    && let Some(disk) = self.disk(&front, name, folder.as_path().as_str())?
                {
                    disks.push(disk)?;
                }
            }
        }
        Ok(SeenDisks { disks })
    }

    /// The disk of this name that a folder is of, if it is known where that is.
    fn disk(&self, front: &str, name: &str, folder: &str) -> Result<Option<FoundDisk>, Failure> {
        let Some(place) = self.disk_place(front, folder)? else {
            return Ok(None);
        };
        match self.parts_of(name, folder)? {
            Some(parts) => Ok(Some(FoundDisk {
                name: String::from_str(self.alloc(), name)?,
                place,
                parts,
            })),
            None => Ok(None),
        }
    }

    /// The partitions of a disk, or the disk of this name itself if it has none: `None` if one of them isn't told.
    fn parts_of(&self, name: &str, folder: &str) -> Result<Option<Vec<DiskPart>>, Failure> {
        let mut parts = Vec::new(self.alloc());
        let Some(names) = self.names_in(folder)? else {
            return Ok(None);
        };
        for child in &names {
            let path = format!(in self.alloc(); "{folder}/{child}")?;
            match unless_unread(self.text_if_there(&path, PARTITION))? {
                Some(None) => continue,
                Some(Some(_number)) => {}
                None => return Ok(None),
            }
            match self.part(child, &path)? {
                Some(part) => parts.push(part)?,
                None => return Ok(None),
            }
        }
        if parts.is_empty() {
            match self.part(name, folder)? {
                Some(part) => parts.push(part)?,
                None => return Ok(None),
            }
        }
        Ok(Some(parts))
    }

    /// The part of a disk that has this name and that a folder is of, if its number is told.
    fn part(&self, name: &str, folder: &str) -> Result<Option<DiskPart>, Failure> {
        let Some(text) = self.told_text(folder, "dev")? else {
            return Ok(None);
        };
        let Some(device) = read_device(text.trim_ascii_end()) else {
            return Ok(None);
        };
        Ok(Some(DiskPart {
            name: String::from_str(self.alloc(), name)?,
            device,
            may_be_fat: self.may_be_fat(device)?,
        }))
    }

    /// Whether there may be a FAT file system on a device, by what udev tells of it.
    fn may_be_fat(&self, device: DeviceNumber) -> Result<bool, Failure> {
        let DeviceNumber { major, minor } = device;
        let path = self.path(format!(in self.alloc();
            "/run/udev/data/b{major}:{minor}"
        )?.as_str())?;
        let Some(Some(text)) = unless_unread(self.read_if_there(&path, UDEV_MAX))? else {
            return Ok(may_be_fat(None, None));
        };
        let file_system = uevent_value(&text, b"E:ID_FS_TYPE");
        let kind = uevent_value(&text, b"E:ID_PART_ENTRY_TYPE");
        Ok(may_be_fat(file_system, kind))
    }

    /// The text of the file of this name in a folder of /sys, if it can be read.
    pub(crate) fn told_text(&self, folder: &str, file: &str) -> Result<Option<Vec<u8>>, Failure> {
        match unless_unread(self.text_if_there(folder, file))? {
            Some(text) => Ok(text),
            None => Ok(None),
        }
    }

    /// The names in a folder that are UTF-8, in order: `None` if they can't be read.
    pub(crate) fn names_in(&self, folder: &str) -> Result<Option<Vec<String>>, Failure> {
        let entries = match fs::read_dir(&(self.rt, self.alloc()), folder) {
            Ok(entries) => entries,
            Err(error) if error.kind() == ErrorKind::OutOfMemory => return Err(Failure::Memory),
            Err(_) => return Ok(None),
        };
        let mut names = Vec::new(self.alloc());
        for entry in entries {
            match entry {
                Ok(entry) => names.push(String::from_str(self.alloc(), entry.file_name())?)?,
                Err(error) => match error.kind() {
                    ErrorKind::InvalidFilename => {}
                    ErrorKind::OutOfMemory => return Err(Failure::Memory),
                    _ => return Ok(None),
                },
            }
        }
        names.sort()?;
        Ok(Some(names))
    }
}
