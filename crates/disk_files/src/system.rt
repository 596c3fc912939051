//! What Linux tells in files, below a folder that stands for the root.

use crate::fault::DiskFault;
use messages::{Failure, shown};
use partitions::{read_number, uevent_value};
use std::alloc::{AllocError, Global};
use std::fs;
use std::io::{self, ErrorKind};
use std::path::PathBuf;
use std::rt::Files;
use whole_files::{read_file, resolved};

/// How many bytes a file of /sys has at most: a page.
const SYS_MAX: usize = 4096;

/// A file system's root, and what messages call the file that is sought.
#[derive(Clone, Copy)]
pub(crate) struct System<'a, R> {
    pub(crate) rt: &'a R,
    /// The path of the folder that stands for the root, or nothing for the root.
    pub(crate) root: &'a str,
    /// What the user calls the file or the device.
    pub(crate) name: &'a str,
}

impl<R: Files + AllocGlobal> System<'_, R> {
    pub(crate) fn alloc(&self) -> Global {
        self.rt.alloc()
    }

    /// What it is to the program that the file or the device is refused.
    pub(crate) fn refused(&self, fault: DiskFault) -> Failure {
        match fault {
            DiskFault::OutOfMemory => Failure::Memory,
            fault => Failure::from_fault(self.alloc(), self.name, fault),
        }
    }

    /// The path below the folder that stands for the root.
    pub(crate) fn path(&self, path: &str) -> Result<String, AllocError> {
        let root = self.root.trim_end_matches('/');
        format!(in self.alloc(); "{root}{path}")
    }

    /// The path by which the file or the device that the user names can be opened: below that folder, if there is one.
    pub(crate) fn path_of_name(&self) -> Result<String, AllocError> {
        if self.root.is_empty() {
            return String::from_str(self.alloc(), self.name);
        }
        let slash = if self.name.starts_with('/') { "" } else { "/" };
        let root = self.root.trim_end_matches('/');
        format!(in self.alloc(); "{root}{slash}{}", self.name)
    }

    /// The path of that folder without links, and without a slash at its end.
    pub(crate) fn front(&self) -> Result<String, Failure> {
        if self.root.is_empty() {
            return Ok(String::new(self.alloc()));
        }
        let Some(root) = self.resolved_if_there(self.root)? else {
            return Err(Failure::from_read(self.alloc(), self.root, ErrorKind::NotFound.into()));
        };
        let front = root.as_path().as_str().trim_end_matches('/');
        Ok(String::from_str(self.alloc(), front)?)
    }

    /// A text that the system tells, which may be anybody's, as messages show it.
    pub(crate) fn shown(&self, text: &str) -> Result<String, AllocError> {
        shown(self.alloc(), text)
    }

    /// The path without links, from the root on, of what is at a path: `None` if nothing is there.
    pub(crate) fn resolved_if_there(&self, path: &str) -> Result<Option<PathBuf>, Failure> {
        match resolved(self.rt, path) {
            Ok(whole) => Ok(Some(whole)),
            Err(error) if error.kind() == ErrorKind::NotFound => Ok(None),
            Err(error) => Err(Failure::from_read(self.alloc(), path, error)),
        }
    }

    /// The bytes of the file at a path, if one is there. What is no regular file isn't opened: a pipe without a writer would
    /// be waited for, and opening a device may do something.
    pub(crate) fn read_if_there(
        &self,
        path: &str,
        limit: usize,
    ) -> Result<Option<Vec<u8>>, Failure> {
        match fs::metadata(self.rt, path) {
            Ok(found) if !found.is_file() => {
                return Err(Failure::from_fault(self.alloc(), path, DiskFault::Irregular));
            }
            Ok(_) => {}
            Err(error) if is_missing(error.kind()) => return Ok(None),
            Err(error) => return Err(Failure::from_read(self.alloc(), path, error)),
        }
        match read_file(self.rt, path, limit) {
            Ok(Some(bytes)) => Ok(Some(bytes)),
            Ok(None) => Err(Failure::from_fault(self.alloc(), path, DiskFault::TooMuch(limit))),
            Err(error) if is_missing(error.kind()) => Ok(None),
            Err(error) => Err(Failure::from_read(self.alloc(), path, error)),
        }
    }

    /// The bytes of the file of this name in a folder of /sys, if one is there.
    pub(crate) fn text_if_there(
        &self,
        folder: &str,
        file: &str,
    ) -> Result<Option<Vec<u8>>, Failure> {
        let path = format!(in self.alloc(); "{folder}/{file}")?;
        self.read_if_there(&path, SYS_MAX)
    }

    /// The number that the file of this name in a folder of /sys has, if one is there.
    pub(crate) fn number_if_there(&self, folder: &str, file: &str) -> Result<Option<u64>, Failure> {
        let Some(text) = self.text_if_there(folder, file)? else {
            return Ok(None);
        };
        match read_number(&text) {
            Some(number) => Ok(Some(number)),
            None => Err(self.without_number(folder, file)),
        }
    }

    /// The number that the file of this name in a folder of /sys has.
    pub(crate) fn number(&self, folder: &str, file: &str) -> Result<u64, Failure> {
        match self.number_if_there(folder, file)? {
            Some(number) => Ok(number),
            None => Err(self.missing(folder, file)),
        }
    }

    /// What it is to the program that a file of a folder of /sys has no number.
    pub(crate) fn without_number(&self, folder: &str, file: &str) -> Failure {
        match format!(in self.alloc(); "{folder}/{file}") {
            Ok(path) => Failure::from_fault(self.alloc(), &path, DiskFault::NoNumber),
            Err(AllocError) => Failure::Memory,
        }
    }

    /// What it is to the program that a file of a folder of /sys isn't there.
    fn missing(&self, folder: &str, file: &str) -> Failure {
        match format!(in self.alloc(); "{folder}/{file}") {
            Ok(path) => {
                Failure::from_read(self.alloc(), &path, io::Error::from(ErrorKind::NotFound))
            }
            Err(AllocError) => Failure::Memory,
        }
    }

    /// The value that the file `uevent` of a folder of /sys has for a key, if it has one.
    pub(crate) fn uevent(&self, folder: &str, key: &str) -> Result<Option<String>, Failure> {
        let Some(text) = self.text_if_there(folder, "uevent")? else {
            return Ok(None);
        };
        let Some(value) = uevent_value(&text, key.as_bytes()) else {
            return Ok(None);
        };
        match str::from_utf8(value) {
            Ok(value) => Ok(Some(String::from_str(self.alloc(), value)?)),
            Err(_) => Ok(None),
        }
    }
}

/// Whether the system's reason is that there is no such file: also if what is to be its folder is a file.
fn is_missing(kind: ErrorKind) -> bool {
    matches!(kind, ErrorKind::NotFound | ErrorKind::NotADirectory)
}
