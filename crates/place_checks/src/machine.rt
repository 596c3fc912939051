//! The machine on which files are sought.

ghost use Rattle.std.specs.Prelude.{◌≡◌, ◌⊎◌, IfOk};
ghost use Rattle.place_checks.specs.Look.{CanBe, OfPartition, OfFile, IsTold};

use crate::image::{SeenImage, look_at_image};
use crate::place::Source;
use crate::secure_boot::{SeenSecureBoot, read_secure_boot};
use crate::stored_secure_boot::stored_secure_boot;
use disk_files::{
    PartitionSearch, SeenDisks, SeenMounts, SeenPartitions, find_partition, machine_mounts,
    machine_partitions, mounted_folders,
};
use entry_checks::{Lead, Processor, Target, name_among, processor_of};
use messages::{Failure, shown};
use partitions::DeviceNumber;
use std::alloc::{AllocError, Global};
use std::collections::BTreeMap;
use std::io::{self, ErrorKind};
use std::rt::Files;
use std::{fs, mem};
use uefi_path::HardDriveNode;
use whole_files::{RegularFile, read_regular};

/// What parts the names in the path of a file (UEFI 2.10, 10.3.5.4).
const SEPARATOR: char = '\\';

/// The name of the file that firmware for x86-64 seeks on a partition (UEFI 2.10, 3.5.1.1).
pub(crate) const DEFAULT_FILE: &str = "\\EFI\\BOOT\\BOOTX64.EFI";

/// Where Linux tells for which processor it is made.
const ARCH: &str = "/proc/sys/kernel/arch";

/// Where Linux tells how many bits the firmware's addresses have.
const BITS: &str = "/sys/firmware/efi/fw_platform_size";

/// How many bytes a text of the system's has at most that tells either.
const TOLD_MAX: usize = 64;

/// The path of all that a file system has.
pub(crate) const ROOT: &str = "/";

/// The machine whose root a folder stands for, or this one. What it tells is read once, when it is first needed.
#[derive(Drop)]
pub(crate) struct Machine<'a, R> {
    pub(crate) rt: &'a R,
    /// The path of the folder, or nothing.
    pub(crate) root: &'a str,
    /// Where the variables of its firmware are.
    source: Source<'a>,
    /// Its firmware's processor, once that is read.
    processor: Option<Processor>,
    /// What its Secure Boot decides by, once that is read.
    secure_boot: Option<SeenSecureBoot>,
    /// Its partitions, once they are read.
    partitions: Option<SeenPartitions>,
    /// Its disks, once they are read.
    pub(crate) disks: Option<SeenDisks>,
    /// What is mounted, once that is read.
    mounts: Option<SeenMounts>,
    /// What is known of the files that were looked at, by their paths: each is read once.
    images: BTreeMap<String, SeenImage>,
    /// Room for the bytes of such a file, which those of the next one take.
    buffer: Vec<u8>,
}

/// Where a path leads.
#[derive(Drop)]
pub(crate) struct Seen {
    pub(crate) lead: Lead,
    /// What was looked at, if the path doesn't say it.
    pub(crate) detail: String,
    /// What is known of the file, if one is there.
    pub(crate) image: SeenImage,
}

/// A partition that the machine has.
#[derive(Drop)]
struct Device {
    /// What the kernel calls it.
    name: String,
    /// Its number.
    number: DeviceNumber,
}

/// What the next name of a path leads to.
#[derive(Drop)]
enum Step {
    /// To a file or a folder of this path.
    To(String),
    /// To nothing.
    Nowhere,
    /// The folder that it should be in can't be read.
    Closed,
}

impl Seen {
    /// Where a path leads, of which the path says more.
    pub(crate) fn bare(alloc: Global, lead: Lead) -> Seen
        ensures { result.lead ≡ lead }
    {
        Seen {
            lead,
            detail: String::new(alloc),
            image: SeenImage::none(alloc),
        }
    }

    /// Where a path leads, by the file or the folder at this path.
    pub(crate) fn at(alloc: Global, lead: Lead, path: &str) -> Result<Seen, AllocError>
        ensures { IfOk result (λ seen. seen.lead ≡ lead) }
    {
        Ok(Seen {
            lead,
            detail: shown(alloc, path)?,
            image: SeenImage::none(alloc),
        })
    }
}

impl<'a, R: Files + AllocGlobal> Machine<'a, R> {
    /// The machine whose root this folder stands for, or this one if the path is empty. The variables of a folder,
    /// which the root isn't put before, are taken for its firmware's, those of a variable file for an emulator's of any
    /// processor, and those of a set may be anybody's.
    pub(crate) fn new(rt: &'a R, root: &'a str, source: Source<'a>) -> Machine<'a, R> {
        Machine {
            rt,
            root,
            source,
            processor: None,
            secure_boot: None,
            partitions: None,
            disks: None,
            mounts: None,
            images: BTreeMap::new(rt.alloc()),
            buffer: Vec::new(rt.alloc()),
        }
    }

    /// The processor of the firmware that has the variables.
    pub(crate) fn processor(&mut self) -> Result<Processor, AllocError> {
        if let Some(processor) = self.processor {
            return Ok(processor);
        }
        let processor = match &self.source {
            Source::Folder(_) => {
                let arch = self.told(ARCH)?;
                let bits = self.told(BITS)?;
                processor_of(arch.as_deref(), bits.as_deref())
            }
            Source::File(_) | Source::Set => Processor::Untold,
        };
        self.processor = Some(processor);
        Ok(processor)
    }

    /// What Secure Boot of the firmware that has the variables decides by.
    fn secure_boot(&mut self) -> Result<&SeenSecureBoot, AllocError> {
        if self.secure_boot.is_none() {
            self.secure_boot = Some(match &self.source {
                Source::Folder(folder) => read_secure_boot(self.rt, folder)?,
                Source::File(bytes) => stored_secure_boot(self.rt.alloc(), bytes)?,
                Source::Set => SeenSecureBoot::Off,
            });
        }
        match &self.secure_boot {
            Some(seen) => Ok(seen),
            None => unreachable!(),
        }
    }

    /// What the system tells in the file at this path, if it tells it.
    fn told(&self, path: &str) -> Result<Option<Vec<u8>>, AllocError> {
        let alloc = self.rt.alloc();
        let path = format!(in alloc; "{}{path}", without_slash(self.root))?;
        match read_regular(self.rt, &path, TOLD_MAX) {
            Ok(RegularFile::Bytes(bytes)) => Ok(Some(bytes)),
            Ok(_) => Ok(None),
            Err(error) if error.kind() == ErrorKind::OutOfMemory => Err(AllocError),
            Err(_) => Ok(None),
        }
    }

    /// What is known of the file at this path.
    pub(crate) fn image_at(&mut self, path: &str) -> Result<SeenImage, AllocError> {
        if let Some(seen) = self.images.get(path) {
            return seen.copy();
        }
        let processor = self.processor()?;
        let rt = self.rt;
        let mut buffer = mem::replace(&mut self.buffer, Vec::new(rt.alloc()));
        let seen = look_at_image(rt, path, &mut buffer, processor, self.secure_boot()?)?;
        self.buffer = buffer;
        let copy = seen.copy()?;
        self.images
            .insert(String::from_str(rt.alloc(), path)?, copy)?;
        Ok(seen)
    }

    /// Its partitions.
    fn partitions(&mut self) -> Result<&SeenPartitions, Failure> {
        if self.partitions.is_none() {
            self.partitions = Some(machine_partitions(self.rt, self.root)?);
        }
        match &self.partitions {
            Some(seen) => Ok(seen),
            None => unreachable!(),
        }
    }

    /// What is mounted.
    pub(crate) fn mounts(&mut self) -> Result<&SeenMounts, Failure> {
        if self.mounts.is_none() {
            self.mounts = Some(machine_mounts(self.rt, self.root)?);
        }
        match &self.mounts {
            Some(seen) => Ok(seen),
            None => unreachable!(),
        }
    }

    /// Looks where a path leads.
    pub(crate) fn look(&mut self, target: Target<'_>) -> Result<Seen, Failure>
        ensures { IfOk result (λ seen. CanBe target.entry seen.lead) }
    {
        match target {
            Target::File(partition, name) => {
                let name = String::from_utf16_lossy(self.rt.alloc(), name.units())?;
                self.look_at_file(partition, &name)
            }
            Target::Partition(partition) => self.look_at_partition(partition),
            Target::Disk(path) => self.look_at_disk(path),
            Target::Unseen(lead) => Ok(Seen::bare(self.rt.alloc(), lead)),
        }
    }

    /// Looks whether a partition is on the machine, and the file that firmware seeks there, if its name is known.
    fn look_at_partition(&mut self, partition: &HardDriveNode) -> Result<Seen, Failure>
        ensures { IfOk result (λ seen. OfPartition seen.lead ⊎ OfFile seen.lead) }
    {
        if self.processor()? == Processor::X8664 {
            self.look_at_file(partition, DEFAULT_FILE)
        } else {
            self.look_for_partition(partition)
        }
    }

    /// Looks whether a partition is on the machine.
    fn look_for_partition(&mut self, partition: &HardDriveNode) -> Result<Seen, Failure>
        ensures { IfOk result (λ seen. OfPartition seen.lead) }
    {
        let alloc = self.rt.alloc();
        match find_partition(self.partitions()?, partition) {
            PartitionSearch::Found(_) => Ok(Seen::bare(alloc, Lead::Partition)),
            found => Ok(without_partition(alloc, found)?),
        }
    }

    /// Looks whether a file of this name is on a partition.
    fn look_at_file(&mut self, partition: &HardDriveNode, name: &str) -> Result<Seen, Failure>
        ensures { IfOk result (λ seen. OfFile seen.lead) }
    {
        let alloc = self.rt.alloc();
        let device = match find_partition(self.partitions()?, partition) {
            PartitionSearch::Found(found) => Device {
                name: found.name.clone()?,
                number: found.device,
            },
            found => return Ok(without_partition(alloc, found)?),
        };
        self.look_on_partition(&device, name)
    }

    /// Looks whether a file of this name is on a partition that the machine has.
    fn look_on_partition(&mut self, device: &Device, name: &str) -> Result<Seen, Failure>
        ensures { IfOk result (λ seen. OfFile seen.lead) }
    {
        let alloc = self.rt.alloc();
        match self.mounted_at(device.number)? {
            Some(folder) => self.look_in_folder(folder, name),
            None => {
                let device = format!(in alloc; "/dev/{}", device.name)?;
                Ok(Seen::at(alloc, Lead::Unmounted, &device)?)
            }
        }
    }

    /// The folder at which the root of the file system on a device is mounted, if it is.
    fn mounted_at(&mut self, device: DeviceNumber) -> Result<Option<String>, Failure> {
        let alloc = self.rt.alloc();
        let folders = mounted_folders(alloc, self.mounts()?, device)?;
        match folders.iter().find(|folder| folder.top.as_str() == ROOT) {
            Some(folder) => Ok(Some(folder.path.clone()?)),
            None => Ok(None),
        }
    }

    /// Looks whether a file of this name is in the file system that is mounted at a folder.
    pub(crate) fn look_in_folder(&mut self, folder: String, name: &str) -> Result<Seen, Failure>
        ensures { IfOk result (λ seen. OfFile seen.lead) }
    {
        let alloc = self.rt.alloc();
        let sought = path_of(alloc, &folder, name)?;
        let mut path = folder;
        for part in name.split(SEPARATOR) {
            if part.is_empty() {
                continue;
            }
            match self.step(&path, part)? {
                Step::To(next) => path = next,
                Step::Nowhere => return Ok(Seen::at(alloc, Lead::NoFile, &sought)?),
                Step::Closed => return Ok(Seen::at(alloc, Lead::Closed, &path)?),
            }
        }
        self.look_at(&path)
    }

    /// Looks whether a file or a folder is at this path, where something is, and what is known of the file.
    fn look_at(&mut self, path: &str) -> Result<Seen, Failure>
        ensures { IfOk result (λ seen. OfFile seen.lead) }
    {
        let alloc = self.rt.alloc();
        match fs::metadata(self.rt, path) {
            Ok(found) if found.is_dir() => Ok(Seen::at(alloc, Lead::Folder, path)?),
            _ => Ok(Seen {
                lead: Lead::File,
                detail: shown(alloc, path)?,
                image: self.image_at(path)?,
            }),
        }
    }

    /// What a name leads to in the folder at this path.
    fn step(&self, folder: &str, name: &str) -> Result<Step, Failure> {
        let alloc = self.rt.alloc();
        match self.names_in(folder) {
            Ok(names) => Ok(step_among(alloc, folder, &names, name)?),
            Err(error) => match error.kind() {
                ErrorKind::NotFound | ErrorKind::NotADirectory => Ok(Step::Nowhere),
                ErrorKind::OutOfMemory => Err(Failure::Memory),
                _ => Ok(Step::Closed),
            },
        }
    }

    /// The names in the folder at this path that are UTF-8, as those of paths are.
    fn names_in(&self, folder: &str) -> io::Result<Vec<String>> {
        let alloc = self.rt.alloc();
        let mut names = Vec::new(alloc);
        for entry in fs::read_dir(&(self.rt, alloc), folder)? {
            match entry {
                Ok(entry) => names.push(String::from_str(alloc, entry.file_name())?)?,
                Err(error) if error.kind() == ErrorKind::InvalidFilename => {}
                Err(error) => return Err(error),
            }
        }
        Ok(names)
    }
}

/// Where a path leads whose partition is sought, if this comes of it, which isn't one partition.
fn without_partition(alloc: Global, found: PartitionSearch<'_>) -> Result<Seen, AllocError>
    ensures told { IfOk result (λ seen. IsTold found.entry seen.lead) }
    ensures partition { IfOk result (λ seen. OfPartition seen.lead) }
    ensures file { IfOk result (λ seen. OfFile seen.lead) }
{
    match found {
        PartitionSearch::Several(one, other) => {
            let devices = both_devices(alloc, &one.name, &other.name)?;
            Seen::at(alloc, Lead::Several, &devices)
        }
        PartitionSearch::Untold => Ok(Seen::bare(alloc, Lead::Untold)),
        PartitionSearch::Unsigned => Ok(Seen::bare(alloc, Lead::Unsigned)),
        PartitionSearch::Missing | PartitionSearch::Found(_) => {
            Ok(Seen::bare(alloc, Lead::NoPartition))
        }
    }
}

/// The paths of the devices of these names.
pub(crate) fn both_devices(alloc: Global, one: &str, other: &str) -> Result<String, AllocError> {
    format!(in alloc; "/dev/{one} and /dev/{other}")
}

/// What a name leads to among these, which are in a folder.
fn step_among(
    alloc: Global,
    folder: &str,
    names: &[String],
    name: &str,
) -> Result<Step, AllocError> {
    match name_among(names, name) {
        Some(found) => Ok(Step::To(format!(in alloc; "{}/{found}", without_slash(folder))?)),
        None => Ok(Step::Nowhere),
    }
}

/// The path of a folder without slashes at its end.
fn without_slash(folder: &str) -> &str {
    folder.trim_end_matches('/')
}

/// The path of a file of this name, if its file system is mounted at a folder.
fn path_of(alloc: Global, folder: &str, name: &str) -> Result<String, AllocError> {
    let mut path = String::from_str(alloc, without_slash(folder))?;
    for part in name.split(SEPARATOR) {
        if !part.is_empty() {
            path.push('/')?;
            path.push_str(part)?;
        }
    }
    Ok(path)
}
