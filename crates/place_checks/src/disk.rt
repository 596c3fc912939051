//! A look at a whole disk, for the file that firmware seeks on its partitions.

ghost use Rattle.std.specs.Prelude.{◌≡◌, IfOk};
ghost use Rattle.place_checks.specs.Look.{OfDisk, IsDiskTold};
ghost use Rattle.place_checks.specs.WholeDisk.{lead_on_disk};

use crate::machine::{DEFAULT_FILE, Machine, ROOT, Seen, both_devices};
use crate::whole_disk::{has_file, lead_on_disk, may_have_file};
use disk_files::{
    DiskPart, DiskSearch, FoundDisk, MountedFolder, find_disk, machine_disks, mounted_folders,
};
use entry_checks::{Lead, Processor};
use messages::Failure;
use std::alloc::{AllocError, Global};
use std::rt::Files;
use uefi_path::Node;

/// What the kernel calls FAT file systems.
const FAT: [&str; 2] = ["vfat", "msdos"];

/// How the file system of a part is mounted.
#[derive(Drop)]
enum PartMount {
    /// It is FAT, and its root is mounted at this folder.
    At(String),
    /// It is another file system, or what isn't mounted is none that firmware has to know.
    Other,
    /// It may be FAT, and its root isn't mounted.
    Unmounted,
}

impl<R: Files + AllocGlobal> Machine<'_, R> {
    /// Looks whether the disk to which these nodes lead is on the machine, and the file that firmware seeks there, if its
    /// name is known.
    pub(crate) fn look_at_disk(&mut self, path: &[Node]) -> Result<Seen, Failure>
        ensures { IfOk result (λ seen. OfDisk seen.lead) }
    {
        let disks = match self.disks.take() {
            Some(disks) => disks,
            None => machine_disks(self.rt, self.root)?,
        };
        let seen = self.look_at_found(find_disk(&disks, path))?;
        self.disks = Some(disks);
        Ok(seen)
    }

    /// Looks at a disk of which this is found.
    fn look_at_found(&mut self, found: DiskSearch<'_>) -> Result<Seen, Failure>
        ensures { IfOk result (λ seen. OfDisk seen.lead) }
    {
        match found {
            DiskSearch::Found(disk) => self.look_at_parts(disk),
            found => Ok(without_disk(self.rt.alloc(), found)?),
        }
    }

    /// Looks at the parts of a disk, if the name of the file that firmware seeks is known.
    fn look_at_parts(&mut self, disk: &FoundDisk) -> Result<Seen, Failure>
        ensures { IfOk result (λ seen. OfDisk seen.lead) }
    {
        let alloc = self.rt.alloc();
        if self.processor()? != Processor::X8664 {
            return Ok(Seen::bare(alloc, Lead::WholeDisk));
        }
        let mut looks = Vec::new(alloc);
        for part in &disk.parts {
            if let Some(seen) = self.look_at_part(part)? {
                looks.push(seen)?;
            }
        }
        Ok(on_disk(alloc, &disk.name, &looks)?)
    }

    /// Looks whether the file that firmware seeks is on a part of a disk, if that may have a file system that firmware
    /// knows.
    fn look_at_part(&mut self, part: &DiskPart) -> Result<Option<Seen>, Failure> {
        let alloc = self.rt.alloc();
        let folders = mounted_folders(alloc, self.mounts()?, part.device)?;
        match part_mount(alloc, &folders, part.may_be_fat)? {
            PartMount::At(folder) => Ok(Some(self.look_in_folder(folder, DEFAULT_FILE)?)),
            PartMount::Unmounted => {
                let device = format!(in alloc; "/dev/{}", part.name)?;
                Ok(Some(Seen::at(alloc, Lead::Unmounted, &device)?))
            }
            PartMount::Other => Ok(None),
        }
    }
}

/// How the file system of a part is mounted that is mounted at these folders, and may be FAT or not if it is at none.
fn part_mount(
    alloc: Global,
    folders: &[MountedFolder],
    may_be_fat: bool,
) -> Result<PartMount, AllocError> {
    for folder in folders {
        if !is_fat(folder) {
            return Ok(PartMount::Other);
        }
        if folder.top.as_str() == ROOT {
            return Ok(PartMount::At(String::from_str(alloc, &folder.path)?));
        }
    }
    if may_be_fat || !folders.is_empty() {
        Ok(PartMount::Unmounted)
    } else {
        Ok(PartMount::Other)
    }
}

/// Whether the file system that is mounted at the folder is FAT.
fn is_fat(folder: &MountedFolder) -> bool {
    FAT.iter().any(|kind| folder.kind.as_str() == *kind)
}

/// Where a path leads whose disk is sought, if this comes of it, which isn't one disk.
fn without_disk(alloc: Global, found: DiskSearch<'_>) -> Result<Seen, AllocError>
    ensures told { IfOk result (λ seen. IsDiskTold found.entry seen.lead) }
    ensures disk { IfOk result (λ seen. OfDisk seen.lead) }
{
    match found {
        DiskSearch::Several(one, other) => {
            let devices = both_devices(alloc, &one.name, &other.name)?;
            Seen::at(alloc, Lead::SeveralDisks, &devices)
        }
        DiskSearch::Missing | DiskSearch::Found(_) => Ok(Seen::bare(alloc, Lead::NoDisk)),
    }
}

/// Where a path leads to the disk of this name, of which the parts were looked at so.
fn on_disk(alloc: Global, name: &str, looks: &[Seen]) -> Result<Seen, AllocError>
    ensures lead { IfOk result (λ seen. seen.lead ≡ lead_on_disk looks.now) }
    ensures disk { IfOk result (λ seen. OfDisk seen.lead) }
{
    let lead = lead_on_disk(looks);
    let mut seen = Seen::bare(alloc, lead);
    seen.detail = match lead {
        Lead::NoFileOnDisk => format!(in alloc; "/dev/{name}")?,
        Lead::PartUnseen => details(alloc, looks, false)?,
        _ => details(alloc, looks, true)?,
    };
    if let (Lead::File, Some(look)) = (lead, looks.iter().find(|look| has_file(look))) {
        seen.image = look.image.copy()?;
    }
    Ok(seen)
}

/// What was looked at of the parts that have the file, or of those that may have it.
fn details(alloc: Global, looks: &[Seen], of_files: bool) -> Result<String, AllocError> {
    let mut text = String::new(alloc);
    for look in looks {
        let is_told = if of_files {
            has_file(look)
        } else {
            may_have_file(look)
        };
        if is_told {
            if !text.is_empty() {
                text.push_str(" and ")?;
            }
            text.push_str(&look.detail)?;
        }
    }
    Ok(text)
}
