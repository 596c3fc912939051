//! The partitions of a machine, and those that nodes are of.

ghost use Rattle.std.specs.Prelude.{◌≡◌, ◌↔◌, ◌++◌, ◌∷◌, [], ℕ, List, IsTrue, ◌||◌, ◌==◌, nat_lt};
ghost use Rattle.partitions.specs.PartitionId.{id_of_node};
ghost use Rattle.partitions.specs.declared.partition_id.PartitionId.{PartitionId};
ghost use Rattle.disk_files.specs.declared.found.FoundPartition.{FoundPartition};
ghost use Rattle.disk_files.specs.Search.{IsSearch, AreKnown};

use crate::device_links::linked_identity;
use crate::system::System;
use crate::told::PartitionFolder;
use messages::Failure;
use partitions::{DeviceNumber, Partition, PartitionId};
use std::fs;
use std::io::ErrorKind;
use std::rt::Files;
use uefi_path::HardDriveNode;

/// The folder with a link to each disk and each partition, by its name.
const DEVICES: &str = "/sys/class/block";

/// A partition that a machine has.
#[derive(Debug, Drop)]
pub struct FoundPartition {
    /// What the kernel calls it, as `nvme0n1p1`.
    pub name: String,
    /// The number of its device, by which mounts name it.
    pub device: DeviceNumber,
    /// What the system tells of it; [`Partition::node`] is its node.
    pub partition: Partition,
}

/// The partitions of a machine, as it told of them once.
#[derive(Debug, Drop)]
pub struct SeenPartitions {
    /// Those of which it tells what they are known by, in the order of their names.
    partitions: Vec<FoundPartition>,
    /// Whether it tells that of partitions at all.
    are_told: bool,
}

/// What comes of a search for the partition that a node is of.
#[derive(Clone, Copy, Debug)]
pub enum PartitionSearch<'a> {
    /// It is this one.
    Found(&'a FoundPartition),
    /// Several partitions are known by what the node is known by, as of a disk and its copy, and these are the first two.
    Several(&'a FoundPartition, &'a FoundPartition),
    /// The machine has none.
    Missing,
    /// The machine doesn't tell what its partitions are known by.
    Untold,
    /// The node has no signature by which a partition could be sought.
    Unsigned,
}

/// Which of some partitions are known by something.
#[derive(Clone, Copy)]
enum Known<'a> {
    /// None of them.
    Nothing,
    /// This one.
    One(&'a FoundPartition),
    /// Several, and these are the first two.
    Several(&'a FoundPartition, &'a FoundPartition),
}

/// A device that is a partition.
#[derive(Drop)]
struct NamedFolder {
    /// What the kernel calls it.
    name: String,
    /// The folder of /sys that is of it.
    folder: PartitionFolder,
}

/// The partitions of a machine, for [`find_partition`].
///
/// `root` is nothing, or the path of a folder that stands for the root of the system: what is read of /sys and /dev is
/// read below it.
///
/// # Errors
///
/// [`Failure::Read`] and [`Failure::Refused`] if what the system tells can't be read, and [`Failure::Memory`] if memory was
/// refused.
pub fn machine_partitions<R: Files + AllocGlobal>(
    rt: &R,
    root: &str,
) -> Result<SeenPartitions, Failure> {
    System {
        rt,
        root,
        name: "/sys",
    }
    .seen_partitions()
}

/// The partition of these that a node is of (UEFI 2.10, 10.3.5.1): the one that is known by the node's signature, and in a
/// master boot record by the number of the partition too.
pub fn find_partition<'a>(seen: &'a SeenPartitions, node: &HardDriveNode) -> PartitionSearch<'a>
    ensures { IsSearch seen.now (id_of_node node.now) result }
{
    let Some(id) = PartitionId::from_node(node) else {
        return PartitionSearch::Unsigned;
    };
    match known_by(&seen.partitions, id) {
        Known::One(found) => PartitionSearch::Found(found),
        Known::Several(one, other) => PartitionSearch::Several(one, other),
        Known::Nothing if seen.are_told => PartitionSearch::Missing,
        Known::Nothing => PartitionSearch::Untold,
    }
}

/// Those of the partitions that are known by this.
fn known_by(partitions: &[FoundPartition], id: PartitionId) -> Known<'_>
    ensures { AreKnown id partitions.now result }
{
    let mut known = Known::Nothing;
    for next in partitions {
        known = with_next(known, next, id);
    }
    known
}

/// Those of some partitions and the next one that are known by this, if these are those of the others.
fn with_next<'a>(known: Known<'a>, next: &'a FoundPartition, id: PartitionId) -> Known<'a>
    ensures { (before : List FoundPartition) → AreKnown id before known.entry →
        AreKnown id (before ++ next.now ∷ []) result }
{
    if is_known(next, id) {
        with_known(known, next)
    } else {
        known
    }
}

/// Whether the partition is known by this.
fn is_known(found: &FoundPartition, id: PartitionId) -> bool
    ensures { IsTrue result ↔ (found.now.partition.id ≡ id) }
{
    found.partition.id == id
}

/// Those of some partitions and the next one, which is known by this too, if these are those of the others.
fn with_known<'a>(known: Known<'a>, next: &'a FoundPartition) -> Known<'a>
    ensures { (id : PartitionId) (before : List FoundPartition) → next.now.partition.id ≡ id → AreKnown id before known.entry →
        AreKnown id (before ++ next.now ∷ []) result }
{
    match known {
        Known::Nothing => Known::One(next),
        Known::One(one) => Known::Several(one, next),
        Known::Several(one, other) => Known::Several(one, other),
    }
}

/// Whether a machine tells what its partitions are known by, if it tells that of so many and not of so many others, and has
/// the folder of udev's links to them or not. The kernel tells it of each that is known by something, or of none.
fn are_told(told: usize, untold: usize, has_links: bool) -> bool
    ensures { result ≡ (has_links || (nat_lt 0 told || (untold == 0))) }
{
    has_links || told > 0 || untold == 0
}

impl<R: Files + AllocGlobal> System<'_, R> {
    /// The partitions.
    fn seen_partitions(&self) -> Result<SeenPartitions, Failure> {
        let mut partitions = Vec::new(self.alloc());
        let Some(folders) = self.partition_folders()? else {
            return Ok(SeenPartitions {
                partitions,
                are_told: false,
            });
        };
        let links = self.device_links()?;
        for NamedFolder { name, folder } in &folders {
            let id = match self.told_identity(&folder.path)? {
                Some(id) => Some(id),
                None => {
                    let device = self.device_name(&folder.path)?;
                    linked_identity(links.as_deref().unwrap_or(&[]), &device)
                }
            };
            if let Some(id) = id {
                partitions.push(self.found(name, folder, id)?)?;
            }
        }
        let untold = folders.len().saturating_sub(partitions.len());
        let are_told = are_told(partitions.len(), untold, links.is_some());
        Ok(SeenPartitions {
            partitions,
            are_told,
        })
    }

    /// The partition of this name that a folder is of, and that is known by this.
    fn found(
        &self,
        name: &str,
        folder: &PartitionFolder,
        id: PartitionId,
    ) -> Result<FoundPartition, Failure> {
        Ok(FoundPartition {
            name: String::from_str(self.alloc(), name)?,
            device: self.device_number(&folder.path)?,
            partition: self.identified(folder, id)?,
        })
    }

    /// The folders of /sys that are of partitions, in the order of the names: `None` if the system tells of no devices.
    fn partition_folders(&self) -> Result<Option<Vec<NamedFolder>>, Failure> {
        let Some(names) = self.device_names()? else {
            return Ok(None);
        };
        let devices = self.path(DEVICES)?;
        let mut folders = Vec::new(self.alloc());
        for name in &names {
            let link = format!(in self.alloc(); "{devices}/{name}")?;
            if let Some(whole) = self.resolved_if_there(&link)?
                && let Some(folder) = self.partition_folder(whole.as_path().as_str())?
            {
                let name = name.clone()?;
                folders.push(NamedFolder { name, folder })?;
            }
        }
        Ok(Some(folders))
    }

    /// What the kernel calls the disks and the partitions, in order: `None` if it doesn't tell.
    fn device_names(&self) -> Result<Option<Vec<String>>, Failure> {
        let devices = self.path(DEVICES)?;
        let entries = match fs::read_dir(&(self.rt, self.alloc()), devices.as_str()) {
            Ok(entries) => entries,
            Err(error) if error.kind() == ErrorKind::NotFound => return Ok(None),
            Err(error) => return Err(Failure::from_read(self.alloc(), &devices, error)),
        };
        let mut names = Vec::new(self.alloc());
        for entry in entries {
            let entry = entry.map_err(|error| Failure::from_read(self.alloc(), &devices, error))?;
            names.push(String::from_str(self.alloc(), entry.file_name())?)?;
        }
        names.sort()?;
        Ok(Some(names))
    }
}
