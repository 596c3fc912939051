//! The disks of a machine, and those to which paths lead.

ghost use Rattle.std.specs.Prelude.{◌≡◌, ◌++◌, ◌∷◌, [], List, ◌==◌};
ghost use Rattle.std.specs.List.{list_all};
ghost use Rattle.std.specs.Option.{option_map};
ghost use Rattle.disk_files.specs.declared.disk.FoundDisk.{FoundDisk};
ghost use Rattle.disk_files.specs.Disk.{IsDiskSearch, those_at, is_place, is_step, is_root, is_function, is_sata, is_nvme, is_usb, is_same_eui, multiplier_port, may_be_fat, is_fat_name, is_system_type};

use crate::system::System;
use messages::Failure;
use partitions::DeviceNumber;
use std::rt::Files;
use uefi_path::{Node, PCI_ROOT_HID, PCIE_ROOT_HID};

/// The bit of a multiplier's port that says that there is no multiplier (UEFI 2.10, 10.3.4.6, has 0xFFFF).
const NO_MULTIPLIER: u16 = 0x8000;

/// What udev calls a FAT file system.
const FAT: &[u8] = b"vfat";

/// What udev calls the type of an EFI system partition in a GUID partition table (UEFI 2.10, 5.3.3).
const SYSTEM_GPT: &[u8] = b"c12a7328-f81f-11d2-ba4b-00a0c93ec93b";

/// What udev calls that type in a master boot record (UEFI 2.10, 5.2.2).
const SYSTEM_MBR: &[u8] = b"0xef";

/// A step on the way to a disk, as the system tells of it.
#[derive(Clone, Copy, Debug, PartialEq, Eq)]
pub enum DiskStep {
    /// The root of a PCI bus of this `_UID`.
    Root(u32),
    /// A function of a device on a PCI bus.
    Function {
        /// The function.
        function: u8,
        /// The device.
        device: u8,
    },
    /// A disk on SATA.
    Sata {
        /// The port of the host bus adapter, counted from 0 on.
        port: u16,
        /// The port of the multiplier, or 0 if there is none.
        channel: u16,
        /// The logical unit.
        lun: u16,
    },
    /// A namespace of NVM Express.
    Nvme {
        /// The identifier of the namespace.
        namespace: u32,
        /// The EUI-64, or zeros if it has none.
        eui: [u8; 8],
    },
    /// A USB device or a hub.
    Usb {
        /// The port of the parent, counted from 0 on.
        port: u8,
        /// The interface.
        interface: u8,
    },
}

/// A part of a disk that may have a file system: a partition, or the whole disk if it has none.
#[derive(Debug, Drop)]
pub struct DiskPart {
    /// What the kernel calls it, as `nvme0n1p1`.
    pub name: String,
    /// The number of its device, by which mounts name it.
    pub device: DeviceNumber,
    /// Whether it may have a FAT file system, by what udev tells of it: also if that tells nothing.
    pub may_be_fat: bool,
}

/// A disk of which the system tells where it is.
#[derive(Debug, Drop)]
pub struct FoundDisk {
    /// What the kernel calls it, as `nvme0n1`.
    pub name: String,
    /// The way there.
    pub place: Vec<DiskStep>,
    /// Its parts, in the order of their names.
    pub parts: Vec<DiskPart>,
}

/// The disks of a machine of which it tells where they are, as it told of them once.
#[derive(Debug, Drop)]
pub struct SeenDisks {
    /// These, in the order of their names.
    pub(crate) disks: Vec<FoundDisk>,
}

/// What comes of a search for the disk to which a path leads.
#[derive(Clone, Copy, Debug)]
pub enum DiskSearch<'a> {
    /// It is this one.
    Found(&'a FoundDisk),
    /// Several disks are there, as the slots of a card reader, and these are the first two.
    Several(&'a FoundDisk, &'a FoundDisk),
    /// No disk is known to be there.
    Missing,
}

/// The disks of a machine, for [`find_disk`]. What can't be read is passed over: then a disk isn't known to be anywhere.
///
/// `root` is nothing, or the path of a folder that stands for the root of the system: what is read of /sys and /run is
/// read below it.
///
/// # Errors
///
/// [`Failure::Memory`] if memory was refused.
pub fn machine_disks<R: Files + AllocGlobal>(rt: &R, root: &str) -> Result<SeenDisks, Failure> {
    System {
        rt,
        root,
        name: "/sys",
    }
    .seen_disks()
}

/// The disk of these to which a path of these nodes leads: the one whose place has a step for each node.
pub fn find_disk<'a>(seen: &'a SeenDisks, path: &[Node]) -> DiskSearch<'a>
    ensures { IsDiskSearch (those_at path.now seen.now.disks.items) result }
{
    disks_at(&seen.disks, path)
}

/// Those of the disks to which a path of these nodes leads.
fn disks_at<'a>(disks: &'a [FoundDisk], path: &[Node]) -> DiskSearch<'a>
    ensures { IsDiskSearch (those_at path.now disks.now) result }
{
    let mut search = DiskSearch::Missing;
    for next in disks {
        search = with_next(search, next, path);
    }
    search
}

/// What comes of a search among some disks and the next one, if this comes of it among the others.
fn with_next<'a>(search: DiskSearch<'a>, next: &'a FoundDisk, path: &[Node]) -> DiskSearch<'a>
    ensures { (before : List FoundDisk) → IsDiskSearch (those_at path.now before) search.entry →
        IsDiskSearch (those_at path.now (before ++ next.now ∷ [])) result }
{
    if is_place(&next.place, path) {
        with_found(search, next)
    } else {
        search
    }
}

/// What comes of a search among some disks and the next one, to which the path leads too, if this comes of it among the
/// others.
fn with_found<'a>(search: DiskSearch<'a>, next: &'a FoundDisk) -> DiskSearch<'a>
    ensures { (found : List FoundDisk) → IsDiskSearch found search.entry → IsDiskSearch (found ++ next.now ∷ []) result }
{
    match search {
        DiskSearch::Missing => DiskSearch::Found(next),
        DiskSearch::Found(one) => DiskSearch::Several(one, next),
        DiskSearch::Several(_one, _other) => search,
    }
}

/// Whether a path of these nodes leads to a disk by these steps.
fn is_place(place: &[DiskStep], path: &[Node]) -> bool
    ensures { result ≡ is_place place.now path.now }
{
    match place {
        [] => path.is_empty(),
        [step, steps @ ..] => match path {
            [] => false,
            [node, nodes @ ..] => is_step(step, node) && is_place(steps, nodes),
        },
    }
}

/// Whether the node is of the step.
fn is_step(step: &DiskStep, node: &Node) -> bool
    ensures { result ≡ is_step step.now node.now }
{
    match step {
        DiskStep::Root(uid) => is_root(*uid, node),
        DiskStep::Function { function, device } => is_function(*function, *device, node),
        DiskStep::Sata { port, channel, lun } => is_sata(*port, *channel, *lun, node),
        DiskStep::Nvme { namespace, eui } => is_nvme(*namespace, eui, node),
        DiskStep::Usb { port, interface } => is_usb(*port, *interface, node),
    }
}

/// Whether the node is of the root of a PCI bus of this `_UID`.
fn is_root(told: u32, node: &Node) -> bool
    ensures { result ≡ is_root told node.now }
{
    match node {
        Node::Acpi { hid, uid } => {
            (*hid == PCI_ROOT_HID || *hid == PCIE_ROOT_HID) && *uid == told
        }
        _ => false,
    }
}

/// Whether the node is of this function of a PCI device.
fn is_function(told_function: u8, told_device: u8, node: &Node) -> bool
    ensures { result ≡ is_function told_function told_device node.now }
{
    match node {
        Node::Pci { function, device } => *function == told_function && *device == told_device,
        _ => false,
    }
}

/// Whether the node is of a disk on SATA at these ports.
fn is_sata(port: u16, channel: u16, told_lun: u16, node: &Node) -> bool
    ensures { result ≡ is_sata port channel told_lun node.now }
{
    match node {
        Node::Sata {
            hba,
            multiplier,
            lun,
        } => *hba == port && multiplier_port(*multiplier) == channel && *lun == told_lun,
        _ => false,
    }
}

/// The port of the multiplier, or 0 if there is none.
fn multiplier_port(multiplier: u16) -> u16
    ensures { result ≡ multiplier_port multiplier }
{
    if multiplier >= NO_MULTIPLIER {
        0
    } else {
        multiplier
    }
}

/// Whether the node is of this namespace of NVM Express.
fn is_nvme(told: u32, told_eui: &[u8], node: &Node) -> bool
    ensures { result ≡ is_nvme told told_eui.now node.now }
{
    match node {
        Node::Nvme { namespace, eui } => *namespace == told && is_same_eui(told_eui, eui),
        _ => false,
    }
}

/// Whether a node with this EUI-64 may be of a namespace with that one: it has none if it is zero.
fn is_same_eui(told: &[u8], eui: &[u8]) -> bool
    ensures { result ≡ is_same_eui told.now eui.now }
{
    is_zero(eui) || eui == told
}

fn is_zero(eui: &[u8]) -> bool
    ensures { result ≡ list_all (λ byte. byte == 0) eui.now }
{
    eui.iter().all(|byte| *byte == 0)
}

/// Whether the node is of a USB device at this port.
fn is_usb(told_port: u8, told_interface: u8, node: &Node) -> bool
    ensures { result ≡ is_usb told_port told_interface node.now }
{
    match node {
        Node::Usb { port, interface } => *port == told_port && *interface == told_interface,
        _ => false,
    }
}

/// Whether a partition may have a FAT file system of which udev tells this type of the file system, and this type of the
/// partition, if it tells them. If it tells no file system, an EFI system partition still may.
pub(crate) fn may_be_fat(file_system: Option<&[u8]>, kind: Option<&[u8]>) -> bool
    ensures { result ≡ may_be_fat (option_map (λ text. text.now) file_system.entry) (option_map (λ text. text.now) kind.entry) }
{
    match (file_system, kind) {
        (Some(name), _) => is_fat_name(name),
        (None, Some(kind)) => is_system_type(kind),
        (None, None) => true,
    }
}

fn is_fat_name(name: &[u8]) -> bool
    ensures { result ≡ is_fat_name name.now }
{
    name == FAT
}

fn is_system_type(kind: &[u8]) -> bool
    ensures { result ≡ is_system_type kind.now }
{
    kind == SYSTEM_GPT || kind == SYSTEM_MBR
}
