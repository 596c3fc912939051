//! Where a path leads, as far as that can be looked at.

ghost use Rattle.std.specs.Prelude.{◌≡◌};
ghost use Rattle.std.specs.List.{list_any};
ghost use Rattle.std.specs.Option.{option_map, option_copied};
ghost use Rattle.entry_checks.specs.Target.{parts_of, target_of, target_of_nodes, partition_of, behind, without_partition, is_sought, lead_of, lead_of_first, lead_of_last, is_network, is_firmware, is_legacy, is_disk};

use crate::lead::Lead;
use uefi_path::{FileNode, HardDriveNode, Node, Path};

/// The type of nodes for hardware (UEFI 2.10, 10.3.2).
const HARDWARE: u8 = 1;
/// The type of nodes for messages (10.3.4).
const MESSAGING: u8 = 3;
/// The type of nodes for media (10.3.5).
const MEDIA: u8 = 4;
/// The type of nodes for a BIOS (10.3.6).
const BIOS: u8 = 5;

/// Where a path leads.
#[derive(Clone, Copy, Debug)]
pub enum Target<'a> {
    /// To a file on a partition.
    File(&'a HardDriveNode, &'a FileNode),
    /// To a partition, of which firmware chooses the file (UEFI 2.10, 3.5.1.1).
    Partition(&'a HardDriveNode),
    /// To a disk, by these nodes: firmware chooses a partition of it too (3.5.1.1).
    Disk(&'a [Node]),
    /// To something that isn't looked at.
    Unseen(Lead),
}

/// Where a path leads (UEFI 2.10, 10.3): to the first partition in it and a file there, whether the path begins with the
/// partition, as the short form does (3.1.2), or with the hardware.
pub fn path_target(path: &Path) -> Target<'_>
    ensures { parts_of result ≡ target_of path.now }
{
    match path.instances() {
        [nodes] => target_of_nodes(nodes),
        _ => Target::Unseen(Lead::Instances),
    }
}

/// Where a path of these nodes leads.
fn target_of_nodes(nodes: &[Node]) -> Target<'_>
    ensures { parts_of result ≡ target_of_nodes nodes.now }
{
    let mut rest = nodes;
    while let [node, others @ ..] = rest {
        if let Some(partition) = partition_of(node) {
            return behind(partition, others);
        }
        rest = others;
    }
    without_partition(nodes)
}

/// The partition that a node is, if it is one.
fn partition_of(node: &Node) -> Option<&HardDriveNode>
    ensures { option_map (λ partition. partition.now) result ≡ partition_of node.now }
{
    match node {
        Node::HardDrive(partition) => Some(partition),
        _ => None,
    }
}

/// Where a path leads that has this partition and these nodes behind it.
fn behind<'a>(partition: &'a HardDriveNode, nodes: &'a [Node]) -> Target<'a>
    ensures { parts_of result ≡ behind partition.now nodes.now }
{
    match nodes {
        [] => Target::Partition(partition),
        [Node::FilePath(name)] => Target::File(partition, name),
        _ => Target::Unseen(Lead::Onward),
    }
}

/// Where a path of these nodes leads, none of which is a partition: to a disk that can be sought, or to something that
/// isn't looked at.
fn without_partition(nodes: &[Node]) -> Target<'_>
    ensures { parts_of result ≡ without_partition nodes.now }
{
    match lead(nodes) {
        Lead::Disk if is_sought(nodes.last()) => Target::Disk(nodes),
        found => Target::Unseen(found),
    }
}

/// Whether a path that ends with this node leads to a disk that is sought by its path: one on SATA, NVM Express or USB.
fn is_sought(last: Option<&Node>) -> bool
    ensures { result ≡ is_sought (option_copied last.entry) }
{
    matches!(
        last,
        Some(Node::Sata { .. } | Node::Nvme { .. } | Node::Usb { .. })
    )
}

/// Where a path of these nodes leads, none of which is a partition, if it leads to no disk that is sought.
fn lead(nodes: &[Node]) -> Lead
    ensures { result ≡ lead_of nodes.now }
{
    if has_network(nodes) {
        Lead::Network
    } else if has_firmware(nodes) {
        Lead::Firmware
    } else if has_legacy(nodes) {
        Lead::Legacy
    } else {
        first_lead(nodes)
    }
}

/// Where a path of these nodes leads that leads neither over a network nor into the firmware, and is for no BIOS.
fn first_lead(nodes: &[Node]) -> Lead
    ensures { result ≡ lead_of_first nodes.now }
{
    match nodes {
        [Node::FilePath(_), ..] => Lead::FileAlone,
        _ => last_lead(nodes.last()),
    }
}

/// Where a path leads that ends with this node, and begins with no file.
fn last_lead(last: Option<&Node>) -> Lead
    ensures { result ≡ lead_of_last (option_copied last.entry) }
{
    match last {
        Some(node) if is_disk(node) => Lead::Disk,
        _ => Lead::Device,
    }
}

fn has_network(nodes: &[Node]) -> bool
    ensures { result ≡ list_any is_network nodes.now }
{
    nodes.iter().any(is_network)
}

fn has_firmware(nodes: &[Node]) -> bool
    ensures { result ≡ list_any is_firmware nodes.now }
{
    nodes.iter().any(is_firmware)
}

fn has_legacy(nodes: &[Node]) -> bool
    ensures { result ≡ list_any is_legacy nodes.now }
{
    nodes.iter().any(is_legacy)
}

/// Whether the node leads over a network: an InfiniBand, MAC, IPv4 or IPv6 address, a URI, a name server, or a Wi-Fi network
/// (UEFI 2.10, 10.3.4).
fn is_network(node: &Node) -> bool
    ensures { result ≡ is_network node.now }
{
    node.kind() == MESSAGING && matches!(node.sub(), 9 | 11..=13 | 24 | 28 | 31)
}

/// Whether the node leads into the firmware's own memory: a mapped one (UEFI 2.10, 10.3.2.3), or a volume or a file of the
/// firmware (10.3.5.6 and 10.3.5.7).
fn is_firmware(node: &Node) -> bool
    ensures { result ≡ is_firmware node.now }
{
    match node.kind() {
        HARDWARE => node.sub() == 3,
        MEDIA => matches!(node.sub(), 6..=7),
        _ => false,
    }
}

/// Whether the node is a disk or a medium for one: by ATAPI, SCSI, Fibre Channel, USB, a logical unit, SATA, SAS, NVM
/// Express, UFS, SD or eMMC (UEFI 2.10, 10.3.4), or a CD-ROM's image (10.3.5.2).
fn is_disk(node: &Node) -> bool
    ensures { result ≡ is_disk node.now }
{
    match node.kind() {
        MESSAGING => matches!(node.sub(), 1..=3 | 5 | 15..=18 | 21..=23 | 25..=26 | 29),
        MEDIA => node.sub() == 2,
        _ => false,
    }
}

/// Whether the node is one for a BIOS (UEFI 2.10, 10.3.6).
fn is_legacy(node: &Node) -> bool
    ensures { result ≡ is_legacy node.now }
{
    node.kind() == BIOS
}
