//! What a partition is known by.

ghost use Rattle.std.specs.Prelude.{◌≡◌, Some, IfSome};
ghost use Rattle.partitions.specs.declared.partition_id.PartitionId.{PartitionId};
ghost use Rattle.partitions.specs.PartitionId.{IsPartitionId, mbr_id_of, id_of_node, signed};

use crate::cut::cut;
use crate::number::{HEXADECIMAL, number_u32};
use uefi_path::{Guid, HardDriveNode};
use uefi_text::read_guid;

/// How many digits a signature has.
const SIGNATURE_LEN: usize = 8;

/// How many digits the number of a partition has at least.
const NUMBER_LEN_MIN: usize = 2;

/// How many digits the number of a partition has at most.
const NUMBER_LEN_MAX: usize = 8;

/// What a partition is known by, as Linux calls PARTUUID.
#[derive(Clone, Copy, Debug, PartialEq, Eq)]
pub enum PartitionId {
    /// The identifier that a GUID partition table has of it (UEFI 2.10, 5.3.3).
    Gpt(Guid),
    /// What a master boot record has (UEFI 2.10, 5.2.1).
    Mbr {
        /// The signature of the disk.
        signature: u32,
        /// The number of the partition.
        number: u32,
    },
}

impl PartitionId {
    /// What the partition is known by that a node is of (UEFI 2.10, 10.3.5.1): the GUID that is its signature, or the first
    /// four bytes of the signature with the number of the partition. `None` if the node has neither, or if those bytes are
    /// zero, which many disks have in the place of a signature.
    pub fn from_node(node: &HardDriveNode) -> Option<PartitionId>
        ensures { result ≡ id_of_node node.now }
    {
        let signature = *node.signature();
        match node.signature_kind() {
            HardDriveNode::SIGNATURE_GUID => Some(PartitionId::Gpt(Guid(signature))),
            HardDriveNode::SIGNATURE_MBR => {
                let [a, b, c, d, ..] = signature;
                signed(u32::from_le_bytes([a, b, c, d]), node.partition())
            }
            _ => None,
        }
    }
}

/// What the partition of this number is known by in a master boot record of this signature, if that is one.
fn signed(signature: u32, number: u32) -> Option<PartitionId>
    ensures { result ≡ signed signature number }
{
    if signature == 0 {
        None
    } else {
        Some(PartitionId::Mbr { signature, number })
    }
}

/// What a partition is known by, of a PARTUUID: the text of a GUID (UEFI 2.10, appendix A), or eight hexadecimal digits, a
/// hyphen, and two to eight more, which are the signature of a master boot record and the number of a partition, both as
/// Linux prints them. Digits may be of either case. `None` for every other text.
pub fn read_partition_id(text: &str) -> Option<PartitionId>
    ensures found { IfSome result (λ id. IsPartitionId text.now id) }
    ensures only { (id : PartitionId) → IsPartitionId text.now id → result ≡ Some id }
{
    match read_guid(text) {
        Some(guid) => Some(PartitionId::Gpt(guid)),
        None => mbr_id(text.as_bytes()),
    }
}

/// What a partition of a master boot record is known by.
#[tactic(auto, unfolding(crate::specs::PartitionId::mbr_id_of))]
fn mbr_id(text: &[u8]) -> Option<PartitionId>
    ensures { result ≡ mbr_id_of text.now }
{
    let (first, second) = cut(text, b'-')?;
    let signature = number_u32(first, HEXADECIMAL)?;
    let number = number_u32(second, HEXADECIMAL)?;
    if first.len() == SIGNATURE_LEN && (NUMBER_LEN_MIN..=NUMBER_LEN_MAX).contains(&second.len()) {
        Some(PartitionId::Mbr { signature, number })
    } else {
        None
    }
}
