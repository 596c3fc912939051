//! Partitions, and the nodes of a path that they are.

ghost use Rattle.std.specs.Prelude.{◌≡◌, ◌*◌, ◌++◌, replicate, IfOk};
ghost use Rattle.partitions.specs.Partition.{node_of, node_at, mbr_node_at};

use crate::fault::PartitionFault;
use crate::partition_id::PartitionId;
use uefi_path::HardDriveNode;

/// How many bytes Linux counts by, where it tells of disks, whatever blocks a disk has.
pub const SECTOR_LEN: u64 = 512;

/// How many partitions a master boot record has itself, which are those that a node can be of (UEFI 2.10, 10.3.5.1).
const PRIMARY_COUNT: u32 = 4;

/// A partition, as /sys tells of it.
#[derive(Clone, Copy, Debug, PartialEq, Eq)]
pub struct Partition {
    /// What it is known by.
    pub id: PartitionId,
    /// Its number, from 1.
    pub number: u32,
    /// Where it begins on the disk, in units of [`SECTOR_LEN`] bytes.
    pub start: u64,
    /// How large it is, in units of [`SECTOR_LEN`] bytes.
    pub size: u64,
    /// How many bytes a logical block of the disk has.
    pub block_size: u64,
}

impl Partition {
    /// The node of the partition (UEFI 2.10, 10.3.5.1), whose start and size are in logical blocks.
    ///
    /// # Errors
    ///
    /// The first of these: [`PartitionFault::NoNumber`] if its number is zero, [`PartitionFault::BadBlockSize`] if the
    /// size of a block isn't a multiple of 512, or is zero, [`PartitionFault::UnevenStart`] and
    /// [`PartitionFault::UnevenSize`] if it doesn't begin and end where a block does,
    /// [`PartitionFault::OtherNumber`] if it is known by another number, and in a master boot record
    /// [`PartitionFault::NoSignature`] if the signature is zero, and [`PartitionFault::NotPrimary`] if the number is above 4.
    pub fn node(&self) -> Result<HardDriveNode, PartitionFault>
        ensures node { result ≡ node_of self.now }
        ensures whole_blocks { IfOk result (λ node.
            (node.start * self.now.block_size ≡ self.now.start * 512)
            × (node.size * self.now.block_size ≡ self.now.size * 512)) }
    {
        if self.number == 0 {
            return Err(PartitionFault::NoNumber);
        }
        if self.block_size == 0 || self.block_size % SECTOR_LEN != 0 {
            return Err(PartitionFault::BadBlockSize);
        }
        let sectors = self.block_size / SECTOR_LEN;
        if self.start % sectors != 0 {
            return Err(PartitionFault::UnevenStart);
        }
        if self.size % sectors != 0 {
            return Err(PartitionFault::UnevenSize);
        }
        self.node_at(self.start / sectors, self.size / sectors)
    }

    /// The node, with this start and this size.
    fn node_at(&self, start: u64, size: u64) -> Result<HardDriveNode, PartitionFault>
        ensures { result ≡ node_at self.now start size self.now.id }
    {
        match self.id {
            PartitionId::Gpt(guid) => Ok(HardDriveNode::new(
                self.number,
                start,
                size,
                guid.0,
                HardDriveNode::FORMAT_GPT,
                HardDriveNode::SIGNATURE_GUID,
            )),
            PartitionId::Mbr { signature, number } if number == self.number => {
                self.mbr_node_at(start, size, signature)
            }
            PartitionId::Mbr { .. } => Err(PartitionFault::OtherNumber),
        }
    }

    /// The node with this start and size in a master boot record of this signature.
    fn mbr_node_at(
        &self,
        start: u64,
        size: u64,
        signature: u32,
    ) -> Result<HardDriveNode, PartitionFault>
        ensures { result ≡ mbr_node_at self.now start size signature }
    {
        if signature == 0 {
            return Err(PartitionFault::NoSignature);
        }
        if self.number > PRIMARY_COUNT {
            return Err(PartitionFault::NotPrimary);
        }
        Ok(HardDriveNode::new(
            self.number,
            start,
            size,
            padded(signature.to_le_bytes()),
            HardDriveNode::FORMAT_MBR,
            HardDriveNode::SIGNATURE_MBR,
        ))
    }
}

/// The bytes of a signature in a master boot record, and zeros after them.
fn padded(signature: [u8; 4]) -> [u8; 16]
    ensures { result ≡ signature ++ replicate 12 0 }
{
    let [a, b, c, d] = signature;
    [a, b, c, d, 0, 0, 0, 0, 0, 0, 0, 0, 0, 0, 0, 0]
}
