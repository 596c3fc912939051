//! Partitions of hard drives.

ghost use Rattle.std.specs.Prelude.{◌≡◌, ◌≤◌, ◌++◌, length, OnOk, OnErr};
ghost use Rattle.std.specs.List.{concat};
ghost use Rattle.uefi_path.specs.Standard.{body_max};
ghost use Rattle.uefi_path.specs.Reader.{hard_drive_at};
ghost use Rattle.uefi_path.specs.Writer.{Extends};
ghost use Rattle.uefi_path.specs.Parts.{AreHardDriveParts, hard_drive_parts, hard_drive_fields};

use crate::fields::{NodeBytes, bytes_at, field, octets, u8_at, u32_at, u64_at};
use crate::generic::{BODY_MAX, HEADER_LEN};
use std::alloc::AllocError;
use std::marker::Model;

/// A partition of a hard drive (UEFI 2.10, 10.3.5.1).
#[derive(Clone, Copy, Debug, PartialEq, Eq, Hash)]
pub struct HardDriveNode {
    // The widest fields come first, so that there are no gaps between them: this is the largest case of `Node`.
    start: u64,
    size: u64,
    partition: u32,
    signature: [u8; 16],
    format: u8,
    signature_kind: u8,
}

impl Model for HardDriveNode {
    ghost use Rattle.uefi_path.specs.Parts.{HardDriveParts, hard_drive_parts, AreHardDriveParts};

    ghost Value = { HardDriveParts };

    ghost view = { λ node. hard_drive_parts node.partition node.start node.size node.signature node.format node.signature_kind };

    ghost invariant = { λ node. AreHardDriveParts (hard_drive_parts node.partition node.start node.size node.signature node.format node.signature_kind) };

    ghost inverse = { λ parts. record {
      partition = parts.partition;
      start = parts.start;
      size = parts.size;
      signature = parts.signature;
      format = parts.format;
      signature_kind = parts.signature_kind;
    } };
}

impl HardDriveNode {
    /// The format of a partition table in the master boot record.
    pub const FORMAT_MBR: u8 = 1;

    /// The format of a GUID partition table.
    pub const FORMAT_GPT: u8 = 2;

    /// The type of a signature when there is none.
    pub const SIGNATURE_NONE: u8 = 0;

    /// The type of a signature of 32 bits, that of the drive in its master boot record.
    pub const SIGNATURE_MBR: u8 = 1;

    /// The type of a signature that is a GUID, that of the partition.
    pub const SIGNATURE_GUID: u8 = 2;

    /// A node of these parts (UEFI 2.10, 10.3.5.1): the number of the partition, its first logical
    /// block and how many it has, the signature, the format of the partition table and what the
    /// signature is.
    pub fn new(
        partition: u32,
        start: u64,
        size: u64,
        signature: [u8; 16],
        format: u8,
        signature_kind: u8,
    ) -> HardDriveNode
        ensures made { result ≡ hard_drive_parts partition start size signature format signature_kind }
        ensures valid { AreHardDriveParts result }
    {
        HardDriveNode {
            partition,
            start,
            size,
            signature: octets(signature),
            format,
            signature_kind,
        }
    }

    /// The node that has these bytes.
    #[inline(always)]
    pub(crate) fn from_bytes(body: &[u8]) -> HardDriveNode
        requires { length body.now ≡ 38 }
        ensures { result ≡ hard_drive_at body.now }
    {
        HardDriveNode::new(
            u32_at(body, 0),
            u64_at(body, 4),
            u64_at(body, 12),
            bytes_at(body, 20),
            u8_at(body, 36),
            u8_at(body, 37),
        )
    }

    /// The number of the partition, counted from 1; 0 stands for the whole drive.
    pub fn partition(&self) -> u32
        ensures value { result ≡ self.now.partition }
        ensures valid { AreHardDriveParts self.now }
    {
        self.partition
    }

    /// The first logical block, counted from the start of the drive.
    pub fn start(&self) -> u64
        ensures value { result ≡ self.now.start }
        ensures valid { AreHardDriveParts self.now }
    {
        self.start
    }

    /// How many logical blocks the partition has.
    pub fn size(&self) -> u64
        ensures value { result ≡ self.now.size }
        ensures valid { AreHardDriveParts self.now }
    {
        self.size
    }

    /// The signature, whose meaning `signature_kind` tells.
    pub fn signature(&self) -> &[u8; 16]
        ensures bytes { result.now ≡ self.now.signature }
        ensures valid { AreHardDriveParts self.now }
    {
        &self.signature
    }

    /// The format of the partition table: [`HardDriveNode::FORMAT_MBR`] or [`HardDriveNode::FORMAT_GPT`]. Other
    /// values are kept.
    pub fn format(&self) -> u8
        ensures value { result ≡ self.now.format }
        ensures valid { AreHardDriveParts self.now }
    {
        self.format
    }

    /// What the signature is: [`HardDriveNode::SIGNATURE_NONE`], [`HardDriveNode::SIGNATURE_MBR`] in
    /// the first four bytes, or [`HardDriveNode::SIGNATURE_GUID`]. Other values are kept.
    pub fn signature_kind(&self) -> u8
        ensures value { result ≡ self.now.signature_kind }
        ensures valid { AreHardDriveParts self.now }
    {
        self.signature_kind
    }

    /// An equal node.
    pub(crate) fn copied(&self) -> HardDriveNode
        ensures equal { result ≡ self.now }
        ensures valid { AreHardDriveParts self.now }
    {
        HardDriveNode {
            partition: self.partition,
            start: self.start,
            size: self.size,
            signature: self.signature,
            format: self.format,
            signature_kind: self.signature_kind,
        }
    }

    /// How many bytes the fields take.
    pub(crate) fn data_len(&self) -> usize
        ensures len { result ≡ length (concat (hard_drive_fields self.now)) }
        ensures bound { result ≤ body_max }
    {
        20 + field(&self.signature).len() + 2
    }

    /// Appends the header and the fields in their order.
    pub(crate) fn append(
        &self,
        header: [u8; HEADER_LEN],
        out: &mut Vec<u8>,
    ) -> Result<(), AllocError>
        ensures valid { OnOk result (AreHardDriveParts self.now) }
        ensures ok { OnOk result (out.new.items ≡ out.old.items ++ (header ++ concat (hard_drive_fields self.now))) }
        ensures err { OnErr result (Extends out.old.items out.new.items) }
    {
        let mut node = NodeBytes::<42>::new(header);
        node.put(&self.partition.to_le_bytes());
        node.put(&self.start.to_le_bytes());
        node.put(&self.size.to_le_bytes());
        node.put(&self.signature);
        node.put(&self.format.to_le_bytes());
        node.put(&self.signature_kind.to_le_bytes());
        node.append_to(out)
    }
}
