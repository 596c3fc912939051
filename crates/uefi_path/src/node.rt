//! The nodes of a path.

ghost use Rattle.std.specs.Prelude.{◌≡◌, IfOk, OnOk};
ghost use Rattle.uefi_path.specs.Node.{row_of, IsNode};

use crate::fields::{field, octets};
use crate::file::FileNode;
use crate::hard_drive::HardDriveNode;
use crate::ipv4::Ipv4Node;
use crate::other::OtherNode;
use crate::uri::UriNode;
use crate::vendor::Vendor;
use std::alloc::{AllocError, Global};

/// The `_HID` of the root of a PCI bus, PNP0A03, as a compressed EISA identifier.
pub const PCI_ROOT_HID: u32 = 0x0a03_41d0;

/// The `_HID` of the root of a PCI Express bus, PNP0A08, as a compressed EISA identifier.
pub const PCIE_ROOT_HID: u32 = 0x0a08_41d0;

/// A node of a device path (UEFI 2.10, 10.3).
#[derive(Debug, Drop, PartialEq, Eq)]
pub enum Node {
    /// A PCI function (10.3.2.1).
    Pci {
        /// The function on the device.
        function: u8,
        /// The device on the bus.
        device: u8,
    },
    /// Hardware that a vendor defines (10.3.2.4).
    VendorHw(Vendor),
    /// A device of the ACPI name space (10.3.3).
    Acpi {
        /// The hardware identifier, `_HID`, as a compressed EISA identifier.
        hid: u32,
        /// The unique identifier, `_UID`.
        uid: u32,
    },
    /// A USB device (10.3.4.5).
    Usb {
        /// The port of the parent.
        port: u8,
        /// The interface of the device.
        interface: u8,
    },
    /// Messaging that a vendor defines (10.3.4.17).
    VendorMsg(Vendor),
    /// A MAC address (10.3.4.11).
    Mac {
        /// The address, mostly six bytes with zeros after them.
        address: [u8; 32],
        /// The type of the network interface, such as 1 for Ethernet.
        if_kind: u8,
    },
    /// An IPv4 connection (10.3.4.12).
    Ipv4(Ipv4Node),
    /// A SATA device (10.3.4.6).
    Sata {
        /// The port of the host bus adapter.
        hba: u16,
        /// The port of the multiplier, or 0xFFFF if there is none.
        multiplier: u16,
        /// The logical unit.
        lun: u16,
    },
    /// A virtual local network (10.3.4.14).
    Vlan {
        /// The identifier of the network.
        id: u16,
    },
    /// A namespace of NVM Express (10.3.4).
    Nvme {
        /// The identifier of the namespace.
        namespace: u32,
        /// The EUI-64, in stored order.
        eui: [u8; 8],
    },
    /// A URI (10.3.4).
    Uri(UriNode),
    /// A partition of a hard drive (10.3.5.1).
    HardDrive(HardDriveNode),
    /// A boot entry of a CD-ROM (10.3.5.2).
    Cdrom {
        /// The number of the boot entry in the boot catalog.
        entry: u32,
        /// The first block of the partition on the medium.
        start: u64,
        /// How many blocks the partition has.
        size: u64,
    },
    /// A medium that a vendor defines (10.3.5.3).
    VendorMedia(Vendor),
    /// A file of a file system (10.3.5.4).
    FilePath(FileNode),
    /// Any other node, kept as bytes.
    Other(OtherNode),
}

impl Node {
    /// The type, the first byte of the node (UEFI 2.10, 10.3.1).
    pub fn kind(&self) -> u8
        ensures { result ≡ (row_of self.now).kind }
    {
        self.shape().kind
    }

    /// The sub-type, the second byte of the node (UEFI 2.10, 10.3.1).
    pub fn sub(&self) -> u8
        ensures { result ≡ (row_of self.now).sub }
    {
        self.shape().sub
    }

    /// Looks at each field, for the contract alone: what a field's type keeps is known when the field is looked at.
    pub(crate) fn look(&self)
        ensures { IsNode self.now }
    {
        match self {
            Node::Pci { function, device } => {
                let _ = (*function, *device);
            }
            Node::VendorHw(vendor) | Node::VendorMsg(vendor) | Node::VendorMedia(vendor) => {
                let _ = vendor.body();
            }
            Node::Acpi { hid, uid } => {
                let _ = (*hid, *uid);
            }
            Node::Usb { port, interface } => {
                let _ = (*port, *interface);
            }
            Node::Mac { address, if_kind } => {
                let _ = field(address);
                let _if_kind = *if_kind;
            }
            Node::Ipv4(node) => {
                let _ = node.local();
            }
            Node::Sata {
                hba,
                multiplier,
                lun,
            } => {
                let _ = (*hba, *multiplier, *lun);
            }
            Node::Vlan { id } => {
                let _id = *id;
            }
            Node::Nvme { namespace, eui } => {
                let _namespace = *namespace;
                let _ = field(eui);
            }
            Node::Uri(node) => {
                let _ = node.bytes();
            }
            Node::HardDrive(node) => {
                let _ = node.signature();
            }
            Node::Cdrom { entry, start, size } => {
                let _ = (*entry, *start, *size);
            }
            Node::FilePath(node) => {
                let _ = node.units();
            }
            Node::Other(other) => {
                let _ = other.body();
            }
        }
    }

    /// An equal node. This fails only when out of memory.
    pub fn copy(&self, alloc: Global) -> Result<Node, AllocError>
        ensures equal { IfOk result (λ node. node ≡ self.now) }
        ensures valid { OnOk result (IsNode self.now) }
    {
        Ok(match self {
            Node::Pci { function, device } => Node::Pci {
                function: *function,
                device: *device,
            },
            Node::VendorHw(vendor) => Node::VendorHw(vendor.copy(alloc)?),
            Node::Acpi { hid, uid } => Node::Acpi {
                hid: *hid,
                uid: *uid,
            },
            Node::Usb { port, interface } => Node::Usb {
                port: *port,
                interface: *interface,
            },
            Node::VendorMsg(vendor) => Node::VendorMsg(vendor.copy(alloc)?),
            Node::Mac { address, if_kind } => Node::Mac {
                address: octets(*address),
                if_kind: *if_kind,
            },
            Node::Ipv4(node) => Node::Ipv4(node.copied()),
            Node::Sata {
                hba,
                multiplier,
                lun,
            } => Node::Sata {
                hba: *hba,
                multiplier: *multiplier,
                lun: *lun,
            },
            Node::Vlan { id } => Node::Vlan { id: *id },
            Node::Nvme { namespace, eui } => Node::Nvme {
                namespace: *namespace,
                eui: octets(*eui),
            },
            Node::Uri(node) => Node::Uri(node.copy(alloc)?),
            Node::HardDrive(node) => Node::HardDrive(node.copied()),
            Node::Cdrom { entry, start, size } => Node::Cdrom {
                entry: *entry,
                start: *start,
                size: *size,
            },
            Node::VendorMedia(vendor) => Node::VendorMedia(vendor.copy(alloc)?),
            Node::FilePath(node) => Node::FilePath(node.copy(alloc)?),
            Node::Other(other) => Node::Other(other.copy(alloc)?),
        })
    }
}
