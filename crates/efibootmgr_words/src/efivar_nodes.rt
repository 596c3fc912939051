//! Nodes with a case of their own, as libefivar prints them.

ghost use Rattle.std.specs.Prelude.{◌≡◌, take};
ghost use Rattle.std.specs.Fmt.{WritesOnOk};
ghost use Rattle.std.specs.Int.{w32, from_le_bytes};
ghost use Rattle.uefi_text.specs.Segment.{segment_text};
ghost use Rattle.efibootmgr_words.specs.Nodes.{acpi_segment, mac_segment, hard_drive_segment};

use crate::efivar_vendors::{vendor_hardware, vendor_messaging};
use std::fmt;
use uefi_path::{Guid, HardDriveNode, Node, PCI_ROOT_HID, PCIE_ROOT_HID, field};
use uefi_text::{DigitsText, GuidText, NodeText, NumberText};

/// The `_HID` of a keyboard, PNP0301, as a compressed EISA identifier.
const KEYBOARD_HID: u32 = 0x0301_41d0;

/// The `_HID` of a serial port, PNP0501, as a compressed EISA identifier.
const SERIAL_HID: u32 = 0x0501_41d0;

/// The `_HID` of a floppy disk, PNP0604, as a compressed EISA identifier.
const FLOPPY_HID: u32 = 0x0604_41d0;

/// The bytes of an address of Ethernet.
const ETHERNET_LEN: usize = 6;

/// A node as libefivar prints it, but for a file and what is kept as bytes: these are as they are printed exactly.
#[derive(Clone, Copy)]
pub(crate) struct EfivarNode<'a>(pub(crate) &'a Node);

impl fmt::Display for EfivarNode<'_> {
    ghost use Rattle.std.specs.Prelude.{Some};
    ghost use Rattle.efibootmgr_words.specs.Nodes.{own_text};

    ghost output = { λ text. Some (own_text text.0.now) };

    fn fmt<W: fmt::Write>(&self, f: &mut fmt::Formatter<W>) -> fmt::Result {
        match self.0 {
            Node::VendorHw(vendor) => vendor_hardware(f, self.0, vendor),
            Node::Acpi { hid, uid } => acpi(f, *hid, *uid),
            Node::Usb { port, interface } => write!(f, "USB({port},{interface})"),
            Node::VendorMsg(vendor) => vendor_messaging(f, self.0, vendor),
            Node::Mac { address, if_kind } => mac(f, address, *if_kind),
            Node::Sata {
                hba,
                multiplier,
                lun,
            } => write!(f, "Sata({hba},{multiplier},{lun})"),
            Node::Vlan { id } => write!(f, "Vlan({id})"),
            Node::Nvme { namespace, eui } => {
                let namespace = NumberText(u64::from(*namespace));
                write!(f, "NVMe({namespace},{})", UpperEui(eui))
            }
            Node::HardDrive(drive) => hard_drive(f, drive),
            Node::Cdrom { entry, start, size } => {
                let entry = entry.cast_signed();
                let start = NumberText(*start);
                let size = NumberText(*size);
                write!(f, "CDROM({entry},{start},{size})")
            }
            node => write!(f, "{}", NodeText(node)),
        }
    }
}

fn acpi<W: fmt::Write>(f: &mut fmt::Formatter<W>, hid: u32, uid: u32) -> fmt::Result
    ensures { WritesOnOk W.write_str_gives f.old result (segment_text (acpi_segment hid uid)) f.new }
{
    let number = NumberText(u64::from(uid));
    match hid {
        PCI_ROOT_HID => write!(f, "PciRoot({number})"),
        PCIE_ROOT_HID => write!(f, "PcieRoot({number})"),
        KEYBOARD_HID => write!(f, "Keyboard({number})"),
        SERIAL_HID => write!(f, "Serial({number})"),
        FLOPPY_HID => write!(f, "Floppy({number})"),
        _ => write!(f, "Acpi(0x{},{number})", DigitsText(&hid.to_be_bytes())),
    }
}

fn mac<W: fmt::Write>(f: &mut fmt::Formatter<W>, address: &[u8; 32], if_kind: u8) -> fmt::Result
    ensures { WritesOnOk W.write_str_gives f.old result (segment_text (mac_segment address.now if_kind)) f.new }
{
    let (front, _) = address.split_at(ETHERNET_LEN);
    if if_kind <= 1 {
        return write!(f, "MAC({},{if_kind})", DigitsText(front));
    }
    write!(f, "MAC({},{if_kind})", DigitsText(address))
}

fn hard_drive<W: fmt::Write>(f: &mut fmt::Formatter<W>, drive: &HardDriveNode) -> fmt::Result
    ensures { WritesOnOk W.write_str_gives f.old result (segment_text (hard_drive_segment drive.now)) f.new }
{
    let partition = drive.partition().cast_signed();
    let signature = drive.signature();
    let start = NumberText(drive.start());
    let size = NumberText(drive.size());
    match drive.signature_kind() {
        HardDriveNode::SIGNATURE_MBR => {
            let number = NumberText(u64::from(mbr_number(signature)));
            write!(f, "HD({partition},MBR,{number},{start},{size})")
        }
        HardDriveNode::SIGNATURE_GUID => {
            let guid = Guid(*signature);
            write!(f, "HD({partition},GPT,{},{start},{size})", GuidText(&guid))
        }
        kind => {
            let digits = DigitsText(signature);
            write!(f, "HD({partition},{kind},{digits},{start},{size})")
        }
    }
}

/// The number that a signature of a master boot record is: its first four bytes.
fn mbr_number(signature: &[u8; 16]) -> u32
    ensures { result ≡ from_le_bytes w32 (take 4 signature.now) }
{
    let _ = field(signature);
    let [a, b, c, d, ..] = *signature;
    u32::from_le_bytes([a, b, c, d])
}

/// The bytes of an EUI-64 in upper case, with a hyphen between two.
#[derive(Clone, Copy)]
struct UpperEui<'a>(&'a [u8; 8]);

impl fmt::Display for UpperEui<'_> {
    ghost use Rattle.std.specs.Prelude.{Some};
    ghost use Rattle.efibootmgr_words.specs.Nodes.{upper_eui_text};

    ghost output = { λ eui. Some (upper_eui_text eui.0.now) };

    fn fmt<W: fmt::Write>(&self, f: &mut fmt::Formatter<W>) -> fmt::Result {
        let _ = field(self.0);
        let [a, b, c, d, e, g, h, i] = *self.0;
        let (a, b, c, d) = (UpperByte(a), UpperByte(b), UpperByte(c), UpperByte(d));
        let (e, g, h, i) = (UpperByte(e), UpperByte(g), UpperByte(h), UpperByte(i));
        write!(f, "{a}-{b}-{c}-{d}-{e}-{g}-{h}-{i}")
    }
}

/// A byte, as two upper-case hexadecimal digits.
#[derive(Clone, Copy)]
struct UpperByte(u8);

impl fmt::Display for UpperByte {
    ghost use Rattle.std.specs.Prelude.{Some, true};
    ghost use Rattle.uefi_text.specs.Bytes.{pair_text};

    ghost output = { λ byte. Some (pair_text true byte.0) };

    fn fmt<W: fmt::Write>(&self, f: &mut fmt::Formatter<W>) -> fmt::Result {
        let byte = self.0;
        write!(f, "{byte:02X}")
    }
}
