//! The printed text of a node.

ghost use Rattle.std.specs.Prelude.{◌≡◌, ◌≤◌, ◌<◌, ◌^◌, ◌+◌, ◌*◌, ℕ, length, codes, flat_map};
ghost use Rattle.std.specs.List.{list_all, AllByRecursion};
ghost use Rattle.std.specs.Fmt.{WritesOnOk};
ghost use Rattle.uefi_path.specs.declared.node.Node.TheVariants as nodes;
ghost use Rattle.uefi_path.specs.Parts.{name_bytes};
ghost use Rattle.uefi_path.specs.Row.{row};
ghost use Rattle.uefi_path.specs.Node.{row_of};
ghost use Rattle.std.specs.Int.{w32, from_le_bytes};
ghost use Rattle.uefi_text.specs.Guid.{guid_text};
ghost use Rattle.uefi_text.specs.Segment.{segment_text};
ghost use Rattle.uefi_text.specs.Printed.{segment_of, generic_segment, vendor_segment, acpi_segment, hid_text, is_plain_mac, is_plain_ipv4, is_plain_from, partition_segment, eight_digits, are_zero, is_gpt, is_mbr, is_hd_or_file};

use crate::guid::GuidText;
use crate::print_parts::{
    Address, Digits, Eui, Fields, Name, NameDigits, Number, OptionalData, Plain, UpperByte,
};
use std::fmt;
use uefi_path::{
    FileNode, Guid, HardDriveNode, Ipv4Node, Node, PCI_ROOT_HID, PCIE_ROOT_HID, UriNode, Vendor,
};

/// The low half of each hardware identifier that begins with PNP.
pub(crate) const PNP: u32 = 0x41d0;

/// The bytes of a MAC address that its text has.
pub(crate) const MAC_LEN: usize = 6;

/// The bytes of a partition's signature that a master boot record has.
pub(crate) const MBR_SIGNATURE_LEN: usize = 4;

/// The lowest byte of a URI that is printed as it is.
pub(crate) const URI_LOW: u8 = 0x21;

/// The lowest unit of a path name that is printed as it is.
pub(crate) const NAME_LOW: u8 = 0x20;

/// A node that is written by `{}`, as [`path_text`](crate::path_text) has it: in the form of its type if it has one,
/// otherwise as a `Path` of its type, its sub-type and its data.
#[derive(Clone, Copy, Debug)]
pub struct NodeText<'a>(pub &'a Node);

impl fmt::Display for NodeText<'_> {
    ghost use Rattle.std.specs.Prelude.{Some};
    ghost use Rattle.uefi_text.specs.Printed.{node_text};

    ghost output = { λ text. Some (node_text text.0.now) };

    fn fmt<W: fmt::Write>(&self, f: &mut fmt::Formatter<W>) -> fmt::Result {
        match self.0 {
            Node::Pci { function, device } => {
                let device = Number(u64::from(*device));
                let function = Number(u64::from(*function));
                write!(f, "Pci({device},{function})")
            }
            Node::VendorHw(vendor) => vendor_node(f, "VenHw", vendor),
            Node::Acpi { hid, uid } => acpi(f, *hid, *uid),
            Node::Usb { port, interface } => {
                let port = Number(u64::from(*port));
                let interface = Number(u64::from(*interface));
                write!(f, "USB({port},{interface})")
            }
            Node::VendorMsg(vendor) => vendor_node(f, "VenMsg", vendor),
            Node::Mac { address, if_kind } => mac(f, address, *if_kind),
            Node::Ipv4(node) => ipv4(f, node),
            Node::Sata {
                hba,
                multiplier,
                lun,
            } => {
                let hba = Number(u64::from(*hba));
                let multiplier = Number(u64::from(*multiplier));
                let lun = Number(u64::from(*lun));
                write!(f, "Sata({hba},{multiplier},{lun})")
            }
            Node::Vlan { id } => {
                let id = Number(u64::from(*id));
                write!(f, "Vlan({id})")
            }
            Node::Nvme { namespace, eui } => {
                let namespace = Number(u64::from(*namespace));
                let eui = Eui(eui);
                write!(f, "NVMe({namespace},{eui})")
            }
            Node::Uri(node) => uri(f, node),
            Node::HardDrive(node) => hard_drive(f, node),
            Node::Cdrom { entry, start, size } => {
                let entry = Number(u64::from(*entry));
                let start = Number(*start);
                let size = Number(*size);
                write!(f, "CDROM({entry},{start},{size})")
            }
            Node::VendorMedia(vendor) => vendor_node(f, "VenMedia", vendor),
            Node::FilePath(node) => file(f, node),
            Node::Other(node) => generic(f, node.kind(), node.sub(), node.body()),
        }
    }
}

/// Writes a node without a form of its own.
fn generic<W: fmt::Write>(f: &mut fmt::Formatter<W>, kind: u8, sub: u8, body: &[u8]) -> fmt::Result
    ensures { WritesOnOk W.write_str_gives f.old result
        (segment_text (generic_segment (row kind sub body.now))) f.new }
{
    let kind = Number(u64::from(kind));
    let sub = Number(u64::from(sub));
    let data = OptionalData(body);
    write!(f, "Path({kind},{sub}{data})")
}

fn vendor_node<W: fmt::Write>(f: &mut fmt::Formatter<W>, name: &str, vendor: &Vendor) -> fmt::Result
    ensures { WritesOnOk W.write_str_gives f.old result
        (segment_text (vendor_segment name.now vendor.now)) f.new }
{
    let guid = GuidText(vendor.guid());
    let data = OptionalData(vendor.body());
    write!(f, "{name}({guid}{data})")
}

fn acpi<W: fmt::Write>(f: &mut fmt::Formatter<W>, hid: u32, uid: u32) -> fmt::Result
    ensures { WritesOnOk W.write_str_gives f.old result (segment_text (acpi_segment hid uid)) f.new }
{
    let uid = Number(u64::from(uid));
    match hid {
        PCI_ROOT_HID => write!(f, "PciRoot({uid})"),
        PCIE_ROOT_HID => write!(f, "PcieRoot({uid})"),
        _ => {
            let hid = Hid(hid);
            write!(f, "Acpi({hid},{uid})")
        }
    }
}

/// A hardware identifier (UEFI 2.10, 10.3.3) that is written by `{}`: `PNP` and four upper-case digits if its low half is
/// that of such an identifier, otherwise all its eight digits.
#[derive(Clone, Copy, Debug)]
pub struct Hid(pub u32);

impl fmt::Display for Hid {
    ghost use Rattle.std.specs.Prelude.{Some};
    ghost use Rattle.uefi_text.specs.Printed.{hid_text};

    ghost output = { λ hid. Some (hid_text hid.0) };

    fn fmt<W: fmt::Write>(&self, f: &mut fmt::Formatter<W>) -> fmt::Result {
        let hid = self.0;
        if hid % 0x1_0000 != PNP {
            return eight_digits(f, hid);
        }
        let [high, low] = ((hid / 0x1_0000) as u16).to_be_bytes();
        let (high, low) = (UpperByte(high), UpperByte(low));
        write!(f, "PNP{high}{low}")
    }
}

/// Writes all eight digits of a number.
fn eight_digits<W: fmt::Write>(f: &mut fmt::Formatter<W>, number: u32) -> fmt::Result
    ensures { WritesOnOk W.write_str_gives f.old result (eight_digits number) f.new }
{
    let digits = number.to_be_bytes();
    let digits = Digits(&digits);
    write!(f, "0x{digits}")
}

fn mac<W: fmt::Write>(f: &mut fmt::Formatter<W>, address: &[u8; 32], if_kind: u8) -> fmt::Result
    ensures { WritesOnOk W.write_str_gives f.old result
        (segment_text (segment_of (nodes.Mac address.now if_kind))) f.new }
{
    let (front, behind) = address.split_at(MAC_LEN);
    if if_kind <= 1 && are_zero(behind) {
        let address = Digits(front);
        let if_kind = Number(u64::from(if_kind));
        return write!(f, "MAC({address},{if_kind})");
    }
    fields(f, 3, 11, &[address, &[if_kind]])
}

/// Writes a node without a form of its own whose data is these fields.
fn fields<W: fmt::Write>(
    f: &mut fmt::Formatter<W>,
    kind: u8,
    sub: u8,
    fields: &[&[u8]],
) -> fmt::Result
    requires { 0 < length (flat_map (λ field. field.now) fields.now) }
    ensures { WritesOnOk W.write_str_gives f.old result
        (segment_text (generic_segment (row kind sub (flat_map (λ field. field.now) fields.now)))) f.new }
{
    let kind = Number(u64::from(kind));
    let sub = Number(u64::from(sub));
    let fields = Fields(fields);
    write!(f, "Path({kind},{sub},{fields})")
}

fn ipv4<W: fmt::Write>(f: &mut fmt::Formatter<W>, node: &Ipv4Node) -> fmt::Result
    ensures { WritesOnOk W.write_str_gives f.old result
        (segment_text (segment_of (nodes.Ipv4 node.now))) f.new }
{
    let origin = match (node.local_port(), node.remote_port(), node.fixed()) {
        (0, 0, Ipv4Node::DHCP) => "DHCP",
        (0, 0, Ipv4Node::STATIC) => "Static",
        _ => return ipv4_fields(f, node),
    };
    let remote = Address(node.remote());
    let protocol = Number(u64::from(node.protocol()));
    let local = Address(node.local());
    let gateway = Address(node.gateway());
    let mask = Address(node.mask());
    write!(
        f,
        "IPv4({remote},{protocol},{origin},{local},{gateway},{mask})"
    )
}

fn ipv4_fields<W: fmt::Write>(f: &mut fmt::Formatter<W>, node: &Ipv4Node) -> fmt::Result
    ensures { WritesOnOk W.write_str_gives f.old result
        (segment_text (generic_segment (row_of (nodes.Ipv4 node.now)))) f.new }
{
    fields(
        f,
        3,
        12,
        &[
            node.local(),
            node.remote(),
            &node.local_port().to_le_bytes(),
            &node.remote_port().to_le_bytes(),
            &node.protocol().to_le_bytes(),
            &[node.fixed()],
            node.gateway(),
            node.mask(),
        ],
    )
}

fn uri<W: fmt::Write>(f: &mut fmt::Formatter<W>, node: &UriNode) -> fmt::Result
    ensures { WritesOnOk W.write_str_gives f.old result
        (segment_text (segment_of (nodes.Uri node.now))) f.new }
{
    let bytes = node.bytes();
    if is_plain_uri(bytes) {
        let uri = Plain(bytes);
        return write!(f, "Uri({uri})");
    }
    generic(f, 3, 24, bytes)
}

fn file<W: fmt::Write>(f: &mut fmt::Formatter<W>, node: &FileNode) -> fmt::Result
    ensures { WritesOnOk W.write_str_gives f.old result
        (segment_text (segment_of (nodes.FilePath node.now))) f.new }
{
    let units = node.units();
    if is_plain_name(units) {
        let name = Name(units);
        return write!(f, "File({name})");
    }
    name_digits(f, units)
}

/// Writes a path name that no text shows as it is.
fn name_digits<W: fmt::Write>(f: &mut fmt::Formatter<W>, units: &[u16]) -> fmt::Result
    ensures { WritesOnOk W.write_str_gives f.old result
        (segment_text (generic_segment (row 4 4 (name_bytes units.now)))) f.new }
{
    let kind = Number(4);
    let sub = Number(4);
    let digits = NameDigits(units);
    write!(f, "Path({kind},{sub},{digits})")
}

fn hard_drive<W: fmt::Write>(f: &mut fmt::Formatter<W>, node: &HardDriveNode) -> fmt::Result
    ensures { WritesOnOk W.write_str_gives f.old result
        (segment_text (segment_of (nodes.HardDrive node.now))) f.new }
{
    if is_gpt(node) {
        return gpt(f, node, &Guid(*node.signature()));
    }
    if is_mbr(node) {
        let signature = node.signature();
        let [a, b, c, d, ..] = *signature;
        return mbr(f, node, MbrSignature([a, b, c, d]));
    }
    hard_drive_fields(f, node)
}

/// Whether [`NodeText`] writes the node as an `HD` or a `File`, and not as a `Path` with the digits of its data (UEFI
/// 2.10, 10.3.5.1 and 10.3.5.4).
pub fn is_hd_or_file(node: &Node) -> bool
    ensures { result ≡ is_hd_or_file node.now }
{
    match node {
        Node::HardDrive(parts) => is_gpt(parts) || is_mbr(parts),
        Node::FilePath(file) => is_plain_name(file.units()),
        _ => false,
    }
}

/// Whether this is a partition of a GUID partition table, with a signature of that kind.
fn is_gpt(node: &HardDriveNode) -> bool
    ensures { result ≡ is_gpt node.now }
{
    node.format() == HardDriveNode::FORMAT_GPT
        && node.signature_kind() == HardDriveNode::SIGNATURE_GUID
}

/// Whether this is a partition of a master boot record, with a signature of that kind.
fn is_mbr(node: &HardDriveNode) -> bool
    ensures { result ≡ is_mbr node.now }
{
    let (_, behind) = node.signature().split_at(MBR_SIGNATURE_LEN);
    node.format() == HardDriveNode::FORMAT_MBR
        && node.signature_kind() == HardDriveNode::SIGNATURE_MBR
        && are_zero(behind)
}

/// Writes a partition of a GUID partition table.
fn gpt<W: fmt::Write>(f: &mut fmt::Formatter<W>, node: &HardDriveNode, guid: &Guid) -> fmt::Result
    ensures { WritesOnOk W.write_str_gives f.old result
        (segment_text (partition_segment node.now (codes "GPT") (guid_text guid.now.0))) f.new }
{
    let partition = node.partition();
    let guid = GuidText(guid);
    let start = Number(node.start());
    let size = Number(node.size());
    write!(f, "HD({partition},GPT,{guid},{start},{size})")
}

/// Writes a partition of a master boot record.
fn mbr<W: fmt::Write>(
    f: &mut fmt::Formatter<W>,
    node: &HardDriveNode,
    signature: MbrSignature,
) -> fmt::Result
    ensures { WritesOnOk W.write_str_gives f.old result
        (segment_text (partition_segment node.now (codes "MBR") (eight_digits (from_le_bytes w32 signature.0)))) f.new }
{
    let partition = node.partition();
    let start = Number(node.start());
    let size = Number(node.size());
    write!(f, "HD({partition},MBR,{signature},{start},{size})")
}

/// The four bytes of a signature as a number with all its eight digits.
#[derive(Clone, Copy, Debug)]
struct MbrSignature([u8; 4]);

impl fmt::Display for MbrSignature {
    ghost use Rattle.std.specs.Prelude.{Some};
    ghost use Rattle.std.specs.Int.{w32, from_le_bytes};
    ghost use Rattle.uefi_text.specs.Printed.{eight_digits};

    ghost output = { λ signature. Some (eight_digits (from_le_bytes w32 signature.0)) };

    fn fmt<W: fmt::Write>(&self, f: &mut fmt::Formatter<W>) -> fmt::Result {
        eight_digits(f, u32::from_le_bytes(self.0))
    }
}

fn hard_drive_fields<W: fmt::Write>(f: &mut fmt::Formatter<W>, node: &HardDriveNode) -> fmt::Result
    ensures { WritesOnOk W.write_str_gives f.old result
        (segment_text (generic_segment (row_of (nodes.HardDrive node.now)))) f.new }
{
    let kind = Number(4);
    let sub = Number(1);
    let partition = node.partition().to_le_bytes();
    let start = node.start().to_le_bytes();
    let size = node.size().to_le_bytes();
    let kinds = [node.format(), node.signature_kind()];
    let partition = Digits(&partition);
    let start = Digits(&start);
    let size = Digits(&size);
    let signature = Digits(node.signature());
    let kinds = Digits(&kinds);
    write!(
        f,
        "Path({kind},{sub},{partition}{start}{size}{signature}{kinds})"
    )
}

/// Whether the bytes are all zero.
fn are_zero(bytes: &[u8]) -> bool
    ensures { result ≡ are_zero bytes.now }
{
    bytes.iter().all(|byte| *byte == 0)
}

/// Whether a text shows each byte of a URI as it is.
pub(crate) fn is_plain_uri(bytes: &[u8]) -> bool
    ensures { result ≡ list_all (is_plain_from 0x21) bytes.now }
{
    bytes.iter().all(|byte| is_plain(URI_LOW, u16::from(*byte)))
}

/// Whether a text shows each unit of a path name as it is.
fn is_plain_name(units: &[u16]) -> bool
    ensures { result ≡ list_all (is_plain_from 0x20) units.now }
{
    units.iter().all(|unit| is_plain(NAME_LOW, *unit))
}

/// Whether each byte of a text shows a unit of a path name as it is.
pub(crate) fn is_plain_name_text(text: &[u8]) -> bool
    ensures { result ≡ list_all (is_plain_from 0x20) text.now }
{
    text.iter().all(|byte| is_plain(NAME_LOW, u16::from(*byte)))
}

/// Whether a text shows the code as it is: from `low` to 0x7E, without parentheses.
pub(crate) fn is_plain(low: u8, code: u16) -> bool
    ensures { result ≡ is_plain_from low code }
{
    u16::from(low) <= code && code <= 0x7e && code != 0x28 && code != 0x29
}
