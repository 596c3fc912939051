//! The forms of a node's text: each reads its arguments and makes the node.

ghost use Rattle.std.specs.Prelude.{◌==◌, ◌&&◌, not, ◌≡◌, ◌≢◌, ◌≤◌, ◌++◌, Some, replicate, length, ◌+◌, ◌↔◌, IsTrue, IfOk, IfErr};
ghost use Rattle.std.specs.List.{list_all};
ghost use Rattle.uefi_path.specs.Parts.{vendor_parts};
ghost use Rattle.uefi_path.specs.Row.{row};
ghost use Rattle.uefi_path.specs.Standard.{body_max, vendor_body_max};
ghost use Rattle.uefi_text.specs.Answers.{AnswersNamed, AnswersSegment, AnswersRow};
ghost use Rattle.uefi_text.specs.Cuts.{HasBareName};
ghost use Rattle.uefi_text.specs.Reader.{Reads, arguments_of, pci_of, usb_of, sata_of, vlan_of, root_of, nvme_of, acpi_of, mac_node_of, ipv4_of, hard_drive_of, cdrom_of, signature_of, ReadsAs, Makes, uri_of, file_of, vendor_of, vendor_hw_of, vendor_msg_of, vendor_media_of, is_data, data_bytes, generic_of};
ghost use Rattle.std.specs.Int.{w32, to_le_bytes};

use crate::argument::{
    address_of, bytes_of, data_up_to, eui_of, first, first_two, guid_argument, hid_of, mac_of,
    number_up_to, one, one_or_two, origin_of, three, two, u8_of, u16_of, u32_of, u64_of,
};
use crate::fault::SegmentFault;
use crate::print_node::{is_plain_name_text, is_plain_uri};
use crate::segment::Segment;
use std::alloc::{AllocError, Global};
use uefi_path::laws::{each_node_is_spelled, each_row_is_a_nodes};
use uefi_path::{
    BODY_MAX, FileNode, Guid, HardDriveNode, Ipv4Node, Node, NodeFault, OtherNode, PATH_NAME_MAX,
    PCI_ROOT_HID, PCIE_ROOT_HID, UriNode, VENDOR_BODY_MAX, Vendor, node_from_parts,
};

/// The node that a segment stands for.
///
/// The faults are those of the segment, in the order of [`TextFault`](crate::TextFault).
pub(crate) fn node_of(alloc: Global, segment: Segment<'_>) -> Result<Node, SegmentFault>
    requires { HasBareName segment }
    ensures { AnswersSegment segment.entry result }
{
    match segment {
        Segment::Bare(name) => file(alloc, name),
        Segment::Named { name, inside } => named_node(alloc, name, inside),
    }
}

/// The node of a segment of this name, with this text between its parentheses.
// Each form returns at once: out of a chain of `else if` its node would be copied branch by branch.
fn named_node(alloc: Global, name: &[u8], inside: &[u8]) -> Result<Node, SegmentFault>
    ensures { AnswersNamed name.now inside.now result }
{
    if is_named(name, b"Pci") {
        return pci(inside);
    }
    if is_named(name, b"USB") {
        return usb(inside);
    }
    if is_named(name, b"Sata") {
        return sata(inside);
    }
    if is_named(name, b"NVMe") {
        return nvme(inside);
    }
    if is_named(name, b"PciRoot") {
        return root(inside, PCI_ROOT_HID);
    }
    if is_named(name, b"PcieRoot") {
        return root(inside, PCIE_ROOT_HID);
    }
    if is_named(name, b"Acpi") {
        return acpi(inside);
    }
    if is_named(name, b"MAC") {
        return mac_node(inside);
    }
    if is_named(name, b"IPv4") {
        return ipv4(inside);
    }
    if is_named(name, b"Vlan") {
        return vlan(inside);
    }
    if is_named(name, b"Uri") {
        return uri(alloc, inside);
    }
    if is_named(name, b"File") {
        return file(alloc, inside);
    }
    if is_named(name, b"HD") {
        return hard_drive(inside);
    }
    if is_named(name, b"CDROM") {
        return cdrom(inside);
    }
    if is_named(name, b"VenHw") {
        return vendor_hw(alloc, inside);
    }
    if is_named(name, b"VenMsg") {
        return vendor_msg(alloc, inside);
    }
    if is_named(name, b"VenMedia") {
        return vendor_media(alloc, inside);
    }
    if is_named(name, b"Path") {
        // for its contract: two bytes state the length of a node
        each_node_is_spelled();
        return generic(alloc, inside);
    }
    Err(SegmentFault::BadSegment)
}

fn is_named(name: &[u8], expected: &[u8]) -> bool
    ensures { IsTrue result ↔ (name.now ≡ expected.now) }
{
    name == expected
}

#[inline(never)]
#[tactic(auto, unfolding(crate::specs::Reader::vendor_hw_of))]
fn vendor_hw(alloc: Global, inside: &[u8]) -> Result<Node, SegmentFault>
    ensures { Makes result (vendor_hw_of (arguments_of inside.now)) }
{
    let vendor = vendor(alloc, inside)?;
    Ok(Node::VendorHw(vendor))
}

#[inline(never)]
#[tactic(auto, unfolding(crate::specs::Reader::vendor_msg_of))]
fn vendor_msg(alloc: Global, inside: &[u8]) -> Result<Node, SegmentFault>
    ensures { Makes result (vendor_msg_of (arguments_of inside.now)) }
{
    let vendor = vendor(alloc, inside)?;
    Ok(Node::VendorMsg(vendor))
}

#[inline(never)]
#[tactic(auto, unfolding(crate::specs::Reader::vendor_media_of))]
fn vendor_media(alloc: Global, inside: &[u8]) -> Result<Node, SegmentFault>
    ensures { Makes result (vendor_media_of (arguments_of inside.now)) }
{
    let vendor = vendor(alloc, inside)?;
    Ok(Node::VendorMedia(vendor))
}

#[inline(never)]
#[tactic(auto, unfolding(crate::specs::Reader::pci_of))]
fn pci(inside: &[u8]) -> Result<Node, SegmentFault>
    ensures { Reads result (pci_of (arguments_of inside.now)) }
{
    let (device, function) = two(inside, b',')?;
    let device = u8_of(device, 0)?;
    let function = u8_of(function, 1)?;
    Ok(Node::Pci { function, device })
}

#[inline(never)]
#[tactic(auto, unfolding(crate::specs::Reader::usb_of))]
fn usb(inside: &[u8]) -> Result<Node, SegmentFault>
    ensures { Reads result (usb_of (arguments_of inside.now)) }
{
    let (port, interface) = two(inside, b',')?;
    let port = u8_of(port, 0)?;
    let interface = u8_of(interface, 1)?;
    Ok(Node::Usb { port, interface })
}

#[inline(never)]
#[tactic(auto, unfolding(crate::specs::Reader::sata_of))]
fn sata(inside: &[u8]) -> Result<Node, SegmentFault>
    ensures { Reads result (sata_of (arguments_of inside.now)) }
{
    let (hba, multiplier, lun) = three(inside, b',')?;
    let hba = u16_of(hba, 0)?;
    let multiplier = u16_of(multiplier, 1)?;
    let lun = u16_of(lun, 2)?;
    Ok(Node::Sata {
        hba,
        multiplier,
        lun,
    })
}

#[inline(never)]
#[tactic(auto, unfolding(crate::specs::Reader::vlan_of))]
fn vlan(inside: &[u8]) -> Result<Node, SegmentFault>
    ensures { Reads result (vlan_of (arguments_of inside.now)) }
{
    let id = one(inside, b',')?;
    let id = u16_of(id, 0)?;
    Ok(Node::Vlan { id })
}

#[inline(never)]
#[tactic(auto, unfolding(crate::specs::Reader::root_of))]
fn root(inside: &[u8], hid: u32) -> Result<Node, SegmentFault>
    ensures { Reads result (root_of hid (arguments_of inside.now)) }
{
    let uid = one(inside, b',')?;
    let uid = u32_of(uid, 0)?;
    Ok(Node::Acpi { hid, uid })
}

#[inline(never)]
#[tactic(auto, unfolding(crate::specs::Reader::nvme_of))]
fn nvme(inside: &[u8]) -> Result<Node, SegmentFault>
    ensures { Reads result (nvme_of (arguments_of inside.now)) }
{
    let (namespace, eui) = two(inside, b',')?;
    let namespace = u32_of(namespace, 0)?;
    let eui = eui_of(eui)?;
    Ok(Node::Nvme { namespace, eui })
}

#[inline(never)]
#[tactic(auto, unfolding(crate::specs::Reader::acpi_of))]
fn acpi(inside: &[u8]) -> Result<Node, SegmentFault>
    ensures { Reads result (acpi_of (arguments_of inside.now)) }
{
    let (hid, uid) = two(inside, b',')?;
    let hid = hid_of(hid, 0)?;
    let uid = u32_of(uid, 1)?;
    Ok(Node::Acpi { hid, uid })
}

#[inline(never)]
#[tactic(auto, unfolding(crate::specs::Reader::mac_node_of))]
fn mac_node(inside: &[u8]) -> Result<Node, SegmentFault>
    ensures { Reads result (mac_node_of (arguments_of inside.now)) }
{
    let (address, if_kind) = two(inside, b',')?;
    let address = mac_of(address)?;
    let if_kind = number_up_to(1, if_kind, 1)?;
    Ok(Node::Mac {
        address,
        if_kind: if_kind as u8,
    })
}

#[inline(never)]
#[tactic(auto, unfolding(crate::specs::Reader::ipv4_of))]
fn ipv4(inside: &[u8]) -> Result<Node, SegmentFault>
    ensures { Reads result (ipv4_of (arguments_of inside.now)) }
{
    let (remote, protocol, others) = first_two(inside, b',')?;
    let (origin, local, others) = first_two(others, b',')?;
    let (gateway, mask) = two(others, b',')?;
    let remote = address_of(remote)?;
    let protocol = u16_of(protocol, 1)?;
    let fixed = origin_of(origin)?;
    let local = address_of(local)?;
    let gateway = address_of(gateway)?;
    let mask = address_of(mask)?;
    Ok(Node::Ipv4(Ipv4Node::new(local, remote, 0, 0, protocol, fixed, gateway, mask)))
}

#[inline(never)]
#[tactic(auto, unfolding(crate::specs::Reader::hard_drive_of))]
fn hard_drive(inside: &[u8]) -> Result<Node, SegmentFault>
    ensures { Reads result (hard_drive_of (arguments_of inside.now)) }
{
    let (partition, format, others) = first_two(inside, b',')?;
    let (signature, start, size) = three(others, b',')?;
    let partition = u32_of(partition, 0)?;
    let (signature, kind) = signature_of(format, signature)?;
    let start = u64_of(start, 3)?;
    let size = u64_of(size, 4)?;
    Ok(Node::HardDrive(HardDriveNode::new(partition, start, size, signature, kind, kind)))
}

/// The signature of a partition, and its type, which is also the format.
#[tactic(auto, unfolding(crate::specs::Reader::signature_of))]
fn signature_of(format: &[u8], signature: &[u8]) -> Result<([u8; 16], u8), SegmentFault>
    ensures { ReadsAs (λ parts. (parts.0, parts.1)) result (signature_of format.now signature.now) }
{
    if format == b"GPT".as_slice() {
        let guid = guid_argument(signature)?;
        let bytes = guid.0;
        Ok((bytes, HardDriveNode::FORMAT_GPT))
    } else if format == b"MBR".as_slice() {
        let number = u32_of(signature, 2)?;
        let bytes = mbr_signature(number);
        Ok((bytes, HardDriveNode::FORMAT_MBR))
    } else {
        Err(SegmentFault::BadSegment)
    }
}

/// The signature that has the number in its first four bytes.
fn mbr_signature(number: u32) -> [u8; 16]
    ensures { result ≡ to_le_bytes w32 number ++ replicate 12 0 }
{
    let [a, b, c, d] = number.to_le_bytes();
    [a, b, c, d, 0, 0, 0, 0, 0, 0, 0, 0, 0, 0, 0, 0]
}

#[inline(never)]
#[tactic(auto, unfolding(crate::specs::Reader::cdrom_of))]
fn cdrom(inside: &[u8]) -> Result<Node, SegmentFault>
    ensures { Reads result (cdrom_of (arguments_of inside.now)) }
{
    let (entry, start, size) = three(inside, b',')?;
    let entry = u32_of(entry, 0)?;
    let start = u64_of(start, 1)?;
    let size = u64_of(size, 2)?;
    Ok(Node::Cdrom { entry, start, size })
}

#[inline(never)]
fn uri(alloc: Global, inside: &[u8]) -> Result<Node, SegmentFault>
    ensures { Makes result (uri_of inside.now) }
{
    if !is_plain_uri(inside) {
        return Err(SegmentFault::BadSegment);
    }
    if inside.len() > BODY_MAX {
        return Err(SegmentFault::OutOfRange(0));
    }
    let bytes = Vec::from_slice(alloc, inside)?;
    match UriNode::from_vec(bytes) {
        Ok(node) => Ok(Node::Uri(node)),
        Err(_) => unreachable!(),
    }
}

/// A file path, whose name is in the parentheses of `File` or by itself.
#[inline(never)]
fn file(alloc: Global, name: &[u8]) -> Result<Node, SegmentFault>
    ensures { Makes result (file_of name.now) }
{
    if !is_plain_name_text(name) {
        return Err(SegmentFault::BadSegment);
    }
    if name.len() > PATH_NAME_MAX {
        return Err(SegmentFault::OutOfRange(0));
    }
    let units = wide(alloc, name)?;
    match FileNode::from_vec(units) {
        Ok(node) => Ok(Node::FilePath(node)),
        Err(_) => unreachable!(),
    }
}

/// The bytes, each as a unit of 16 bits.
fn wide(alloc: Global, bytes: &[u8]) -> Result<Vec<u16>, AllocError>
    ensures { IfOk result (λ units. units.items ≡ bytes.now) }
{
    let mut units = Vec::with_capacity(alloc, bytes.len())?;
    for byte in bytes {
        units.push(u16::from(*byte))?;
    }
    Ok(units)
}

fn vendor(alloc: Global, inside: &[u8]) -> Result<Vendor, SegmentFault>
    ensures { Makes result (vendor_of (arguments_of inside.now)) }
{
    let (guid, digits) = vendor_texts(inside)?;
    let body = bytes_of(alloc, digits)?;
    match Vendor::from_vec(guid, body) {
        Ok(vendor) => Ok(vendor),
        Err(_) => unreachable!(),
    }
}

/// The identifier of a vendor's node, and the digits of its data.
#[tactic(auto, unfolding(crate::specs::Reader::vendor_of))]
fn vendor_texts(inside: &[u8]) -> Result<(Guid, &[u8]), SegmentFault>
    ensures data { IfOk result (λ parts. IsTrue (is_data parts.1.now)) }
    ensures len { IfOk result (λ parts. length (data_bytes parts.1.now) ≤ vendor_body_max) }
    ensures value { ReadsAs (λ parts. vendor_parts parts.0.0 (data_bytes parts.1.now)) result
        (vendor_of (arguments_of inside.now)) }
{
    let (guid, data) = one_or_two(inside, b',')?;
    let guid = guid_argument(guid)?;
    let digits = data_up_to(VENDOR_BODY_MAX, data, 1)?;
    Ok((guid, digits))
}

#[inline(never)]
fn generic(alloc: Global, inside: &[u8]) -> Result<Node, SegmentFault>
    ensures { AnswersRow result (generic_of (arguments_of inside.now)) }
{
    let (kind, sub, digits) = row_texts(inside)?;
    node_of_row(alloc, kind, sub, digits)
}

/// The type and the sub-type of any node, and the digits of its data.
#[tactic(auto, unfolding(crate::specs::Reader::generic_of))]
fn row_texts(inside: &[u8]) -> Result<(u8, u8, &[u8]), SegmentFault>
    ensures data { IfOk result (λ parts. IsTrue (is_data parts.2.now)) }
    ensures len { IfOk result (λ parts. length (data_bytes parts.2.now) ≤ body_max) }
    ensures value { ReadsAs (λ parts. row parts.0 parts.1 (data_bytes parts.2.now)) result
        (generic_of (arguments_of inside.now)) }
{
    let (kind, others) = first(inside, b',')?;
    let (sub, data) = one_or_two(others, b',')?;
    let kind = u8_of(kind, 0)?;
    let sub = u8_of(sub, 1)?;
    let digits = data_up_to(BODY_MAX, data, 2)?;
    Ok((kind, sub, digits))
}

/// The node of a type, a sub-type and the digits of data.
fn node_of_row(alloc: Global, kind: u8, sub: u8, digits: &[u8]) -> Result<Node, SegmentFault>
    requires data { IsTrue (is_data digits.now) }
    requires len { length (data_bytes digits.now) ≤ body_max }
    ensures { AnswersRow result (Some (row kind sub (data_bytes digits.now))) }
{
    // for its contract, that there is a node
    each_row_is_a_nodes();
    if kind == 0x7f {
        return Err(SegmentFault::BadEnd);
    }
    match OtherNode::from_vec(kind, sub, bytes_of(alloc, digits)?) {
        Ok(node) => Ok(Node::Other(node)),
        Err(body) => match node_from_parts(alloc, kind, sub, &body) {
            Ok(node) => Ok(node),
            Err(NodeFault::OutOfMemory) => Err(SegmentFault::OutOfMemory),
            Err(_) => unreachable!(),
        },
    }
}
