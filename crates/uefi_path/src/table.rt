//! The table of nodes (UEFI 2.10, 10.3): how each case of `Node` is laid out in the bytes.

ghost use Rattle.std.specs.Prelude.{◌≡◌, ◌≢◌, ◌↔◌, ◌≤◌, ◌++◌, ◌∷◌, [], length, is_some, None, IsTrue, IfOk, OnOk, OnErr};
ghost use Rattle.uefi_path.specs.Standard.{body_max};
ghost use Rattle.uefi_path.specs.Row.{row, IsListed};
ghost use Rattle.uefi_path.specs.Node.{row_of, IsNode};
ghost use Rattle.uefi_path.specs.Reader.{fixed_node_of, list_node_of, node_of};
ghost use Rattle.uefi_path.specs.Writer.{Extends};

use crate::fields::{NodeBytes, bytes_at, field, u8_at, u16_at, u32_at, u64_at};
use crate::file::{FileNode, is_path_name};
use crate::generic::{BODY_MAX, HEADER_LEN};
use crate::hard_drive::HardDriveNode;
use crate::ipv4::Ipv4Node;
use crate::node::Node;
use crate::other::OtherNode;
use crate::uri::UriNode;
use crate::vendor::{GUID_LEN, Vendor};
use std::alloc::{AllocError, Global};

/// The first expression with the node of these parts, if the table has a row for them with data of one length, and
/// otherwise the second. The first expression is in the arm of each row, so that a node which is put into a list is
/// made there: a function that answers it would have it moved, and reading would take a fifth more time.
macro_rules! match_one_length {
    (($kind:ident, $sub:ident, $body:ident), $node:ident => $then:expr, $other:expr) => {
        match ($kind, $sub, $body.len()) {
            (1, 1, 2) => {
                let $node = Node::Pci {
                    function: u8_at($body, 0),
                    device: u8_at($body, 1),
                };
                $then
            }
            (2, 1, 8) => {
                let $node = Node::Acpi {
                    hid: u32_at($body, 0),
                    uid: u32_at($body, 4),
                };
                $then
            }
            (3, 5, 2) => {
                let $node = Node::Usb {
                    port: u8_at($body, 0),
                    interface: u8_at($body, 1),
                };
                $then
            }
            (3, 11, 33) => {
                let $node = Node::Mac {
                    address: bytes_at($body, 0),
                    if_kind: u8_at($body, 32),
                };
                $then
            }
            (3, 12, 23) => {
                let $node = Node::Ipv4(Ipv4Node::from_bytes($body));
                $then
            }
            (3, 18, 6) => {
                let $node = Node::Sata {
                    hba: u16_at($body, 0),
                    multiplier: u16_at($body, 2),
                    lun: u16_at($body, 4),
                };
                $then
            }
            (3, 20, 2) => {
                let $node = Node::Vlan {
                    id: u16_at($body, 0),
                };
                $then
            }
            (3, 23, 12) => {
                let $node = Node::Nvme {
                    namespace: u32_at($body, 0),
                    eui: bytes_at($body, 4),
                };
                $then
            }
            (4, 1, 38) => {
                let $node = Node::HardDrive(HardDriveNode::from_bytes($body));
                $then
            }
            (4, 2, 20) => {
                let $node = Node::Cdrom {
                    entry: u32_at($body, 0),
                    start: u64_at($body, 4),
                    size: u64_at($body, 12),
                };
                $then
            }
            _ => $other,
        }
    };
}

/// The same for parts that the table has a row with a list for: the first expression with their node, if there is
/// memory for it, and otherwise the second.
macro_rules! match_list {
    (($alloc:ident, $kind:ident, $sub:ident, $body:ident), $node:ident => $then:expr, $other:expr) => {
        match ($kind, $sub) {
            (1, 4) if $body.len() >= GUID_LEN => {
                let $node = Node::VendorHw(Vendor::from_bytes($alloc, $body)?);
                $then
            }
            (3, 10) if $body.len() >= GUID_LEN => {
                let $node = Node::VendorMsg(Vendor::from_bytes($alloc, $body)?);
                $then
            }
            (3, 24) => {
                let $node = Node::Uri(UriNode::from_bytes($alloc, $body)?);
                $then
            }
            (4, 3) if $body.len() >= GUID_LEN => {
                let $node = Node::VendorMedia(Vendor::from_bytes($alloc, $body)?);
                $then
            }
            (4, 4) if is_path_name($body) => {
                let $node = Node::FilePath(FileNode::from_bytes($alloc, $body)?);
                $then
            }
            _ => $other,
        }
    };
}

/// What a node's header states: its type, its sub-type, and how many bytes of data follow.
#[derive(Clone, Copy)]
pub(crate) struct Shape {
    pub(crate) kind: u8,
    pub(crate) sub: u8,
    pub(crate) data_len: usize,
}

impl Shape {
    fn new(kind: u8, sub: u8, data_len: usize) -> Shape
        ensures { result ≡ record { kind = kind; sub = sub; data_len = data_len } }
    {
        Shape {
            kind,
            sub,
            data_len,
        }
    }
}

impl Node {
    /// What the node's header states.
    pub(crate) fn shape(&self) -> Shape
        ensures kind { result.kind ≡ (row_of self.now).kind }
        ensures sub { result.sub ≡ (row_of self.now).sub }
        ensures data_len { result.data_len ≡ length (row_of self.now).body }
        ensures bound { result.data_len ≤ body_max }
    {
        match self {
            Node::Pci { .. } => Shape::new(1, 1, 2),
            Node::VendorHw(vendor) => Shape::new(1, 4, vendor.data_len()),
            Node::Acpi { .. } => Shape::new(2, 1, 8),
            Node::Usb { .. } => Shape::new(3, 5, 2),
            Node::VendorMsg(vendor) => Shape::new(3, 10, vendor.data_len()),
            Node::Mac { address, .. } => Shape::new(3, 11, field(address).len() + 1),
            Node::Ipv4(node) => Shape::new(3, 12, node.data_len()),
            Node::Sata { .. } => Shape::new(3, 18, 6),
            Node::Vlan { .. } => Shape::new(3, 20, 2),
            Node::Nvme { eui, .. } => Shape::new(3, 23, 4 + field(eui).len()),
            Node::Uri(node) => Shape::new(3, 24, node.bytes().len()),
            Node::HardDrive(node) => Shape::new(4, 1, node.data_len()),
            Node::Cdrom { .. } => Shape::new(4, 2, 20),
            Node::VendorMedia(vendor) => Shape::new(4, 3, vendor.data_len()),
            Node::FilePath(node) => Shape::new(4, 4, node.data_len()),
            Node::Other(other) => Shape::new(other.kind(), other.sub(), other.body().len()),
        }
    }

    /// The node of these parts, if the table has a row for them with data of one length.
    fn from_one_length(kind: u8, sub: u8, body: &[u8]) -> Option<Node>
        ensures { result ≡ fixed_node_of (row kind sub body.now) }
    {
        match_one_length!((kind, sub, body), node => Some(node), None)
    }

    /// Whether the table has a row for these parts that holds a list.
    fn is_of_a_list(kind: u8, sub: u8, body: &[u8]) -> bool
        ensures { result ≡ is_some (list_node_of (row kind sub body.now)) }
    {
        match (kind, sub) {
            (1, 4) | (3, 10) | (4, 3) => body.len() >= GUID_LEN,
            (3, 24) => true,
            (4, 4) => is_path_name(body),
            _ => false,
        }
    }

    /// Whether the table has a row for these parts. This takes no memory.
    pub(crate) fn is_listed(kind: u8, sub: u8, body: &[u8]) -> bool
        requires { length body.now ≤ body_max }
        ensures { IsTrue result ↔ IsListed (row kind sub body.now) }
    {
        Node::from_one_length(kind, sub, body).is_some() || Node::is_of_a_list(kind, sub, body)
    }

    /// The node that has these parts, if there is memory for it.
    pub(crate) fn from_parts(
        alloc: Global,
        kind: u8,
        sub: u8,
        body: &[u8],
    ) -> Result<Node, AllocError>
        requires no_end { kind ≢ 0x7F }
        requires len { length body.now ≤ body_max }
        ensures { IfOk result (λ node. node ≡ node_of (row kind sub body.now)) }
    {
        match Node::from_one_length(kind, sub, body) {
            Some(node) => Ok(node),
            None => Node::from_no_length(alloc, kind, sub, body),
        }
    }

    /// The node that has these parts, for which the table has no row with data of one length, if there is memory for
    /// it.
    fn from_no_length(alloc: Global, kind: u8, sub: u8, body: &[u8]) -> Result<Node, AllocError>
        requires no_end { kind ≢ 0x7F }
        requires len { length body.now ≤ body_max }
        requires no_length { fixed_node_of (row kind sub body.now) ≡ None }
        ensures { IfOk result (λ node. node ≡ node_of (row kind sub body.now)) }
    {
        match_list!(
            (alloc, kind, sub, body),
            node => Ok(node),
            Ok(Node::Other(OtherNode::new(alloc, kind, sub, body)?))
        )
    }

    /// Appends the node that has these parts, if there is memory for it.
    pub(crate) fn push_parts(
        alloc: Global,
        kind: u8,
        sub: u8,
        body: &[u8],
        nodes: &mut Vec<Node>,
    ) -> Result<(), AllocError>
        requires no_end { kind ≢ 0x7F }
        requires len { length body.now ≤ body_max }
        ensures { OnOk result (nodes.new.items ≡ nodes.old.items ++ node_of (row kind sub body.now) ∷ []) }
    {
        match_one_length!(
            (kind, sub, body),
            node => nodes.push(node)?,
            Node::push_of_no_length(alloc, kind, sub, body, nodes)?
        );
        Ok(())
    }

    /// Appends the node that has these parts, for which the table has no row with data of one length, if there is
    /// memory for it.
    #[inline(always)]
    fn push_of_no_length(
        alloc: Global,
        kind: u8,
        sub: u8,
        body: &[u8],
        nodes: &mut Vec<Node>,
    ) -> Result<(), AllocError>
        requires no_end { kind ≢ 0x7F }
        requires len { length body.now ≤ body_max }
        requires no_length { fixed_node_of (row kind sub body.now) ≡ None }
        ensures { OnOk result (nodes.new.items ≡ nodes.old.items ++ node_of (row kind sub body.now) ∷ []) }
    {
        match_list!(
            (alloc, kind, sub, body),
            node => nodes.push(node)?,
            nodes.push(Node::Other(OtherNode::new(alloc, kind, sub, body)?))?
        );
        Ok(())
    }

    /// Appends the header, which is the node's, and the fields in their order. An `Err` may leave a
    /// part of them.
    pub(crate) fn append(
        &self,
        header: [u8; HEADER_LEN],
        out: &mut Vec<u8>,
    ) -> Result<(), AllocError>
        ensures valid { OnOk result (IsNode self.now) }
        ensures ok { OnOk result (out.new.items ≡ out.old.items ++ (header ++ (row_of self.now).body)) }
        ensures err { OnErr result (Extends out.old.items out.new.items) }
    {
        match self {
            Node::Pci { function, device } => {
                let mut node = NodeBytes::<6>::new(header);
                node.put(&[*function, *device]);
                node.append_to(out)
            }
            Node::VendorHw(vendor) => vendor.append(header, out),
            Node::Acpi { hid, uid } => {
                let mut node = NodeBytes::<12>::new(header);
                node.put(&hid.to_le_bytes());
                node.put(&uid.to_le_bytes());
                node.append_to(out)
            }
            Node::Usb { port, interface } => {
                let mut node = NodeBytes::<6>::new(header);
                node.put(&[*port, *interface]);
                node.append_to(out)
            }
            Node::VendorMsg(vendor) => vendor.append(header, out),
            Node::Mac { address, if_kind } => {
                let mut node = NodeBytes::<37>::new(header);
                node.put(field(address));
                node.put(&if_kind.to_le_bytes());
                node.append_to(out)
            }
            Node::Ipv4(node) => node.append(header, out),
            Node::Sata {
                hba,
                multiplier,
                lun,
            } => {
                let mut node = NodeBytes::<10>::new(header);
                node.put(&hba.to_le_bytes());
                node.put(&multiplier.to_le_bytes());
                node.put(&lun.to_le_bytes());
                node.append_to(out)
            }
            Node::Vlan { id } => {
                let mut node = NodeBytes::<6>::new(header);
                node.put(&id.to_le_bytes());
                node.append_to(out)
            }
            Node::Nvme { namespace, eui } => {
                let mut node = NodeBytes::<16>::new(header);
                node.put(&namespace.to_le_bytes());
                node.put(field(eui));
                node.append_to(out)
            }
            Node::Uri(node) => {
                out.extend_from_slice(&header)?;
                out.extend_from_slice(node.bytes())
            }
            Node::HardDrive(node) => node.append(header, out),
            Node::Cdrom { entry, start, size } => {
                let mut node = NodeBytes::<24>::new(header);
                node.put(&entry.to_le_bytes());
                node.put(&start.to_le_bytes());
                node.put(&size.to_le_bytes());
                node.append_to(out)
            }
            Node::VendorMedia(vendor) => vendor.append(header, out),
            Node::FilePath(node) => node.append(header, out),
            Node::Other(other) => {
                out.extend_from_slice(&header)?;
                out.extend_from_slice(other.body())
            }
        }
    }
}
