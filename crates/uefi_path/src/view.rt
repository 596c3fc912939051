//! Nodes where they are in the bytes of a path.

ghost use Rattle.std.specs.Prelude.{◌≡◌, ◌≢◌, ◌↔◌, ◌<◌, length, IfOk, Ok, Err};
ghost use Rattle.uefi_path.specs.declared.node.Node.{Node};
ghost use Rattle.uefi_path.specs.Answer.{IsUnless};
ghost use Rattle.uefi_path.specs.Standard.{body_max};
ghost use Rattle.uefi_path.specs.Node.{row_of, IsNode};
ghost use Rattle.uefi_path.specs.Views.{row_seen};

use crate::fault::NodeFault;
use crate::generic::HEADER_LEN;
use crate::node::Node;
use crate::reader::node_from_parts;
use std::alloc::Global;

/// A node where it is in the bytes of a path (UEFI 2.10, 10.3.1), as [`nodes`](crate::nodes) gives it.
#[derive(Clone, Copy, Debug, PartialEq, Eq)]
pub struct NodeView<'a> {
    /// The type.
    pub kind: u8,
    /// The sub-type.
    pub sub: u8,
    /// The data after the four bytes of the header.
    pub body: &'a [u8],
}

impl NodeView<'_> {
    /// The node that the view shows (UEFI 2.10, 10.3.1), as [`node_from_parts`](crate::node_from_parts) makes it of the
    /// type, the sub-type and the data. The node has its own copy of the data.
    ///
    /// # Errors
    ///
    /// [`NodeFault::BadEnd`] if the type is 0x7F, as in the view of the end of an instance; otherwise
    /// [`NodeFault::TooLong`] if there are more than [`BODY_MAX`](crate::BODY_MAX) bytes of data, which no view that
    /// [`nodes`](crate::nodes) gives has; otherwise [`NodeFault::OutOfMemory`] if memory for the data was refused.
    pub fn to_node(&self, alloc: Global) -> Result<Node, NodeFault>
        ensures made { IfOk result (λ node. IsNode node × (row_of node ≡ row_seen self.now)) }
        ensures only { (node : Node) → IsNode node → row_of node ≡ row_seen self.now →
            IsUnless result (Ok node) NodeFault.OutOfMemory }

        ensures bad_end { (result ≡ Err NodeFault.BadEnd) ↔ (self.now.kind ≡ 0x7F) }
        ensures too_long { (result ≡ Err NodeFault.TooLong)
            ↔ ((self.now.kind ≢ 0x7F) × (body_max < length self.now.body.now)) }
    {
        node_from_parts(alloc, self.kind, self.sub, self.body)
    }
}

/// The nodes of a path, one after the other, as [`nodes`](crate::nodes) gives them.
#[derive(Clone, Copy, Debug)]
pub struct NodeIter<'a> {
    bytes: &'a [u8],
}

impl<'a> NodeIter<'a> {
    /// The nodes that the bytes are, without the node that ends a whole path.
    pub(crate) fn new(bytes: &'a [u8]) -> NodeIter<'a>
        ensures { result.bytes.now ≡ bytes.now }
    {
        NodeIter { bytes }
    }
}

impl<'a> Iterator for NodeIter<'a> {
    type Item = NodeView<'a>;

    ghost use Rattle.std.specs.Iterator.{YieldsFirstBy, item_count};
    ghost use Rattle.uefi_path.specs.Views.{row_seen, rows_left};

    ghost next_gives = { YieldsFirstBy row_seen rows_left };

    ghost remaining = { item_count rows_left };

    fn next(&mut self) -> Option<NodeView<'a>> {
        let [kind, sub, low, high, ..] = self.bytes else {
            return None;
        };
        let len = usize::from(u16::from_le_bytes([*low, *high]));
        if len < HEADER_LEN || len > self.bytes.len() {
            return None;
        }
        let (node, rest) = self.bytes.split_at(len);
        self.bytes = rest;
        Some(NodeView {
            kind: *kind,
            sub: *sub,
            body: &node[HEADER_LEN..],
        })
    }
}
