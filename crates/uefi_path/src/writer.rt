//! Nodes and paths to bytes.

ghost use Rattle.std.specs.Prelude.{◌≡◌, ◌+◌, ◌<◌, ◌≤◌, ◌^◌, ◌++◌, length, map, OnOk, OnErr, SomeIff};
ghost use Rattle.std.specs.List.{flat_map, AllByRecursion};
ghost use Rattle.uefi_path.specs.Row.{header_bytes};
ghost use Rattle.uefi_path.specs.Node.{IsNode, node_bytes};
ghost use Rattle.uefi_path.specs.Path.{IsPath, path_bytes};
ghost use Rattle.uefi_path.specs.Writer.{Extends};

use crate::generic::{BODY_MAX, END, END_ENTIRE, END_INSTANCE, HEADER_LEN};
use crate::node::Node;
use crate::path::Path;
use std::alloc::AllocError;

/// The four bytes before a node's data.
fn header(kind: u8, sub: u8, len: usize) -> [u8; HEADER_LEN]
    requires { len < 2 ^ 16 }
    ensures { result ≡ header_bytes kind sub len }
{
    let [low, high] = (len as u16).to_le_bytes();
    [kind, sub, low, high]
}

/// Appends a node. An `Err` may leave a part of it.
fn append_node(node: &Node, out: &mut Vec<u8>) -> Result<(), AllocError>
    ensures valid { OnOk result (IsNode node.now) }
    ensures ok { OnOk result (out.new.items ≡ out.old.items ++ node_bytes node.now) }
    ensures err { OnErr result (Extends out.old.items out.new.items) }
{
    let shape = node.shape();
    let header = header(shape.kind, shape.sub, HEADER_LEN + shape.data_len);
    node.append(header, out)
}

/// Appends nodes one after the other. An `Err` may leave a part of them.
fn append_nodes(nodes: &[Node], out: &mut Vec<u8>) -> Result<(), AllocError>
    ensures valid { OnOk result (AllByRecursion IsNode nodes.now) }
    ensures ok { OnOk result (out.new.items ≡ out.old.items ++ flat_map node_bytes nodes.now) }
    ensures err { OnErr result (Extends out.old.items out.new.items) }
{
    for node in nodes {
        append_node(node, out)?;
    }
    Ok(())
}

/// Appends a path. An `Err` may leave a part of it.
fn append_path(path: &Path, out: &mut Vec<u8>) -> Result<(), AllocError>
    ensures valid { OnOk result (IsPath path.now) }
    ensures ok { OnOk result (out.new.items ≡ out.old.items ++ path_bytes path.now) }
    ensures err { OnErr result (Extends out.old.items out.new.items) }
{
    let mut instances = path.instances();
    while let Some((nodes, others)) = instances.split_first() {
        append_nodes(nodes, out)?;
        let end = if others.is_empty() {
            END_ENTIRE
        } else {
            END_INSTANCE
        };
        out.extend_from_slice(&header(END, end, HEADER_LEN))?;
        instances = others;
    }
    Ok(())
}

/// Appends the spelling of a node, which is its type, its sub-type, its length in two bytes,
/// little-endian, and its data (UEFI 2.10, 10.3.1).
///
/// # Errors
///
/// `AllocError` if memory was refused; `out` then has the bytes that it had.
pub fn write_node(node: &Node, out: &mut Vec<u8>) -> Result<(), AllocError>
    ensures valid { OnOk result (IsNode node.now) }
    ensures ok { OnOk result (out.new.items ≡ out.old.items ++ node_bytes node.now) }
    ensures err { OnErr result (out.new.items ≡ out.old.items) }
{
    let start = out.len();
    let written = append_node(node, out);
    if written.is_err() {
        out.truncate(start);
    }
    written
}

/// Appends the spelling of a path: the nodes of each instance, and after them the node that ends it, which for the last
/// instance ends the whole path (UEFI 2.10, 10.3.1).
///
/// # Errors
///
/// `AllocError` if memory was refused; `out` then has the bytes that it had.
pub fn write_path(path: &Path, out: &mut Vec<u8>) -> Result<(), AllocError>
    ensures valid { OnOk result (IsPath path.now) }
    ensures ok { OnOk result (out.new.items ≡ out.old.items ++ path_bytes path.now) }
    ensures err { OnErr result (out.new.items ≡ out.old.items) }
{
    let start = out.len();
    let written = append_path(path, out);
    if written.is_err() {
        out.truncate(start);
    }
    written
}

/// How many bytes the spelling of a node has.
pub fn node_len(node: &Node) -> usize
    ensures len { result ≡ length (node_bytes node.now) }
    ensures bound { result < 2 ^ 16 }
{
    HEADER_LEN + node.shape().data_len
}

/// The bytes of some nodes, if `usize` can count them.
fn nodes_len(nodes: &[Node]) -> Option<usize>
    ensures { let len = length (flat_map node_bytes nodes.now) in SomeIff result (len < 2 ^ 64) len }
{
    let mut len: usize = 0;
    for node in nodes {
        len = len.checked_add(node_len(node))?;
    }
    Some(len)
}

/// How many bytes the spelling of a path has: `None` if `usize` can't count them.
pub fn path_len(path: &Path) -> Option<usize>
    ensures valid { IsPath path.now }
    ensures len { let len = length (path_bytes path.now) in SomeIff result (len < 2 ^ 64) len }
{
    let mut len: usize = 0;
    for nodes in path.instances() {
        len = len.checked_add(nodes_len(nodes)?)?.checked_add(HEADER_LEN)?;
    }
    Some(len)
}
