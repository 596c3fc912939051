//! Bytes to nodes and paths.

ghost use Rattle.std.specs.Prelude.{◌≡◌, ◌≢◌, ◌↔◌, ◌+◌, ◌<◌, ◌≤◌, ℕ, List, length, map, IsTrue, IfOk, IfErr, IsOkAnd, OnOk, Ok, Err};
ghost use Rattle.std.specs.List.{AllByRecursion};
ghost use Rattle.uefi_path.specs.declared.node.Node.{Node};
ghost use Rattle.uefi_path.specs.declared.fault.PathFault.{PathFault};
ghost use Rattle.uefi_path.specs.Answer.{IsUnless};
ghost use Rattle.uefi_path.specs.Standard.{body_max};
ghost use Rattle.uefi_path.specs.Row.{row};
ghost use Rattle.uefi_path.specs.Node.{row_of, IsNode};
ghost use Rattle.uefi_path.specs.Path.{IsPathFront, path_rows};
ghost use Rattle.uefi_path.specs.Fault.{IsBeforeEnd, IsEnd, IsFaultAt, IsFirstFault};
ghost use Rattle.uefi_path.specs.Reader.{IsHeader, IsHeaderFault, SplitsRow, HasRowsOf};
ghost use Rattle.uefi_path.specs.Views.{row_seen, rows_left, AreAtTheirPlaces};

use crate::fault::{NodeFault, PathFault};
use crate::generic::{BODY_MAX, END, END_ENTIRE, END_INSTANCE, HEADER_LEN};
use crate::node::Node;
use crate::path::Path;
use crate::view::{NodeIter, NodeView};
use std::alloc::{AllocError, Global};

/// Whether a node of type 0x7F is one of the two end nodes.
fn is_end_node(sub: u8, len: usize) -> bool
    ensures { IsTrue result ↔ IsEnd sub len }
{
    len == HEADER_LEN && (sub == END_INSTANCE || sub == END_ENTIRE)
}

/// Tests what the header of a node at the offset says, if `remaining` bytes are left from there on.
fn check_header(
    kind: u8,
    sub: u8,
    len: usize,
    remaining: usize,
    offset: usize,
) -> Result<(), PathFault>
    ensures ok { OnOk result (IsHeader kind sub len remaining) }
    ensures fault { IfErr result (λ fault. IsHeaderFault fault kind sub len remaining offset) }
{
    if len < HEADER_LEN {
        return Err(PathFault::BadLength(offset));
    }
    if len > remaining {
        return Err(PathFault::PastEnd {
            offset,
            stated: len,
            left: remaining,
        });
    }
    if kind == END && !is_end_node(sub, len) {
        return Err(PathFault::BadEnd(offset));
    }
    Ok(())
}

/// The parts of the node at the start of the bytes, and the bytes after it. The offset is the place of a fault.
fn split_node(bytes: &[u8], offset: usize) -> Result<(NodeView<'_>, &[u8]), PathFault>
    ensures found { IfOk result (λ split.
        SplitsRow bytes.now (row_seen split.0) split.1.now) }
    ensures fault { IfErr result (λ fault. IsFaultAt fault offset bytes.now) }
{
    let (kind, sub, len) = match bytes {
        [] => return Err(PathFault::NoEnd(offset)),
        [kind, sub, low, high, ..] => {
            (*kind, *sub, usize::from(u16::from_le_bytes([*low, *high])))
        }
        _ => {
            return Err(PathFault::ShortHeader {
                offset,
                left: bytes.len(),
            });
        }
    };
    check_header(kind, sub, len, bytes.len(), offset)?;
    let (node, rest) = bytes.split_at(len);
    let body = &node[HEADER_LEN..];
    Ok((NodeView { kind, sub, body }, rest))
}

/// How many bytes the path at the start of the bytes takes (UEFI 2.10, 10.3): the answer of [`read_path`] without the
/// path. This takes no memory.
///
/// # Errors
///
/// The first node with a fault decides, by the tests of [`PathFault`] in the order of its cases, and the fault has the
/// node's offset from the first byte. [`PathFault::OutOfMemory`] never comes.
pub fn check_path(bytes: &[u8]) -> Result<usize, PathFault>
    // Some path is spelled by this many bytes.
    ensures found { IfOk result (λ n. (path : List (List Node)) × IsPathFront bytes.now path n) }
    // Of what is spelled, the bytes are counted.
    ensures only { (path : List (List Node)) (n : ℕ) → IsPathFront bytes.now path n → result ≡ Ok n }

    ensures fault { IfErr result (λ fault. IsFirstFault bytes.now fault) }
    ensures only_fault { (fault : PathFault) → IsFirstFault bytes.now fault → result ≡ Err fault }
    ensures memory { result ≢ Err PathFault.OutOfMemory }
{
    find_end(bytes)
}

/// How many bytes the path at the start of the bytes takes.
fn find_end(bytes: &[u8]) -> Result<usize, PathFault>
    ensures found { IfOk result (λ n. (path : List (List Node)) × IsPathFront bytes.now path n) }
    ensures fault { IfErr result (λ fault. IsFirstFault bytes.now fault) }
{
    let mut rest = bytes;
    loop {
        let (node, behind) = split_node(rest, bytes.len() - rest.len())?;
        rest = behind;
        if node.kind == END && node.sub == END_ENTIRE {
            return Ok(bytes.len() - rest.len());
        }
    }
}

/// The nodes of the path at the start of the bytes (UEFI 2.10, 10.3), where they are in the bytes: each node in order,
/// and between two instances the node that ends the first of them, of type 0x7F and sub-type 0x01, which has no data.
/// The node that ends the whole path isn't given. This takes no memory.
///
/// # Errors
///
/// Those of [`check_path`].
pub fn nodes(bytes: &[u8]) -> Result<NodeIter<'_>, PathFault>
    // The rows of the path at the start come, in order, and then nothing.
    ensures found { IfOk result (λ nodes. (path : List (List Node)) × (n : ℕ)
        × IsPathFront bytes.now path n × (rows_left nodes ≡ path_rows path)) }
    // Each row's data are the slice of the input at its place.
    ensures places { IfOk result (λ nodes. AreAtTheirPlaces bytes.now (rows_left nodes)) }
    ensures only { (path : List (List Node)) (n : ℕ) → IsPathFront bytes.now path n →
        IsOkAnd result (λ nodes. rows_left nodes ≡ path_rows path) }

    ensures fault { IfErr result (λ fault. IsFirstFault bytes.now fault) }
    ensures only_fault { (fault : PathFault) → IsFirstFault bytes.now fault → result ≡ Err fault }
    ensures memory { result ≢ Err PathFault.OutOfMemory }
{
    let (nodes, _) = split_path(bytes)?;
    Ok(nodes)
}

/// The nodes of the path at the start of the bytes, without its last end node, and how many bytes the path takes.
fn split_path(bytes: &[u8]) -> Result<(NodeIter<'_>, usize), PathFault>
    ensures found { IfOk result (λ split. (path : List (List Node))
        × IsPathFront bytes.now path split.1 × (rows_left split.0 ≡ path_rows path)) }
    ensures fault { IfErr result (λ fault. IsFirstFault bytes.now fault) }
{
    let len = check_path(bytes)?;
    Ok((NodeIter::new(&bytes[..len - HEADER_LEN]), len))
}

/// The instances whose nodes these are, if there is memory for them.
fn read_instances(alloc: Global, views: NodeIter<'_>) -> Result<Vec<Vec<Node>>, AllocError>
    requires { AllByRecursion IsBeforeEnd (rows_left views) }
    ensures { IfOk result (λ instances.
        HasRowsOf (map (λ nodes. nodes.items) instances.items) (rows_left views.entry)) }
{
    let mut instances = Vec::new(alloc);
    let mut nodes = Vec::new(alloc);
    for view in views {
        if view.kind == END {
            instances.push(nodes)?;
            nodes = Vec::new(alloc);
        } else {
            Node::push_parts(alloc, view.kind, view.sub, view.body, &mut nodes)?;
        }
    }
    instances.push(nodes)?;
    Ok(instances)
}

/// Reads the path at the start of the bytes (UEFI 2.10, 10.3). Gives the path and how many bytes it takes; what comes
/// after its end is left.
///
/// # Errors
///
/// Those of [`check_path`]; otherwise [`PathFault::OutOfMemory`] if memory was refused: no memory is taken before it is
/// known that the bytes begin with a path.
pub fn read_path(alloc: Global, bytes: &[u8]) -> Result<(Path, usize), PathFault>
    // What is read is spelled so.
    ensures found { IfOk result (λ read. IsPathFront bytes.now read.0 read.1) }
    // What is spelled so is read.
    ensures only { (path : List (List Node)) (n : ℕ) → IsPathFront bytes.now path n →
        IsUnless result (Ok (path, n)) PathFault.OutOfMemory }

    ensures fault { IfErr result (λ fault.
        fault ≢ PathFault.OutOfMemory → IsFirstFault bytes.now fault) }
    ensures only_fault { (fault : PathFault) → IsFirstFault bytes.now fault →
        IsUnless result (Err fault) PathFault.OutOfMemory }
{
    let (views, len) = split_path(bytes)?;
    let instances = read_instances(alloc, views)?;
    Ok((Path::from_instances(instances), len))
}

/// The node of a type, a sub-type and data (UEFI 2.10, 10.3.1): the case of [`Node`] that stands
/// for them, or [`Node::Other`] with a copy of the data.
///
/// # Errors
///
/// [`NodeFault::BadEnd`] if the type is 0x7F; otherwise [`NodeFault::TooLong`] if there are more than [`BODY_MAX`]
/// bytes of data; otherwise [`NodeFault::OutOfMemory`] if memory for the data was refused.
pub fn node_from_parts(alloc: Global, kind: u8, sub: u8, body: &[u8]) -> Result<Node, NodeFault>
    ensures made { IfOk result (λ node. IsNode node × (row_of node ≡ row kind sub body.now)) }
    ensures only { (node : Node) → IsNode node → row_of node ≡ row kind sub body.now →
        IsUnless result (Ok node) NodeFault.OutOfMemory }

    ensures bad_end { (result ≡ Err NodeFault.BadEnd) ↔ (kind ≡ 0x7F) }
    ensures too_long { (result ≡ Err NodeFault.TooLong)
        ↔ ((kind ≢ 0x7F) × (body_max < length body.now)) }
{
    if kind == END {
        return Err(NodeFault::BadEnd);
    }
    if body.len() > BODY_MAX {
        return Err(NodeFault::TooLong);
    }
    Ok(Node::from_parts(alloc, kind, sub, body)?)
}
