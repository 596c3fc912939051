//! Paths from text.

ghost use Rattle.std.specs.Prelude.{◌≡◌, ◌≢◌, ◌≤◌, List, length, map, Err, IfOk, IfErr};
ghost use Rattle.uefi_path.specs.declared.node.Node.{Node};
ghost use Rattle.uefi_path.specs.Answer.{IsUnless};
ghost use Rattle.uefi_text.specs.Path.{IsPathText};
ghost use Rattle.uefi_text.specs.Fault.{IsTextFault, BeginsWithNode};
ghost use Rattle.uefi_text.specs.Instances.{IsReadNode, IsRefusedNode, IsReadInstance, IsRefusedInstance, IsReadPath};

use crate::fault::TextFault;
use crate::forms::node_of;
use crate::laws;
use crate::segment::{cut_segment, ends_instance};
use std::alloc::Global;
use uefi_path::{Node, Path, make_path};

/// The path that a text stands for. The printed text of each path is read as that path, and other
/// spellings besides: docs/formats.md has the grammar.
///
/// # Errors
///
/// The first faulty segment from the left decides, by the tests of [`TextFault`], and the fault has a place in it.
/// [`TextFault::OutOfMemory`] comes if memory was refused, also before a fault that is later in the text.
pub fn read_text(alloc: Global, text: &str) -> Result<Path, TextFault>
    ensures found { IfOk result (λ path. IsPathText text.now path) }
    ensures only { (path : List (List Node)) → IsPathText text.now path →
        IsUnless result (Ok path) TextFault.OutOfMemory }
    ensures fault { IfErr result (λ fault. fault ≢ TextFault.OutOfMemory → IsTextFault text.now fault) }
{
    laws::a_text_stands_for_one_path();
    laws::a_text_with_a_fault_stands_for_no_path();
    path_of(alloc, text.as_bytes())
}

/// The path that the bytes of a text stand for.
fn path_of(alloc: Global, text: &[u8]) -> Result<Path, TextFault>
    ensures found { IfOk result (λ path. IsPathText text.now path) }
    ensures fault { IfErr result (λ fault. fault ≢ TextFault.OutOfMemory → IsTextFault text.now fault) }
{
    match make_path(read_instances(alloc, text)?) {
        Ok(path) => Ok(path),
        Err(_) => unreachable!(),
    }
}

/// The instances that a text stands for.
fn read_instances(alloc: Global, text: &[u8]) -> Result<Vec<Vec<Node>>, TextFault>
    ensures found { IfOk result (λ instances.
        IsReadPath text.now (map (λ nodes. nodes.items) instances.items)) }
    ensures fault { IfErr result (λ fault. fault ≢ TextFault.OutOfMemory → IsTextFault text.now fault) }
{
    let mut instances = Vec::new(alloc);
    let mut rest = text;
    loop {
        let (nodes, behind) = read_instance(alloc, rest, text.len())?;
        instances.push(nodes)?;
        match behind {
            [_, others @ ..] => rest = others,
            [] => return Ok(instances),
        }
    }
}

/// The nodes of the instance at the start of the rest of a text of `len` bytes, and what follows it: a comma or
/// nothing.
fn read_instance(alloc: Global, text: &[u8], len: usize) -> Result<(Vec<Node>, &[u8]), TextFault>
    requires { length text.now ≤ len }
    ensures found { IfOk result (λ read. IsReadInstance text.now read.0.items read.1.now) }
    ensures fault { IfErr result (λ fault. fault ≢ TextFault.OutOfMemory → IsRefusedInstance text.now fault len) }
{
    let mut nodes = Vec::new(alloc);
    if ends_instance(text) {
        return Ok((nodes, text));
    }
    let mut rest = text;
    loop {
        let (node, behind) = read_segment(alloc, rest, len)?;
        nodes.push(node)?;
        if ends_instance(behind) {
            return Ok((nodes, behind));
        }
        rest = &behind[1..];
    }
}

/// The node of the segment at the start of the rest of a text of `len` bytes, and what follows it: a slash, a comma or
/// nothing.
fn read_segment(alloc: Global, text: &[u8], len: usize) -> Result<(Node, &[u8]), TextFault>
    requires { length text.now ≤ len }
    ensures found { IfOk result (λ read. IsReadNode text.now read.0 read.1.now) }
    ensures fault { IfErr result (λ fault. fault ≢ TextFault.OutOfMemory → IsRefusedNode text.now fault len) }
    ensures memory { result ≡ Err TextFault.OutOfMemory → BeginsWithNode text.now }
{
    let place = len - text.len();
    let Some((segment, rest)) = cut_segment(text) else {
        return Err(TextFault::BadSegment(place));
    };
    match node_of(alloc, segment) {
        Ok(node) => Ok((node, rest)),
        Err(fault) => Err(fault.in_text(segment, place)),
    }
}
