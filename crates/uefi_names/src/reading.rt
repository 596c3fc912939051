//! Paths that are read from texts in which nodes have their names.

ghost use Rattle.std.specs.Prelude.{◌≡◌, ◌≢◌, ◌++◌, ◌∷◌, ◌||◌, [], List, map, IfOk, IfErr, OnOk, IfSome, IfNone, Ok, codes, IsTrue, ◌↔◌, ◌≤◌, ◌<◌, ◌+◌, drop, length};
ghost use Rattle.std.specs.Option.{option_map};
ghost use Rattle.std.specs.String.{string_bytes};
ghost use Rattle.std.specs.List.{list_all, join_with_byte};
ghost use Rattle.uefi_path.specs.declared.node.Node.{Node};
ghost use Rattle.uefi_path.specs.Row.{row};
ghost use Rattle.uefi_path.specs.Node.{row_of, IsNode};
ghost use Rattle.uefi_path.specs.Answer.{IsUnless};
ghost use Rattle.uefi_text.specs.Bytes.{Each};
ghost use Rattle.uefi_text.specs.Segment.{comma, slash};
ghost use Rattle.uefi_text.specs.declared.fault.TextFault.{TextFault};
ghost use Rattle.uefi_names.specs.Standard.{standard_table};
ghost use Rattle.uefi_names.specs.Cut.{cut_named, segments_in, arguments_in};
ghost use Rattle.uefi_names.specs.Spelled.{is_word};
ghost use Rattle.uefi_names.specs.Reading.{profile_names, profile_name, is_flat_ascii, first_argument, second_argument, may_have, may_enclose, may_be_exact, named_row, segment_row, IsOneNode, takes_whole, inside_again, segment_again, respelled, IsAgain, IsExactSegment, IsNamedSegment, IsNamedInstance, IsNamedText, Finds};

use crate::cut::{arguments_in, named_parts, pieces};
use crate::fault::{NamedFault, fault_of};
use crate::form_reader::ReadRow;
use crate::laws;
use crate::spelled::is_word;
use crate::table::NodeTable;
use std::alloc::{AllocError, Global};
use uefi_path::{Node, NodeFault, Path, make_path, node_from_parts};
use uefi_text::{TextFault, read_text};

/// The names of the nodes that have a case of their own.
static PROFILE_NAMES: [&str; 18] = [
    "Pci", "USB", "Sata", "NVMe", "PciRoot", "PcieRoot", "Acpi", "MAC", "IPv4", "Vlan", "Uri",
    "File", "HD", "CDROM", "VenHw", "VenMsg", "VenMedia", "Path",
];

// ---- paths

/// The instances that a text stands for by a table: `None` if it stands for none.
pub(crate) fn path_nodes(
    alloc: Global,
    table: &NodeTable,
    text: &str,
) -> Result<Option<Vec<Vec<Node>>>, AllocError>
    ensures { IfOk result (λ read. Finds (Each (Each (IsNamedSegment table.now)) (cut_named text.now))
        (option_map (λ all. map (λ nodes. nodes.items) all.items) read)) }
{
    let texts = pieces(alloc, text, b',')?;
    instances_read(alloc, table, &texts)
}

/// The instances that texts stand for.
fn instances_read(
    alloc: Global,
    table: &NodeTable,
    texts: &[&str],
) -> Result<Option<Vec<Vec<Node>>>, AllocError>
    ensures { IfOk result (λ read. Finds (Each (IsNamedInstance table.now) (map (λ text. text.now) texts.now))
        (option_map (λ all. map (λ nodes. nodes.items) all.items) read)) }
{
    let mut all = Vec::new(alloc);
    let mut index = 0;
    while let Some(text) = text_at(texts, index) {
        match instance_read(alloc, table, text)? {
            Some(nodes) => all.push(nodes)?,
            None => return Ok(None),
        }
        index += 1;
    }
    Ok(Some(all))
}

/// The text at an index, if there are so many.
fn text_at<'a>(texts: &[&'a str], index: usize) -> Option<&'a str>
    requires { index ≤ length texts.now }
    ensures none { IfNone result (drop index (map (λ text. text.now) texts.now) ≡ []) }
    ensures some { IfSome result (λ text. drop index (map (λ text. text.now) texts.now)
        ≡ text.now ∷ drop (index + 1) (map (λ text. text.now) texts.now)) }
    ensures within { IfSome result (λ _. index < length texts.now) }
{
    match texts[index..].split_first() {
        Some((text, _)) => Some(text),
        None => None,
    }
}

/// The nodes of an instance.
fn instance_read(
    alloc: Global,
    table: &NodeTable,
    text: &str,
) -> Result<Option<Vec<Node>>, AllocError>
    ensures { IfOk result (λ read. Finds (IsNamedInstance table.now text.now)
        (option_map (λ nodes. nodes.items) read)) }
{
    let segments = segments_in(alloc, text)?;
    nodes_read(alloc, table, &segments)
}

/// The nodes that segments stand for.
fn nodes_read(
    alloc: Global,
    table: &NodeTable,
    segments: &[&str],
) -> Result<Option<Vec<Node>>, AllocError>
    ensures { IfOk result (λ read. Finds (Each (IsNamedSegment table.now) (map (λ segment. segment.now) segments.now))
        (option_map (λ nodes. nodes.items) read)) }
{
    let mut nodes = Vec::new(alloc);
    let mut index = 0;
    while let Some(segment) = text_at(segments, index) {
        match segment_read(alloc, table, segment)? {
            Some(node) => nodes.push(node)?,
            None => return Ok(None),
        }
        index += 1;
    }
    Ok(Some(nodes))
}

/// The segments of an instance: none of an empty one.
pub(crate) fn segments_in<'a>(alloc: Global, text: &'a str) -> Result<Vec<&'a str>, AllocError>
    ensures { IfOk result (λ all. map (λ segment. segment.now) all.items ≡ segments_in text.now) }
{
    if text.is_empty() {
        Ok(Vec::new(alloc))
    } else {
        pieces(alloc, text, b'/')
    }
}

/// The node of a segment.
pub(crate) fn segment_read(
    alloc: Global,
    table: &NodeTable,
    text: &str,
) -> Result<Option<Node>, AllocError>
    ensures { IfOk result (λ read. Finds (IsNamedSegment table.now text.now) read) }
{
    match segment_row(alloc, table, text)? {
        Some(row) => node_of(alloc, &row),
        None => exact_segment(alloc, text),
    }
}

// ---- by the table

/// The node of a segment by the table, if no exact text may be the segment.
pub(crate) fn segment_row(
    alloc: Global,
    table: &NodeTable,
    text: &str,
) -> Result<Option<ReadRow>, AllocError>
    ensures { IfOk result (λ read. option_map (λ r. row r.kind r.sub r.body.items) read
        ≡ segment_row table.now text.now) }
{
    let Some((name, inside)) = named_parts(text) else {
        return Ok(None);
    };
    if may_be_exact(alloc, name, inside)? {
        return Ok(None);
    }
    table.read(alloc, name, inside)
}

/// Whether an exact text may have this name and what is between these parentheses.
pub(crate) fn may_be_exact(alloc: Global, name: &str, inside: &str) -> Result<bool, AllocError>
    ensures { IfOk result (λ may. may ≡ may_be_exact name.now inside.now) }
{
    if profile_name(name).is_none() {
        return Ok(false);
    }
    may_enclose(alloc, name, inside)
}

/// Whether this may be between the parentheses of an exact text of this name.
fn may_enclose(alloc: Global, name: &str, inside: &str) -> Result<bool, AllocError>
    ensures { IfOk result (λ may. may ≡ may_enclose name.now inside.now) }
{
    if takes_whole(name) {
        return Ok(is_flat(inside.as_bytes()));
    }
    let arguments = arguments_in(alloc, inside)?;
    Ok(may_have(name, &arguments))
}

/// Whether a text is ASCII without parentheses.
fn is_flat(text: &[u8]) -> bool
    ensures { result ≡ list_all is_flat_ascii text.now }
{
    text.iter().all(|byte| is_flat_ascii(*byte))
}

/// Whether this is a byte of ASCII and no parenthesis.
fn is_flat_ascii(byte: u8) -> bool
    ensures { result ≡ is_flat_ascii byte }
{
    byte < 0x80 && !matches!(byte, b'(' | b')')
}

/// Whether an exact text of this name may have these arguments: one of an address has fewer than 64 digits, one of an
/// address of IPv4 has no four fields, and one of a partition has a signature.
fn may_have(name: &str, arguments: &[&str]) -> bool
    ensures { result ≡ may_have name.now (map (λ argument. argument.now) arguments.now) }
{
    if is_word(name.as_bytes(), b"MAC") {
        return first_argument(arguments).len() < 64;
    }
    if is_word(name.as_bytes(), b"IPv4") {
        return arguments.len() != 4;
    }
    if is_word(name.as_bytes(), b"HD") {
        let kind = second_argument(arguments).as_bytes();
        return is_word(kind, b"GPT") || is_word(kind, b"MBR");
    }
    true
}

/// The first argument, or an empty text if there is none.
fn first_argument<'a>(arguments: &[&'a str]) -> &'a str
    ensures { result.now ≡ first_argument (map (λ argument. argument.now) arguments.now) }
{
    match arguments {
        [first, ..] => *first,
        _ => "",
    }
}

/// The second argument, or an empty text if there is none.
fn second_argument<'a>(arguments: &[&'a str]) -> &'a str
    ensures { result.now ≡ second_argument (map (λ argument. argument.now) arguments.now) }
{
    match arguments {
        [_, second, ..] => *second,
        _ => "",
    }
}

/// One of the names of the nodes that have a case of their own, as it is printed.
pub(crate) fn profile_name(name: &str) -> Option<&'static str>
    ensures { option_map (λ known. known.now) result ≡ profile_name name.now }
{
    let names = profile_names();
    for known in names {
        if is_word(name.as_bytes(), known.as_bytes()) {
            return Some(known);
        }
    }
    None
}

/// The names of the nodes that have a case of their own.
pub(crate) fn profile_names() -> &'static [&'static str]
    ensures { map (λ name. name.now) result.now ≡ profile_names }
{
    &PROFILE_NAMES
}

/// The node that has a row, if there is one.
fn node_of(alloc: Global, read: &ReadRow) -> Result<Option<Node>, AllocError>
    ensures { IfOk result (λ found. Finds (λ node. IsNode node
        × (row_of node ≡ row read.now.kind read.now.sub read.now.body.items)) found) }
{
    match node_from_parts(alloc, read.kind, read.sub, &read.body) {
        Ok(node) => Ok(Some(node)),
        Err(NodeFault::OutOfMemory) => Err(AllocError),
        Err(NodeFault::BadEnd | NodeFault::TooLong) => Ok(None),
    }
}

// ---- by the exact texts

/// The node that a segment stands for as it is, or as it is respelled.
fn exact_segment(alloc: Global, text: &str) -> Result<Option<Node>, AllocError>
    ensures { IfOk result (λ read. Finds (IsExactSegment text.now) read) }
{
    match one_node(alloc, text)? {
        Some(node) => Ok(Some(node)),
        None => exact_again(alloc, text),
    }
}

/// The node that a segment stands for as it is respelled.
fn exact_again(alloc: Global, text: &str) -> Result<Option<Node>, AllocError>
    ensures { IfOk result (λ read. Finds (IsAgain (respelled text.now)) read) }
{
    match respelled(alloc, text)? {
        Some(again) => one_node(alloc, &again),
        None => Ok(None),
    }
}

/// The node of the text of a path that has one node.
fn one_node(alloc: Global, text: &str) -> Result<Option<Node>, AllocError>
    ensures { IfOk result (λ read. Finds (IsOneNode text.now) read) }
{
    match read_text(alloc, text) {
        Ok(path) => Ok(only_node(path)),
        Err(fault) => {
            if is_memory(fault) {
                Err(AllocError)
            } else {
                Ok(None)
            }
        }
    }
}

fn is_memory(fault: TextFault) -> bool
    ensures { IsTrue result ↔ (fault ≡ TextFault.OutOfMemory) }
{
    matches!(fault, TextFault::OutOfMemory)
}

/// The node of a path that has one node.
fn only_node(path: Path) -> Option<Node>
    ensures { Finds (λ node. path ≡ ((node ∷ []) ∷ [])) result }
{
    let mut instances = path.into_instances();
    if instances.len() != 1 {
        return None;
    }
    let mut nodes = instances.pop()?;
    if nodes.len() != 1 {
        return None;
    }
    nodes.pop()
}

/// A segment with its name as it is printed, and without spaces before arguments.
pub(crate) fn respelled(alloc: Global, text: &str) -> Result<Option<String>, AllocError>
    ensures { IfOk result (λ again. option_map (λ t. string_bytes t) again ≡ respelled text.now) }
{
    let Some((name, inside)) = named_parts(text) else {
        return Ok(None);
    };
    let Some(known) = profile_name(name) else {
        return Ok(None);
    };
    let mut again = String::from_str(alloc, known)?;
    again.push('(')?;
    append_inside(alloc, name, inside, &mut again)?;
    again.push(')')?;
    Ok(Some(again))
}

/// Appends what is in parentheses, without spaces before arguments.
fn append_inside(
    alloc: Global,
    name: &str,
    inside: &str,
    text: &mut String,
) -> Result<(), AllocError>
    ensures { OnOk result (string_bytes text.new ≡ string_bytes text.old ++ inside_again name.now inside.now) }
{
    if takes_whole(name) {
        return text.push_str(inside);
    }
    let arguments = arguments_in(alloc, inside)?;
    append_joined(&arguments, text)
}

/// Whether all that is in parentheses is one argument.
pub(crate) fn takes_whole(name: &str) -> bool
    ensures { result ≡ takes_whole name.now }
{
    is_word(name.as_bytes(), b"Uri") || is_word(name.as_bytes(), b"File")
}

/// Appends arguments, joined by commas.
fn append_joined(arguments: &[&str], text: &mut String) -> Result<(), AllocError>
    ensures { OnOk result (string_bytes text.new ≡ string_bytes text.old
        ++ join_with_byte comma (map (λ argument. argument.now) arguments.now)) }
{
    let Some((first, others)) = arguments.split_first() else {
        return Ok(());
    };
    text.push_str(first)?;
    for argument in others {
        text.push(',')?;
        text.push_str(argument)?;
    }
    Ok(())
}

/// The path that a text stands for in which nodes may have their names: each text of a path that
/// [`read_text`](uefi_text::read_text) reads, and each that [`named_text`](crate::named_text) prints, is read as its path.
/// docs/formats.md has the other spellings.
///
/// # Errors
///
/// The first segment from the left that stands for no node decides, and the fault has a place in it.
/// [`NamedFault::OutOfMemory`] comes if memory was refused.
pub fn read_named_text(alloc: Global, text: &str) -> Result<Path, NamedFault>
    ensures found { IfOk result (λ path. IsNamedText standard_table text.now path) }
    ensures only { (path : List (List Node)) → IsNamedText standard_table text.now path →
        IsUnless result (Ok path) NamedFault.OutOfMemory }
{
    laws::a_named_text_stands_for_one_path();
    let table = NodeTable::standard();
    path_read(alloc, &table, text)
}

/// The path that a text stands for by a table.
fn path_read(alloc: Global, table: &NodeTable, text: &str) -> Result<Path, NamedFault>
    ensures found { IfOk result (λ path. IsNamedText table.now text.now path) }
    ensures fault { IfErr result (λ fault. fault ≢ NamedFault.OutOfMemory →
        (path : List (List Node)) → IsNamedText table.now text.now path → ⊥) }
{
    let Some(instances) = path_nodes(alloc, table, text)? else {
        return Err(fault_of(alloc, table, text)?);
    };
    match make_path(instances) {
        Ok(path) => Ok(path),
        Err(_) => Err(NamedFault::BadSegment(0)),
    }
}
