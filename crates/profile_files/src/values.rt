//! Single values of profiles.

ghost use Rattle.std.specs.Prelude.{◌≡◌, IfOk, OnOk, IsTrue, string_bytes};
ghost use Rattle.profile_files.specs.Entries.{AreNames, IsHex, IsTable};
ghost use Rattle.profile_files.specs.Members.{AreNamed, HasNone, IsAmong};
ghost use Rattle.profile_files.specs.Values.{IsFlag, IsText, IsName, IsDescriptionOf, unit_bytes};

use crate::fault::{FileFault, Stop, Wanted};
use crate::tree::{Key, Members, Node, member};
use crate::written::{WrittenName, WrittenText};
use hex::FromHexError;
use std::alloc::{AllocError, Global};
use uefi_path::append_units;
use value_texts::{DescriptionFault, append_text_units, description_units};

/// Refuses members that have another name than these, or that are there twice.
pub(crate) fn check_names(members: &[(Key, Node)], names: &[&str]) -> Result<(), Stop>
    ensures { OnOk result (AreNamed names.now members.now) }
{
    let [(key, _), rest @ ..] = members else {
        return Ok(());
    };
    if !is_one_of(names, &key.name) {
        return Err(Stop::At(key.place, FileFault::UnknownMember));
    }
    check_once(rest, &key.name)?;
    check_names(rest, names)
}

/// Refuses a member of this name.
fn check_once(members: &[(Key, Node)], name: &str) -> Result<(), Stop>
    ensures { OnOk result (HasNone name.now members.now) }
{
    let [(key, _), rest @ ..] = members else {
        return Ok(());
    };
    if key.name.as_str() == name {
        return Err(Stop::At(key.place, FileFault::MemberTwice));
    }
    check_once(rest, name)
}

/// Whether this is one of the names.
fn is_one_of(names: &[&str], name: &str) -> bool
    ensures { IsTrue result → IsAmong names.now name.now }
{
    let [one, rest @ ..] = names else {
        return false;
    };
    if *one == name {
        true
    } else {
        is_one_of(rest, name)
    }
}

/// The fault of a value that isn't what is to be at its place.
pub(crate) fn not(node: &Node, wanted: Wanted) -> Stop {
    Stop::At(node.place(), FileFault::Wanted(wanted))
}

/// The members of the table that a value is to be.
pub(crate) fn members_of(node: &Node) -> Result<&Members, Stop>
    ensures { IfOk result (λ members. IsTable node.now members.now.items) }
{
    match node {
        Node::Table(_, members) => Ok(members),
        _ => Err(not(node, Wanted::Table)),
    }
}

/// The flag that a value is to be.
pub(crate) fn flag_of(node: &Node) -> Result<bool, Stop>
    ensures { IfOk result (IsFlag node.now) }
{
    match node {
        Node::Flag(_, flag) => Ok(*flag),
        _ => Err(not(node, Wanted::Flag)),
    }
}

/// The text that a value is to be.
pub(crate) fn text_of(node: &Node) -> Result<&str, Stop>
    ensures { IfOk result (λ text. IsText node.now text.now) }
{
    match node {
        Node::Text(_, text) => Ok(text),
        _ => Err(not(node, Wanted::Text)),
    }
}

/// The text that a value is to be, which isn't to be empty.
pub(crate) fn some_text_of(alloc: Global, node: &Node) -> Result<WrittenText, Stop>
    ensures { IfOk result (λ written. IsText node.now (string_bytes written.text)) }
{
    let text = text_of(node)?;
    if text.is_empty() {
        return Err(Stop::At(node.place(), FileFault::Empty));
    }
    Ok(WrittenText {
        place: node.place(),
        text: String::from_str(alloc, text)?,
    })
}

/// The bytes of the hexadecimal digits that a value is to be.
pub(crate) fn bytes_of(alloc: Global, node: &Node) -> Result<Vec<u8>, Stop>
    ensures { IfOk result (λ bytes. IsHex node.now bytes.items) }
{
    match hex::decode(alloc, text_of(node)?) {
        Ok(bytes) => Ok(bytes),
        Err(FromHexError::OutOfMemory) => Err(Stop::OutOfMemory),
        Err(_) => Err(not(node, Wanted::Hex)),
    }
}

/// The description that a value is to be.
pub(crate) fn name_of(alloc: Global, node: &Node) -> Result<WrittenName, Stop>
    ensures { IfOk result (IsName node.now) }
{
    let text = text_of(node)?;
    Ok(WrittenName {
        place: node.place(),
        text: String::from_str(alloc, text)?,
        bytes: description_bytes(alloc, node.place(), text)?,
    })
}

/// The bytes of the units of the description for which a text at a place stands, as
/// [`description_units`](value_texts::description_units) reads it.
fn description_bytes(alloc: Global, place: usize, text: &str) -> Result<Vec<u8>, Stop>
    ensures { IfOk result (λ bytes. IsDescriptionOf text.now bytes.items) }
{
    let units = match description_units(alloc, text) {
        Ok(units) => units,
        Err(DescriptionFault::OutOfMemory) => return Err(Stop::OutOfMemory),
        Err(fault) => return Err(Stop::At(place, FileFault::Description(fault))),
    };
    if units.contains(&0) {
        return Err(Stop::At(place, FileFault::ZeroCharacter));
    }
    let mut bytes = Vec::new(alloc);
    append_units(&units, &mut bytes)?;
    Ok(bytes)
}

/// The bytes of the units of UTF-16 that a text has, two for each, little-endian. This fails only when out of memory.
pub(crate) fn bytes_of_units(alloc: Global, text: &str) -> Result<Vec<u8>, AllocError>
    ensures { IfOk result (λ bytes. bytes.items ≡ unit_bytes text.now) }
{
    let mut units = Vec::new(alloc);
    append_text_units(text, &mut units)?;
    let mut bytes = Vec::new(alloc);
    append_units(&units, &mut bytes)?;
    Ok(bytes)
}

/// The descriptions that a value is to be a list of.
pub(crate) fn names_of(alloc: Global, node: &Node) -> Result<Vec<WrittenName>, Stop>
    ensures { IfOk result (λ names. AreNames node.now names.items) }
{
    let Node::List(_, items) = node else {
        return Err(not(node, Wanted::Descriptions));
    };
    let mut names = Vec::with_capacity(alloc, items.len())?;
    for item in items {
        names.push(name_of(alloc, item)?)?;
    }
    Ok(names)
}
