//! Entries of profiles.

ghost use Rattle.std.specs.Prelude.{◌≡◌, ◌⊎◌, ℕ, true, false, List, IfOk, OnOk, codes};
ghost use Rattle.std.specs.List.{AllByRecursion};
ghost use Rattle.profile_files.specs.Entries.{HasActive, HasOptional, HasStart, HasText, IsEntry, IsHex, IsLoneOption, IsOptionOf, IsState, IsUnits};
ghost use Rattle.profile_files.specs.Members.{HasNone, IsOfAbsent};

use crate::fault::{FileFault, Stop, Wanted};
use crate::tree::{Key, Node, member};
use crate::values::{
    bytes_of, bytes_of_units, check_names, flag_of, members_of, name_of, not, some_text_of, text_of,
};
use crate::written::{WrittenEntry, WrittenName, WrittenPresent, WrittenStart, WrittenState};
use std::alloc::Global;
use uefi_option::{OptionFault, check_option};

/// The names of an entry's members.
const NAMES: [&str; 8] = [
    "description",
    "state",
    "loader",
    "path",
    "option",
    "optional",
    "optional_text",
    "active",
];

/// The members of an entry, and where it begins.
#[derive(Clone, Copy)]
struct Entry<'a> {
    place: usize,
    members: &'a [(Key, Node)],
}

/// The entry that a value is.
pub(crate) fn entry_of(alloc: Global, node: &Node) -> Result<WrittenEntry, Stop>
    ensures { IfOk result (IsEntry node.now) }
{
    let members = members_of(node)?;
    check_names(members, &NAMES)?;
    let entry = Entry {
        place: node.place(),
        members,
    };
    let Some(description) = member(members, "description") else {
        return Err(Stop::At(entry.place, FileFault::NoDescription));
    };
    let name = name_of(alloc, description)?;
    let state = state_of(alloc, entry, &name)?;
    Ok(WrittenEntry { name, state })
}

/// What is to be of the entry, which has this description.
fn state_of(alloc: Global, entry: Entry<'_>, name: &WrittenName) -> Result<WrittenState, Stop>
    ensures { IfOk result (IsState entry.entry.members.now name.now.bytes.items) }
{
    if is_present(entry)? {
        return Ok(WrittenState::Present(present_of(alloc, entry, name)?));
    }
    check_absent(entry.members)?;
    Ok(WrittenState::Absent)
}

/// Whether the entry is to be there.
fn is_present(entry: Entry<'_>) -> Result<bool, Stop>
    ensures present { IfOk result (λ is. is ≡ true → HasNone (codes "state") entry.entry.members.now
        ⊎ HasText (codes "state") (codes "present") entry.entry.members.now) }
    ensures absent { IfOk result (λ is. is ≡ false → HasText (codes "state") (codes "absent") entry.entry.members.now) }
{
    let Some(node) = member(entry.members, "state") else {
        return Ok(true);
    };
    match text_of(node) {
        Ok("present") => Ok(true),
        Ok("absent") => Ok(false),
        _ => Err(not(node, Wanted::State)),
    }
}

/// Refuses members that only an entry has that is to be there.
fn check_absent(members: &[(Key, Node)]) -> Result<(), Stop>
    ensures { OnOk result (AllByRecursion IsOfAbsent members.now) }
{
    let [(key, _), rest @ ..] = members else {
        return Ok(());
    };
    let name = key.name.as_str();
    if name != "description" && name != "state" {
        return Err(Stop::At(key.place, FileFault::OfAbsent));
    }
    check_absent(rest)
}

/// What the entry, which has this description, is to be.
fn present_of(alloc: Global, entry: Entry<'_>, name: &WrittenName) -> Result<WrittenPresent, Stop>
    ensures start { IfOk result (λ present. HasStart entry.entry.members.now name.now.bytes.items present.start) }
    ensures active { IfOk result (λ present. HasActive entry.entry.members.now present.active) }
{
    let start = start_of(alloc, entry, name)?;
    let active = active_of(entry)?;
    Ok(WrittenPresent { start, active })
}

/// Whether the entry is to be active, if that is said.
fn active_of(entry: Entry<'_>) -> Result<Option<bool>, Stop>
    ensures { IfOk result (HasActive entry.entry.members.now) }
{
    match member(entry.members, "active") {
        Some(node) => Ok(Some(flag_of(node)?)),
        None => Ok(None),
    }
}

/// What the entry starts.
fn start_of(alloc: Global, entry: Entry<'_>, name: &WrittenName) -> Result<WrittenStart, Stop>
    ensures { IfOk result (HasStart entry.entry.members.now name.now.bytes.items) }
{
    let loader = member(entry.members, "loader");
    let path = member(entry.members, "path");
    let option = member(entry.members, "option");
    match (loader, path, option) {
        (Some(node), None, None) => {
            let optional = optional_of(alloc, entry)?;
            Ok(WrittenStart::Loader(some_text_of(alloc, node)?, optional))
        }
        (None, Some(node), None) => {
            let optional = optional_of(alloc, entry)?;
            Ok(WrittenStart::Path(some_text_of(alloc, node)?, optional))
        }
        (None, None, Some(node)) => {
            Ok(WrittenStart::Option(lone_option(alloc, entry, node, name)?))
        }
        (None, None, None) => Err(Stop::At(entry.place, FileFault::NoStart)),
        (_, _, Some(node)) | (_, Some(node), None) => {
            Err(Stop::At(node.place(), FileFault::TwoStarts))
        }
    }
}

/// The bytes of the load option that a value of an entry of this description is to be, which has no other optional data.
fn lone_option(
    alloc: Global,
    entry: Entry<'_>,
    node: &Node,
    name: &WrittenName,
) -> Result<Vec<u8>, Stop>
    ensures { IfOk result (λ bytes. IsLoneOption node.now entry.entry.members.now name.now.bytes.items bytes.items) }
{
    check_no_optional(entry)?;
    option_of(alloc, node, name)
}

/// Refuses optional data.
fn check_no_optional(entry: Entry<'_>) -> Result<(), Stop>
    ensures digits { OnOk result (HasNone (codes "optional") entry.entry.members.now) }
    ensures text { OnOk result (HasNone (codes "optional_text") entry.entry.members.now) }
{
    match (
        member(entry.members, "optional"),
        member(entry.members, "optional_text"),
    ) {
        (None, None) => Ok(()),
        (Some(node), _) | (None, Some(node)) => {
            Err(Stop::At(node.place(), FileFault::OptionalOfOption))
        }
    }
}

/// The optional data of the entry.
fn optional_of(alloc: Global, entry: Entry<'_>) -> Result<Vec<u8>, Stop>
    ensures { IfOk result (λ bytes. HasOptional entry.entry.members.now bytes.items) }
{
    match (
        member(entry.members, "optional"),
        member(entry.members, "optional_text"),
    ) {
        (None, None) => Ok(Vec::new(alloc)),
        (Some(digits), None) => bytes_of(alloc, digits),
        (None, Some(text)) => text_bytes_of(alloc, text),
        (Some(_), Some(text)) => Err(Stop::At(text.place(), FileFault::TwoOptionals)),
    }
}

/// The bytes of the UTF-16 units of the text that a value is to be.
fn text_bytes_of(alloc: Global, node: &Node) -> Result<Vec<u8>, Stop>
    ensures { IfOk result (λ bytes. IsUnits node.now bytes.items) }
{
    let bytes = bytes_of_units(alloc, text_of(node)?)?;
    Ok(bytes)
}

/// The bytes of the load option that a value is to be, which has this description.
fn option_of(alloc: Global, node: &Node, name: &WrittenName) -> Result<Vec<u8>, Stop>
    ensures digits { IfOk result (λ bytes. IsHex node.now bytes.items) }
    ensures is { IfOk result (λ bytes. IsOptionOf bytes.items name.now.bytes.items) }
{
    let bytes = bytes_of(alloc, node)?;
    match check_option(&bytes) {
        Ok(view) if view.description == name.bytes.as_slice() => {}
        Ok(_) => return Err(Stop::At(node.place(), FileFault::OtherDescription)),
        Err(OptionFault::OutOfMemory) => return Err(Stop::OutOfMemory),
        Err(fault) => return Err(Stop::At(node.place(), FileFault::Option(fault))),
    }
    Ok(bytes)
}
