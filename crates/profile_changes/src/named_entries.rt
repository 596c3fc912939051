//! Entries that can be named by their descriptions.

use std::alloc::{AllocError, Global};
use std::fmt::Write;
use uefi_option::{OptionView, check_option};
use uefi_path::read_units;
use uefi_vars::{Vars, entry_number};

/// An entry.
#[derive(Drop)]
pub(crate) struct NamedEntry<'a> {
    /// Its number.
    pub(crate) number: u16,
    /// Its load option.
    pub(crate) option: OptionView<'a>,
    /// The bytes of its load option.
    pub(crate) bytes: &'a [u8],
    /// Its description, or that it can't be named by that.
    pub(crate) name: EntryNaming,
}

/// By what an entry can be named.
#[derive(Drop)]
pub(crate) enum EntryNaming {
    /// By this description, as a file spells it.
    Name(String),
    /// By nothing, since another entry has its description.
    Shared,
}

/// The entries of variables that are load options, by rising number.
pub(crate) fn named_entries<'a>(
    alloc: Global,
    vars: &'a Vars,
) -> Result<Vec<NamedEntry<'a>>, AllocError> {
    let descriptions = sorted_descriptions(alloc, vars)?;
    let mut entries = Vec::new(alloc);
    for (name, bytes) in vars.iter() {
        if let Some(number) = entry_number(name)
            && let Ok(option) = check_option(bytes)
        {
            let name = naming_of(alloc, &descriptions, option.description)?;
            entries.push(NamedEntry {
                number,
                option,
                bytes,
                name,
            })?;
        }
    }
    Ok(entries)
}

/// The descriptions of all entries, in order.
fn sorted_descriptions<'a>(alloc: Global, vars: &'a Vars) -> Result<Vec<&'a [u8]>, AllocError> {
    let mut descriptions = Vec::new(alloc);
    for (name, bytes) in vars.iter() {
        if entry_number(name).is_some()
            && let Ok(option) = check_option(bytes)
        {
            descriptions.push(option.description)?;
        }
    }
    descriptions.sort()?;
    Ok(descriptions)
}

/// By what an entry of this description can be named, beside entries of these descriptions, of which it is one.
fn naming_of(
    alloc: Global,
    descriptions: &[&[u8]],
    description: &[u8],
) -> Result<EntryNaming, AllocError> {
    if is_shared(descriptions, description) {
        return Ok(EntryNaming::Shared);
    }
    let units = read_units(alloc, description)?;
    Ok(EntryNaming::Name(spelled(alloc, &units)?))
}

/// A description as files spell it ([`description_units`](value_texts::description_units)): each character as itself, but
/// a backslash and half of a pair in UTF-16 as `\u` and four digits. This fails only when out of memory.
fn spelled(alloc: Global, units: &[u16]) -> Result<String, AllocError> {
    let mut text = String::new(alloc);
    for decoded in char::decode_utf16(units.iter().copied()) {
        match decoded {
            Ok('\\') => text.push_str("\\u005c")?,
            Ok(character) => text.push(character)?,
            Err(half) => write!(text, "\\u{:04x}", half.unpaired_surrogate())?,
        }
    }
    Ok(text)
}

/// Whether this is several of the descriptions, which are in order.
fn is_shared(descriptions: &[&[u8]], description: &[u8]) -> bool {
    let before = descriptions.partition_point(|other| *other < description);
    let rest = descriptions.get(before..).unwrap_or(&[]);
    match rest {
        [_, second, ..] => *second == description,
        _ => false,
    }
}
