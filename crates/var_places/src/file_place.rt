//! Variables of files: of a set file, and of an emulator's variable file.

use crate::file_kinds::{FileKind, file_kind, other_kind};
use crate::folder::LeftOut;
use crate::input::STANDARD;
use crate::place_vars::PlaceVars;
use crate::reasons::{damage_words, set_reason, store_reason};
use messages::{Failure, IsIgnored, Reason, Shortened, note};
use std::alloc::{AllocError, Global};
use std::fs;
use std::io::{self, ErrorKind};
use std::rt::Files;
use uefi_option::description_text;
use uefi_path::read_units;
use uefi_vars::{DATA_MAX, KEEP_STATE, SetFault, Vars, is_boot_name, read_set};
use var_stores::{
    Record, StoreFault, VariableStore, WriteFault, left_out, read_store, store_attributes,
    store_vars, write_boot_vars,
};
use whole_files::{LIMIT, read_file};

/// The variables of the file of this name, which has these bytes. Tells on standard error what is left out, and damage,
/// as [`variable_file`] does.
///
/// # Errors
///
/// [`Failure::Refused`] if it is neither a set file nor an emulator's variable file, or is damaged, and
/// [`Failure::Memory`] if memory was refused.
pub fn file_vars<R: Eprint + AllocGlobal>(
    rt: &R,
    name: &str,
    bytes: &[u8],
) -> Result<Vars, Failure> {
    match file_kind(bytes) {
        FileKind::Set => set_vars(rt.alloc(), name, bytes),
        FileKind::VariableFile => Ok(variable_file(rt, name, bytes)?.vars),
        FileKind::Other => Err(no_place(rt.alloc(), name, bytes)),
    }
}

/// What it is to the program that a file with these bytes is no place of variables.
pub fn no_place(alloc: Global, name: &str, bytes: &[u8]) -> Failure {
    Failure::refused(alloc, name, Reason::NoPlace(other_kind(bytes)))
}

/// The variables of the set file of this name.
///
/// # Errors
///
/// [`Failure::Refused`] if it is damaged, and [`Failure::Memory`] if memory was refused.
pub fn set_vars(alloc: Global, name: &str, bytes: &[u8]) -> Result<Vars, Failure> {
    read_set(alloc, bytes).map_err(|fault| match set_reason(bytes, fault) {
        Some(reason) => Failure::refused(alloc, name, reason),
        None => Failure::Memory,
    })
}

/// Whether a set file with BootKeepState is at this path. What can't be read, or is no set, has none, and nor has standard
/// output, whose path is `-`.
///
/// # Errors
///
/// [`AllocError`] if memory was refused.
pub fn has_keep_state<R: Files + AllocGlobal>(rt: &R, path: &str) -> Result<bool, AllocError> {
    if path == STANDARD {
        return Ok(false);
    }
    let bytes = match regular_bytes(rt, path) {
        Ok(Some(bytes)) => bytes,
        Err(error) if error.kind() == ErrorKind::OutOfMemory => return Err(AllocError),
        Ok(None) | Err(_) => return Ok(false),
    };
    match read_set(rt.alloc(), &bytes) {
        Ok(vars) => Ok(vars.get(KEEP_STATE).is_some()),
        Err(SetFault::OutOfMemory) => Err(AllocError),
        Err(_) => Ok(false),
    }
}

/// The bytes of the regular file at this path: `None` if something else is there, as a pipe, which a reader would wait
/// for, or there are more than [`LIMIT`].
fn regular_bytes<R: Files + AllocGlobal>(rt: &R, path: &str) -> io::Result<Option<Vec<u8>>> {
    if !fs::metadata(rt, path)?.is_file() {
        return Ok(None);
    }
    read_file(rt, path, LIMIT)
}

/// The variables of the emulator's variable file of this name, which has these bytes. Tells on standard error what is
/// left out, and whether something behind the last record isn't erased: then the file is damaged, and there may have
/// been more variables.
///
/// # Errors
///
/// [`Failure::Refused`] if it is no variable file, or is damaged so that it can't be read, and [`Failure::Memory`] if
/// memory was refused.
pub fn variable_file<R: Eprint + AllocGlobal>(
    rt: &R,
    name: &str,
    bytes: &[u8],
) -> Result<PlaceVars, Failure> {
    let alloc = rt.alloc();
    let store = store_of(alloc, name, bytes)?;
    if let Some(damage) = store.damage() {
        note(rt, name, damage_words(damage));
    }
    let mut found = PlaceVars {
        vars: store_vars(alloc, &store)?,
        attributes: store_attributes(alloc, &store)?,
        left_out: tell_left_out(rt, name, &store)?,
    };
    if found.vars.remove(KEEP_STATE) {
        found.attributes.remove(KEEP_STATE);
        let left_out = IsIgnored {
            name: KEEP_STATE,
            why: LeftOut::KeepState,
        };
        note(rt, name, left_out);
    }
    Ok(found)
}

/// Tells on standard error which variables of the file of this name no set can hold, and gives the names of those of
/// them that are the boot manager's.
fn tell_left_out<R: Eprint + AllocGlobal>(
    rt: &R,
    name: &str,
    store: &VariableStore<'_>,
) -> Result<Vec<String>, AllocError> {
    let alloc = rt.alloc();
    let mut boot_names = Vec::new(alloc);
    for record in &left_out(alloc, store)? {
        let variable = record_name(alloc, record)?;
        let shown = Shortened(variable.as_str());
        let why = why_left_out(record);
        note(rt, name, IsIgnored { name: shown, why });
        if is_boot_record(record, &variable) {
            boot_names.push(variable)?;
        }
    }
    Ok(boot_names)
}

/// Whether the record, whose name is shown so, is one of a variable of the boot manager. Each character of such a name
/// is two bytes, and so is the zero unit at its end.
fn is_boot_record(record: &Record<'_>, shown: &str) -> bool {
    let len = record.name.len();
    is_boot_name(shown) && len % 2 == 0 && len / 2 == shown.len() + 1
}

/// Refuses the file of this name, which has these bytes, if it is an emulator's variable file in which something behind
/// the last record isn't erased, since a change would be written over it. A file of another kind passes.
///
/// # Errors
///
/// [`Failure::Refused`] if that is so, or its records can't be read, and [`Failure::Memory`] if memory was refused.
pub fn check_damage(alloc: Global, name: &str, bytes: &[u8]) -> Result<(), Failure> {
    if file_kind(bytes) != FileKind::VariableFile {
        return Ok(());
    }
    match store_of(alloc, name, bytes)?.damage() {
        Some(damage) => Err(Failure::refused(alloc, name, Reason::Damage(damage_words(damage)))),
        None => Ok(()),
    }
}

/// The store of the emulator's variable file of this name, which has these bytes.
fn store_of<'a>(alloc: Global, name: &str, bytes: &'a [u8]) -> Result<VariableStore<'a>, Failure> {
    read_store(alloc, bytes).map_err(|fault| from_store(alloc, name, bytes, fault))
}

/// What it is to the program that the variable file of this name, which has these bytes, has this fault.
pub fn from_store(alloc: Global, name: &str, bytes: &[u8], fault: StoreFault) -> Failure {
    match store_reason(bytes, fault) {
        Some(reason) => Failure::refused(alloc, name, reason),
        None => Failure::Memory,
    }
}

/// The name of a record's variable, as [`description_text`] shows its units, without the zero unit at its end.
fn record_name(alloc: Global, record: &Record<'_>) -> Result<String, AllocError> {
    let units = read_units(alloc, record.name)?;
    let units = units.as_slice();
    description_text(alloc, units.strip_suffix(&[0]).unwrap_or(units))
}

/// Why no set can hold the record's variable.
fn why_left_out(record: &Record<'_>) -> LeftOut {
    if record.value.is_empty() {
        LeftOut::NoValue
    } else if record.value.len() > DATA_MAX {
        LeftOut::LongValue
    } else {
        LeftOut::Name
    }
}

/// The bytes of the emulator's variable file of this name, which has these bytes, with the boot variables of a set. A
/// variable that changes gets the first four bytes of what `attributes` has under its name, or those that it has in the
/// file if there are none, or [`BOOT_ATTRIBUTES`](uefi_vars::BOOT_ATTRIBUTES) if it is new. What no set can hold stays
/// as it is, unless the set has a variable of its name.
///
/// # Errors
///
/// [`Failure::Refused`] if it is damaged, or has no room, and [`Failure::Memory`] if memory was refused.
pub fn changed_variable_file(
    alloc: Global,
    name: &str,
    bytes: &[u8],
    to: &Vars,
    attributes: &Vars,
) -> Result<Vec<u8>, Failure> {
    write_boot_vars(alloc, bytes, to, attributes).map_err(|fault| match fault {
        WriteFault::Store(fault) => from_store(alloc, name, bytes, fault),
        WriteFault::Full => Failure::refused(alloc, name, Reason::Full),
        WriteFault::OutOfMemory => Failure::Memory,
    })
}
