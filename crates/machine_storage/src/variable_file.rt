//! Changes of variables of an emulator's variable file, which are written at once.

use crate::storage::from_change;
use crate::values::set_value;
use boot_journal::Change;
use messages::{Failure, Reason};
use std::alloc::{AllocError, Global};
use std::io::{self, ErrorKind};
use std::rt::Files;
use uefi_vars::{ATTRIBUTES_LEN, Vars};
use var_places::{ChangeFault, changed_variable_file, from_store, read_variables};
use var_stores::{read_store, store_attributes, store_vars};
use whole_files::{FileLock, OutputFile, rewrite_file};

/// A change of a variable of a file, which isn't written yet.
#[derive(Drop)]
pub(crate) struct DueChange {
    /// The variable's name.
    name: String,
    /// What was read of it.
    before: Option<Vec<u8>>,
    /// What is to be kept of it: its attributes and its data, or nothing if it is taken out.
    after: Option<Vec<u8>>,
    /// Whether it is made only if the variable is what was read of it: a program that takes no lock may have changed it since.
    is_first: bool,
}

impl DueChange {
    /// The change, with bytes of its own. This fails only when out of memory.
    pub(crate) fn new(
        alloc: Global,
        change: &Change,
        is_first: bool,
    ) -> Result<DueChange, AllocError> {
        Ok(DueChange {
            name: String::from_str(alloc, change.name())?,
            before: copied(alloc, change.before())?,
            after: copied(alloc, change.after())?,
            is_first,
        })
    }
}

/// The bytes, if there are some, as a list of their own.
fn copied(alloc: Global, bytes: Option<&[u8]>) -> Result<Option<Vec<u8>>, AllocError> {
    match bytes {
        Some(bytes) => Ok(Some(Vec::from_slice(alloc, bytes)?)),
        None => Ok(None),
    }
}

/// The bytes that the file at this path is to have with the changes, which is locked: `None` if it has them already. Nothing is
/// written.
///
/// # Errors
///
/// [`Failure::Read`] with the system's reason, [`Failure::Refused`] if the file is damaged or has no room, or a variable that is
/// changed for the first time isn't what was read of it, and [`Failure::Memory`] if memory was refused.
pub(crate) fn bytes_due<R: Files + Input + AllocGlobal>(
    rt: &R,
    path: &str,
    due: &[DueChange],
) -> Result<Option<Vec<u8>>, Failure> {
    if due.is_empty() {
        return Ok(None);
    }
    let alloc = rt.alloc();
    let bytes = read_variables(rt, path)?;
    let stored = read_stored(alloc, path, &bytes)?;
    check_unchanged(alloc, path, &stored, due)?;
    changed_file(alloc, path, (&bytes, &stored), due)
}

/// Replaces the file at this path, which is locked, by one with these bytes, and keeps the lock.
///
/// # Errors
///
/// [`Failure::Refused`] if another program has put another file there since it was locked: nothing was written then.
/// [`Failure::Write`] with the system's reason otherwise.
pub(crate) fn write_due<R: Files<File: OutputFile> + AllocGlobal>(
    rt: &R,
    path: &str,
    lock: &mut FileLock<R::File>,
    bytes: &[u8],
) -> Result<(), Failure> {
    match rewrite_file(rt, lock, bytes) {
        Ok(()) => Ok(()),
        Err(error) => Err(from_rewriting(rt.alloc(), path, error)),
    }
}

/// What it is to the program that the file at this path can't be replaced.
fn from_rewriting(alloc: Global, path: &str, error: io::Error) -> Failure {
    match error.kind() {
        ErrorKind::ResourceBusy => Failure::refused(alloc, path, Reason::ChangedMeanwhile),
        _ => Failure::from_write(alloc, path, error),
    }
}

/// Refuses changes of variables that aren't what was read of them.
fn check_unchanged(
    alloc: Global,
    path: &str,
    stored: &Stored,
    due: &[DueChange],
) -> Result<(), Failure> {
    let is_other = |change: &&DueChange| {
        let name = change.name.as_str();
        change.is_first
            && !stored.keeps(name, change.before.as_deref())
            && !stored.keeps(name, change.after.as_deref())
    };
    match due.iter().find(is_other) {
        Some(change) => Err(from_change(alloc, path, change.name.as_str(), ChangeFault::Changed)),
        None => Ok(()),
    }
}

/// What the file at this path is to be, which has these bytes and this is stored in, once the changes are made: `None` if they
/// are.
fn changed_file(
    alloc: Global,
    path: &str,
    (bytes, stored): (&[u8], &Stored),
    due: &[DueChange],
) -> Result<Option<Vec<u8>>, Failure> {
    if due.iter().all(|change| stored.has(change)) {
        return Ok(None);
    }
    let bytes = renewed_file(alloc, path, (bytes, stored), due)?;
    let made = stored.made(alloc, due)?;
    Ok(Some(changed_variable_file(alloc, path, &bytes, &made.vars, &made.attributes)?))
}

/// The file without the variables whose attributes are to be others, while their data stays: a record with the same data isn't
/// written anew.
fn renewed_file(
    alloc: Global,
    path: &str,
    (bytes, stored): (&[u8], &Stored),
    due: &[DueChange],
) -> Result<Vec<u8>, Failure> {
    let mut renewed = stored.vars.copy(alloc)?;
    for change in due {
        let name = change.name.as_str();
        if stored.has_data(name, change.after.as_deref()) && !stored.has(change) {
            renewed.remove(name);
        }
    }
    changed_variable_file(alloc, path, bytes, &renewed, &Vars::new(alloc))
}

/// Whether the change is made in the file at this path.
///
/// # Errors
///
/// As of [`write_due`].
pub(crate) fn is_in_file<R: Files + Input + AllocGlobal>(
    rt: &R,
    path: &str,
    change: &Change,
) -> Result<bool, Failure> {
    let bytes = read_variables(rt, path)?;
    let stored = read_stored(rt.alloc(), path, &bytes)?;
    Ok(stored.keeps(change.name(), change.after()))
}

/// The variables of a file, and the attributes of each.
#[derive(Drop)]
struct Stored {
    vars: Vars,
    attributes: Vars,
}

impl Stored {
    /// What is stored once the changes are made, with the attributes of those that are changed alone. This fails only when out
    /// of memory.
    fn made(&self, alloc: Global, due: &[DueChange]) -> Result<Stored, AllocError> {
        let mut made = Stored {
            vars: self.vars.copy(alloc)?,
            attributes: Vars::new(alloc),
        };
        for change in due {
            made.set(change)?;
        }
        Ok(made)
    }

    /// Makes the change.
    fn set(&mut self, change: &DueChange) -> Result<(), AllocError> {
        let name = change.name.as_str();
        let after = change
            .after
            .as_deref()
            .and_then(|kept| kept.split_at_checked(ATTRIBUTES_LEN));
        set_value(&mut self.vars, name, after.map(|(_attributes, data)| data))?;
        set_value(
            &mut self.attributes,
            name,
            after.map(|(attributes, _data)| attributes),
        )
    }

    /// Whether the change is made.
    fn has(&self, change: &DueChange) -> bool {
        self.keeps(change.name.as_str(), change.after.as_deref())
    }

    /// Whether the variable of this name has the attributes and the data of what is to be kept of it, or isn't there if it
    /// is to be taken out.
    fn keeps(&self, name: &str, kept: Option<&[u8]>) -> bool {
        let attributes = kept.and_then(|kept| kept.get(..ATTRIBUTES_LEN));
        self.has_data(name, kept) && self.attributes.get(name) == attributes
    }

    /// Whether it has that data, or isn't there if it is to be taken out.
    fn has_data(&self, name: &str, kept: Option<&[u8]>) -> bool {
        self.vars.get(name) == kept.and_then(|kept| kept.get(ATTRIBUTES_LEN..))
    }
}

/// What is stored in the file with these bytes.
fn read_stored(alloc: Global, path: &str, bytes: &[u8]) -> Result<Stored, Failure> {
    let store = read_store(alloc, bytes).map_err(|fault| from_store(alloc, path, bytes, fault))?;
    Ok(Stored {
        vars: store_vars(alloc, &store)?,
        attributes: store_attributes(alloc, &store)?,
    })
}
