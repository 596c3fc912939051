//! Changes of files that are replaced as a whole.

use machine_storage::{KeptVars, set_value};
use messages::Failure;
use std::alloc::Global;
use uefi_vars::{Vars, boot_changes, write_set};
use var_places::{changed_variable_file, set_vars};

/// The bytes of the variable file at this path, which has these and whose machine keeps this, once it keeps what a change leads
/// to, which is given as a set and as the machine is to keep it: `None` if that changes nothing.
///
/// # Errors
///
/// [`Failure::Refused`] if the file has no room, and [`Failure::Memory`] if memory was refused.
pub(crate) fn changed_bytes(
    alloc: Global,
    place: &str,
    (bytes, kept): (&[u8], &KeptVars),
    (set, to): (Vars, &Vars),
) -> Result<Option<Vec<u8>>, Failure> {
    if boot_changes(alloc, &kept.vars, to)?.is_empty() {
        return Ok(None);
    }
    let mut set = set;
    // What stands for a variable that no set can hold isn't to be written over it.
    for name in &kept.left_out {
        set.remove(name.as_str());
    }
    Ok(Some(changed_variable_file(alloc, place, bytes, &set, to)?))
}

/// The bytes of the set file at this path, which has these and of which this would be kept, once it has what a change leads to,
/// which is given as a set and as a machine would keep it: `None` if that changes nothing.
///
/// # Errors
///
/// [`Failure::Refused`] if the file is damaged, and [`Failure::Memory`] if memory was refused.
pub(crate) fn changed_set_bytes(
    alloc: Global,
    place: &str,
    (bytes, kept): (&[u8], &KeptVars),
    (set, to): (Vars, &Vars),
) -> Result<Option<Vec<u8>>, Failure> {
    if boot_changes(alloc, &kept.vars, to)?.is_empty() {
        return Ok(None);
    }
    let mut set = set;
    let was = set_vars(alloc, place, bytes)?;
    // What has no room for attributes stays as it is.
    for name in &kept.left_out {
        set_value(&mut set, name.as_str(), was.get(name.as_str()))?;
    }
    Ok(Some(write_set(alloc, &set)?))
}
