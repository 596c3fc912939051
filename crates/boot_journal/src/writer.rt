//! Journals to bytes.

ghost use Rattle.std.specs.Prelude.{◌≡◌, ◌≤◌, ◌∷◌, ◌++◌, length, Some, IfOk, IfSome, OnOk};
ghost use Rattle.std.specs.Option.{option_map};
ghost use Rattle.uefi_vars.specs.Name.{name_max};
ghost use Rattle.uefi_vars.specs.Set.{name_bytes, data_bytes};
ghost use Rattle.uefi_vars.specs.Vars.{data_max, IsData};
ghost use Rattle.boot_journal.specs.Bytes.{contents, value_bytes, change_bytes, changes_bytes, pending_bytes, body_bytes, of_machine, SpellsJournalFile};
ghost use Rattle.boot_journal.specs.JournalValue.{IsJournal, pending_of, IsPending};

use crate::boot_id::BootId;
use crate::change::Change;
use crate::journal::{Course, Journal, Pending};
use machine_names::MachineName;
use std::alloc::{AllocError, Global};
use uefi_vars::laws as vars_laws;

/// What a journal file of version 1 begins with: `BKJ1`.
pub(crate) const MAGIC_1: [u8; 4] = [0x42, 0x4B, 0x4A, 0x31];

/// What a journal file of version 2 begins with: `BKJ2`.
pub(crate) const MAGIC_2: [u8; 4] = [0x42, 0x4B, 0x4A, 0x32];

/// The byte that says that changes are being made.
pub(crate) const MAKING: u8 = 1;

/// The byte that says that changes are being taken back.
pub(crate) const TAKING_BACK: u8 = 2;

/// The journal file of a journal of this machine, its one spelling, in this crate's own format: the four bytes `BKJ2`, the
/// machine's name, and BootKeepState. If nothing is to be done, that is all. Otherwise one byte follows, 1 if changes are
/// being made and 2 if they are taken back, and then: the identity of the machine's start under which that began, its length
/// in one byte before it; if they are being made, BootKeepState before them; and each change, in the order in which they are
/// made, as the length of its variable's name in one byte, the name, what it has before, and what it has after. The
/// machine's name, BootKeepState and what a change has are each the length in four bytes, little-endian, and the bytes: the
/// length 0 says that there is none. This fails only when out of memory.
pub fn write_journal(
    alloc: Global,
    machine: &MachineName,
    journal: &Journal,
) -> Result<Vec<u8>, AllocError>
    ensures { IfOk result (λ bytes. SpellsJournalFile bytes.items (of_machine machine.now journal.now)) }
{
    let mut out = Vec::from_slice(alloc, &MAGIC_2)?;
    append_data(machine.as_bytes(), &mut out)?;
    append_body(journal, &mut out)?;
    Ok(out)
}

/// Appends the body of the file: BootKeepState, and what is still to be done.
fn append_body(journal: &Journal, out: &mut Vec<u8>) -> Result<(), AllocError>
    ensures value { OnOk result (out.new.items ≡ out.old.items ++ body_bytes journal.now) }
    ensures valid { IsJournal journal.now }
{
    append_value(journal.state.as_deref(), out)?;
    match &journal.pending {
        Some(pending) => append_pending(pending, out),
        None => Ok(()),
    }
}

/// Appends what is still to be done.
fn append_pending(pending: &Pending, out: &mut Vec<u8>) -> Result<(), AllocError>
    requires { IsPending (pending_of pending.now) }
    ensures { OnOk result (out.new.items ≡ out.old.items ++ pending_bytes (Some (pending_of pending.now))) }
{
    match &pending.course {
        Course::Making(former) => {
            append_start(MAKING, &pending.boot, out)?;
            append_value(former.as_deref(), out)?;
            append_changes(&pending.changes, out)
        }
        Course::TakingBack => {
            append_start(TAKING_BACK, &pending.boot, out)?;
            append_changes(&pending.changes, out)
        }
    }
}

/// Appends the byte that says a course, and the identity under which it began.
fn append_start(course: u8, boot: &BootId, out: &mut Vec<u8>) -> Result<(), AllocError>
    ensures { OnOk result (out.new.items ≡ out.old.items ++ (course ∷ name_bytes boot.now)) }
{
    out.push(course)?;
    append_name(boot.as_str(), out)
}

/// Appends changes one after the other.
fn append_changes(changes: &[Change], out: &mut Vec<u8>) -> Result<(), AllocError>
    ensures { OnOk result (out.new.items ≡ out.old.items ++ changes_bytes changes.now) }
{
    for change in changes {
        append_change(change, out)?;
    }
    Ok(())
}

/// Appends a change.
fn append_change(change: &Change, out: &mut Vec<u8>) -> Result<(), AllocError>
    ensures { OnOk result (out.new.items ≡ out.old.items ++ change_bytes change.now) }
{
    vars_laws::boot_names_are_names();
    append_name(change.name(), out)?;
    append_value(change.before(), out)?;
    append_value(change.after(), out)
}

/// Appends a name or an identity.
fn append_name(name: &str, out: &mut Vec<u8>) -> Result<(), AllocError>
    requires { length name.now ≤ name_max }
    ensures { OnOk result (out.new.items ≡ out.old.items ++ name_bytes name.now) }
{
    // It has at most NAME_MAX characters.
    out.push(name.len() as u8)?;
    out.extend_from_slice(name.as_bytes())
}

/// Appends a value.
fn append_value(value: Option<&[u8]>, out: &mut Vec<u8>) -> Result<(), AllocError>
    requires { IfSome (option_map (λ bytes. bytes.now) value) IsData }
    ensures { OnOk result (out.new.items ≡ out.old.items ++ value_bytes (option_map (λ bytes. bytes.now) value.entry)) }
{
    append_data(contents(value), out)
}

/// Appends these bytes, of which there are at most [`DATA_MAX`](uefi_vars::DATA_MAX), after their length in four bytes.
fn append_data(bytes: &[u8], out: &mut Vec<u8>) -> Result<(), AllocError>
    requires { length bytes.now ≤ data_max }
    ensures { OnOk result (out.new.items ≡ out.old.items ++ data_bytes bytes.now) }
{
    let len = bytes.len() as u32;
    out.extend_from_slice(&len.to_le_bytes())?;
    out.extend_from_slice(bytes)
}

/// The bytes of a value: none of one that isn't there.
fn contents<'a>(value: Option<&'a [u8]>) -> &'a [u8]
    requires { IfSome (option_map (λ bytes. bytes.now) value) IsData }
    ensures value { result.now ≡ contents (option_map (λ bytes. bytes.now) value.entry) }
    ensures len { length result.now ≤ data_max }
{
    match value {
        Some(bytes) => bytes,
        None => &[],
    }
}
