//! Bytes to journals.

ghost use Rattle.std.specs.Prelude.{◌≡◌, ◌≢◌, ◌<◌, ◌≤◌, length, drop, IfOk, IfErr, IfSome, None, Ok, Err, true, false};
ghost use Rattle.std.specs.List.{AllByRecursion};
ghost use Rattle.std.specs.Option.{option_map};
ghost use Rattle.uefi_path.specs.Answer.{IsUnless};
ghost use Rattle.uefi_vars.specs.Name.{IsName};
ghost use Rattle.uefi_vars.specs.Vars.{IsData};
ghost use Rattle.uefi_vars.specs.BootChange.{is_boot_name};
ghost use Rattle.boot_journal.specs.declared.fault.JournalFault.{JournalFault};
ghost use Rattle.boot_journal.specs.declared.journal_file.JournalFile.{JournalFile};
ghost use Rattle.boot_journal.specs.JournalValue.{pending_of, IsPending};
ghost use Rattle.machine_names.specs.MachineName.{IsMachineName};
ghost use Rattle.boot_journal.specs.Values.{IsBootChange};
ghost use Rattle.boot_journal.specs.Bytes.{SpellsJournalFile};
ghost use Rattle.boot_journal.specs.Fault.{HasNoMagic, IsJournalFault};
ghost use Rattle.boot_journal.specs.Reader.{Gives, place_of, stored, is_printing, len_at, value_at, machine_at, identity_at, name_at, change_at, changes_at, making_at, taking_back_at, pending_at, parts_at, unnamed_at, named_at, file_at};

use crate::boot_id::BootId;
use crate::change::{Change, copied};
use crate::fault::JournalFault;
use crate::journal::{Course, Journal, Pending};
use crate::journal_file::JournalFile;
use crate::writer::{MAGIC_1, MAGIC_2, MAKING, TAKING_BACK};
use machine_names::{MACHINE_NAME_MAX, MachineName};
use std::alloc::{AllocError, Global};
use uefi_vars::{DATA_MAX, NAME_MAX, is_boot_name, laws as vars_laws};

/// The place of the bytes with which a file of this length ends.
fn place_of(end: usize, bytes: &[u8]) -> usize
    ensures { result ≡ place_of end bytes.now }
{
    end.saturating_sub(bytes.len())
}

/// A value of these bytes: none if there are none.
fn stored(bytes: &[u8]) -> Option<&[u8]>
    ensures { option_map (λ b. b.now) result ≡ stored bytes.now }
{
    if bytes.is_empty() { None } else { Some(bytes) }
}

/// The length in four bytes at the start of the bytes, with which a file of this length ends, and the bytes after it.
#[tactic(auto, unfolding(crate::specs::Reader::len_at))]
fn split_len(end: usize, bytes: &[u8]) -> Result<(usize, &[u8]), JournalFault>
    ensures value { Gives (λ split. (split.0, split.1.now)) result (len_at end bytes.now) }
    ensures behind { IfOk result (λ split. split.1.now ≡ drop 4 bytes.now) }
    ensures shorter { IfOk result (λ split. length split.1.now < length bytes.now) }
{
    match bytes.split_first_chunk::<4>() {
        Some((len, behind)) => Ok((u32::from_le_bytes(*len) as usize, behind)),
        None => Err(JournalFault::Truncated(place_of(end, bytes))),
    }
}

/// The value at the start of the bytes, with which a file of this length ends, and the bytes after it.
#[tactic(auto, unfolding(crate::specs::Reader::value_at))]
fn split_value(end: usize, bytes: &[u8]) -> Result<(Option<&[u8]>, &[u8]), JournalFault>
    ensures value { Gives (λ split. (option_map (λ b. b.now) split.0, split.1.now)) result (value_at end bytes.now) }
    ensures valid { IfOk result (λ split. IfSome (option_map (λ b. b.now) split.0) IsData) }
    ensures shorter { IfOk result (λ split. length split.1.now ≤ length bytes.now) }
{
    let (len, behind) = split_len(end, bytes)?;
    if len > DATA_MAX {
        return Err(JournalFault::ValueTooLong(place_of(end, bytes)));
    }
    if len > behind.len() {
        return Err(JournalFault::Truncated(place_of(end, bytes)));
    }
    let (value, behind) = behind.split_at(len);
    Ok((stored(value), behind))
}

/// The name of a machine at the start of the bytes, with which a file of this length ends, and the bytes after it.
#[tactic(auto, unfolding(crate::specs::Reader::machine_at))]
fn split_machine(end: usize, bytes: &[u8]) -> Result<(&[u8], &[u8]), JournalFault>
    ensures value { Gives (λ split. (split.0.now, split.1.now)) result (machine_at end bytes.now) }
    ensures valid { IfOk result (λ split. IsMachineName split.0.now) }
{
    let (len, behind) = split_len(end, bytes)?;
    if len == 0 || len > MACHINE_NAME_MAX {
        return Err(JournalFault::BadMachine(place_of(end, bytes)));
    }
    if len > behind.len() {
        return Err(JournalFault::Truncated(place_of(end, bytes)));
    }
    let (name, behind) = behind.split_at(len);
    Ok((name, behind))
}

/// Whether each of the bytes is a character from 0x21 to 0x7E.
fn is_printing(text: &[u8]) -> bool
    ensures { result ≡ is_printing text.now }
{
    text.iter().all(|byte| byte.is_ascii_graphic())
}

/// The identity at the start of the bytes, with which a file of this length ends, and the bytes after it.
#[tactic(auto, unfolding(crate::specs::Reader::identity_at))]
fn split_identity(end: usize, bytes: &[u8]) -> Result<(&[u8], &[u8]), JournalFault>
    ensures value { Gives (λ split. (split.0.now, split.1.now)) result (identity_at end bytes.now) }
    ensures valid { IfOk result (λ split. IsName split.0.now) }
{
    let Some((len, behind)) = bytes.split_first() else {
        return Err(JournalFault::Truncated(place_of(end, bytes)));
    };
    let len = usize::from(*len);
    if len == 0 || len > NAME_MAX {
        return Err(JournalFault::BadIdentity(place_of(end, bytes)));
    }
    if len > behind.len() {
        return Err(JournalFault::Truncated(place_of(end, bytes)));
    }
    let (text, behind) = behind.split_at(len);
    if !is_printing(text) {
        return Err(JournalFault::BadIdentity(place_of(end, bytes)));
    }
    Ok((text, behind))
}

/// The name at the start of the bytes, with which a file of this length ends, and the bytes after it. It is that of one of
/// the boot manager's variables.
#[tactic(auto, unfolding(crate::specs::Reader::name_at))]
fn split_name(end: usize, bytes: &[u8]) -> Result<(&str, &[u8]), JournalFault>
    ensures value { Gives (λ split. (split.0.now, split.1.now)) result (name_at end bytes.now) }
    ensures boot { IfOk result (λ split. is_boot_name split.0.now ≡ true) }
    ensures shorter { IfOk result (λ split. length split.1.now < length bytes.now) }
{
    let Some((len, behind)) = bytes.split_first() else {
        return Err(JournalFault::Truncated(place_of(end, bytes)));
    };
    let len = usize::from(*len);
    if len > behind.len() {
        return Err(JournalFault::Truncated(place_of(end, bytes)));
    }
    let (name, behind) = behind.split_at(len);
    let Some(name) = boot_name(name) else {
        return Err(JournalFault::BadName(place_of(end, bytes)));
    };
    Ok((name, behind))
}

/// These bytes as text, if they are the name of one of the boot manager's variables.
fn boot_name(bytes: &[u8]) -> Option<&str>
    ensures found { IfSome result (λ name. (name.now ≡ bytes.now) × (is_boot_name bytes.now ≡ true)) }
    ensures none { result ≡ None → is_boot_name bytes.now ≡ false }
{
    vars_laws::boot_names_are_names();
    match str::from_utf8(bytes) {
        Ok(name) => is_boot_name(name).then_some(name),
        Err(_) => None,
    }
}

/// The change at the start of the bytes, with which a file of this length ends, and the bytes after it.
#[tactic(auto, unfolding(crate::specs::Reader::change_at))]
fn split_change(alloc: Global, end: usize, bytes: &[u8]) -> Result<(Change, &[u8]), JournalFault>
    ensures value { Gives (λ split. (split.0, split.1.now)) result (change_at end bytes.now) }
    ensures valid { IfOk result (λ split. IsBootChange split.0) }
    ensures shorter { IfOk result (λ split. length split.1.now < length bytes.now) }
{
    let (name, behind) = split_name(end, bytes)?;
    let (before, behind) = split_value(end, behind)?;
    let (after, behind) = split_value(end, behind)?;
    let name = String::from_str(alloc, name)?;
    let before = copied(alloc, before)?;
    let after = copied(alloc, after)?;
    Ok((Change::from_parts(name, before, after), behind))
}

/// The changes that make up the bytes, with which a file of this length ends.
fn read_changes(alloc: Global, end: usize, bytes: &[u8]) -> Result<Vec<Change>, JournalFault>
    ensures value { Gives (λ changes. changes.items) result (changes_at end bytes.now) }
    ensures valid { IfOk result (λ changes. AllByRecursion IsBootChange changes.items) }
{
    let mut changes = Vec::new(alloc);
    let mut rest = bytes;
    while !rest.is_empty() {
        let (change, behind) = split_change(alloc, end, rest)?;
        changes.push(change)?;
        rest = behind;
    }
    Ok(changes)
}

/// Changes that are being made.
#[tactic(auto, unfolding(crate::specs::Reader::making_at))]
fn read_making(alloc: Global, end: usize, bytes: &[u8]) -> Result<Pending, JournalFault>
    ensures value { Gives pending_of result (making_at end bytes.now) }
    ensures valid { IfOk result (λ pending. IsPending (pending_of pending)) }
{
    let (boot, behind) = split_identity(end, bytes)?;
    let (former, behind) = split_value(end, behind)?;
    let changes = read_changes(alloc, end, behind)?;
    Ok(Pending {
        changes,
        course: Course::Making(copied(alloc, former)?),
        boot: BootId::from_name(alloc, boot)?,
    })
}

/// Changes that are taken back.
#[tactic(auto, unfolding(crate::specs::Reader::taking_back_at))]
fn read_taking_back(alloc: Global, end: usize, bytes: &[u8]) -> Result<Pending, JournalFault>
    ensures value { Gives pending_of result (taking_back_at end bytes.now) }
    ensures valid { IfOk result (λ pending. IsPending (pending_of pending)) }
{
    let (boot, behind) = split_identity(end, bytes)?;
    let changes = read_changes(alloc, end, behind)?;
    Ok(Pending {
        changes,
        course: Course::TakingBack,
        boot: BootId::from_name(alloc, boot)?,
    })
}

/// What is still to be done: the bytes, with which a file of this length ends, say that, or there are none.
#[tactic(auto, unfolding(crate::specs::Reader::pending_at))]
fn read_pending(alloc: Global, end: usize, bytes: &[u8]) -> Result<Option<Pending>, JournalFault>
    ensures value { Gives (λ pending. option_map pending_of pending) result (pending_at end bytes.now) }
    ensures valid { IfOk result (λ pending. IfSome (option_map pending_of pending) IsPending) }
{
    let Some((course, behind)) = bytes.split_first() else {
        return Ok(None);
    };
    match *course {
        MAKING => Ok(Some(read_making(alloc, end, behind)?)),
        TAKING_BACK => Ok(Some(read_taking_back(alloc, end, behind)?)),
        _ => Err(JournalFault::BadCourse(place_of(end, bytes))),
    }
}

/// The journal of the body of a file of this length.
#[tactic(auto, unfolding(crate::specs::Reader::parts_at))]
fn read_parts(alloc: Global, end: usize, bytes: &[u8]) -> Result<Journal, JournalFault>
    ensures { Gives (λ journal. journal) result (parts_at end bytes.now) }
{
    let (state, behind) = split_value(end, bytes)?;
    let pending = read_pending(alloc, end, behind)?;
    Ok(Journal {
        state: copied(alloc, state)?,
        pending,
    })
}

/// What follows the magic of version 1 in a file of this length.
#[tactic(auto, unfolding(crate::specs::Reader::unnamed_at))]
fn read_unnamed(alloc: Global, end: usize, bytes: &[u8]) -> Result<JournalFile, JournalFault>
    ensures { Gives (λ file. file) result (unnamed_at end bytes.now) }
{
    let journal = read_parts(alloc, end, bytes)?;
    Ok(JournalFile {
        machine: None,
        journal,
    })
}

/// The name of these bytes. This fails only if memory is refused.
fn machine_of(alloc: Global, name: &[u8]) -> Result<MachineName, AllocError>
    requires { IsMachineName name.now }
    ensures { IfOk result (λ machine. machine ≡ name.now) }
{
    match MachineName::new(Vec::from_slice(alloc, name)?) {
        Some(machine) => Ok(machine),
        None => unreachable!(),
    }
}

/// What follows the magic of version 2 in a file of this length.
#[tactic(auto, unfolding(crate::specs::Reader::named_at))]
fn read_named(alloc: Global, end: usize, bytes: &[u8]) -> Result<JournalFile, JournalFault>
    ensures { Gives (λ file. file) result (named_at end bytes.now) }
{
    let (name, behind) = split_machine(end, bytes)?;
    let machine = machine_of(alloc, name)?;
    let journal = read_parts(alloc, end, behind)?;
    Ok(JournalFile {
        machine: Some(machine),
        journal,
    })
}

/// Reads a file, and says of its answer what reading gives.
#[tactic(auto, unfolding(crate::specs::Reader::file_at))]
fn read_whole(alloc: Global, bytes: &[u8]) -> Result<JournalFile, JournalFault>
    ensures value { Gives (λ file. file) result (file_at bytes.now) }
    ensures bad_magic { HasNoMagic bytes.now → result ≡ Err JournalFault.BadMagic }
{
    if bytes.starts_with(&MAGIC_2) {
        return read_named(alloc, bytes.len(), &bytes[MAGIC_2.len()..]);
    }
    if bytes.starts_with(&MAGIC_1) {
        return read_unnamed(alloc, bytes.len(), &bytes[MAGIC_1.len()..]);
    }
    Err(JournalFault::BadMagic)
}

/// Reads a journal, and the name of the machine that it is of, from the bytes of a journal file, all of them. The file has
/// this crate's own format, in version 2, as [`write_journal`](crate::write_journal) writes it, or in version 1. That begins
/// with `BKJ1`, tells of no machine, and has all else as version 2; in it what a change has before and after is data
/// without attributes. A length that the bytes state takes no more memory than there are bytes.
///
/// # Errors
///
/// The first of these faults. [`JournalFault::BadMagic`] if the file begins neither with `BKJ1` nor with `BKJ2`. Then for
/// each field, in the order in which they are in the file:
///
/// - for the name of the machine, [`JournalFault::Truncated`] if the file ends in the four bytes of its length,
///   [`JournalFault::BadMachine`] if that is 0 or above [`MACHINE_NAME_MAX`], however far above, and
///   [`JournalFault::Truncated`] if the file ends in its bytes;
/// - for a value, as BootKeepState and what a change has before and after, [`JournalFault::Truncated`] if the file ends in
///   the four bytes of its length, [`JournalFault::ValueTooLong`] if that is above [`DATA_MAX`], and
///   [`JournalFault::Truncated`] if the file ends in its bytes;
/// - for the byte after BootKeepState, [`JournalFault::BadCourse`] if it is neither 1 nor 2;
/// - for the identity, [`JournalFault::Truncated`] if the file ends before it, [`JournalFault::BadIdentity`] if it is to have
///   no character or more than [`NAME_MAX`], [`JournalFault::Truncated`] if the file ends in it, and
///   [`JournalFault::BadIdentity`] if a character isn't from 0x21 to 0x7E;
/// - for the name of a change, [`JournalFault::Truncated`] if the file ends in it, and [`JournalFault::BadName`] if it isn't
///   that of one of the boot manager's variables.
///
/// Each but the first has the place of its field. [`JournalFault::OutOfMemory`] comes if memory was refused, also before a
/// fault of a later field, and never if the file begins neither with `BKJ1` nor with `BKJ2`.
pub fn read_journal(alloc: Global, bytes: &[u8]) -> Result<JournalFile, JournalFault>
    // What is read is spelled so.
    ensures found { IfOk result (λ file. SpellsJournalFile bytes.now file) }
    // What is spelled so is read.
    ensures only { (file : JournalFile) → SpellsJournalFile bytes.now file →
        IsUnless result (Ok file) JournalFault.OutOfMemory }

    ensures fault { IfErr result (λ fault.
        fault ≢ JournalFault.OutOfMemory → IsJournalFault bytes.now fault) }
    ensures only_fault { (fault : JournalFault) → IsJournalFault bytes.now fault →
        IsUnless result (Err fault) JournalFault.OutOfMemory }
    // The magic is looked at before any memory is taken.
    ensures bad_magic { HasNoMagic bytes.now → result ≡ Err JournalFault.BadMagic }
{
    read_whole(alloc, bytes)
}
