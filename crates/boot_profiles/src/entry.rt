//! Single entries of profiles.

ghost use Rattle.std.specs.Prelude.{◌≡◌, ◌≢◌, ◌<◌, ◌≤◌, length, IfOk, IfErr, OnOk};
ghost use Rattle.std.specs.FinMap as map;
ghost use Rattle.uefi_option.specs.LoadOption.{OptionParts, SpellsOption};
ghost use Rattle.uefi_vars.specs.Name.{entry_text};
ghost use Rattle.uefi_vars.specs.Vars.{data_max};
ghost use Rattle.boot_edits.specs.Switch.{with_bit_0, switched};
ghost use Rattle.boot_edits.specs.declared.fault.EditFault.{EditFault};
ghost use Rattle.boot_journal.specs.Cause.{IfRefused};
ghost use Rattle.boot_profiles.specs.Described.{HasDescription, IsUnknown, IsNamed};
ghost use Rattle.boot_profiles.specs.Entry.{bit_0, is_to_be_active, wanted_bytes, IsNew, IsPresentStep, IsTakenOut, IsAbsentStep, IsEntryStep, IsNewFault, IsOwnFault, IsPresentFault, IsTakenOutFault, IsAbsentFault, IsEntryFault};
ghost use Rattle.boot_profiles.specs.Steps.{IfFault};
ghost use Rattle.boot_profiles.specs.declared.fault.EntryFault.{EntryFault};

use crate::described::{Found, find, has_description, numbers_of};
use crate::description::Description;
use crate::fault::EntryFault;
use crate::profile::{EntryState, PresentEntry, ProfileEntry};
use boot_edits::{Addition, Edit, EditFault, Position, laws as edit_laws, make_edit};
use boot_journal::CallError;
use std::alloc::{AllocError, Global};
use uefi_option::{check_option, laws as option_laws};
use uefi_vars::{PutFault, Vars};

/// What becomes of variables by an entry.
pub(crate) fn with_entry(
    alloc: Global,
    vars: &Vars,
    entry: &ProfileEntry,
) -> Result<Vars, CallError<EntryFault>>
    ensures done { IfOk result (IsEntryStep vars.now entry.now) }
    ensures refused { IfErr result (λ error. IfRefused error (IsEntryFault vars.now entry.now)) }
{
    match &entry.state {
        EntryState::Absent => without(alloc, vars, &entry.description),
        EntryState::Present(present) => with_present(alloc, vars, &entry.description, present),
    }
}

/// Takes out the entries with this description.
fn without(
    alloc: Global,
    vars: &Vars,
    description: &Description,
) -> Result<Vars, CallError<EntryFault>>
    ensures done { IfOk result (IsAbsentStep vars.now description.now) }
    ensures refused { IfErr result (λ error. IfRefused error (IsAbsentFault vars.now description.now)) }
{
    let numbers = numbers_of(alloc, vars, description)?;
    match taken_out(alloc, vars, &numbers) {
        Ok(to) => Ok(to),
        Err(fault) => Err(entry_error(fault)),
    }
}

/// Takes out the entries of these numbers.
fn taken_out(alloc: Global, vars: &Vars, numbers: &[u16]) -> Result<Vars, EditFault>
    ensures done { IfOk result (IsTakenOut vars.now numbers.now) }
    ensures refused { IfErr result (IfFault (IsTakenOutFault vars.now numbers.now)) }
{
    if numbers.is_empty() {
        return Ok(vars.copy(alloc)?);
    }
    match make_edit(alloc, vars, &Edit::Remove(numbers)) {
        Ok((to, _done)) => Ok(to),
        Err(fault) => Err(fault),
    }
}

/// Makes an entry with this description what it is to be, or adds it.
fn with_present(
    alloc: Global,
    vars: &Vars,
    description: &Description,
    entry: &PresentEntry,
) -> Result<Vars, CallError<EntryFault>>
    ensures done { IfOk result (IsPresentStep vars.now description.now entry.now) }
    ensures refused { IfErr result (λ error. IfRefused error (IsPresentFault vars.now description.now entry.now)) }
{
    match check_own(&entry.option, description) {
        Ok(()) => with_own(alloc, vars, description, entry),
        Err(fault) => Err(CallError::Refused(fault)),
    }
}

/// Whether the bytes are a load option with this description.
fn check_own(option: &[u8], description: &Description) -> Result<(), EntryFault>
    ensures fine { OnOk result (HasDescription option.now description.now) }
    ensures refused { IfErr result (IsOwnFault option.now description.now) }
{
    match check_option(option) {
        Ok(_) => check_same(option, description),
        Err(fault) => Err(EntryFault::BadOption(fault)),
    }
}

/// Whether the bytes, which are a load option, have this description.
fn check_same(option: &[u8], description: &Description) -> Result<(), EntryFault>
    requires { (parts : OptionParts) × SpellsOption option.now parts }
    ensures fine { OnOk result (HasDescription option.now description.now) }
    ensures refused { IfErr result (IsOwnFault option.now description.now) }
{
    if has_description(option, description) {
        Ok(())
    } else {
        Err(EntryFault::OtherDescription)
    }
}

/// Makes an entry with this description what it is to be, or adds it. Its option has the description.
fn with_own(
    alloc: Global,
    vars: &Vars,
    description: &Description,
    entry: &PresentEntry,
) -> Result<Vars, CallError<EntryFault>>
    requires { HasDescription entry.now.option.items description.now }
    ensures done { IfOk result (IsPresentStep vars.now description.now entry.now) }
    ensures refused { IfErr result (λ error. IfRefused error (IsPresentFault vars.now description.now entry.now)) }
{
    match find(alloc, vars, description)? {
        Found::Nothing => added(alloc, vars, description, entry),
        Found::One(number) => replaced(alloc, vars, description, entry, number),
        Found::Several => Err(CallError::Refused(EntryFault::Ambiguous)),
    }
}

/// Adds an entry, whose description no other one has.
fn added(
    alloc: Global,
    vars: &Vars,
    description: &Description,
    entry: &PresentEntry,
) -> Result<Vars, CallError<EntryFault>>
    requires own { HasDescription entry.now.option.items description.now }
    requires unknown { IsUnknown vars.now description.now }
    ensures done { IfOk result (IsPresentStep vars.now description.now entry.now) }
    ensures refused { IfErr result (λ error. IfRefused error (IsPresentFault vars.now description.now entry.now)) }
{
    edit_laws::a_switch_changes_one_bit();
    let _description = description;
    let bytes = wanted_bytes(alloc, entry, &entry.option)?;
    match with_new(alloc, vars, &bytes) {
        Ok(to) => Ok(to),
        Err(fault) => Err(entry_error(fault)),
    }
}

/// Adds an entry with these bytes, which are a load option.
fn with_new(alloc: Global, vars: &Vars, bytes: &[u8]) -> Result<Vars, EditFault>
    requires { (parts : OptionParts) × SpellsOption bytes.now parts }
    ensures done { IfOk result (IsNew vars.now bytes.now) }
    ensures refused { IfErr result (IfFault (IsNewFault vars.now bytes.now)) }
{
    option_laws::a_fault_leaves_no_option();
    let addition = Addition {
        entry: None,
        option: bytes,
        position: Position::Last,
        again: true,
    };
    match make_edit(alloc, vars, &Edit::Add(addition)) {
        Ok((to, _answer)) => Ok(to),
        Err(fault) => Err(fault),
    }
}

/// Gives the entry of this number, which alone has the description, the bytes that it is to have.
fn replaced(
    alloc: Global,
    vars: &Vars,
    description: &Description,
    entry: &PresentEntry,
    number: u16,
) -> Result<Vars, CallError<EntryFault>>
    requires own { HasDescription entry.now.option.items description.now }
    requires named { IsNamed vars.now description.now number }
    ensures done { IfOk result (IsPresentStep vars.now description.now entry.now) }
    ensures refused { IfErr result (λ error. IfRefused error (IsPresentFault vars.now description.now entry.now)) }
{
    let _description = description;
    let Some(there) = vars.entry(number) else {
        unreachable!();
    };
    let bytes = wanted_bytes(alloc, entry, there)?;
    match with_bytes(alloc, vars, number, &bytes) {
        Ok(to) => Ok(to),
        Err(fault) => Err(entry_error(fault)),
    }
}

/// The variables with these bytes under the number.
fn with_bytes(alloc: Global, vars: &Vars, number: u16, bytes: &[u8]) -> Result<Vars, EditFault>
    ensures stored { IfOk result (λ to. to ≡ map.insert vars.now (entry_text number) bytes.now) }
    ensures fits { OnOk result (length bytes.now ≤ data_max) }
    ensures refused { IfErr result (IfFault (λ fault.
        (fault ≡ EditFault.OptionTooLong) × (data_max < length bytes.now))) }
{
    let mut to = vars.copy(alloc)?;
    store(&mut to, number, bytes)?;
    Ok(to)
}

/// Stores the bytes under the number.
fn store(vars: &mut Vars, number: u16, bytes: &[u8]) -> Result<(), EditFault>
    ensures stored { OnOk result (vars.new ≡ map.insert vars.old (entry_text number) bytes.now) }
    ensures fits { OnOk result (length bytes.now ≤ data_max) }
    ensures refused { IfErr result (IfFault (λ fault.
        (fault ≡ EditFault.OptionTooLong) × (data_max < length bytes.now))) }
{
    match vars.put_entry(number, bytes) {
        Ok(()) => Ok(()),
        Err(PutFault::DataTooLong) => Err(EditFault::OptionTooLong),
        // A load option has bytes, and the name is one.
        Err(_) => Err(EditFault::OutOfMemory),
    }
}

/// The bytes that an entry is to have, if these are there.
fn wanted_bytes(alloc: Global, entry: &PresentEntry, there: &[u8]) -> Result<Vec<u8>, AllocError>
    ensures { IfOk result (λ bytes. bytes.items ≡ wanted_bytes entry.now there.now) }
{
    switched(alloc, &entry.option, is_to_be_active(entry.active, there))
}

/// Whether an entry is to be active, if these bytes are there.
fn is_to_be_active(active: Option<bool>, there: &[u8]) -> bool
    ensures { result ≡ is_to_be_active active there.now }
{
    match active {
        Some(active) => active,
        None => bit_0(there),
    }
}

/// Whether the attribute LOAD_OPTION_ACTIVE of an entry is set (UEFI 2.10, 3.1.3).
fn bit_0(bytes: &[u8]) -> bool
    ensures { result ≡ bit_0 bytes.now }
{
    match bytes {
        [first, ..] => *first % 2 == 1,
        [] => false,
    }
}

/// The bytes of an entry, with the attribute LOAD_OPTION_ACTIVE set or cleared.
fn switched(alloc: Global, bytes: &[u8], active: bool) -> Result<Vec<u8>, AllocError>
    ensures { IfOk result (λ new. new.items ≡ switched active bytes.now) }
{
    let mut new = Vec::from_slice(alloc, bytes)?;
    if let Some(first) = new.first_mut() {
        *first = with_bit_0(*first, active);
    }
    Ok(new)
}

/// The byte with its bit 0 set or cleared.
fn with_bit_0(byte: u8, set: bool) -> u8
    ensures { result ≡ with_bit_0 set byte }
{
    byte / 2 * 2 + u8::from(set)
}

/// What it is to an entry that an edit isn't made.
fn entry_error(fault: EditFault) -> CallError<EntryFault>
    ensures { IfRefused result (λ f. (f ≡ EntryFault.Edit fault) × (fault ≢ EditFault.OutOfMemory)) }
{
    match fault {
        EditFault::OutOfMemory => CallError::OutOfMemory,
        fault => CallError::Refused(EntryFault::Edit(fault)),
    }
}
