//! Edits of the attribute LOAD_OPTION_ACTIVE of entries (UEFI 2.10, 3.1.3).

ghost use Rattle.std.specs.Prelude.{◌≡◌, ◌≢◌, ℕ, List, Some, IfOk, IfErr, OnOk};
ghost use Rattle.std.specs.FinMap as map;
ghost use Rattle.uefi_vars.specs.Name.{entry_text};
ghost use Rattle.uefi_vars.specs.Vars.{entry_of};
ghost use Rattle.boot_edits.specs.declared.fault.EditFault.{EditFault};
ghost use Rattle.boot_edits.specs.Edit.{AreSwitched};
ghost use Rattle.boot_edits.specs.Lists.{IsNoOption, IsFirstFault};
ghost use Rattle.boot_edits.specs.Switch.{with_bit_0, switched};

use crate::fault::EditFault;
use crate::listed::{Need, check_each};
use std::alloc::{AllocError, Global};
use uefi_vars::Vars;

/// Makes these entries active, or not.
pub(crate) fn set_active(
    alloc: Global,
    vars: &Vars,
    numbers: &[u16],
    active: bool,
) -> Result<Vars, EditFault>
    ensures done { IfOk result (AreSwitched vars.now active numbers.now) }
    ensures refused { IfErr result (λ fault. fault ≢ EditFault.OutOfMemory →
        IsFirstFault (IsNoOption vars.now) numbers.now fault) }
{
    check_each(alloc, vars, Need::Option, numbers)?;
    let mut edited = vars.copy(alloc)?;
    for number in numbers {
        switch(alloc, vars, &mut edited, *number, active)?;
    }
    Ok(edited)
}

/// Stores the entry of this number as it is, but active, or not.
fn switch(
    alloc: Global,
    vars: &Vars,
    edited: &mut Vars,
    number: u16,
    active: bool,
) -> Result<(), AllocError>
    ensures { OnOk result ((bytes : List ℕ) → entry_of vars.now number ≡ Some bytes →
        edited.new ≡ map.insert edited.old (entry_text number) (switched active bytes)) }
{
    let Some(bytes) = vars.entry(number) else {
        return Ok(());
    };
    let bytes = switched(alloc, bytes, active)?;
    match edited.put_entry_vec(number, bytes) {
        Ok(()) => Ok(()),
        // There are as many bytes as there were.
        Err(_) => Err(AllocError),
    }
}

/// The bytes of an entry, with the attribute LOAD_OPTION_ACTIVE set or cleared.
fn switched(alloc: Global, bytes: &[u8], active: bool) -> Result<Vec<u8>, AllocError>
    ensures { IfOk result (λ new. new.items ≡ switched active bytes.now) }
{
    let mut new = Vec::from_slice(alloc, bytes)?;
    if let Some(first) = new.first_mut() {
        *first = with_bit_0(*first, active);
    }
    Ok(new)
}

/// The byte with its bit 0 set or cleared.
fn with_bit_0(byte: u8, set: bool) -> u8
    ensures { result ≡ with_bit_0 set byte }
{
    byte / 2 * 2 + u8::from(set)
}
