//! Edits of BootNext (UEFI 2.10, 3.3).

ghost use Rattle.std.specs.Prelude.{◌≡◌, ◌≢◌, Some, None, IfOk, IfErr, OnOk};
ghost use Rattle.uefi_vars.specs.Name.{next_text};
ghost use Rattle.uefi_vars.specs.NameChanges.{with_data};
ghost use Rattle.uefi_vars.specs.Order.{stored_next, HasNext, HasBadNext};
ghost use Rattle.boot_edits.specs.declared.fault.EditFault.{EditFault};
ghost use Rattle.boot_edits.specs.Edit.{IsNextSet, IsNextFault};

use crate::fault::EditFault;
use crate::listed::{Need, check_one};
use std::alloc::{AllocError, Global};
use uefi_vars::{BOOT_NEXT, VarFault, Vars, boot_next, laws as vars_laws};

/// The number in BootNext.
pub(crate) fn known_next(vars: &Vars) -> Result<Option<u16>, EditFault>
    ensures found { IfOk result (λ next. HasNext vars.now next) }
    ensures refused { IfErr result (λ fault. fault ≢ EditFault.OutOfMemory →
        (fault ≡ EditFault.BadNext) × HasBadNext vars.now) }
{
    match boot_next(vars) {
        Ok(next) => Ok(next),
        Err(VarFault::BadNext) => Err(EditFault::BadNext),
        Err(_) => Err(EditFault::OutOfMemory),
    }
}

/// Makes BootNext name this entry, or deletes it.
pub(crate) fn set_next(alloc: Global, vars: &Vars, next: Option<u16>) -> Result<Vars, EditFault>
    ensures done { IfOk result (IsNextSet vars.now next) }
    ensures refused { IfErr result (λ fault.
        fault ≢ EditFault.OutOfMemory → IsNextFault vars.now next fault) }
{
    match next {
        Some(number) => with_next(alloc, vars, number),
        None => Ok(without_next(alloc, vars)?),
    }
}

/// The variables with a BootNext that names this entry.
fn with_next(alloc: Global, vars: &Vars, number: u16) -> Result<Vars, EditFault>
    ensures done { IfOk result (IsNextSet vars.now (Some number)) }
    ensures refused { IfErr result (λ fault.
        fault ≢ EditFault.OutOfMemory → IsNextFault vars.now (Some number) fault) }
{
    check_one(vars, Need::Entry, number)?;
    let mut edited = vars.copy(alloc)?;
    store_next(&mut edited, number)?;
    Ok(edited)
}

/// The variables without BootNext.
fn without_next(alloc: Global, vars: &Vars) -> Result<Vars, AllocError>
    ensures { IfOk result (IsNextSet vars.now None) }
{
    let mut edited = vars.copy(alloc)?;
    delete_next(&mut edited);
    Ok(edited)
}

/// Makes BootNext this number.
fn store_next(vars: &mut Vars, number: u16) -> Result<(), AllocError>
    ensures { OnOk result (vars.new ≡ with_data vars.old next_text (stored_next (Some number))) }
{
    vars_laws::constants_are_those_of_the_definitions();
    match vars.put(BOOT_NEXT, &number.to_le_bytes()) {
        Ok(()) => Ok(()),
        // The name is one, and two bytes are neither none nor too many.
        Err(_) => Err(AllocError),
    }
}

/// Deletes BootNext.
pub(crate) fn delete_next(vars: &mut Vars)
    ensures { vars.new ≡ with_data vars.old next_text (stored_next None) }
{
    vars_laws::constants_are_those_of_the_definitions();
    vars.remove(BOOT_NEXT);
}
