//! What BootNext becomes by profiles.

ghost use Rattle.std.specs.Prelude.{IfOk, IfErr};
ghost use Rattle.boot_edits.specs.Edit.{IsNextSet};
ghost use Rattle.boot_journal.specs.Cause.{IfRefused};
ghost use Rattle.boot_profiles.specs.Order.{IsNextStep, IsNextFault};
ghost use Rattle.boot_profiles.specs.declared.profile.ProfileNext.TheVariants as next;

use crate::description::Description;
use crate::fault::NameFault;
use crate::names::number_named;
use crate::profile::ProfileNext;
use boot_edits::{Edit, make_edit};
use boot_journal::CallError;
use std::alloc::{AllocError, Global};
use uefi_vars::Vars;

/// Makes BootNext what it is to be.
pub(crate) fn with_next(
    alloc: Global,
    vars: &Vars,
    next: &ProfileNext,
) -> Result<Vars, CallError<NameFault>>
    ensures done { IfOk result (IsNextStep vars.now next.now) }
    ensures refused { IfErr result (λ error. IfRefused error (IsNextFault vars.now next.now)) }
{
    match next {
        ProfileNext::Kept => Ok(vars.copy(alloc)?),
        ProfileNext::Gone => Ok(next_set(alloc, vars, None)?),
        ProfileNext::Entry(name) => with_named(alloc, vars, name),
    }
}

/// Makes BootNext name the entry of this description.
fn with_named(alloc: Global, vars: &Vars, name: &Description) -> Result<Vars, CallError<NameFault>>
    ensures done { IfOk result (IsNextStep vars.now (next.Entry name.now)) }
    ensures refused { IfErr result (λ error. IfRefused error (IsNextFault vars.now (next.Entry name.now))) }
{
    match number_named(alloc, vars, name) {
        Ok(number) => Ok(next_set(alloc, vars, Some(number))?),
        Err(error) => Err(error),
    }
}

/// Makes BootNext name this entry, or deletes it.
fn next_set(alloc: Global, vars: &Vars, next: Option<u16>) -> Result<Vars, AllocError>
    ensures { IfOk result (IsNextSet vars.now next) }
{
    match make_edit(alloc, vars, &Edit::Next(next)) {
        Ok((to, _done)) => Ok(to),
        // The entry is there.
        Err(_) => Err(AllocError),
    }
}
