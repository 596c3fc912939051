//! What BootOrder becomes by profiles.

ghost use Rattle.std.specs.Prelude.{◌≡◌, ◌≢◌, ℕ, List, IfOk, IfErr};
ghost use Rattle.boot_edits.specs.declared.fault.EditFault.{EditFault};
ghost use Rattle.boot_journal.specs.Cause.{IfRefused};
ghost use Rattle.boot_profiles.specs.Order.{AreNamed, IsPutFirst, IsPutAlone, IsOrderStep, IsListFault, IsFirstFault, IsAloneFault, IsOrderFault};
ghost use Rattle.boot_profiles.specs.declared.fault.ProfileFault.{ProfileFault};

use crate::description::Description;
use crate::fault::ProfileFault;
use crate::names::numbers_named;
use crate::profile::ProfileOrder;
use boot_edits::{Edit, EditFault, NewOrder, make_edit};
use boot_journal::CallError;
use std::alloc::Global;
use uefi_vars::Vars;

/// Makes BootOrder what it is to be.
pub(crate) fn with_order(
    alloc: Global,
    vars: &Vars,
    order: &ProfileOrder,
) -> Result<Vars, CallError<ProfileFault>>
    ensures done { IfOk result (IsOrderStep vars.now order.now) }
    ensures refused { IfErr result (λ error. IfRefused error (IsOrderFault vars.now order.now)) }
{
    match order {
        ProfileOrder::Kept => Ok(vars.copy(alloc)?),
        ProfileOrder::First(names) => with_first(alloc, vars, names),
        ProfileOrder::Only(names) => with_only(alloc, vars, names),
    }
}

/// Puts the entries of these descriptions first.
fn with_first(
    alloc: Global,
    vars: &Vars,
    names: &[Description],
) -> Result<Vars, CallError<ProfileFault>>
    ensures done { IfOk result (λ to.
        (numbers : List ℕ) × AreNamed vars.now names.now numbers × IsPutFirst vars.now numbers to) }
    ensures refused { IfErr result (λ error. IfRefused error (IsListFault vars.now names.now (IsFirstFault vars.now))) }
{
    match numbers_named(alloc, vars, names) {
        Ok(numbers) => put_first(alloc, vars, names, &numbers),
        Err(error) => Err(error),
    }
}

/// Puts the entries of these numbers first, which the descriptions name.
fn put_first(
    alloc: Global,
    vars: &Vars,
    names: &[Description],
    numbers: &[u16],
) -> Result<Vars, CallError<ProfileFault>>
    requires { AreNamed vars.now names.now numbers.now }
    ensures done { IfOk result (λ to.
        (numbers : List ℕ) × AreNamed vars.now names.now numbers × IsPutFirst vars.now numbers to) }
    ensures refused { IfErr result (λ error. IfRefused error (IsListFault vars.now names.now (IsFirstFault vars.now))) }
{
    let _names = names;
    match make_edit(alloc, vars, &Edit::First(numbers)) {
        Ok((to, _done)) => Ok(to),
        Err(fault) => Err(order_error(fault)),
    }
}

/// Makes BootOrder the entries of these descriptions.
fn with_only(
    alloc: Global,
    vars: &Vars,
    names: &[Description],
) -> Result<Vars, CallError<ProfileFault>>
    ensures done { IfOk result (λ to.
        (numbers : List ℕ) × AreNamed vars.now names.now numbers × IsPutAlone vars.now numbers to) }
    ensures refused { IfErr result (λ error. IfRefused error (IsListFault vars.now names.now (IsAloneFault vars.now))) }
{
    match numbers_named(alloc, vars, names) {
        Ok(numbers) => put_alone(alloc, vars, names, &numbers),
        Err(error) => Err(error),
    }
}

/// Makes BootOrder the entries of these numbers, which the descriptions name.
fn put_alone(
    alloc: Global,
    vars: &Vars,
    names: &[Description],
    numbers: &[u16],
) -> Result<Vars, CallError<ProfileFault>>
    requires { AreNamed vars.now names.now numbers.now }
    ensures done { IfOk result (λ to.
        (numbers : List ℕ) × AreNamed vars.now names.now numbers × IsPutAlone vars.now numbers to) }
    ensures refused { IfErr result (λ error. IfRefused error (IsListFault vars.now names.now (IsAloneFault vars.now))) }
{
    let _names = names;
    let new = NewOrder {
        entries: numbers,
        only: true,
        stale: false,
    };
    match make_edit(alloc, vars, &Edit::Order(new)) {
        Ok((to, _done)) => Ok(to),
        Err(fault) => Err(order_error(fault)),
    }
}

/// What it is to a profile that an edit of BootOrder isn't made.
fn order_error(fault: EditFault) -> CallError<ProfileFault>
    ensures { IfRefused result (λ f. (f ≡ ProfileFault.Order fault) × (fault ≢ EditFault.OutOfMemory)) }
{
    match fault {
        EditFault::OutOfMemory => CallError::OutOfMemory,
        fault => CallError::Refused(ProfileFault::Order(fault)),
    }
}
