//! The change of what a machine keeps by which an entry is confirmed.

ghost use Rattle.std.specs.Prelude.{IfOk, IfErr};
ghost use Rattle.boot_journal.specs.Cause.{IfRefused};
ghost use Rattle.boot_trials.specs.Run.{IsKept, IsPutFirst, IsActivated, IsConfirmed, IsFirstRefusal, IsActiveRefusal, IsConfirmFault};

use boot_edits::{Edit, EditRun, EditRunFault};
use boot_journal::{CallError, Run};
use std::alloc::Global;
use uefi_vars::Vars;

/// Puts the entry of this number first in BootOrder, and makes it active. The variables have their attributes, and keep them.
pub(crate) fn confirmed(
    alloc: Global,
    vars: &Vars,
    entry: u16,
) -> Result<Vars, CallError<EditRunFault>>
    ensures done { IfOk result (IsConfirmed entry vars.now) }
    ensures refused { IfErr result (λ error. IfRefused error (IsConfirmFault entry vars.now)) }
{
    match put_first(alloc, vars, entry) {
        Ok(between) => activated_after(alloc, vars, &between, entry),
        Err(error) => Err(error),
    }
}

/// Makes the entry of this number active, which was put first in the first of these variables, and is in the second.
fn activated_after(
    alloc: Global,
    vars: &Vars,
    between: &Vars,
    entry: u16,
) -> Result<Vars, CallError<EditRunFault>>
    requires { IsKept (IsPutFirst entry) vars.now between.now }
    ensures done { IfOk result (IsConfirmed entry vars.now) }
    ensures refused { IfErr result (λ error. IfRefused error (IsConfirmFault entry vars.now)) }
{
    let _vars = vars;
    match activated(alloc, between, entry) {
        Ok(to) => Ok(to),
        Err(error) => Err(error),
    }
}

/// Puts the entry of this number first in BootOrder.
fn put_first(alloc: Global, vars: &Vars, entry: u16) -> Result<Vars, CallError<EditRunFault>>
    ensures done { IfOk result (IsKept (IsPutFirst entry) vars.now) }
    ensures refused { IfErr result (λ error. IfRefused error (IsFirstRefusal entry vars.now)) }
{
    let run = EditRun {
        edit: Edit::First(&[entry]),
    };
    match run.run(alloc, vars) {
        Ok((to, _done)) => Ok(to),
        Err(error) => Err(error),
    }
}

/// Makes the entry of this number active.
fn activated(alloc: Global, vars: &Vars, entry: u16) -> Result<Vars, CallError<EditRunFault>>
    ensures done { IfOk result (IsKept (IsActivated entry) vars.now) }
    ensures refused { IfErr result (λ error. IfRefused error (IsActiveRefusal entry vars.now)) }
{
    let run = EditRun {
        edit: Edit::Activate(&[entry]),
    };
    match run.run(alloc, vars) {
        Ok((to, _done)) => Ok(to),
        Err(error) => Err(error),
    }
}
