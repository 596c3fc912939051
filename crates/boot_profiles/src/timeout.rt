//! What Timeout becomes by profiles.

ghost use Rattle.std.specs.Prelude.{IfOk};
ghost use Rattle.boot_edits.specs.Edit.{IsTimeoutSet};
ghost use Rattle.boot_profiles.specs.Order.{IsTimeoutStep};

use crate::profile::ProfileTimeout;
use boot_edits::{Edit, make_edit};
use std::alloc::{AllocError, Global};
use uefi_vars::Vars;

/// Makes Timeout what it is to be.
pub(crate) fn with_timeout(
    alloc: Global,
    vars: &Vars,
    timeout: ProfileTimeout,
) -> Result<Vars, AllocError>
    ensures { IfOk result (IsTimeoutStep vars.now timeout) }
{
    match timeout {
        ProfileTimeout::Kept => vars.copy(alloc),
        ProfileTimeout::Gone => timeout_set(alloc, vars, None),
        ProfileTimeout::Seconds(seconds) => timeout_set(alloc, vars, Some(seconds)),
    }
}

/// Makes Timeout so many seconds, or deletes it.
fn timeout_set(alloc: Global, vars: &Vars, seconds: Option<u16>) -> Result<Vars, AllocError>
    ensures { IfOk result (IsTimeoutSet vars.now seconds) }
{
    match make_edit(alloc, vars, &Edit::Timeout(seconds)) {
        Ok((to, _done)) => Ok(to),
        // Only memory is refused.
        Err(_) => Err(AllocError),
    }
}
