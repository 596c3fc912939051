//! Timeout, where variables say nothing of it (UEFI 2.10, 3.3).

ghost use Rattle.std.specs.Prelude.{◌≡◌, IfOk};
ghost use Rattle.change_records.specs.Timeout.{or_timeout_of};

use std::alloc::AllocError;
use uefi_vars::{TIMEOUT, Vars, laws as vars_laws};

/// The first variables, with the Timeout of the others if they have none.
///
/// # Errors
///
/// [`AllocError`] if memory was refused.
pub fn or_timeout_of(vars: Vars, now: &Vars) -> Result<Vars, AllocError>
    ensures { IfOk result (λ all. all ≡ or_timeout_of now.now vars) }
{
    vars_laws::constants_are_those_of_the_definitions();
    let mut vars = vars;
    if vars.get(TIMEOUT).is_none()
        && let Some(timeout) = now.get(TIMEOUT)
    {
        // It is from a set, so only memory can be refused.
        vars.put(TIMEOUT, timeout).map_err(|_| AllocError)?;
    }
    Ok(vars)
}
