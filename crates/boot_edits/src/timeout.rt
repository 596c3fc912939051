//! Edits of Timeout (UEFI 2.10, 3.3).

ghost use Rattle.std.specs.Prelude.{◌≡◌, IfOk, IfErr, OnOk};
ghost use Rattle.uefi_vars.specs.Name.{timeout_text};
ghost use Rattle.uefi_vars.specs.NameChanges.{with_data};
ghost use Rattle.boot_edits.specs.declared.fault.EditFault.{EditFault};
ghost use Rattle.boot_edits.specs.Edit.{IsTimeoutSet, stored_timeout};

use crate::fault::EditFault;
use std::alloc::{AllocError, Global};
use uefi_vars::{TIMEOUT, Vars, laws as vars_laws};

/// Makes Timeout so many seconds, or deletes it.
pub(crate) fn set_timeout(
    alloc: Global,
    vars: &Vars,
    seconds: Option<u16>,
) -> Result<Vars, EditFault>
    ensures done { IfOk result (IsTimeoutSet vars.now seconds) }
    ensures refused { IfErr result (λ fault. fault ≡ EditFault.OutOfMemory) }
{
    let mut edited = vars.copy(alloc)?;
    store_timeout(&mut edited, seconds)?;
    Ok(edited)
}

/// Makes Timeout so many seconds, or deletes it.
fn store_timeout(vars: &mut Vars, seconds: Option<u16>) -> Result<(), AllocError>
    ensures { OnOk result (vars.new ≡ with_data vars.old timeout_text (stored_timeout seconds)) }
{
    vars_laws::constants_are_those_of_the_definitions();
    match seconds {
        // The name is one, and two bytes are neither none nor too many.
        Some(seconds) => vars
            .put(TIMEOUT, &seconds.to_le_bytes())
            .map_err(|_| AllocError),
        None => {
            vars.remove(TIMEOUT);
            Ok(())
        }
    }
}
