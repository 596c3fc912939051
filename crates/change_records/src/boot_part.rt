//! The boot manager's variables among others.

ghost use Rattle.std.specs.Prelude.{◌≡◌, IfOk};
ghost use Rattle.change_records.specs.BootPart.{IsBootPart, without_other};

use std::alloc::{AllocError, Global};
use uefi_vars::{Vars, is_boot_name};

/// The boot manager's variables of these: Boot####, BootOrder, BootNext and Timeout (UEFI 2.10, 3.3). This fails only when
/// out of memory.
pub(crate) fn boot_part(alloc: Global, vars: &Vars) -> Result<Vars, AllocError>
    ensures { IfOk result (λ part. IsBootPart vars.now part) }
{
    let mut part = vars.copy(alloc)?;
    for (name, _data) in vars.iter() {
        leave_out_other(&mut part, name);
    }
    Ok(part)
}

/// Takes out the variable of this name, unless it is one of the boot manager's.
fn leave_out_other(vars: &mut Vars, name: &str)
    ensures { vars.new ≡ without_other vars.old name.now }
{
    if !is_boot_name(name) {
        vars.remove(name);
    }
}
