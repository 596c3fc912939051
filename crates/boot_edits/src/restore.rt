//! Variables that are brought back.

ghost use Rattle.std.specs.Prelude.{◌≡◌, ◌↔◌, List, ℕ, None, IfOk, OnOk, IsTrue};
ghost use Rattle.std.specs.FinMap.{get};
ghost use Rattle.uefi_vars.specs.BootChange.{is_boot_name};
ghost use Rattle.boot_edits.specs.Restore.{IsRestored};
ghost use Rattle.boot_edits.specs.Steps.{IsStep};

use crate::entries::copy_variable;
use boot_journal::{CallError, Run};
use std::alloc::{AllocError, Global};
use uefi_vars::{Vars, is_boot_name};

/// Brings the variables of the boot manager, Boot####, BootOrder and BootNext (UEFI 2.10, 3.3), back to those of a set: what is
/// in it is there then, and what isn't is gone. The set has them as a machine keeps them, with attributes. It is never refused.
#[derive(Clone, Copy, Debug)]
pub struct Restore<'a> {
    /// What is brought back. What it has under other names is left out.
    pub to: &'a Vars,
}

impl Run for Restore<'_> {
    ghost use Rattle.boot_edits.specs.Restore.{IsRestored};

    type Answer = ();

    type Fault = ();

    ghost leads = { λ restore from to answer. IsRestored restore.to.now from to };

    ghost refuses = { λ restore from fault. ⊥ };

    /// Takes the boot manager's variables of the set, and the other ones of the machine.
    fn run(self, alloc: Global, vars: &Vars) -> Result<(Vars, ()), CallError<()>> {
        match restored(alloc, self.to, vars) {
            Ok(back) => Ok((back, ())),
            Err(_) => Err(CallError::OutOfMemory),
        }
    }
}

/// The boot manager's variables of the one set, and the others of the other one.
fn restored(alloc: Global, to: &Vars, from: &Vars) -> Result<Vars, AllocError>
    ensures { IfOk result (IsRestored to.now from.now) }
{
    let mut back = Vars::new(alloc);
    copy_those(&mut back, to, true)?;
    copy_those(&mut back, from, false)?;
    Ok(back)
}

/// Copies the variables of the boot manager, or the others, of which there are none yet.
fn copy_those(vars: &mut Vars, from: &Vars, boot: bool) -> Result<(), AllocError>
    requires { (name : List ℕ) → is_boot_name name ≡ boot → get vars.old name ≡ None }
    ensures copied { OnOk result ((name : List ℕ) → is_boot_name name ≡ boot →
        get vars.new name ≡ get from.now name) }
    ensures kept { OnOk result ((name : List ℕ) → (is_boot_name name ≡ boot → ⊥) →
        get vars.new name ≡ get vars.old name) }
{
    for (name, value) in from.iter() {
        copy_if(vars, name, value, boot)?;
    }
    Ok(())
}

/// Sets the variable of this name to this data, if it is one of the boot manager's, or if it is none.
fn copy_if(vars: &mut Vars, name: &str, value: &[u8], boot: bool) -> Result<(), AllocError>
    ensures { OnOk result (IsStep (λ name. is_boot_name name ≡ boot → ⊥)
        vars.old (name.now, value.now) vars.new) }
{
    if !is_so(name, boot) {
        return Ok(());
    }
    copy_variable(vars, name, value)?;
    Ok(())
}

/// Whether it is the name of a variable of the boot manager, or of another one.
fn is_so(name: &str, boot: bool) -> bool
    ensures { IsTrue result ↔ (is_boot_name name.now ≡ boot) }
{
    is_boot_name(name) == boot
}
