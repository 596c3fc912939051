//! Variables that a machine is to have, as far as they can be stored.

ghost use Rattle.std.specs.Prelude.{map, IfOk, OnOk};
ghost use Rattle.std.specs.String.{string_bytes};
ghost use Rattle.boot_edits.specs.Restore.{IsRestored};
ghost use Rattle.place_edits.specs.Brought.{IsHeld, IsKept, IsBrought};
ghost use Rattle.place_edits.specs.Takeable.{IsTaken};

use crate::takeable::{Takeable, taken};
use boot_edits::Restore;
use boot_journal::Run;
use std::alloc::{AllocError, Global};
use uefi_vars::{Vars, entry_number};
use wanted_changes::Seen;

/// What the machine of which this is known, and which keeps these variables, is to have of what is wanted: what no set can hold
/// stays, and of the rest it is what firmware takes. This fails only when out of memory.
pub(crate) fn brought(
    alloc: Global,
    seen: &Seen<'_>,
    vars: &Vars,
    wanted: Vars,
) -> Result<Takeable, AllocError>
    ensures { IfOk result (IsBrought (map string_bytes seen.now.left_out.now) vars.now wanted) }
{
    let held = held(wanted, vars, seen.left_out)?;
    let brought = taken_of(alloc, seen, vars, held)?;
    Ok(brought)
}

/// What is taken of these variables on the machine, which keeps the others.
fn taken_of(
    alloc: Global,
    seen: &Seen<'_>,
    vars: &Vars,
    wanted: Vars,
) -> Result<Takeable, AllocError>
    ensures { IfOk result (IsTaken vars.now wanted) }
{
    if seen.is_folder {
        taken(alloc, vars, wanted)
    } else {
        Ok(Takeable {
            vars: wanted,
            missing: Vec::new(alloc),
        })
    }
}

/// The variables, with those of the boot manager that are brought. This fails only when out of memory.
pub(crate) fn restored(alloc: Global, vars: &Vars, brought: &Vars) -> Result<Vars, AllocError>
    ensures { IfOk result (λ to. IsRestored brought.now vars.now to) }
{
    match (Restore { to: brought }).run(alloc, vars) {
        Ok((to, ())) => Ok(to),
        // It refuses nothing, so only memory was refused.
        Err(_) => Err(AllocError),
    }
}

/// What is wanted, with each entry of these names, which no set can hold, as it is among the variables.
fn held(wanted: Vars, vars: &Vars, left_out: &[String]) -> Result<Vars, AllocError>
    ensures { IfOk result (IsHeld (map string_bytes left_out.now) vars.now wanted) }
{
    let mut held = wanted;
    keep_left_out(&mut held, vars, left_out)?;
    Ok(held)
}

/// Gives each entry of these names, which no set can hold, what stands for it among the variables.
fn keep_left_out(wanted: &mut Vars, vars: &Vars, left_out: &[String]) -> Result<(), AllocError>
    ensures { OnOk result (IsHeld (map string_bytes left_out.now) vars.now wanted.old wanted.new) }
{
    for name in left_out {
        keep_entry(wanted, vars, name)?;
    }
    Ok(())
}

/// The same for one name.
fn keep_entry(wanted: &mut Vars, vars: &Vars, name: &str) -> Result<(), AllocError>
    ensures { OnOk result (IsKept name.now vars.now wanted.old wanted.new) }
{
    if entry_number(name).is_none() {
        return Ok(());
    }
    let Some(data) = vars.get(name) else {
        return Ok(());
    };
    match wanted.put(name, data) {
        Ok(()) => Ok(()),
        // It is from a set, so only memory can be refused.
        Err(_) => Err(AllocError),
    }
}
