//! Edits that take entries out.

ghost use Rattle.std.specs.Prelude.{◌≡◌, ◌≢◌, ℕ, List, Option, IfOk, IfErr};
ghost use Rattle.boot_edits.specs.declared.fault.EditFault.{EditFault};
ghost use Rattle.boot_edits.specs.Edit.{IsRemoved, IsRemoveFault};
ghost use Rattle.boot_edits.specs.Steps.{Tells, IsWithoutNext};

use crate::entries::without_entries;
use crate::fault::EditFault;
use crate::listed::{Need, check_each, set_of};
use crate::next::{delete_next, known_next};
use crate::order::{known_order, store_order, without_all};
use std::alloc::Global;
use std::collections::BTreeSet;
use uefi_vars::{Vars, laws as vars_laws};

/// Takes these entries out, their numbers out of BootOrder, and deletes a BootNext that names one.
pub(crate) fn remove(alloc: Global, vars: &Vars, numbers: &[u16]) -> Result<Vars, EditFault>
    ensures done { IfOk result (IsRemoved vars.now numbers.now) }
    ensures refused { IfErr result (λ fault.
        fault ≢ EditFault.OutOfMemory → IsRemoveFault vars.now numbers.now fault) }
{
    vars_laws::a_bad_order_gives_no_order();
    check_each(alloc, vars, Need::Entry, numbers)?;
    let order = known_order(alloc, vars)?;
    let next = known_next(vars)?;
    let listed = set_of(alloc, numbers)?;
    let others = without_all(alloc, &listed, &order)?;
    let mut edited = without_entries(alloc, vars, &listed)?;
    store_order(alloc, &mut edited, &others)?;
    forget_next(&mut edited, next, &listed);
    Ok(edited)
}

/// Deletes BootNext if it is one of these.
fn forget_next(vars: &mut Vars, next: Option<u16>, listed: &BTreeSet<u16>)
    ensures { (numbers : List ℕ) → Tells listed.now numbers → IsWithoutNext numbers next vars.old vars.new }
{
    let Some(number) = next else {
        return;
    };
    if listed.contains(&number) {
        delete_next(vars);
    }
}
