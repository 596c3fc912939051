//! Edits of BootOrder (UEFI 2.10, 3.3).

ghost use Rattle.std.specs.Prelude.{◌≡◌, ◌≢◌, ◌<◌, ◌≤◌, length, IfOk, IfErr};
ghost use Rattle.uefi_vars.specs.Order.{order_max};
ghost use Rattle.boot_edits.specs.declared.fault.EditFault.{EditFault};
ghost use Rattle.boot_edits.specs.Edit.{IsFrontOrder, IsNewOrder, IsReordered, IsReorderFault, IsOrderOf};
ghost use Rattle.boot_edits.specs.Edit.{IsUnrepeated, IsUnrepeatFault};
ghost use Rattle.boot_edits.specs.Lists.{IsMissing, IsStale};
ghost use Rattle.boot_edits.specs.Needs.{order_need};

use crate::fault::EditFault;
use crate::listed::{Need, check_each};
use crate::order::{each_once, extended, in_front, known_order, old_order, store_order};
use std::alloc::{AllocError, Global};
use uefi_vars::Vars;

/// A BootOrder that is asked for.
#[derive(Clone, Copy, Debug)]
pub struct NewOrder<'a> {
    /// The numbers that come first, in their order.
    pub entries: &'a [u16],
    /// Whether a number among them may have no entry.
    pub stale: bool,
    /// Whether they are the whole order. If not, after them come the numbers of the old order that have an entry and aren't
    /// among them, in their old order and each once; an old order that can't be read counts as empty.
    pub only: bool,
}

/// Puts these entries first in BootOrder.
pub(crate) fn put_first(alloc: Global, vars: &Vars, numbers: &[u16]) -> Result<Vars, EditFault>
    ensures done { IfOk result
        (IsReordered vars.now (IsMissing vars.now) numbers.now (IsFrontOrder vars.now numbers.now)) }
    ensures refused { IfErr result (λ fault. fault ≢ EditFault.OutOfMemory →
        IsReorderFault (IsMissing vars.now) numbers.now (IsFrontOrder vars.now numbers.now) fault) }
{
    check_each(alloc, vars, Need::Entry, numbers)?;
    let old = old_order(alloc, vars)?;
    let order = in_front(alloc, numbers, &old)?;
    with_order(alloc, vars, &order)
}

/// Makes BootOrder another one.
pub(crate) fn set_order(alloc: Global, vars: &Vars, new: &NewOrder<'_>) -> Result<Vars, EditFault>
    ensures done { IfOk result (IsReordered vars.now (IsStale new.now.stale vars.now) new.now.entries.now
        (IsNewOrder vars.now new.now.only new.now.entries.now)) }
    ensures refused { IfErr result (λ fault. fault ≢ EditFault.OutOfMemory →
        IsReorderFault (IsStale new.now.stale vars.now) new.now.entries.now
        (IsNewOrder vars.now new.now.only new.now.entries.now) fault) }
{
    check_each(alloc, vars, order_need(new.stale), new.entries)?;
    let order = new_order(alloc, vars, new)?;
    with_order(alloc, vars, &order)
}

/// What the numbers of a new order need.
fn order_need(stale: bool) -> Need
    ensures { result ≡ order_need stale }
{
    if stale {
        Need::Nothing
    } else {
        Need::EntryOfOrder
    }
}

/// The numbers of the new order.
fn new_order(alloc: Global, vars: &Vars, new: &NewOrder<'_>) -> Result<Vec<u16>, AllocError>
    ensures { IfOk result (λ order. IsNewOrder vars.now new.now.only new.now.entries.now order.items) }
{
    if new.only {
        return Vec::from_slice(alloc, new.entries);
    }
    let old = old_order(alloc, vars)?;
    extended(alloc, vars, new.entries, &old)
}

/// Leaves each number of BootOrder where it is first, and nowhere else.
pub(crate) fn unrepeat(alloc: Global, vars: &Vars) -> Result<Vars, EditFault>
    ensures done { IfOk result (IsUnrepeated vars.now) }
    ensures refused { IfErr result (λ fault.
        fault ≢ EditFault.OutOfMemory → IsUnrepeatFault vars.now fault) }
{
    let old = known_order(alloc, vars)?;
    let order = each_once(alloc, &old)?;
    with_order(alloc, vars, &order)
}

/// The variables with this BootOrder.
fn with_order(alloc: Global, vars: &Vars, order: &[u16]) -> Result<Vars, EditFault>
    ensures done { IfOk result (λ edited. (length order.now ≤ order_max) × IsOrderOf vars.now order.now edited) }
    ensures refused { IfErr result (λ fault. fault ≢ EditFault.OutOfMemory →
        (fault ≡ EditFault.OrderTooLong) × (order_max < length order.now)) }
{
    let mut edited = vars.copy(alloc)?;
    store_order(alloc, &mut edited, order)?;
    Ok(edited)
}
