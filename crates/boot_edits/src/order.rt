//! BootOrder, as edits read and store it (UEFI 2.10, 3.3).

ghost use Rattle.std.specs.Prelude.{◌≡◌, ◌≢◌, ◌<◌, ◌≤◌, ℕ, List, length, IfOk, IfErr, OnOk};
ghost use Rattle.uefi_vars.specs.Name.{order_text};
ghost use Rattle.uefi_vars.specs.NameChanges.{with_data};
ghost use Rattle.uefi_vars.specs.Order.{order_max, stored_order, HasOrder, HasBadOrder};
ghost use Rattle.boot_requests.specs.Apply.{without_all, in_front};
ghost use Rattle.boot_edits.specs.declared.fault.EditFault.{EditFault};
ghost use Rattle.boot_edits.specs.Orders.{extended, each_once};
ghost use Rattle.boot_edits.specs.Parts.{is_stored, IsOldOrder};
ghost use Rattle.boot_edits.specs.Steps.{Tells};

use crate::fault::EditFault;
use crate::listed::{push_new, set_of};
use std::alloc::{AllocError, Global};
use std::collections::BTreeSet;
use uefi_path::append_units;
use uefi_vars::{BOOT_ORDER, ORDER_MAX, VarFault, Vars, boot_order, laws as vars_laws};

/// The numbers of BootOrder. One that can't be read counts as empty.
pub(crate) fn old_order(alloc: Global, vars: &Vars) -> Result<Vec<u16>, AllocError>
    ensures { IfOk result (λ order. IsOldOrder vars.now order.items) }
{
    match boot_order(alloc, vars) {
        Ok(order) => Ok(order),
        Err(VarFault::BadOrder) => Ok(Vec::new(alloc)),
        Err(_) => Err(AllocError),
    }
}

/// The numbers of BootOrder.
pub(crate) fn known_order(alloc: Global, vars: &Vars) -> Result<Vec<u16>, EditFault>
    ensures found { IfOk result (λ order. HasOrder vars.now order.items) }
    ensures refused { IfErr result (λ fault. fault ≢ EditFault.OutOfMemory →
        (fault ≡ EditFault.BadOrder) × HasBadOrder vars.now) }
{
    match boot_order(alloc, vars) {
        Ok(order) => Ok(order),
        Err(VarFault::BadOrder) => Err(EditFault::BadOrder),
        Err(_) => Err(EditFault::OutOfMemory),
    }
}

/// The numbers of the order that aren't in this set.
pub(crate) fn without_all(
    alloc: Global,
    listed: &BTreeSet<u16>,
    order: &[u16],
) -> Result<Vec<u16>, AllocError>
    ensures { IfOk result (λ others. (numbers : List ℕ) → Tells listed.now numbers → others.items ≡ without_all numbers order.now) }
{
    let mut others = Vec::new(alloc);
    for number in order {
        if !listed.contains(number) {
            others.push(*number)?;
        }
    }
    Ok(others)
}

/// These numbers, and after them the others of the order.
pub(crate) fn in_front(
    alloc: Global,
    numbers: &[u16],
    order: &[u16],
) -> Result<Vec<u16>, AllocError>
    ensures { IfOk result (λ new. new.items ≡ in_front numbers.now order.now) }
{
    let listed = set_of(alloc, numbers)?;
    let others = without_all(alloc, &listed, order)?;
    let mut new = Vec::from_slice(alloc, numbers)?;
    new.extend_from_slice(&others)?;
    Ok(new)
}

/// These numbers, and after them those of the others that have an entry, each once.
pub(crate) fn extended(
    alloc: Global,
    vars: &Vars,
    numbers: &[u16],
    others: &[u16],
) -> Result<Vec<u16>, AllocError>
    ensures { IfOk result (λ new. new.items ≡ extended (is_stored vars.now) numbers.now others.now) }
{
    let mut met = set_of(alloc, numbers)?;
    let mut new = Vec::from_slice(alloc, numbers)?;
    for number in others {
        if vars.entry(*number).is_some() {
            push_new(&mut new, &mut met, *number)?;
        }
    }
    Ok(new)
}

/// These numbers, each where it is first.
pub(crate) fn each_once(alloc: Global, numbers: &[u16]) -> Result<Vec<u16>, AllocError>
    ensures { IfOk result (λ order. order.items ≡ each_once numbers.now) }
{
    let mut met = BTreeSet::new(alloc);
    let mut order = Vec::new(alloc);
    for number in numbers {
        push_new(&mut order, &mut met, *number)?;
    }
    Ok(order)
}

/// Makes BootOrder these numbers. An empty one is deleted.
pub(crate) fn store_order(alloc: Global, vars: &mut Vars, order: &[u16]) -> Result<(), EditFault>
    ensures fits { OnOk result (length order.now ≤ order_max) }
    ensures stored { OnOk result (vars.new ≡ with_data vars.old order_text (stored_order order.now)) }
    ensures refused { IfErr result (λ fault. fault ≢ EditFault.OutOfMemory →
        (fault ≡ EditFault.OrderTooLong) × (order_max < length order.now)) }
{
    vars_laws::constants_are_those_of_the_definitions();
    if order.len() > ORDER_MAX {
        return Err(EditFault::OrderTooLong);
    }
    if order.is_empty() {
        vars.remove(BOOT_ORDER);
        return Ok(());
    }
    let mut bytes = Vec::new(alloc);
    append_units(order, &mut bytes)?;
    match vars.put_vec(BOOT_ORDER, bytes) {
        Ok(()) => Ok(()),
        // The name is one, and such bytes are neither none nor too many.
        Err(_) => Err(EditFault::OutOfMemory),
    }
}
