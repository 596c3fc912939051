//! Edits of the variables that stand for a state, gathered as changes.

ghost use Rattle.std.specs.Prelude.{◌≡◌, ◌<◌, ◌≤◌, ◌==◌, [], ◌∷◌, ◌++◌, length, Some, IfOk, OnOk};
ghost use Rattle.std.specs.Int.{w16, from_le_bytes};
ghost use Rattle.std.specs.FinMap as map;
ghost use Rattle.uefi_option.specs.LoadOption.{option_bytes};
ghost use Rattle.uefi_vars.specs.Vars.{Variables};
ghost use Rattle.uefi_vars.specs.NameChanges.{with_changes};
ghost use Rattle.uefi_vars.specs.Order.{order_max};
ghost use Rattle.boot_requests.specs.Apply.{is_in, without, has_room, in_front, is_there as holds, after_boot};
ghost use Rattle.uefi_vars.specs.Name.{keep_text};
ghost use Rattle.boot_requests.specs.State.{State, mark_bytes};
ghost use Rattle.boot_requests.specs.Keeper.{IsStateOf};
ghost use Rattle.boot_requests.specs.Run.{is_next_entry};
ghost use Rattle.boot_requests.specs.Edit.{ChangesBy, GathersBy, with_order, with_next, with_entry, without_entry, with_mark, with_last, with_first, without_number, without_next};

use crate::mark::Mark;
use std::alloc::{AllocError, Global};
use uefi_option::{LoadOption, write_option};
use uefi_path::{append_units, read_units};
use uefi_vars::{BOOT_NEXT, BOOT_ORDER, Changes, KEEP_STATE, ORDER_MAX, Vars};

/// The variable of this name gets this data, which it can have.
fn put(changes: &mut Changes, name: &str, value: Vec<u8>) -> Result<(), AllocError>
    ensures { OnOk result ((vars : Variables) →
        with_changes vars changes.new ≡ map.insert (with_changes vars changes.old) name.now value.items) }
{
    let Ok(()) = changes.put_vec(name, value) else {
        return Err(AllocError);
    };
    Ok(())
}

// ---- entries

/// Whether an entry is stored under this number, whatever its bytes are.
pub(crate) fn is_there(vars: &Vars, changes: &Changes, number: u16) -> bool
    ensures { (m : State) → IsStateOf m (with_changes vars.now changes.now) → result ≡ holds m number }
{
    changes.entry(vars, number).is_some()
}

/// Stores the option under this number.
pub(crate) fn store_entry(
    alloc: Global,
    changes: &mut Changes,
    number: u16,
    option: &LoadOption,
) -> Result<(), AllocError>
    ensures { OnOk result
        (GathersBy changes.old changes.new (with_entry number (option_bytes option.now))) }
{
    let bytes = write_option(alloc, option)?;
    let Ok(()) = changes.put_entry_vec(number, bytes) else {
        return Err(AllocError);
    };
    Ok(())
}

/// Takes out the entry of this number.
pub(crate) fn take_entry(changes: &mut Changes, number: u16) -> Result<(), AllocError>
    ensures { OnOk result (GathersBy changes.old changes.new (without_entry number)) }
{
    changes.remove_entry(number)?;
    Ok(())
}

// ---- BootOrder

/// The numbers of BootOrder, of which there are at most as many as a state has.
fn read_order(alloc: Global, vars: &Vars, changes: &Changes) -> Result<Vec<u16>, AllocError>
    ensures order { IfOk result (λ order.
        (m : State) → IsStateOf m (with_changes vars.now changes.now) → order.items ≡ m.order) }
    ensures len { IfOk result (λ order. length order.items ≤ order_max) }
{
    let Some(bytes) = changes.get(vars, BOOT_ORDER) else {
        return Ok(Vec::new(alloc));
    };
    let order = read_units(alloc, bytes)?;
    if order.len() > ORDER_MAX {
        return Err(AllocError);
    }
    Ok(order)
}

/// Makes BootOrder these numbers. An empty one is deleted.
pub(crate) fn store_order(
    alloc: Global,
    changes: &mut Changes,
    order: &[u16],
) -> Result<(), AllocError>
    requires { length order.now ≤ order_max }
    ensures { OnOk result (GathersBy changes.old changes.new (with_order order.now)) }
{
    if order.is_empty() {
        changes.remove(BOOT_ORDER)?;
        return Ok(());
    }
    let mut bytes = Vec::new(alloc);
    append_units(order, &mut bytes)?;
    put(changes, BOOT_ORDER, bytes)?;
    Ok(())
}

/// Whether the number is one of these.
fn is_in(numbers: &[u16], number: u16) -> bool
    ensures { result ≡ is_in numbers.now number }
{
    numbers.iter().any(|other| *other == number)
}

/// Appends the number to BootOrder, unless it is there or BootOrder is full.
pub(crate) fn append_number(
    alloc: Global,
    vars: &Vars,
    changes: &mut Changes,
    number: u16,
) -> Result<(), AllocError>
    ensures { OnOk result
        (ChangesBy (with_changes vars.now changes.old) (with_changes vars.now changes.new) (with_last number)) }
{
    let mut order = read_order(alloc, vars, changes)?;
    if is_in(&order, number) {
        return Ok(());
    }
    if order.len() >= ORDER_MAX {
        return Ok(());
    }
    order.push(number)?;
    store_order(alloc, changes, &order)?;
    Ok(())
}

/// Appends to an order the numbers that aren't the one.
fn append_others(order: &mut Vec<u16>, numbers: &[u16], number: u16) -> Result<(), AllocError>
    ensures { OnOk result (order.new.items ≡ order.old.items ++ without numbers.now number) }
{
    for other in numbers {
        if *other != number {
            order.push(*other)?;
        }
    }
    Ok(())
}

/// These numbers without the one.
fn without(alloc: Global, numbers: &[u16], number: u16) -> Result<Vec<u16>, AllocError>
    ensures { IfOk result (λ others. others.items ≡ without numbers.now number) }
{
    let mut others = Vec::with_capacity(alloc, numbers.len())?;
    append_others(&mut others, numbers, number)?;
    Ok(others)
}

/// The number, and behind it the others of these.
fn in_front(alloc: Global, number: u16, numbers: &[u16]) -> Result<Vec<u16>, AllocError>
    ensures { IfOk result (λ order. order.items ≡ in_front (number ∷ []) numbers.now) }
{
    let mut order = Vec::with_capacity(alloc, numbers.len() + 1)?;
    order.push(number)?;
    append_others(&mut order, numbers, number)?;
    Ok(order)
}

/// Takes the number out of BootOrder, wherever it is.
pub(crate) fn remove_number(
    alloc: Global,
    vars: &Vars,
    changes: &mut Changes,
    number: u16,
) -> Result<(), AllocError>
    ensures { OnOk result
        (ChangesBy (with_changes vars.now changes.old) (with_changes vars.now changes.new) (without_number number)) }
{
    let order = read_order(alloc, vars, changes)?;
    if !is_in(&order, number) {
        return Ok(());
    }
    let others = without(alloc, &order, number)?;
    store_order(alloc, changes, &others)?;
    Ok(())
}

/// Whether the number can be in an order of these: they are fewer than an order has at most, or it is there.
fn has_room(numbers: &[u16], number: u16) -> bool
    ensures { result ≡ has_room numbers.now number }
{
    numbers.len() < ORDER_MAX || is_in(numbers, number)
}

/// Puts the number in front of BootOrder, unless it isn't there and BootOrder is full.
pub(crate) fn put_first(
    alloc: Global,
    vars: &Vars,
    changes: &mut Changes,
    number: u16,
) -> Result<(), AllocError>
    ensures { OnOk result
        (ChangesBy (with_changes vars.now changes.old) (with_changes vars.now changes.new) (with_first number)) }
{
    let order = read_order(alloc, vars, changes)?;
    if !has_room(&order, number) {
        return Ok(());
    }
    let new = in_front(alloc, number, &order)?;
    store_order(alloc, changes, &new)?;
    Ok(())
}

// ---- BootNext

/// Makes BootNext this number.
pub(crate) fn store_next(changes: &mut Changes, number: u16) -> Result<(), AllocError>
    ensures { OnOk result (GathersBy changes.old changes.new (with_next (Some number))) }
{
    match changes.put(BOOT_NEXT, &number.to_le_bytes()) {
        Ok(()) => Ok(()),
        Err(_) => Err(AllocError),
    }
}

/// Deletes BootNext at once, which takes no memory.
pub(crate) fn delete_next(vars: &mut Vars)
    ensures { ChangesBy vars.old vars.new after_boot }
{
    vars.remove(BOOT_NEXT);
}

/// Whether BootNext is this number.
fn names_next(vars: &Vars, changes: &Changes, number: u16) -> bool
    ensures { (m : State) → IsStateOf m (with_changes vars.now changes.now) →
        result ≡ is_next_entry m.boot_next number }
{
    match changes.get(vars, BOOT_NEXT) {
        Some(bytes) => is_number(bytes, number),
        None => false,
    }
}

/// Whether two bytes, little-endian, are this number.
fn is_number(bytes: &[u8], number: u16) -> bool
    ensures { length bytes.now ≡ 2 → result ≡ (from_le_bytes w16 bytes.now == number) }
{
    match bytes {
        [low, high] => u16::from_le_bytes([*low, *high]) == number,
        _ => false,
    }
}

/// Deletes a BootNext that is this number.
pub(crate) fn forget_next(vars: &Vars, changes: &mut Changes, number: u16) -> Result<(), AllocError>
    ensures { OnOk result
        (ChangesBy (with_changes vars.now changes.old) (with_changes vars.now changes.new) (without_next number)) }
{
    if !names_next(vars, changes, number) {
        return Ok(());
    }
    changes.remove(BOOT_NEXT)?;
    Ok(())
}

// ---- BootKeepState

/// Stores a mark whose next number isn't 0.
pub(crate) fn store_mark(
    alloc: Global,
    changes: &mut Changes,
    mark: &Mark,
) -> Result<(), AllocError>
    requires { 0 < mark.now.next_number }
    ensures put { OnOk result ((vars : Variables) → with_changes vars changes.new
        ≡ map.insert (with_changes vars changes.old) keep_text (mark_bytes mark.now.next_number mark.now.kept)) }
    ensures changes { OnOk result (GathersBy changes.old changes.new (with_mark mark.now)) }
{
    let bytes = mark.bytes(alloc)?;
    put(changes, KEEP_STATE, bytes)?;
    Ok(())
}
