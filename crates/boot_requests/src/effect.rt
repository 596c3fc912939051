//! Requests to what they change of the variables that stand for a state.

ghost use Rattle.std.specs.Prelude.{◌≡◌, ◌≤◌, ℕ, false, length, slice_index_or, IfOk};
ghost use Rattle.std.specs.List.{list_all};
ghost use Rattle.uefi_vars.specs.Order.{order_max};
ghost use Rattle.uefi_vars.specs.NameChanges.{with_changes};
ghost use Rattle.boot_requests.specs.declared.request.Request.{Request};
ghost use Rattle.boot_requests.specs.Limits.{payload_max};
ghost use Rattle.boot_requests.specs.Request.{payload_of};
ghost use Rattle.boot_requests.specs.State.{State};
ghost use Rattle.boot_requests.specs.Apply.{repeats, is_there as holds};
ghost use Rattle.boot_requests.specs.Keeper.{IsStateOf};
ghost use Rattle.boot_requests.specs.Edit.{CarriesOut, StoresFree};

use crate::edit::{
    append_number, forget_next, is_there, put_first, remove_number, store_entry, store_next,
    store_order, take_entry,
};
use crate::outcome::{Code, Outcome};
use crate::request::Request;
use std::alloc::{AllocError, Global};
use uefi_option::LoadOption;
use uefi_path::laws as path_laws;
use uefi_vars::{Changes, Vars};

/// How many numbers entries can have.
const NUMBERS: usize = 65_536;

/// An order of this many numbers or fewer is searched for a repeat without memory.
const FEW: usize = 16;

/// Gathers what the request asks for, if it can be done to the variables as the changes so far make them. What came of
/// it. If memory is refused, the changes may be of no use any more.
pub(crate) fn carry_out(
    alloc: Global,
    vars: &Vars,
    changes: &mut Changes,
    request: &Request,
) -> Result<Outcome, AllocError>
    requires { length (payload_of request.now) ≤ payload_max }
    ensures { IfOk result
        (CarriesOut (with_changes vars.now changes.old) (with_changes vars.now changes.new) request.now) }
{
    path_laws::units_have_two_bytes_each();
    match request {
        Request::Add(number, option) => add(alloc, vars, changes, *number, option),
        Request::Replace(number, option) => replace(alloc, vars, changes, *number, option),
        Request::Remove(number) => remove(alloc, vars, changes, *number),
        Request::Order(order) => set_order(alloc, vars, changes, order.numbers()),
        Request::Next(number) => set_next(vars, changes, *number),
        Request::AddFree(option) => add_free(alloc, vars, changes, option),
        Request::AddFirst(option) => add_first(alloc, vars, changes, option),
        Request::First(number) => set_first(alloc, vars, changes, *number),
    }
}

/// Stores an entry that isn't there, and appends its number to BootOrder.
fn add(
    alloc: Global,
    vars: &Vars,
    changes: &mut Changes,
    number: u16,
    option: &LoadOption,
) -> Result<Outcome, AllocError>
    ensures { IfOk result (CarriesOut (with_changes vars.now changes.old) (with_changes vars.now changes.new)
        (Request.Add number option.now)) }
{
    if is_there(vars, changes, number) {
        return Ok(Outcome::of(Code::Exists));
    }
    store_entry(alloc, changes, number, option)?;
    append_number(alloc, vars, changes, number)?;
    Ok(Outcome::of(Code::Done))
}

/// Stores an entry under the least number that none has, and appends that number to BootOrder.
fn add_free(
    alloc: Global,
    vars: &Vars,
    changes: &mut Changes,
    option: &LoadOption,
) -> Result<Outcome, AllocError>
    ensures { IfOk result (CarriesOut (with_changes vars.now changes.old) (with_changes vars.now changes.new)
        (Request.AddFree option.now)) }
{
    let Some(number) = store_free(alloc, vars, changes, option)? else {
        return Ok(Outcome::of(Code::NoFree));
    };
    append_number(alloc, vars, changes, number)?;
    Ok(Outcome::added_at(number))
}

/// Stores an entry under the least number that none has, and puts that number in front of BootOrder.
fn add_first(
    alloc: Global,
    vars: &Vars,
    changes: &mut Changes,
    option: &LoadOption,
) -> Result<Outcome, AllocError>
    ensures { IfOk result (CarriesOut (with_changes vars.now changes.old) (with_changes vars.now changes.new)
        (Request.AddFirst option.now)) }
{
    let Some(number) = store_free(alloc, vars, changes, option)? else {
        return Ok(Outcome::of(Code::NoFree));
    };
    put_first(alloc, vars, changes, number)?;
    Ok(Outcome::added_at(number))
}

/// Stores an entry under the least number that none has. That number, if there is one.
fn store_free(
    alloc: Global,
    vars: &Vars,
    changes: &mut Changes,
    option: &LoadOption,
) -> Result<Option<u16>, AllocError>
    ensures { IfOk result (StoresFree (with_changes vars.now changes.old) (with_changes vars.now changes.new) option.now) }
{
    let Some(number) = changes.lowest_free(vars) else {
        return Ok(None);
    };
    store_entry(alloc, changes, number, option)?;
    Ok(Some(number))
}

/// Stores an entry in the place of one that is there.
fn replace(
    alloc: Global,
    vars: &Vars,
    changes: &mut Changes,
    number: u16,
    option: &LoadOption,
) -> Result<Outcome, AllocError>
    ensures { IfOk result (CarriesOut (with_changes vars.now changes.old) (with_changes vars.now changes.new)
        (Request.Replace number option.now)) }
{
    if !is_there(vars, changes, number) {
        return Ok(Outcome::of(Code::Missing));
    }
    store_entry(alloc, changes, number, option)?;
    Ok(Outcome::of(Code::Done))
}

/// Takes out an entry, its number from BootOrder, and a BootNext that names it.
fn remove(
    alloc: Global,
    vars: &Vars,
    changes: &mut Changes,
    number: u16,
) -> Result<Outcome, AllocError>
    ensures { IfOk result (CarriesOut (with_changes vars.now changes.old) (with_changes vars.now changes.new)
        (Request.Remove number)) }
{
    if !is_there(vars, changes, number) {
        return Ok(Outcome::of(Code::Missing));
    }
    take_entry(changes, number)?;
    remove_number(alloc, vars, changes, number)?;
    forget_next(vars, changes, number)?;
    Ok(Outcome::of(Code::Done))
}

/// Sets BootOrder to numbers of entries that are there, each once.
fn set_order(
    alloc: Global,
    vars: &Vars,
    changes: &mut Changes,
    numbers: &[u16],
) -> Result<Outcome, AllocError>
    requires { length numbers.now ≤ order_max }
    ensures { IfOk result (CarriesOut (with_changes vars.now changes.old) (with_changes vars.now changes.new)
        (Request.Order numbers.now)) }
{
    let repeated = has_repeat(alloc, numbers)?;
    if repeated {
        return Ok(Outcome::of(Code::OrderRepeats));
    }
    if !are_there(vars, changes, numbers) {
        return Ok(Outcome::of(Code::OrderUnknown));
    }
    store_order(alloc, changes, numbers)?;
    Ok(Outcome::of(Code::Done))
}

/// Puts an entry that is there in front of BootOrder.
fn set_first(
    alloc: Global,
    vars: &Vars,
    changes: &mut Changes,
    number: u16,
) -> Result<Outcome, AllocError>
    ensures { IfOk result (CarriesOut (with_changes vars.now changes.old) (with_changes vars.now changes.new)
        (Request.First number)) }
{
    if !is_there(vars, changes, number) {
        return Ok(Outcome::of(Code::Missing));
    }
    put_first(alloc, vars, changes, number)?;
    Ok(Outcome::of(Code::Done))
}

/// Sets BootNext to an entry that is there.
fn set_next(vars: &Vars, changes: &mut Changes, number: u16) -> Result<Outcome, AllocError>
    ensures { IfOk result (CarriesOut (with_changes vars.now changes.old) (with_changes vars.now changes.new)
        (Request.Next number)) }
{
    if !is_there(vars, changes, number) {
        return Ok(Outcome::of(Code::Missing));
    }
    store_next(changes, number)?;
    Ok(Outcome::of(Code::Done))
}

/// Whether some number is among those twice.
fn has_repeat(alloc: Global, numbers: &[u16]) -> Result<bool, AllocError>
    ensures { IfOk result (λ found. found ≡ repeats numbers.now) }
{
    if numbers.len() <= FEW {
        Ok(has_repeat_of_few(numbers))
    } else {
        has_repeat_of_many(alloc, numbers)
    }
}

/// Whether some number is among those twice: each is compared with those before it. This takes no memory.
fn has_repeat_of_few(numbers: &[u16]) -> bool
    ensures { result ≡ repeats numbers.now }
{
    for (i, number) in numbers.iter().enumerate() {
        if numbers[..i].contains(number) {
            return true;
        }
    }
    false
}

/// Whether some number is among those twice: each is marked, in marks for all numbers that there are.
fn has_repeat_of_many(alloc: Global, numbers: &[u16]) -> Result<bool, AllocError>
    ensures { IfOk result (λ found. found ≡ repeats numbers.now) }
{
    let mut marked = no_marks(alloc, NUMBERS)?;
    for number in numbers {
        let place = usize::from(*number);
        if marked[place] {
            return Ok(true);
        }
        marked[place] = true;
    }
    Ok(false)
}

/// False, this many times.
fn no_marks(alloc: Global, len: usize) -> Result<Vec<bool>, AllocError>
    ensures len { IfOk result (λ marks. length marks.items ≡ len) }
    ensures unset { IfOk result (λ marks. (k : ℕ) → slice_index_or marks.items k false ≡ false) }
{
    vec![in alloc; false; len]
}

/// Whether an entry is stored under each of these numbers.
fn are_there(vars: &Vars, changes: &Changes, numbers: &[u16]) -> bool
    ensures { (m : State) → IsStateOf m (with_changes vars.now changes.now) →
        result ≡ list_all (holds m) numbers.now }
{
    for number in numbers {
        if !is_there(vars, changes, *number) {
            return false;
        }
    }
    true
}
