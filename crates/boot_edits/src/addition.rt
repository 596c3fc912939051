//! Edits that add an entry.

ghost use Rattle.std.specs.Prelude.{◌≡◌, ◌≢◌, ◌<◌, ◌≤◌, length, Some, IfOk, IfErr, OnOk, MatchOption};
ghost use Rattle.std.specs.FinMap as map;
ghost use Rattle.uefi_option.specs.Fault.{IsFirstFault as IsFirstOptionFault};
ghost use Rattle.uefi_vars.specs.Name.{entry_text};
ghost use Rattle.uefi_vars.specs.Vars.{data_max};
ghost use Rattle.boot_requests.specs.Apply.{is_in};
ghost use Rattle.boot_edits.specs.declared.fault.EditFault.{EditFault};
ghost use Rattle.boot_edits.specs.Addition.{placed, IsPresent, IsWanted, IsNewNumber, IsNumberFault, IsOrderFault, IsPlaceFault, IsRoomFaultAt, IsEntryAdded, IsAdditionDone, IsAdditionFault};
ghost use Rattle.boot_edits.specs.Orders.{with_last};
ghost use Rattle.boot_edits.specs.Steps.{IsStoredPlaced, IsPlacedIn};

use crate::answer::EditAnswer;
use crate::fault::EditFault;
use crate::order::{in_front, known_order, store_order};
use crate::same::same_entry;
use std::alloc::{AllocError, Global};
use uefi_option::{OptionFault, check_option};
use uefi_vars::{PutFault, Vars, lowest_free};

/// Where a new entry comes in BootOrder.
#[derive(Clone, Copy, Debug, PartialEq, Eq, Hash)]
pub enum Position {
    /// It comes first, and nowhere else.
    First,
    /// It comes last, unless its number is there already, which stays where it stands.
    Last,
    /// BootOrder stays as it is.
    NoOrder,
}

/// A new entry that is asked for.
#[derive(Clone, Copy, Debug)]
pub struct Addition<'a> {
    /// Its number, or `None` for the lowest one that is free.
    pub entry: Option<u16>,
    /// Its bytes, which are a load option (UEFI 2.10, 3.1.3).
    pub option: &'a [u8],
    /// Where it comes in BootOrder.
    pub position: Position,
    /// Whether it is added even if a load option with the same description and the same paths is there.
    pub again: bool,
}

/// Adds the entry, or tells that it is there.
pub(crate) fn add(
    alloc: Global,
    vars: &Vars,
    addition: &Addition<'_>,
) -> Result<(Vars, EditAnswer), EditFault>
    ensures done { IfOk result (λ done. IsAdditionDone vars.now addition.now done.0 done.1) }
    ensures refused { IfErr result (λ fault.
        fault ≢ EditFault.OutOfMemory → IsAdditionFault vars.now addition.now fault) }
{
    if let Some(number) = present(vars, addition)? {
        return Ok((vars.copy(alloc)?, EditAnswer::Present(number)));
    }
    let number = new_number(vars, addition.entry)?;
    let edited = with_entry(alloc, vars, addition, number)?;
    Ok((edited, EditAnswer::Added(number)))
}

/// The number under which the entry is there already, if it is wanted once.
fn present(vars: &Vars, addition: &Addition<'_>) -> Result<Option<u16>, OptionFault>
    ensures there { IfOk result (λ found.
        MatchOption found (IsWanted vars.now addition.now) (IsPresent vars.now addition.now)) }
    ensures refused { IfErr result (IsFirstOptionFault addition.now.option.now) }
{
    let option = check_option(addition.option)?;
    if addition.again {
        return Ok(None);
    }
    match same_entry(vars, &option) {
        Some(number) => Ok(Some(number)),
        None => Ok(None),
    }
}

/// The number of the new entry.
fn new_number(vars: &Vars, entry: Option<u16>) -> Result<u16, EditFault>
    ensures new { IfOk result (IsNewNumber vars.now entry) }
    ensures refused { IfErr result (IsNumberFault vars.now entry) }
{
    match entry {
        Some(number) => free_number(vars, number),
        None => lowest_free(vars).ok_or(EditFault::NoFree),
    }
}

/// This number, if it is free.
fn free_number(vars: &Vars, number: u16) -> Result<u16, EditFault>
    ensures new { IfOk result (IsNewNumber vars.now (Some number)) }
    ensures refused { IfErr result (IsNumberFault vars.now (Some number)) }
{
    match vars.entry(number) {
        Some(_) => Err(EditFault::Taken(number)),
        None => Ok(number),
    }
}

/// The variables with the new entry under this number.
fn with_entry(
    alloc: Global,
    vars: &Vars,
    addition: &Addition<'_>,
    number: u16,
) -> Result<Vars, EditFault>
    ensures done { IfOk result (IsEntryAdded vars.now addition.now number) }
    ensures refused { IfErr result (λ fault.
        fault ≢ EditFault.OutOfMemory → IsRoomFaultAt vars.now addition.now number fault) }
{
    let mut edited = vars.copy(alloc)?;
    store_entry(&mut edited, number, addition.option)?;
    place(alloc, &mut edited, addition.position, number)?;
    Ok(edited)
}

/// Stores the bytes under this number.
fn store_entry(vars: &mut Vars, number: u16, bytes: &[u8]) -> Result<(), EditFault>
    ensures stored { OnOk result (vars.new ≡ map.insert vars.old (entry_text number) bytes.now) }
    ensures fits { OnOk result (length bytes.now ≤ data_max) }
    ensures refused { IfErr result (λ fault. fault ≢ EditFault.OutOfMemory →
        (fault ≡ EditFault.OptionTooLong) × (data_max < length bytes.now)) }
{
    match vars.put_entry(number, bytes) {
        Ok(()) => Ok(()),
        Err(PutFault::DataTooLong) => Err(EditFault::OptionTooLong),
        Err(_) => Err(EditFault::OutOfMemory),
    }
}

/// Gives the number its place in BootOrder.
fn place(alloc: Global, vars: &mut Vars, position: Position, number: u16) -> Result<(), EditFault>
    ensures placed { OnOk result (IsPlacedIn vars.old position number vars.new) }
    ensures refused { IfErr result (λ fault.
        fault ≢ EditFault.OutOfMemory → IsPlaceFault vars.old position number fault) }
{
    match position {
        Position::NoOrder => Ok(()),
        Position::First | Position::Last => place_in_order(alloc, vars, position, number),
    }
}

/// The same for a place that there is.
fn place_in_order(
    alloc: Global,
    vars: &mut Vars,
    position: Position,
    number: u16,
) -> Result<(), EditFault>
    ensures placed { OnOk result (IsStoredPlaced vars.old position number vars.new) }
    ensures refused { IfErr result (λ fault.
        fault ≢ EditFault.OutOfMemory → IsOrderFault vars.old position number fault) }
{
    let old = known_order(alloc, vars)?;
    let order = placed(alloc, position, number, &old)?;
    store_order(alloc, vars, &order)?;
    Ok(())
}

/// The order with the number at its place.
fn placed(
    alloc: Global,
    position: Position,
    number: u16,
    order: &[u16],
) -> Result<Vec<u16>, AllocError>
    ensures { IfOk result (λ new. new.items ≡ placed position number order.now) }
{
    match position {
        Position::First => in_front(alloc, &[number], order),
        Position::Last => with_last(alloc, order, number),
        Position::NoOrder => Vec::from_slice(alloc, order),
    }
}

/// The order with the number as its last one, unless it is there already.
fn with_last(alloc: Global, order: &[u16], number: u16) -> Result<Vec<u16>, AllocError>
    ensures { IfOk result (λ new. new.items ≡ with_last order.now number) }
{
    let mut new = Vec::from_slice(alloc, order)?;
    if !is_in(order, number) {
        new.push(number)?;
    }
    Ok(new)
}

/// Whether the number is one of these.
fn is_in(numbers: &[u16], number: u16) -> bool
    ensures { result ≡ is_in numbers.now number }
{
    numbers.iter().any(|other| *other == number)
}
