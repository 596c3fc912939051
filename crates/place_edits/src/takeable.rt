//! What firmware takes of variables that a place is to have.

ghost use Rattle.std.specs.Prelude.{◌≡◌, ◌↔◌, drop, Some, IfOk, OnOk, IsTrue};
ghost use Rattle.std.specs.Option.{option_map};
ghost use Rattle.std.specs.List.{AllByRecursion};
ghost use Rattle.uefi_vars.specs.Attributes.{attributes_len};
ghost use Rattle.uefi_vars.specs.Name.{order_text, next_text};
ghost use Rattle.place_edits.specs.Takeable.{IsNoOption, IsRefused, IsOut, AreOut, IsChangedAt, IsWithout, IsTaken};

use messages::{Failure, Reason};
use std::alloc::{AllocError, Global};
use uefi_option::check_option;
use uefi_path::{append_units, read_units};
use uefi_vars::{
    ATTRIBUTES_LEN, BOOT_NEXT, BOOT_ORDER, EntryName, TIMEOUT, Vars, entry_number,
    laws as vars_laws,
};
use value_texts::option_reason;
use wanted_changes::Remarks;

/// What a place is to have, as far as firmware takes it.
#[derive(Drop)]
pub struct Takeable {
    /// The variables, as a machine keeps them.
    pub vars: Vars,
    /// The entries that are left out, by rising number.
    pub missing: Vec<u16>,
}

/// What firmware takes of variables that are wanted where others are there, both as a machine keeps them, with attributes:
/// without the entries that would have to be stored and that are no load options; BootOrder loses their numbers, and BootNext
/// goes if it has one (UEFI 2.10, 3.3). A BootOrder or a BootNext that firmware refuses stays: see [`check_numbers`]. This fails
/// only when out of memory.
pub(crate) fn taken(alloc: Global, there: &Vars, wanted: Vars) -> Result<Takeable, AllocError>
    ensures { IfOk result (IsTaken there.now wanted) }
{
    let missing = refused_entries(alloc, there, &wanted)?;
    let vars = without(alloc, wanted, &missing)?;
    Ok(Takeable { vars, missing })
}

/// Remarks of each entry of a set that is left out why. The file or the folder of this name has the set.
///
/// # Errors
///
/// [`AllocError`] if memory was refused.
pub(crate) fn remark_missing(
    alloc: Global,
    remarks: &mut Remarks,
    name: &str,
    (set, missing): (&Vars, &[u16]),
) -> Result<(), AllocError> {
    for entry in missing {
        if let Some(data) = set.entry(*entry)
            && let Err(fault) = check_option(data)
        {
            let entry = EntryName(*entry);
            let reason = option_reason(data, &fault);
            remarks.push(
                name,
                format!(in alloc;
                    "{entry} is ignored, since firmware refuses it: it is no load option: {reason}"
                )?,
            )?;
        }
    }
    Ok(())
}

/// The entries that are wanted, aren't there so, and are no load options.
fn refused_entries(alloc: Global, there: &Vars, wanted: &Vars) -> Result<Vec<u16>, AllocError>
    ensures { IfOk result (λ refused. AllByRecursion (IsRefused there.now wanted.now) refused.items) }
{
    let mut refused = Vec::new(alloc);
    for (name, _value) in wanted.iter() {
        push_refused(&mut refused, there, wanted, name)?;
    }
    Ok(refused)
}

/// Appends the entry of this name, if it is one of those.
fn push_refused(
    refused: &mut Vec<u16>,
    there: &Vars,
    wanted: &Vars,
    name: &str,
) -> Result<(), AllocError>
    ensures { OnOk result (AllByRecursion (IsRefused there.now wanted.now) refused.old.items →
        AllByRecursion (IsRefused there.now wanted.now) refused.new.items) }
{
    match entry_number(name) {
        Some(entry) if is_refused(there, wanted, entry) => {
            refused.push(entry)?;
            Ok(())
        }
        _ => Ok(()),
    }
}

/// Whether firmware refuses to store this entry, which is wanted, and isn't there so.
fn is_refused(there: &Vars, wanted: &Vars, entry: u16) -> bool
    ensures { IsTrue result ↔ IsRefused there.now wanted.now entry }
{
    match wanted.entry(entry) {
        Some(value) => !is_value(there.entry(entry), value) && is_no_option(data_in(value)),
        None => false,
    }
}

/// Whether what was found is this value.
fn is_value(found: Option<&[u8]>, value: &[u8]) -> bool
    ensures { IsTrue result ↔ (option_map (λ b. b.now) found.entry ≡ Some value.now) }
{
    match found {
        Some(found) => found == value,
        None => false,
    }
}

/// Whether these bytes are no load option.
fn is_no_option(bytes: &[u8]) -> bool
    ensures { IsTrue result ↔ IsNoOption bytes.now }
{
    check_option(bytes).is_err()
}

/// The data in a value, after its attributes.
fn data_in(value: &[u8]) -> &[u8]
    ensures { result.now ≡ drop attributes_len value.now }
{
    value.get(ATTRIBUTES_LEN..).unwrap_or(&[])
}

/// The variables without these entries, whose numbers are in neither BootOrder nor BootNext. This fails only when out of
/// memory.
fn without(alloc: Global, vars: Vars, entries: &[u16]) -> Result<Vars, AllocError>
    ensures { IfOk result (IsWithout entries.now vars) }
{
    if entries.is_empty() {
        return Ok(vars);
    }
    let mut left = vars;
    take_out(&mut left, entries);
    take_out_of_next(&mut left, entries);
    take_out_of_order(alloc, &mut left, entries)?;
    Ok(left)
}

/// Takes these entries out.
fn take_out(vars: &mut Vars, entries: &[u16])
    ensures { AreOut entries.now vars.old vars.new }
{
    for entry in entries {
        take_out_one(vars, *entry);
    }
}

/// Takes this entry out.
fn take_out_one(vars: &mut Vars, entry: u16)
    ensures { IsOut entry vars.old vars.new }
{
    vars.remove_entry(entry);
}

/// Takes BootNext out, if it has the number of one of these entries.
fn take_out_of_next(vars: &mut Vars, entries: &[u16])
    ensures { IsChangedAt next_text vars.old vars.new }
{
    vars_laws::constants_are_those_of_the_definitions();
    if is_next(vars, entries) {
        vars.remove(BOOT_NEXT);
    }
}

/// Whether BootNext has the number of one of these entries.
fn is_next(vars: &Vars, entries: &[u16]) -> bool {
    match vars.get(BOOT_NEXT).map(|value| data_in(value)) {
        Some([low, high]) => entries
            .binary_search(&u16::from_le_bytes([*low, *high]))
            .is_ok(),
        _ => false,
    }
}

/// Takes the numbers of these entries out of BootOrder, which goes if it has no others.
fn take_out_of_order(alloc: Global, vars: &mut Vars, entries: &[u16]) -> Result<(), AllocError>
    ensures { OnOk result (IsChangedAt order_text vars.old vars.new) }
{
    vars_laws::constants_are_those_of_the_definitions();
    match order_without(alloc, vars.get(BOOT_ORDER), entries)? {
        NewOrder::Same => Ok(()),
        NewOrder::Gone => {
            vars.remove(BOOT_ORDER);
            Ok(())
        }
        NewOrder::Shorter(value) => put_order(vars, &value),
    }
}

/// Makes this the value of BootOrder. It is shorter than what is there, so this fails only when out of memory.
fn put_order(vars: &mut Vars, value: &[u8]) -> Result<(), AllocError>
    ensures { OnOk result (IsChangedAt order_text vars.old vars.new) }
{
    vars_laws::constants_are_those_of_the_definitions();
    match vars.put(BOOT_ORDER, value) {
        Ok(()) => Ok(()),
        Err(_) => Err(AllocError),
    }
}

/// What an order is to be.
#[derive(Drop)]
enum NewOrder {
    /// What it is.
    Same,
    /// Nothing is to be there.
    Gone,
    /// This value.
    Shorter(Vec<u8>),
}

/// What BootOrder of this value is without these entries. One that can't be read stays.
fn order_without(
    alloc: Global,
    order: Option<&[u8]>,
    entries: &[u16],
) -> Result<NewOrder, AllocError> {
    let Some((attributes, data)) = order.and_then(|value| value.split_at_checked(ATTRIBUTES_LEN))
    else {
        return Ok(NewOrder::Same);
    };
    if data.len() % 2 != 0 {
        return Ok(NewOrder::Same);
    }
    let numbers = read_units(alloc, data)?;
    let rest = numbers_without(alloc, &numbers, entries)?;
    if rest.len() == numbers.len() {
        return Ok(NewOrder::Same);
    }
    if rest.is_empty() {
        return Ok(NewOrder::Gone);
    }
    let mut value = Vec::from_slice(alloc, attributes)?;
    append_units(&rest, &mut value)?;
    Ok(NewOrder::Shorter(value))
}

/// The numbers but for those of these entries.
fn numbers_without(
    alloc: Global,
    numbers: &[u16],
    entries: &[u16],
) -> Result<Vec<u16>, AllocError> {
    let mut rest = Vec::with_capacity(alloc, numbers.len())?;
    for number in numbers {
        if entries.binary_search(number).is_err() {
            rest.push(*number)?;
        }
    }
    Ok(rest)
}

/// Refuses a BootOrder, a BootNext and a Timeout that would have to be stored and that firmware or the system refuses.
///
/// # Errors
///
/// [`Failure::Refused`], with the name of the file or the folder that wants them.
pub(crate) fn check_numbers(
    alloc: Global,
    name: &str,
    from: &Vars,
    to: &Vars,
) -> Result<(), Failure> {
    let new = |variable: &str| match to.get(variable) {
        Some(value) if from.get(variable) != Some(value) => Some(data_in(value).len()),
        _ => None,
    };
    if new(BOOT_ORDER).is_some_and(|len| len % 2 != 0) {
        return Err(Failure::refused(alloc, name, Reason::OrderRefused));
    }
    if new(BOOT_NEXT).is_some_and(|len| len != 2) {
        return Err(Failure::refused(alloc, name, Reason::NextRefused));
    }
    if new(TIMEOUT).is_some_and(|len| len != 2) {
        return Err(Failure::from_fault(
            alloc,
            name,
            "Timeout isn't the two bytes of a number of seconds, and it is refused; nothing is changed",
        ));
    }
    Ok(())
}
