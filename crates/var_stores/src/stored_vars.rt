//! The variables of a store as a set.

ghost use Rattle.std.specs.Prelude.{◌≡◌, ◌≢◌, ℕ, List, Err, map, IfOk, OnOk};
ghost use Rattle.std.specs.BTreeMap.{IsOrdered, values};
ghost use Rattle.std.specs.List.{AllByRecursion, filter};
ghost use Rattle.std.specs.Option.{option_map};
ghost use Rattle.std.specs.String.{string_bytes};
ghost use Rattle.uefi_vars.specs.declared.fault.PutFault.{PutFault};
ghost use Rattle.uefi_vars.specs.Name.{IsName, global_vendor};
ghost use Rattle.uefi_vars.specs.Vars.{name_cmp};
ghost use Rattle.std.specs.FinMap as map;
ghost use Rattle.uefi_vars.specs.BootChange.{same_name};
ghost use Rattle.var_stores.specs.Record.{record_parts, vendor_in, attribute_bytes, IsRecord};
ghost use Rattle.var_stores.specs.Present.{global_key, name_in, set_data, set_attributes, is_set_name, is_set_value, is_left_out, IsSetOf, AreAttributesOf, AreLeftOut};
ghost use Rattle.var_stores.specs.PresentMap.{record_under, AreKeyed, AreWhole, PutsStored, PutsRecord};

use crate::present::{Present, present};
use crate::record::{HEADER_LEN, Record};
use crate::store::VariableStore;
use std::alloc::{AllocError, Global};
use uefi_vars::{DATA_MAX, GLOBAL_VENDOR, NAME_MAX, PutFault, Vars, laws as vars_laws};

/// The variables of a store whose vendor's GUID is 8be4df61-93ca-11d2-aa0d-00e098032b8c, that of the variables that the
/// standard names (UEFI 2.10, 3.3), as a set. A record is a variable that is there if its state is 0x3F, of several of one
/// variable the first, or if it is 0x3E and there is none with 0x3F, of several the last. What no set can hold is left
/// out: [`left_out`] tells it.
///
/// # Errors
///
/// [`AllocError`] if memory was refused.
pub fn store_vars(alloc: Global, store: &VariableStore<'_>) -> Result<Vars, AllocError>
    ensures { IfOk result (λ vars. AllByRecursion IsRecord (map record_parts store.now.records.items) →
        IsSetOf (map record_parts store.now.records.items) vars) }
{
    let present = present(alloc, &store.records)?;
    vars_of(alloc, &present)
}

/// The attributes of the variables of [`store_vars`], as a set: under each of their names the four bytes of the attributes
/// of the record that is there, the lowest first (UEFI 2.10, 8.2).
///
/// # Errors
///
/// [`AllocError`] if memory was refused.
pub fn store_attributes(alloc: Global, store: &VariableStore<'_>) -> Result<Vars, AllocError>
    ensures { IfOk result (λ vars. AllByRecursion IsRecord (map record_parts store.now.records.items) →
        AreAttributesOf (map record_parts store.now.records.items) vars) }
{
    let present = present(alloc, &store.records)?;
    attributes_of(alloc, &present)
}

/// The records of the same vendor that are there, and that no set can hold: their name isn't one to [`NAME_MAX`]
/// characters from 0x21 to 0x7E, or their value has no byte or more than [`DATA_MAX`] bytes. They come in the order of
/// their names, as bytes.
///
/// # Errors
///
/// [`AllocError`] if memory was refused.
pub fn left_out<'a>(alloc: Global, store: &VariableStore<'a>) -> Result<Vec<Record<'a>>, AllocError>
    ensures { IfOk result (λ left. AreLeftOut (map record_parts store.now.records.items) (map record_parts left.items)) }
{
    let present = present(alloc, &store.records)?;
    left_out_of(alloc, &present)
}

/// The records of those that are there that no set can hold.
fn left_out_of<'a>(alloc: Global, present: &Present<'a>) -> Result<Vec<Record<'a>>, AllocError>
    ensures ordered { IsOrdered (λ x y. name_cmp x.items y.items) present.now }
    ensures left { IfOk result (λ left. map record_parts left.items
        ≡ filter is_left_out (map record_parts (values present.now))) }
{
    let mut left = Vec::new(alloc);
    for record in present.values() {
        if is_left_out(alloc, record)? {
            left.push(*record)?;
        }
    }
    Ok(left)
}

/// Whether the record is of the standard's vendor, and no set can hold its value under its name.
fn is_left_out(alloc: Global, record: &Record<'_>) -> Result<bool, AllocError>
    ensures { IfOk result (λ left_out. left_out ≡ is_left_out (record_parts «record».now)) }
{
    if !is_global(record) {
        return Ok(false);
    }
    if !is_set_value(record.value) {
        return Ok(true);
    }
    Ok(!is_set_name(alloc, record.name)?)
}

/// Whether the record's vendor is that of the variables that the standard names.
pub(crate) fn is_global(record: &Record<'_>) -> bool
    ensures { result ≡ same_name global_vendor (vendor_in «record».now.header.now) }
{
    GLOBAL_VENDOR.0.as_slice() == record.vendor()
}

/// Whether a set can have the name that is stored so.
fn is_set_name(alloc: Global, stored: &[u8]) -> Result<bool, AllocError>
    ensures { IfOk result (λ is. is ≡ is_set_name stored.now) }
{
    vars_laws::constants_are_those_of_the_definitions();
    match name_of(alloc, stored)? {
        Some(name) => Ok(!name.is_empty() && name.len() <= NAME_MAX),
        None => Ok(false),
    }
}

/// Whether a set can hold the value.
fn is_set_value(value: &[u8]) -> bool
    ensures { result ≡ is_set_value value.now }
{
    vars_laws::constants_are_those_of_the_definitions();
    !value.is_empty() && value.len() <= DATA_MAX
}

/// The variables of the standard's vendor among those that are there, as a set.
pub(crate) fn vars_of(alloc: Global, present: &Present<'_>) -> Result<Vars, AllocError>
    requires { AreKeyed present.now }
    ensures { IfOk result (λ vars. AreWhole present.now → (name : List ℕ) → IsName name →
        map.get vars name ≡ set_data (record_under present.now (global_key name))) }
{
    let mut vars = Vars::new(alloc);
    for record in present.values() {
        put_record(alloc, &mut vars, record)?;
    }
    Ok(vars)
}

/// Puts the record's variable into the set, if it is of the standard's vendor, and the set can hold it.
fn put_record(alloc: Global, vars: &mut Vars, record: &Record<'_>) -> Result<(), AllocError>
    ensures { OnOk result (IsRecord (record_parts «record».now) →
        PutsRecord vars.old vars.new (record_parts «record».now) (record_parts «record».now).value) }
{
    if record.vendor() != GLOBAL_VENDOR.0.as_slice() {
        return Ok(());
    }
    put(alloc, vars, record.name, record.value)
}

/// The attributes of the variables that [`vars_of`] has, as a set.
fn attributes_of(alloc: Global, present: &Present<'_>) -> Result<Vars, AllocError>
    requires { AreKeyed present.now }
    ensures { IfOk result (λ vars. AreWhole present.now → (name : List ℕ) → IsName name →
        map.get vars name ≡ set_attributes (record_under present.now (global_key name))) }
{
    let mut vars = Vars::new(alloc);
    for record in present.values() {
        put_attributes(alloc, &mut vars, record)?;
    }
    Ok(vars)
}

/// Puts the attributes of the record's variable into the set, if it is of the standard's vendor, and a set can hold it.
fn put_attributes(alloc: Global, vars: &mut Vars, record: &Record<'_>) -> Result<(), AllocError>
    ensures { OnOk result (IsRecord (record_parts «record».now) →
        PutsRecord vars.old vars.new (record_parts «record».now) (attribute_bytes (record_parts «record».now).header)) }
{
    if record.vendor() != GLOBAL_VENDOR.0.as_slice() {
        return Ok(());
    }
    if record.header.len() != HEADER_LEN || !is_set_value(record.value) {
        return Ok(());
    }
    put(alloc, vars, record.name, &record.attributes())
}

/// Puts the variable of this stored name into the set, if the set can hold it.
fn put(alloc: Global, vars: &mut Vars, stored: &[u8], value: &[u8]) -> Result<(), AllocError>
    ensures { OnOk result (PutsStored vars.old vars.new stored.now value.now) }
{
    let Some(name) = name_of(alloc, stored)? else {
        return Ok(());
    };
    unless_no_memory(vars.put(&name, value))
}

/// Whatever came of a put, unless memory was refused for it.
fn unless_no_memory(outcome: Result<(), PutFault>) -> Result<(), AllocError>
    ensures { OnOk result (outcome ≢ Err PutFault.OutOfMemory) }
{
    match outcome {
        Err(PutFault::OutOfMemory) => Err(AllocError),
        Ok(()) | Err(PutFault::BadName | PutFault::EmptyData | PutFault::DataTooLong) => Ok(()),
    }
}

/// The name that is stored so, as CHAR16 units of two bytes with a zero unit after them: `None` if there is none, or one of
/// its characters isn't from 0x21 to 0x7E.
pub(crate) fn name_of(alloc: Global, stored: &[u8]) -> Result<Option<String>, AllocError>
    ensures { IfOk result (λ name. option_map (λ text. string_bytes text) name ≡ name_in stored.now) }
{
    let mut name = String::new(alloc);
    let mut rest = stored;
    while let Some(([low, high], after)) = rest.split_first_chunk::<2>()
        && *high == 0
        && low.is_ascii_graphic()
    {
        name.push(char::from(*low))?;
        rest = after;
    }
    match rest {
        [0, 0] => Ok(Some(name)),
        _ => Ok(None),
    }
}
