//! The value of one variable of a store.

ghost use Rattle.std.specs.Prelude.{◌≡◌, map, IfOk};
ghost use Rattle.std.specs.Option.{option_map};
ghost use Rattle.var_stores.specs.Record.{record_parts};
ghost use Rattle.var_stores.specs.Present.{value_there};
ghost use Rattle.var_stores.specs.PresentMap.{record_under};

use crate::present::{Present, present};
use crate::store::VariableStore;
use crate::writer::append_name;
use std::alloc::{AllocError, Global};
use uefi_path::Guid;

/// The value of the variable of a store that has this name and this vendor's GUID (UEFI 2.10, 8.2), in as many bytes as
/// the store has of it, also none: `None` if no such variable is there. Which record is there is as for
/// [`store_vars`](crate::store_vars). A value is lent from the bytes of the store. Times and keys are in the headers of
/// records, so of an authenticated variable, as db, the value is its data alone.
///
/// The name is ASCII: each of its bytes is one character.
///
/// # Errors
///
/// [`AllocError`] if memory was refused.
pub fn stored_value<'a>(
    alloc: Global,
    store: &VariableStore<'a>,
    vendor: &Guid,
    name: &str,
) -> Result<Option<&'a [u8]>, AllocError>
    ensures { IfOk result (λ value. option_map (λ bytes. bytes.now) value
        ≡ value_there vendor.now.0 name.now (map record_parts store.now.records.items)) }
{
    let mut key = Vec::from_slice(alloc, &vendor.0)?;
    append_name(&mut key, name)?;
    let present = present(alloc, &store.records)?;
    Ok(value_under(&present, &key))
}

/// The value of the record under this key, if there is one.
fn value_under<'a>(present: &Present<'a>, key: &[u8]) -> Option<&'a [u8]>
    ensures { option_map (λ bytes. bytes.now) result ≡ option_map (λ r. r.value) (record_under present.now key.now) }
{
    match present.get(key) {
        Some(record) => Some(record.value),
        None => None,
    }
}
