//! Which records are the variables that are there.

ghost use Rattle.std.specs.Prelude.{◌≡◌, ℕ, List, map, IfOk, OnOk};
ghost use Rattle.var_stores.specs.Record.{record_parts};
ghost use Rattle.var_stores.specs.Present.{found, found_with};
ghost use Rattle.var_stores.specs.PresentMap.{record_under, AreKeyed};

use crate::record::Record;
use std::alloc::{AllocError, Global};
use std::collections::BTreeMap;

/// The records of the variables that are there, each under the vendor's GUID and the name, both as they are stored.
pub(crate) type Present<'a> = BTreeMap<Vec<u8>, Record<'a>>;

/// The records that are there: of each variable the first that was added, or else the last that is being replaced.
pub(crate) fn present<'a>(alloc: Global, records: &[Record<'a>]) -> Result<Present<'a>, AllocError>
    ensures keyed { IfOk result AreKeyed }
    ensures there { IfOk result (λ present. (key : List ℕ) →
        record_under present key ≡ found key (map record_parts records.now)) }
{
    let mut present = BTreeMap::new(alloc);
    for record in records {
        add(alloc, &mut present, record)?;
    }
    Ok(present)
}

/// Adds the record, if it is of a variable that is there, and none that was added is under its key.
fn add<'a>(alloc: Global, present: &mut Present<'a>, record: &Record<'a>) -> Result<(), AllocError>
    ensures { OnOk result ((key : List ℕ) →
        record_under present.new key ≡ found_with key (record_under present.old key) (record_parts «record».now)) }
{
    if !record.is_alive() {
        return Ok(());
    }
    let key = record.key(alloc)?;
    match present.get(key.as_slice()) {
        Some(found) if found.is_added() => Ok(()),
        _ => {
            present.insert(key, *record)?;
            Ok(())
        }
    }
}
