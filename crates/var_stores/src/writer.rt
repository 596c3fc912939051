//! Stores whose boot variables are to be those of a set.

ghost use Rattle.std.specs.Prelude.{◌≡◌, ◌≢◌, ◌<◌, ◌^◌, ◌∷◌, ◌++◌, ℕ, List, length, drop, map, true, false, Ok, Err, MatchOption, IfSome, IfOk, IfErr, OnOk};
ghost use Rattle.std.specs.List.{flat_map};
ghost use Rattle.std.specs.Option.{option_map};
ghost use Rattle.std.proofs.Math.ListN.{replicate};
ghost use Rattle.std.specs.BTreeMap.{IsOrdered, values};
ghost use Rattle.std.specs.FinMap as map;
ghost use Rattle.uefi_vars.specs.Name.{IsName};
ghost use Rattle.uefi_vars.specs.Vars.{name_cmp, IsData, IsVars};
ghost use Rattle.uefi_path.specs.Answer.{IsUnless};
ghost use Rattle.var_stores.specs.declared.fault.StoreFault.{StoreFault};
ghost use Rattle.var_stores.specs.declared.write_fault.WriteFault.{WriteFault};
ghost use Rattle.var_stores.specs.Record.{record_parts, record_bytes, padding_len};
ghost use Rattle.var_stores.specs.Volume.{IsStoreFault};
ghost use Rattle.var_stores.specs.Present.{stored_name, global_key};
ghost use Rattle.var_stores.specs.PresentMap.{record_under, AreWhole};
ghost use Rattle.var_stores.specs.Rewriting.{is_rewritten, is_outdated, without_outdated, unchanged, attributes_there, given_attributes, new_attributes, header_of, new_record, added, Fits, IsWritten, IsWriteFault};

use crate::present::{Present, present};
use crate::record::{ADDED, BLANK as BLANK_NUMBER, Record, begins_record, padding_len};
use crate::store::read_store;
use crate::stored_vars::{is_global, name_of, vars_of};
use crate::write_fault::WriteFault;
use std::alloc::{AllocError, Global};
use uefi_vars::{BOOT_ATTRIBUTES, GLOBAL_VENDOR, Vars, is_boot_name};

/// The bits of a state that stay if the variable is deleted.
const DELETED: u8 = 0xFD;

/// What memory that wasn't written reads as.
const BLANK: u8 = 0xFF;

/// The bytes of an emulator's variable file once Boot####, BootOrder, BootNext and Timeout are those of the set `to`: the
/// others of its variables stay, and so do the bytes before and after the store. Variables of other names in the set are left alone.
/// So is one of the boot manager's that no set can hold ([`left_out`](crate::left_out) tells it), if `to` has none
/// of that name: its record stays as it is.
///
/// The records of a variable that changes are marked as deleted, each whose state is 0x3F or 0x3E, so that none of them
/// comes back. Those of one that doesn't change stay as they are, of whatever state. New records are written after the last
/// one, each with a count, a time and a key's index of zero. The attributes of a new record are the first four bytes of
/// what the set `attributes` has under the variable's name, the lowest first (UEFI 2.10, 8.2); or else those of the record
/// that it replaces; or else [`BOOT_ATTRIBUTES`]. Nothing is taken from `attributes` that has fewer than four bytes, or
/// whose first four are all 0xFF, as those of a header that wasn't written.
///
/// If there is no room, or a record would seem to begin with the free bytes that are left, the records that are there and
/// stay are moved together first: of each variable the one that is there, and none that is deleted, that wasn't written to
/// its end, or in whose place another is there.
///
/// # Errors
///
/// [`WriteFault::Store`] with the fault of [`read_store`] if the file isn't an emulator's variable file;
/// [`WriteFault::Full`] if the records have no room in the store; [`WriteFault::OutOfMemory`] if memory was refused.
pub fn write_boot_vars(
    alloc: Global,
    file: &[u8],
    to: &Vars,
    attributes: &Vars,
) -> Result<Vec<u8>, WriteFault>
    ensures written { IfOk result (λ bytes. IsWritten file.now to.now attributes.now bytes.items) }
    ensures fault { IfErr result (IsWriteFault file.now to.now attributes.now) }
    ensures only_fault { (fault : StoreFault) → fault ≢ StoreFault.OutOfMemory → IsStoreFault file.now fault →
        IsUnless result (Err (WriteFault.Store fault)) WriteFault.OutOfMemory }
{
    let store = read_store(alloc, file)?;
    let present = present(alloc, &store.records)?;
    let from = vars_of(alloc, &present)?;
    let added = added(alloc, &present, &from, to, attributes)?;
    let mut bytes = Vec::from_slice(alloc, store.head)?;
    match free_after(store.free, &added) {
        Some(free) => append_all(&mut bytes, &store.records, &from, to, &added, free)?,
        None => {
            let end = file.len() - store.rest.len();
            if !append_moved(&mut bytes, &present, &from, to, &added, end)? {
                return Err(WriteFault::Full);
            }
        }
    }
    bytes.extend_from_slice(store.rest)?;
    Ok(bytes)
}

/// Appends the records in their places, the new ones after them, and the free bytes that are left.
fn append_all(
    bytes: &mut Vec<u8>,
    records: &[Record<'_>],
    from: &Vars,
    to: &Vars,
    added: &[u8],
    free: &[u8],
) -> Result<(), AllocError>
    ensures { OnOk result (bytes.new.items ≡ bytes.old.items
        ++ ((flat_map record_bytes (without_outdated from.now to.now (map record_parts records.now)) ++ added.now) ++ free.now)) }
{
    append_records(bytes, records, from, to)?;
    bytes.extend_from_slice(added)?;
    bytes.extend_from_slice(free)?;
    Ok(())
}

/// Appends the records of the variables that are there and don't change, the new ones after them, and what memory that
/// wasn't written reads as up to this length. Whether there is room for them.
fn append_moved(
    bytes: &mut Vec<u8>,
    present: &Present<'_>,
    from: &Vars,
    to: &Vars,
    added: &[u8],
    end: usize,
) -> Result<bool, AllocError>
    ensures ordered { IsOrdered (λ x y. name_cmp x.items y.items) present.now }
    ensures moved { result ≡ Ok true → (left : ℕ) × (bytes.new.items ≡ bytes.old.items
        ++ ((flat_map record_bytes (unchanged from.now to.now (map record_parts (values present.now))) ++ added.now) ++ replicate left 0xFF))
        × (length bytes.new.items ≡ end) }
    ensures full { result ≡ Ok false → end < length (bytes.old.items
        ++ (flat_map record_bytes (unchanged from.now to.now (map record_parts (values present.now))) ++ added.now)) }
{
    append_kept(bytes, present, from, to)?;
    bytes.extend_from_slice(added)?;
    if bytes.len() > end {
        return Ok(false);
    }
    bytes.resize(end, BLANK)?;
    Ok(true)
}

/// What is left of the free bytes after the new ones: `None` if there are too few of them, or a record seems to begin with
/// what is left.
fn free_after<'a>(free: &'a [u8], added: &[u8]) -> Option<&'a [u8]>
    ensures { MatchOption result (Fits added.now free.now → ⊥)
        (λ left. Fits added.now free.now × (left.now ≡ drop (length added.now) free.now)) }
{
    if added.len() > free.len() {
        return None;
    }
    let left = &free[added.len()..];
    if begins_record(left) {
        return None;
    }
    Some(left)
}

/// Appends the records, of which those of variables that change are deleted.
fn append_records(
    bytes: &mut Vec<u8>,
    records: &[Record<'_>],
    from: &Vars,
    to: &Vars,
) -> Result<(), AllocError>
    ensures { OnOk result (bytes.new.items
        ≡ bytes.old.items ++ flat_map record_bytes (without_outdated from.now to.now (map record_parts records.now))) }
{
    for record in records {
        let state = if is_outdated(*bytes.allocator(), record, from, to)? {
            record.state & DELETED
        } else {
            record.state
        };
        append_record(bytes, &Record { state, ..*record })?;
    }
    Ok(())
}

/// Appends the records of the variables that are there and don't change.
fn append_kept(
    bytes: &mut Vec<u8>,
    present: &Present<'_>,
    from: &Vars,
    to: &Vars,
) -> Result<(), AllocError>
    ensures ordered { IsOrdered (λ x y. name_cmp x.items y.items) present.now }
    ensures bytes { OnOk result (bytes.new.items ≡ bytes.old.items ++ flat_map record_bytes
        (unchanged from.now to.now (map record_parts (values present.now)))) }
{
    for record in present.values() {
        if !is_outdated(*bytes.allocator(), record, from, to)? {
            append_record(bytes, record)?;
        }
    }
    Ok(())
}

/// Appends the bytes of the record.
fn append_record(bytes: &mut Vec<u8>, record: &Record<'_>) -> Result<(), AllocError>
    ensures { OnOk result (bytes.new.items ≡ bytes.old.items ++ record_bytes (record_parts «record».now)) }
{
    bytes.extend_from_slice(&[0xAA, 0x55, record.state])?;
    bytes.extend_from_slice(record.header)?;
    bytes.extend_from_slice(record.name)?;
    bytes.extend_from_slice(record.value)?;
    bytes.extend_from_slice(record.padding)?;
    Ok(())
}

/// The bytes of a new record for each variable that changes and is in the set.
fn added(
    alloc: Global,
    present: &Present<'_>,
    from: &Vars,
    to: &Vars,
    attributes: &Vars,
) -> Result<Vec<u8>, AllocError>
    requires { AreWhole present.now }
    ensures bytes { IfOk result (λ bytes. bytes.items ≡ flat_map record_bytes (added from.now to.now
        (λ name. new_attributes (map.get attributes.now name) (record_under present.now (global_key name))) (map.entries to.now))) }
    ensures valid { IfOk result (λ _. IsVars to.now) }
{
    let mut bytes = Vec::new(alloc);
    for (name, value) in to.iter() {
        if is_rewritten(from, to, name) {
            append_new(&mut bytes, present, attributes, name, value)?;
        }
    }
    Ok(bytes)
}

/// Appends a new record of the standard's variable of this name, with the attributes that are given, or else those of the
/// one that is there.
fn append_new(
    bytes: &mut Vec<u8>,
    present: &Present<'_>,
    attributes: &Vars,
    name: &str,
    value: &[u8],
) -> Result<(), AllocError>
    requires whole { AreWhole present.now }
    requires name { IsName name.now }
    requires value { IsData value.now }
    ensures { OnOk result (bytes.new.items ≡ bytes.old.items ++ record_bytes (new_record
        (new_attributes (map.get attributes.now name.now) (record_under present.now (global_key name.now))) name.now value.now)) }
{
    let mut key = Vec::from_slice(*bytes.allocator(), &GLOBAL_VENDOR.0)?;
    append_name(&mut key, name)?;
    let attributes = new_attributes(attributes.get(name), present, &key);
    append_head(bytes, attributes, 2 * name.len() + 2, value.len())?;
    append_name(bytes, name)?;
    bytes.extend_from_slice(value)?;
    append_padding(bytes, 2 * name.len() + 2 + value.len())
}

/// The bytes of the attributes of a new record: those that are given, or else those of the record under this key.
fn new_attributes(given: Option<&[u8]>, present: &Present<'_>, key: &[u8]) -> [u8; 4]
    requires { AreWhole present.now }
    ensures { result ≡ new_attributes (option_map (λ bytes. bytes.now) given.entry) (record_under present.now key.now) }
{
    match given_attributes(given) {
        Some(attributes) => attributes,
        None => attributes_there(present, key),
    }
}

/// The first four of the bytes that are given: `None` if there are fewer, or these are what memory that wasn't written reads
/// as.
fn given_attributes(given: Option<&[u8]>) -> Option<[u8; 4]>
    ensures { result ≡ given_attributes (option_map (λ bytes. bytes.now) given.entry) }
{
    let (attributes, _more) = given?.split_first_chunk::<4>()?;
    if u32::from_le_bytes(*attributes) == BLANK_NUMBER {
        return None;
    }
    Some(*attributes)
}

/// The bytes of the attributes of the record under this key, or those of a new variable if there is none.
fn attributes_there(present: &Present<'_>, key: &[u8]) -> [u8; 4]
    requires { AreWhole present.now }
    ensures { result ≡ attributes_there (record_under present.now key.now) }
{
    match present.get(key) {
        Some(record) => record.attributes(),
        None => BOOT_ATTRIBUTES,
    }
}

/// Appends the start and the header of a new record of the standard's vendor.
fn append_head(
    bytes: &mut Vec<u8>,
    attributes: [u8; 4],
    name_size: usize,
    value_size: usize,
) -> Result<(), AllocError>
    requires name { name_size < 2 ^ 32 }
    requires value { value_size < 2 ^ 32 }
    ensures { OnOk result (bytes.new.items
        ≡ bytes.old.items ++ (0xAA ∷ 0x55 ∷ 0x3F ∷ header_of attributes name_size value_size)) }
{
    bytes.extend_from_slice(&[0xAA, 0x55, ADDED, 0])?;
    bytes.extend_from_slice(&attributes)?;
    bytes.extend_from_slice(&[0; 28])?;
    bytes.extend_from_slice(&(name_size as u32).to_le_bytes())?;
    bytes.extend_from_slice(&(value_size as u32).to_le_bytes())?;
    bytes.extend_from_slice(&GLOBAL_VENDOR.0)?;
    Ok(())
}

/// Appends what follows so many bytes of a name and a value up to a multiple of four.
fn append_padding(bytes: &mut Vec<u8>, len: usize) -> Result<(), AllocError>
    ensures { OnOk result (bytes.new.items ≡ bytes.old.items ++ replicate (padding_len len) 0xFF) }
{
    for _ in 0..padding_len(len) {
        bytes.push(BLANK)?;
    }
    Ok(())
}

/// Appends the name as it is stored.
pub(crate) fn append_name(bytes: &mut Vec<u8>, name: &str) -> Result<(), AllocError>
    ensures { OnOk result (bytes.new.items ≡ bytes.old.items ++ stored_name name.now) }
{
    for byte in name.as_bytes() {
        bytes.extend_from_slice(&[*byte, 0])?;
    }
    bytes.extend_from_slice(&[0, 0])?;
    Ok(())
}

/// Whether the record is one of a variable that changes.
fn is_outdated(
    alloc: Global,
    record: &Record<'_>,
    from: &Vars,
    to: &Vars,
) -> Result<bool, AllocError>
    ensures { IfOk result (λ outdated. outdated ≡ is_outdated from.now to.now (record_parts «record».now)) }
{
    if !record.is_alive() {
        return Ok(false);
    }
    if !is_global(record) {
        return Ok(false);
    }
    match name_of(alloc, record.name)? {
        Some(name) => Ok(is_rewritten(from, to, &name)),
        None => Ok(false),
    }
}

/// Whether the variable of this name is one of the boot manager's, and the two sets differ under it.
fn is_rewritten(from: &Vars, to: &Vars, name: &str) -> bool
    ensures { result ≡ is_rewritten from.now to.now name.now }
{
    is_boot_name(name) && from.get(name) != to.get(name)
}
