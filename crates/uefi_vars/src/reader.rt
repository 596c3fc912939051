//! Bytes to variables.

ghost use Rattle.std.specs.Prelude.{◌≡◌, ◌≢◌, ◌↔◌, ◌<◌, ◌≤◌, ◌^◌, ◌++◌, [], List, ℕ, length, drop, IfOk, IfErr, Ok, Err, IsTrue};
ghost use Rattle.std.specs.List.Sorted.{IsStrictlySortedBy};
ghost use Rattle.uefi_path.specs.Answer.{IsUnless};
ghost use Rattle.uefi_vars.specs.declared.fault.SetFault.{SetFault};
ghost use Rattle.uefi_vars.specs.Name.{IsName};
ghost use Rattle.uefi_vars.specs.Vars.{Variables, name_cmp};
ghost use Rattle.uefi_vars.specs.Set.{record_bytes, SpellsSet};
ghost use Rattle.uefi_vars.specs.Fault.{HasNoMagic, IsAbove, IsFirstFault};
ghost use Rattle.uefi_vars.specs.Records.{pair_of, pairs_of};
ghost use Rattle.uefi_vars.specs.Reader.{names_of, SplitsName, IsNameFault, SplitsData, IsDataFault, HasRecords, HasRecordsFault};

use crate::fault::SetFault;
use crate::laws;
use crate::name::{NAME_MAX, is_name, name_text};
use crate::named::Named;
use crate::shared::{Shared, SharedText};
use crate::vars::{DATA_MAX, Variable, Vars};
use crate::writer::{DATA_LEN_SIZE, NAME_LEN_SIZE, SET_MAGIC};
use std::alloc::{AllocError, Global};

/// The name at the start of a record, which is at this place, and the bytes after the name.
fn split_name(bytes: &[u8], place: usize) -> Result<(&str, &[u8]), SetFault>
    requires { bytes.now ≢ [] }
    ensures found { IfOk result (λ split. SplitsName bytes.now split.0.now split.1.now) }
    ensures fault { IfErr result (IsNameFault bytes.now place) }
{
    let Some((len, behind)) = bytes.split_first() else {
        unreachable!();
    };
    let len = usize::from(*len);
    if len == 0 || len > NAME_MAX {
        return Err(SetFault::BadName(place));
    }
    if len > behind.len() {
        return Err(SetFault::Truncated(place));
    }
    let (name, behind) = behind.split_at(len);
    if !is_name(name) {
        return Err(SetFault::BadName(place));
    }
    Ok((name_text(name), behind))
}

/// The data at the start of the bytes after a name, and the bytes after the data. The record is at this place.
fn split_data(bytes: &[u8], place: usize) -> Result<(&[u8], &[u8]), SetFault>
    ensures found { IfOk result (λ split. SplitsData bytes.now split.0.now split.1.now) }
    ensures fault { IfErr result (IsDataFault bytes.now place) }
{
    let [a, b, c, d, behind @ ..] = bytes else {
        return Err(SetFault::Truncated(place));
    };
    let len = u32::from_le_bytes([*a, *b, *c, *d]) as usize;
    if len == 0 || len > DATA_MAX {
        return Err(SetFault::BadData(place));
    }
    if len > behind.len() {
        return Err(SetFault::Truncated(place));
    }
    Ok(behind.split_at(len))
}

/// Whether the name is above those of these variables, which rise.
fn rises(variables: &[Variable], name: &str) -> bool
    requires { IsStrictlySortedBy name_cmp (names_of (pairs_of variables.now)) }
    ensures { IsTrue result ↔ IsAbove (names_of (pairs_of variables.now)) name.now }
{
    match variables.last() {
        Some(last) => last.name.as_str() < name,
        None => true,
    }
}

/// The variable of this name and this data, whose record is at this place of the file. It shares the file's bytes.
fn shared_variable(
    file: &Shared,
    place: usize,
    name: &str,
    value: &[u8],
) -> Result<Variable, AllocError>
    requires fits { length file.now < 2 ^ 64 }
    requires name { IsName name.now }
    requires record { (rest : List ℕ) × (drop place file.now ≡ record_bytes (name.now, value.now) ++ rest) }
    ensures { IfOk result (λ variable. pair_of variable ≡ (name.now, value.now)) }
{
    let name_start = place + NAME_LEN_SIZE;
    let value_start = name_start + name.len() + DATA_LEN_SIZE;
    Ok(Named {
        name: SharedText::from_utf8(file.part(name_start, name.len())?),
        kept: file.part(value_start, value.len())?,
    })
}

/// The variables whose records make up the file from this place on, one after the other. They share the file's bytes.
fn read_variables(alloc: Global, file: &Shared, start: usize) -> Result<Vec<Variable>, SetFault>
    requires { start ≤ length file.now }
    ensures found { IfOk result (λ variables.
        HasRecords (drop start file.now) (pairs_of variables.items) []) }
    ensures fault { IfErr result (λ fault.
        fault ≢ SetFault.OutOfMemory → HasRecordsFault (drop start file.now) start fault) }
{
    let bytes = file.as_slice();
    let mut variables = Vec::new(alloc);
    let mut rest = &bytes[start..];
    while !rest.is_empty() {
        let place = bytes.len() - rest.len();
        let (name, behind) = split_name(rest, place)?;
        if !rises(&variables, name) {
            return Err(SetFault::NotRising(place));
        }
        let (data, behind) = split_data(behind, place)?;
        variables.push(shared_variable(file, place, name, data)?)?;
        rest = behind;
    }
    Ok(variables)
}

/// Reads a set, and says of its answer what is found.
fn read_magic_and_variables(alloc: Global, bytes: &[u8]) -> Result<Vars, SetFault>
    ensures found { IfOk result (λ vars. SpellsSet bytes.now vars) }
    ensures fault { IfErr result (λ fault. fault ≢ SetFault.OutOfMemory → IsFirstFault bytes.now fault) }
    ensures bad_magic { HasNoMagic bytes.now → result ≡ Err (SetFault.BadMagic 0) }
{
    if !bytes.starts_with(&SET_MAGIC) {
        return Err(SetFault::BadMagic(0));
    }
    let file = Shared::from_slice(alloc, bytes)?;
    let variables = read_variables(alloc, &file, SET_MAGIC.len())?;
    Ok(Vars::from_variables(variables))
}

/// Reads the variables from the bytes of a set file, all of them. The file has this crate's own format, not one of the
/// standard's: the four bytes `BVS1` and, for each variable, in the rising order of the names' bytes, the length of its
/// name in one byte, its name, the length of its data in four bytes, little-endian, and its data. The bytes are copied
/// once, all together: the names and the data of the variables are parts of the copy, which stays in memory as long as
/// one of the variables, or a copy of one, is there.
///
/// # Errors
///
/// The first of these faults. [`SetFault::BadMagic`] if the file doesn't begin with `BVS1`. Then for each record, in
/// this order: [`SetFault::BadName`] if the name is to have no character or more than [`NAME_MAX`];
/// [`SetFault::Truncated`] if the file ends in it; [`SetFault::BadName`] if a character isn't from 0x21 to 0x7E;
/// [`SetFault::NotRising`] if the name isn't above the one before; [`SetFault::Truncated`] if the file ends in the
/// length of the data; [`SetFault::BadData`] if the data is to have no byte or more than [`DATA_MAX`];
/// [`SetFault::Truncated`] if the file ends in it. [`SetFault::OutOfMemory`] comes if memory was refused, also before a
/// fault of a record, and never if the file doesn't begin with `BVS1`.
pub fn read_set(alloc: Global, bytes: &[u8]) -> Result<Vars, SetFault>
    // What is read is spelled so.
    ensures found { IfOk result (λ vars. SpellsSet bytes.now vars) }
    // What is spelled so is read.
    ensures only { (vars : Variables) → SpellsSet bytes.now vars →
        IsUnless result (Ok vars) SetFault.OutOfMemory }

    ensures fault { IfErr result (λ fault.
        fault ≢ SetFault.OutOfMemory → IsFirstFault bytes.now fault) }
    ensures only_fault { (fault : SetFault) → IsFirstFault bytes.now fault →
        IsUnless result (Err fault) SetFault.OutOfMemory }
    // The magic is looked at before any memory is taken.
    ensures bad_magic { HasNoMagic bytes.now → result ≡ Err (SetFault.BadMagic 0) }
{
    laws::bytes_spell_one_set();
    laws::a_fault_leaves_no_set();
    laws::bytes_have_one_first_fault();
    read_magic_and_variables(alloc, bytes)
}
