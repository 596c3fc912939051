//! The fields of a record's file.

ghost use Rattle.std.specs.Prelude.{◌≡◌, ◌≢◌, ◌++◌, IfOk, IfErr, IfSome, None, Err, OnOk, map};
ghost use Rattle.uefi_vars.specs.Set.{data_bytes};
ghost use Rattle.change_records.specs.Fields.{IsShort, HasNoMagic, HasFields, IsCut, IsFileFault, SplitsField};
ghost use Rattle.change_records.specs.declared.fault.RecordFault.TheVariants as fault;
ghost use Rattle.change_records.specs.declared.fault.WriteFault.TheVariants as write_fault;

use crate::fault::{RecordFault, WriteFault};
use std::alloc::Global;

/// What the file begins with: `BKH1`.
pub(crate) const MAGIC: [u8; 4] = [0x42, 0x4B, 0x48, 0x31];

/// How many bytes of a field state its length.
pub(crate) const LEN_SIZE: usize = 4;

/// The field at the start of these bytes, and the bytes after it: `None` if they end in it.
pub(crate) fn split_field(bytes: &[u8]) -> Option<(&[u8], &[u8])>
    ensures found { IfSome result (λ split. SplitsField bytes.now split.0.now split.1.now) }
    ensures none { result ≡ None → IsCut bytes.now }
{
    let (len, behind) = bytes.split_first_chunk::<LEN_SIZE>()?;
    let len = u32::from_le_bytes(*len) as usize;
    if len > behind.len() {
        return None;
    }
    Some(behind.split_at(len))
}

/// The fields of a file with these bytes.
pub(crate) fn read_fields<'a>(alloc: Global, bytes: &'a [u8]) -> Result<Vec<&'a [u8]>, RecordFault>
    ensures found { IfOk result (λ fields. HasFields bytes.now (map (λ f. f.now) fields.items)) }
    ensures fault { IfErr result (λ f. f ≢ fault.OutOfMemory → IsFileFault bytes.now f) }
    ensures bad_magic { HasNoMagic bytes.now → result ≡ Err fault.BadMagic }
{
    if !bytes.starts_with(&MAGIC) {
        return Err(RecordFault::BadMagic);
    }
    let mut fields = Vec::new(alloc);
    let mut rest = &bytes[MAGIC.len()..];
    while !rest.is_empty() {
        let Some((field, behind)) = split_field(rest) else {
            return Err(RecordFault::Truncated(bytes.len() - rest.len()));
        };
        fields.push(field)?;
        rest = behind;
    }
    Ok(fields)
}

/// Appends a field.
pub(crate) fn append_field(field: &[u8], out: &mut Vec<u8>) -> Result<(), WriteFault>
    ensures written { OnOk result (out.new.items ≡ out.old.items ++ data_bytes field.now) }
    ensures short { OnOk result (IsShort field.now) }
    ensures fault { IfErr result (λ f. f ≡ write_fault.TooLong → ¬ IsShort field.now) }
{
    let Ok(len) = u32::try_from(field.len()) else {
        return Err(WriteFault::TooLong);
    };
    out.extend_from_slice(&len.to_le_bytes())?;
    out.extend_from_slice(field)?;
    Ok(())
}
