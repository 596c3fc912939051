//! Records to bytes.

ghost use Rattle.std.specs.Prelude.{◌≡◌, ◌++◌, IfOk, IfErr, OnOk, map};
ghost use Rattle.std.specs.List.{AllByRecursion};
ghost use Rattle.std.specs.String.{string_bytes};
ghost use Rattle.change_records.specs.Fields.{IsShort, fields_bytes};
ghost use Rattle.change_records.specs.Record.{record_parts, record_fields, SpellsRecord};
ghost use Rattle.change_records.specs.declared.fault.WriteFault.TheVariants as fault;

use crate::fault::WriteFault;
use crate::fields::{MAGIC, append_field};
use crate::record::Record;
use std::alloc::Global;
use uefi_vars::write_set;

/// Appends a field for each word.
fn append_words(words: &[String], out: &mut Vec<u8>) -> Result<(), WriteFault>
    ensures written { OnOk result (out.new.items ≡ out.old.items ++ fields_bytes (map string_bytes words.now)) }
    ensures short { OnOk result (AllByRecursion IsShort (map string_bytes words.now)) }
    ensures fault { IfErr result (λ f. f ≡ fault.TooLong → ¬ AllByRecursion IsShort (map string_bytes words.now)) }
{
    for word in words {
        append_field(word.as_bytes(), out)?;
    }
    Ok(())
}

/// The file of a record, its one spelling, in this crate's own format: the four bytes `BKH1`, and then fields, each with
/// its length in four bytes, little-endian, before its bytes. They are the machine's name, the time in eight bytes,
/// little-endian, the set file of the variables before the change, as [`write_set`] gives it, that of those after it, and
/// each word of the command.
///
/// # Errors
///
/// [`WriteFault::TooLong`] if a field has 2^32 bytes or more, and [`WriteFault::OutOfMemory`] if memory was refused.
pub fn write_record(alloc: Global, record: &Record) -> Result<Vec<u8>, WriteFault>
    ensures written { IfOk result (λ out. SpellsRecord out.items (record_parts «record».now)) }
    ensures fault { IfErr result (λ f. f ≡ fault.TooLong → ¬ AllByRecursion IsShort (record_fields (record_parts «record».now))) }
{
    let mut out = Vec::new(alloc);
    out.extend_from_slice(&MAGIC)?;
    append_field(record.machine.as_bytes(), &mut out)?;
    append_field(&record.time.to_le_bytes(), &mut out)?;
    append_field(&write_set(alloc, &record.before)?, &mut out)?;
    append_field(&write_set(alloc, &record.after)?, &mut out)?;
    append_words(&record.words, &mut out)?;
    Ok(out)
}
