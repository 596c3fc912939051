//! Bytes to records.

ghost use Rattle.std.specs.Prelude.{◌≡◌, ◌≢◌, Err, IfOk, IfErr, IsUtf8, MatchResult, length, map};
ghost use Rattle.std.specs.Int.{w64, to_le_bytes};
ghost use Rattle.std.specs.List.{AllByRecursion};
ghost use Rattle.std.specs.String.{string_bytes};
ghost use Rattle.uefi_vars.specs.Set.{SpellsSet};
ghost use Rattle.uefi_vars.specs.Fault.{IsFirstFault};
ghost use Rattle.machine_names.specs.MachineName.{IsMachineName};
ghost use Rattle.change_records.specs.Fields.{HasNoMagic};
ghost use Rattle.change_records.specs.Record.{RecordParts, record_parts, record_fields, IsRecord, SpellsRecord};
ghost use Rattle.change_records.specs.Fault.{IsSetFault, IsWordFault, IsFieldsFault, IsRecordFault};
ghost use Rattle.change_records.specs.declared.fault.RecordFault.TheVariants as fault;

use crate::fault::RecordFault;
use crate::fields::read_fields;
use crate::laws;
use crate::record::Record;
use machine_names::MachineName;
use std::alloc::Global;
use uefi_vars::{SetFault, Vars, read_set};

/// The machine's name that a field is.
fn machine_of(alloc: Global, field: &[u8]) -> Result<MachineName, RecordFault>
    ensures found { IfOk result (λ name. name ≡ field.now) }
    ensures valid { IfOk result (λ name. IsMachineName field.now) }
    ensures fault { IfErr result (λ f. f ≢ fault.OutOfMemory → (f ≡ fault.BadMachine) × (¬ IsMachineName field.now)) }
{
    match MachineName::new(Vec::from_slice(alloc, field)?) {
        Some(name) => Ok(name),
        None => Err(RecordFault::BadMachine),
    }
}

/// The time that a field is.
fn time_of(field: &[u8]) -> Result<u64, RecordFault>
    ensures found { IfOk result (λ time. to_le_bytes w64 time ≡ field.now) }
    ensures fault { IfErr result (λ f. (f ≡ fault.BadTime) × (length field.now ≢ 8)) }
{
    match field {
        [a, b, c, d, e, f, g, h] => { Ok(u64::from_le_bytes([*a, *b, *c, *d, *e, *f, *g, *h])) }
        _ => Err(RecordFault::BadTime),
    }
}

/// The variables before a change, of which a field is the set file.
fn before_of(alloc: Global, field: &[u8]) -> Result<Vars, RecordFault>
    ensures found { IfOk result (λ vars. SpellsSet field.now vars) }
    ensures fault { IfErr result (λ f. f ≢ fault.OutOfMemory → IsSetFault fault.BadBefore field.now f) }
{
    match read_set(alloc, field) {
        Ok(vars) => Ok(vars),
        Err(SetFault::OutOfMemory) => Err(RecordFault::OutOfMemory),
        Err(fault) => Err(RecordFault::BadBefore(fault)),
    }
}

/// The variables after a change, of which a field is the set file.
fn after_of(alloc: Global, field: &[u8]) -> Result<Vars, RecordFault>
    ensures found { IfOk result (λ vars. SpellsSet field.now vars) }
    ensures fault { IfErr result (λ f. f ≢ fault.OutOfMemory → IsSetFault fault.BadAfter field.now f) }
{
    match read_set(alloc, field) {
        Ok(vars) => Ok(vars),
        Err(SetFault::OutOfMemory) => Err(RecordFault::OutOfMemory),
        Err(fault) => Err(RecordFault::BadAfter(fault)),
    }
}

/// The words of a command that these fields are, each in UTF-8.
///
/// # Errors
///
/// [`RecordFault::BadWord`] with the index of the first field that isn't UTF-8, or out of memory.
pub fn words_of(alloc: Global, fields: &[&[u8]]) -> Result<Vec<String>, RecordFault>
    ensures found { IfOk result (λ words. map string_bytes words.items ≡ map (λ f. f.now) fields.now) }
    ensures valid { IfOk result (λ words. AllByRecursion IsUtf8 (map (λ f. f.now) fields.now)) }
    ensures fault { IfErr result (λ f. f ≢ fault.OutOfMemory → IsWordFault (map (λ f. f.now) fields.now) f) }
{
    let mut words = Vec::new(alloc);
    for (index, field) in fields.iter().enumerate() {
        let Ok(word) = str::from_utf8(field) else {
            return Err(RecordFault::BadWord(index));
        };
        words.push(String::from_str(alloc, word)?)?;
    }
    Ok(words)
}

/// The record that these fields are.
fn record_of(alloc: Global, fields: &[&[u8]]) -> Result<Record, RecordFault>
    ensures valid { IfOk result (λ r. IsRecord (record_parts r)) }
    ensures found { IfOk result (λ r. record_fields (record_parts r) ≡ map (λ f. f.now) fields.now) }
    ensures fault { IfErr result (λ f. f ≢ fault.OutOfMemory → IsFieldsFault (map (λ f. f.now) fields.now) f) }
{
    let [machine, time, before, after, words @ ..] = fields else {
        return Err(RecordFault::TooFewFields);
    };
    Ok(Record {
        machine: machine_of(alloc, machine)?,
        time: time_of(time)?,
        before: before_of(alloc, before)?,
        after: after_of(alloc, after)?,
        words: words_of(alloc, words)?,
    })
}

/// Reads a record from the bytes of its file, all of them. The file has this crate's own format, as
/// [`write_record`](crate::write_record) writes it. A length that the bytes state takes no more memory than there are bytes.
///
/// # Errors
///
/// The first of these faults. [`RecordFault::BadMagic`] if the file doesn't begin with `BKH1`. Then
/// [`RecordFault::Truncated`] if it ends in one of its fields, [`RecordFault::TooFewFields`] if it has fewer than four, and
/// for each field, in the order in which they are in the file: [`RecordFault::BadMachine`] if the first has no byte or more
/// than [`MACHINE_NAME_MAX`](machine_names::MACHINE_NAME_MAX), [`RecordFault::BadTime`] if the second doesn't have eight,
/// [`RecordFault::BadBefore`] and [`RecordFault::BadAfter`] if the third and the fourth are no set files, with the first
/// fault that these have, and [`RecordFault::BadWord`] if a further one isn't UTF-8. [`RecordFault::OutOfMemory`] comes if
/// memory was refused, also before another fault, and never if the file doesn't begin with `BKH1`.
pub fn read_record(alloc: Global, bytes: &[u8]) -> Result<Record, RecordFault>
    // What is read is spelled so.
    ensures found { IfOk result (λ r. SpellsRecord bytes.now (record_parts r)) }
    // What is spelled so is read.
    ensures only { (parts : RecordParts) → SpellsRecord bytes.now parts →
        MatchResult result (λ r. record_parts r ≡ parts) (λ f. f ≡ fault.OutOfMemory) }

    ensures fault { IfErr result (λ f. f ≢ fault.OutOfMemory → IsRecordFault bytes.now f) }
    // The magic is looked at before any memory is taken.
    ensures bad_magic { HasNoMagic bytes.now → result ≡ Err fault.BadMagic }
{
    laws::bytes_spell_one_record();
    laws::a_fault_leaves_no_record();
    let fields = read_fields(alloc, bytes)?;
    record_of(alloc, &fields)
}
