//! Records of changes, made of their parts.

ghost use Rattle.std.specs.Prelude.{◌≢◌, IfOk, IfErr};
ghost use Rattle.bootkeep_c.specs.declared.failure.Failure.{Failure};
ghost use Rattle.bootkeep_c.specs.Answers.{Answers};
ghost use Rattle.bootkeep_c.specs.Records.{IsRecordMade, IsUnmade};

use crate::answer::answer;
use crate::command_line::command_words;
use crate::failure::Failure;
use crate::refusal::Refusal;
use crate::session_begin::machine_name;
use change_records::{Record, write_record};
use std::alloc::Global;
use uefi_vars::read_set;

/// The record of a change of a machine's boot variables (UEFI 2.10, 3.3), from what the machine kept before it to what it
/// keeps after it.
#[unsafe(no_mangle)]
pub extern "C" fn bootkeep_record_make(
    alloc: Global,
    machine: &[u8],
    time: u64,
    before: &[u8],
    after: &[u8],
    words: &[u8],
    out: &mut [u8],
    len: &mut usize,
    refusal: &mut Refusal,
) -> u32
    ensures { Answers (IsRecordMade machine.now time before.now after.now words.now)
        (IsUnmade machine.now time before.now after.now words.now)
        result out.old out.new len.old len.new refusal.old refusal.new }
{
    let made = record_bytes(alloc, machine, time, before, after, words);
    answer(made, out, len, refusal)
}

/// The bytes of the record of these parts.
fn record_bytes(
    alloc: Global,
    machine: &[u8],
    time: u64,
    before: &[u8],
    after: &[u8],
    words: &[u8],
) -> Result<Vec<u8>, Failure>
    ensures made { IfOk result (λ bytes. IsRecordMade machine.now time before.now after.now words.now bytes.items) }
    ensures fault { IfErr result (λ failed. failed ≢ Failure.Memory →
        IsUnmade machine.now time before.now after.now words.now failed) }
{
    let machine = machine_name(alloc, machine)?;
    let words = command_words(alloc, words)?;
    let before = read_set(alloc, before)?;
    let after = read_set(alloc, after)?;
    let change = Record::new(alloc, machine, time, words, &before, &after)?;
    Ok(write_record(alloc, &change)?)
}
