//! How a change stands that was recorded, and what undoes it.

ghost use Rattle.std.specs.Prelude.{◌≡◌, ◌≢◌, IfOk, IfErr};
ghost use Rattle.uefi_vars.specs.Set.{SpellsSet};
ghost use Rattle.change_records.specs.Record.{RecordParts, SpellsRecord, record_parts};
ghost use Rattle.change_records.specs.Timeout.{with_timeout_of};
ghost use Rattle.bootkeep_c.specs.declared.failure.Failure.{Failure};
ghost use Rattle.bootkeep_c.specs.Answers.{Answers, TellsValue};
ghost use Rattle.bootkeep_c.specs.Records.{IsUncompared, IsStandingIn, IsBackIn, standing_number};

use crate::answer::{answer, tell};
use crate::failure::Failure;
use crate::refusal::Refusal;
use change_records::{Record, Standing, read_record, standing_of, wanted_back};
use std::alloc::Global;
use uefi_vars::{Vars, read_set, write_set};

/// The boot manager's variables are those after the change.
pub const STANDING_UNCHANGED: u32 = 0;

/// They are those before it, and not those after it.
pub const STANDING_NOT_MADE: u32 = 1;

/// They are neither.
pub const STANDING_CHANGED: u32 = 2;

/// What the boot manager's variables of a machine (UEFI 2.10, 3.3) are now, beside a record of a change of it.
#[unsafe(no_mangle)]
pub extern "C" fn bootkeep_record_standing(
    alloc: Global,
    bytes: &[u8],
    set: &[u8],
    standing: &mut u32,
    refusal: &mut Refusal,
) -> u32
    ensures { TellsValue (IsStandingIn bytes.now set.now) (IsUncompared bytes.now set.now)
        result standing.old standing.new refusal.old refusal.new }
{
    tell(standing_in(alloc, bytes, set), standing, refusal)
}

/// The number of how the change of a record stands, where the variables of this set are.
fn standing_in(alloc: Global, bytes: &[u8], set: &[u8]) -> Result<u32, Failure>
    ensures found { IfOk result (λ told. IsStandingIn bytes.now set.now told) }
    ensures fault { IfErr result (λ failed. failed ≢ Failure.Memory → IsUncompared bytes.now set.now failed) }
{
    let (change, now) = read_both(alloc, bytes, set)?;
    Ok(standing_number(standing_of(alloc, &change, &now)?))
}

/// The number of how a change stands.
fn standing_number(standing: Standing) -> u32
    ensures { result ≡ standing_number standing }
{
    match standing {
        Standing::Unchanged => STANDING_UNCHANGED,
        Standing::NotMade => STANDING_NOT_MADE,
        Standing::Changed => STANDING_CHANGED,
    }
}

/// The set that undoes the change of a record of a machine, which has these variables now.
#[unsafe(no_mangle)]
pub extern "C" fn bootkeep_record_back(
    alloc: Global,
    bytes: &[u8],
    set: &[u8],
    out: &mut [u8],
    len: &mut usize,
    refusal: &mut Refusal,
) -> u32
    ensures { Answers (IsBackIn bytes.now set.now) (IsUncompared bytes.now set.now)
        result out.old out.new len.old len.new refusal.old refusal.new }
{
    let made = back_in(alloc, bytes, set);
    answer(made, out, len, refusal)
}

/// The bytes of the set that undoes the change of a record, where the variables of this set are.
fn back_in(alloc: Global, bytes: &[u8], set: &[u8]) -> Result<Vec<u8>, Failure>
    ensures made { IfOk result (λ back. IsBackIn bytes.now set.now back.items) }
    ensures fault { IfErr result (λ failed. failed ≢ Failure.Memory → IsUncompared bytes.now set.now failed) }
{
    let (change, now) = read_both(alloc, bytes, set)?;
    let wanted = wanted_back(alloc, &change, &now)?;
    Ok(write_set(alloc, &wanted)?)
}

/// The record of these bytes beside the variables of this set, whose Timeout it has if it says nothing of that.
fn read_both(alloc: Global, bytes: &[u8], set: &[u8]) -> Result<(Record, Vars), Failure>
    ensures found { IfOk result (λ both. (r : RecordParts) × SpellsRecord bytes.now r × SpellsSet set.now both.1
        × (record_parts both.0 ≡ with_timeout_of both.1 r)) }
    ensures fault { IfErr result (λ failed. failed ≢ Failure.Memory → IsUncompared bytes.now set.now failed) }
{
    let change = read_record(alloc, bytes)?;
    let now = read_set(alloc, set)?;
    let change = change.with_timeout_of(&now)?;
    Ok((change, now))
}
