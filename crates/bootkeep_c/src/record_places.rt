//! Where the parts of a record are, and the words of its command.

ghost use Rattle.std.specs.Prelude.{◌≡◌, ◌≢◌, ◌<◌, ◌≤◌, IfOk, IfErr, IfSome, IfNone};
ghost use Rattle.bootkeep_c.specs.declared.failure.Failure.{Failure};
ghost use Rattle.bootkeep_c.specs.Status.{bad_size};
ghost use Rattle.bootkeep_c.specs.Answers.{Finds, TellsValue};
ghost use Rattle.bootkeep_c.specs.Records.{IsRecordFailure, TellsPlaces, IsWordIn, HasNoWord};

use crate::answer::{answer_found, tell};
use crate::failure::Failure;
use crate::refusal::Refusal;
use crate::status::BAD_SIZE;
use change_records::read_record;
use std::alloc::Global;
use uefi_vars::write_set;

/// How many bytes the struct of a record's places has.
const RECORD_LEN: usize = 72;

/// Where the name of the machine is: after the magic, and the four bytes of its length.
const MACHINE_AT: usize = 8;

/// How many bytes are between the name and the set before the change: the eight of the time, and the lengths of both.
const TIME_LEN: usize = 16;

/// How many bytes are between the two sets: the length of the second.
const LEN_LEN: usize = 4;

/// The parts of a record, and where those are that are bytes: `struct bootkeep_record_parts`.
#[repr(C)]
#[derive(Clone, Copy, Debug, PartialEq, Eq)]
pub struct RecordPlaces {
    /// How many bytes the caller's struct has.
    pub size: usize,
    /// Where the name of the machine is.
    pub machine: usize,
    /// How many bytes it has.
    pub machine_len: usize,
    /// When the change was made, in seconds since 1970-01-01T00:00:00Z.
    pub time: u64,
    /// Where the set before the change is.
    pub before: usize,
    /// How many bytes it has.
    pub before_len: usize,
    /// Where the set after the change is.
    pub after: usize,
    /// How many bytes it has.
    pub after_len: usize,
    /// How many words the command has.
    pub words: usize,
}

// As many bytes as the header asserts.
const _: () = prove!(size_of::<RecordPlaces>() == RECORD_LEN);

/// The parts of the record that the bytes are, all of them.
#[unsafe(no_mangle)]
pub extern "C" fn bootkeep_record_parts(
    alloc: Global,
    bytes: &[u8],
    parts: &mut RecordPlaces,
    refusal: &mut Refusal,
) -> u32
    ensures size { parts.old.size < 72 → (result ≡ bad_size) × (parts.new ≡ parts.old) × (refusal.new ≡ refusal.old) }
    ensures parts { 72 ≤ parts.old.size → TellsValue (TellsPlaces bytes.now parts.old.size) (IsRecordFailure bytes.now)
        result parts.old parts.new refusal.old refusal.new }
{
    if parts.size < RECORD_LEN {
        return BAD_SIZE;
    }
    tell(places_in(alloc, bytes, parts.size), parts, refusal)
}

/// The places of the parts of the record, for a struct of this size.
fn places_in(alloc: Global, bytes: &[u8], size: usize) -> Result<RecordPlaces, Failure>
    ensures found { IfOk result (λ places. TellsPlaces bytes.now size places) }
    ensures fault { IfErr result (λ failed. failed ≢ Failure.Memory → IsRecordFailure bytes.now failed) }
{
    let change = read_record(alloc, bytes)?;
    let machine_len = change.machine.as_bytes().len();
    let before_len = write_set(alloc, &change.before)?.len();
    let after_len = write_set(alloc, &change.after)?.len();
    let before = MACHINE_AT + machine_len + TIME_LEN;
    Ok(RecordPlaces {
        size,
        machine: MACHINE_AT,
        machine_len,
        time: change.time,
        before,
        before_len,
        after: before + before_len + LEN_LEN,
        after_len,
        words: change.words.len(),
    })
}

/// A word of the command of the record that the bytes are, by its number.
#[unsafe(no_mangle)]
pub extern "C" fn bootkeep_record_word(
    alloc: Global,
    bytes: &[u8],
    number: usize,
    out: &mut [u8],
    len: &mut usize,
    refusal: &mut Refusal,
) -> u32
    ensures { Finds (IsWordIn bytes.now number) (HasNoWord bytes.now number) (IsRecordFailure bytes.now)
        result out.old out.new len.old len.new refusal.old refusal.new }
{
    let found = word_in(alloc, bytes, number);
    answer_found(found, out, len, refusal)
}

/// The word of this number of a record, if there is one.
fn word_in(alloc: Global, bytes: &[u8], number: usize) -> Result<Option<Vec<u8>>, Failure>
    ensures found { IfOk result (λ found. IfSome found (λ word. IsWordIn bytes.now number word.items)) }
    ensures none { IfOk result (λ found. IfNone found (HasNoWord bytes.now number)) }
    ensures fault { IfErr result (λ failed. failed ≢ Failure.Memory → IsRecordFailure bytes.now failed) }
{
    let change = read_record(alloc, bytes)?;
    match change.words.get(number) {
        Some(word) => Ok(Some(Vec::from_slice(alloc, word.as_bytes())?)),
        None => Ok(None),
    }
}
